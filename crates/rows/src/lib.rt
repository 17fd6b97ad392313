// Of the rows of the open nodes: which comes next, by rising id, and whether one is to be stored.
#![tactic(auto)]

ghost use Rattle.std.specs.Prelude.{◌≡◌, not, ◌&&◌, ◌<◌, ltb};
ghost use Rattle.base.specs.Search.{found_below};
ghost use Rattle.table.specs.Table.{row_at, next_row};
ghost use Rattle.mem.specs.Mem.{table_in, Whole};

use mem::{dirty_at, id_at, nlinks_at};

// The row with the lowest id above that one, or 34: `best` is it among the rows passed.
pub fn next_row(mem: &[u8], after: u32) -> usize
    requires { Whole mem.now }
    ensures { found_below result 34 ≡ next_row (table_in mem.now) after }
{
    let mut best: usize = 34;
    let mut least: u32 = 0;
    for i in 0..34 {
        let id = id_at(mem, i);
        if (after < id) & ((best == 34) | (id < least)) {
            best = i;
            least = id;
        }
    }
    best
}

// A clean row that has a link: nothing of it is to be stored.
pub fn is_stored(mem: &[u8], i: usize) -> bool
    requires { Whole mem.now × (i < 34) }
    ensures { result ≡ (not (row_at (table_in mem.now) i).dirty && ltb 0 (row_at (table_in mem.now) i).rec.nlinks) }
{
    !dirty_at(mem, i) & (0 < nlinks_at(mem, i))
}

// Whether letting go of row i stores anything: its last hold was closed, and it is dirty or has no link.
pub fn stores(mem: &[u8], last: bool, i: usize) -> bool
    requires { Whole mem.now × (i < 34) }
    ensures { result ≡ (last && not (not (row_at (table_in mem.now) i).dirty && ltb 0 (row_at (table_in mem.now) i).rec.nlinks)) }
{
    last & !is_stored(mem, i)
}
