// The call write: the bytes go into the node's file, and where their end is above the size, length and size become it. It is decided by
// counting before any store: where each touched block is stands in a plan, and the absent ones are counted against the free ones. Then each
// block is written once, on the arena itself.
#![tactic(auto)]

ghost use Rattle.std.specs.Prelude.{◌≡◌, true, List, ℕ, ◌+◌, ◌≤◌, length};
ghost use Rattle.std.specs.Result.{result_unwrap_or};
ghost use Rattle.base.specs.Told.{code};
ghost use Rattle.base.specs.Out.{done};
ghost use Rattle.arena.specs.Fields.{file};
ghost use Rattle.arena.specs.Places.{head_of};
ghost use Rattle.table.specs.Table.{row_at};
ghost use Rattle.files.specs.Read.{there};
ghost use Rattle.files.specs.Store.{put_file};
ghost use Rattle.sefs.specs.Nodes.{node_file};
ghost use Rattle.sefs.specs.Ask.{start};
ghost use Rattle.sefs.specs.Contents.{write_steps, call_write};
ghost use Rattle.mem.specs.Mem.{table_in, Whole};
ghost use Rattle.calls.specs.Asked.{Admitted};
ghost use Rattle.steps.specs.Ends.{Rest, ending, Ended, Returned};
ghost use Rattle.sizes.specs.Sizes.{no_sizing, Reached};
ghost use Rattle.plans.specs.Plan.{Planned};

use base::{Reason, index16};
use calls::led::admit;
use calls::{Reply, settle};
use inplace::raise;
use mem::{MEMORY, put_table, rec_at};
use plans::{decide, put_block, touched};
use sizes::{Sizing, reach_file, set_size};
use table::{Handle, Table};

// ---- before any store

// What follows the tests of arena and table, by the chains that they left: nothing refuses the call after it.
pub fn write_led(
    arena: &[u8],
    first: &[u16],
    next: &[u16],
    mem: &[u8],
    who: u8,
    h: Handle,
    place: u64,
    n: usize,
    plan: &mut [u16],
) -> Result<Sizing, Reason>
    requires admitted { Admitted arena.now first.now next.now mem.now }
    requires plan_len { length plan.old ≡ 4096 }
    ensures { (src : List ℕ) → length src ≡ n → Rest (call_write arena.now (table_in mem.now) who h place src) (ending (write_steps (start arena.now (table_in mem.now)) (result_unwrap_or result no_sizing).row place src)) (Reached arena.now (table_in mem.now) (result_unwrap_or result no_sizing).row (result_unwrap_or result no_sizing).head (place + n) × Planned arena.now (node_file (row_at (table_in mem.now) (result_unwrap_or result no_sizing).row).rec) place n plan.new) (code result) }
{
    let s = reach_file(arena, first, next, mem, who, h, place, n as u64)?;
    let rec = rec_at(mem, s.row);
    let name = rec.file;
    decide(arena, first, next, 1, &name, place as usize, n, plan)?;
    Ok(s)
}

// ---- the stores

// All of src, by the plan, into the file whose head is block k: the length first, then the blocks in rising order.
fn put_blocks(arena: &mut [u8], k: usize, name: &[u8; 16], pos: usize, src: &[u8], plan: &[u16])
    requires src_bound { (pos + length src.now ≤ 4294967295) × ((there arena.old (file 1 name.now) ≡ true) × (k ≡ head_of arena.old (file 1 name.now))) }
    requires planned { Planned arena.old (file 1 name.now) pos (length src.now) plan.now }
    ensures { put_file arena.old (file 1 name.now) pos src.now ≡ done arena.new }
{
    let n = touched(pos, src.len());
    raise(arena, k, (pos + src.len()) as u32);
    let q = pos / 480;
    let mut from: usize = 0;
    for i in 0..n {
        from = put_block(arena, 1, name, pos, src, q + i, index16(plan[i]), from);
    }
}

// The node of row i, whose file's head is block k. Where the end is not above the size, the record stays.
pub fn write_row(
    arena: &mut [u8],
    mem: &mut [u8],
    i: usize,
    k: usize,
    pos: usize,
    src: &[u8],
    plan: &[u16],
)
    requires { Whole mem.old × (Reached arena.old (table_in mem.old) i k (pos + length src.now) × Planned arena.old (node_file (row_at (table_in mem.old) i).rec) pos (length src.now) plan.now) }
    ensures { Ended (ending (write_steps (start arena.old (table_in mem.old)) i pos src.now)) arena.old arena.new (table_in mem.new) 0 }
{
    let rec = rec_at(&mem[..], i);
    let name = rec.file;
    put_blocks(arena, k, &name, pos, src, plan);
    let end = pos + src.len();
    if end as u64 <= rec.size {
        return;
    }
    set_size(arena, mem, i, k, end);
}

// ---- the call

// The frame of the chains is left before the stores.
fn write_asked(
    arena: &[u8],
    mem: &[u8],
    who: u8,
    h: Handle,
    place: u64,
    n: usize,
    plan: &mut [u16],
) -> Result<Sizing, Reason>
    requires { Whole mem.now × (length plan.old ≡ 4096) }
    ensures { (src : List ℕ) → length src ≡ n → Rest (call_write arena.now (table_in mem.now) who h place src) (ending (write_steps (start arena.now (table_in mem.now)) (result_unwrap_or result no_sizing).row place src)) (Reached arena.now (table_in mem.now) (result_unwrap_or result no_sizing).row (result_unwrap_or result no_sizing).head (place + n) × Planned arena.now (node_file (row_at (table_in mem.now) (result_unwrap_or result no_sizing).row).rec) place n plan.new) (code result) }
{
    let mut chains = [0u16; 8192];
    admit(arena, &mut chains, mem)?;
    let c = &chains[..];
    write_led(
        arena,
        &c[..4096],
        &c[4096..8192],
        mem,
        who,
        h,
        place,
        n,
        plan,
    )
}

fn write_in(
    arena: &mut [u8],
    mem: &mut [u8],
    who: u8,
    h: Handle,
    place: u64,
    src: &[u8],
    plan: &mut [u16],
) -> Result<(), Reason>
    requires { Whole mem.old × (length plan.old ≡ 4096) }
    ensures { Ended (call_write arena.old (table_in mem.old) who h place src.now) arena.old arena.new (table_in mem.new) (code result) }
{
    let s = write_asked(&arena[..], &mem[..], who, h, place, src.len(), plan)?;
    write_row(arena, mem, s.row, s.head, place as usize, src, &plan[..]);
    Ok(())
}

// The call on the table in memory.
pub fn write_on(
    arena: &mut [u8],
    mem: &mut [u8],
    who: u8,
    h: Handle,
    place: u64,
    src: &[u8],
) -> Result<(), Reason>
    requires { Whole mem.old }
    ensures { Ended (call_write arena.old (table_in mem.old) who h place src.now) arena.old arena.new (table_in mem.new) (code result) }
{
    let mut plan = [0u16; 4096];
    write_in(arena, mem, who, h, place, src, &mut plan)
}

pub fn write(arena: &mut [u8], t: Table, who: u8, h: Handle, place: u64, src: &[u8]) -> Reply
    ensures { Returned t (call_write arena.old t who h place src.now) arena.old arena.new result }
{
    let mut mem = [0u8; MEMORY];
    put_table(&mut mem, t);
    let r = write_on(arena, &mut mem, who, h, place, src);
    settle(t, &mem, r)
}
