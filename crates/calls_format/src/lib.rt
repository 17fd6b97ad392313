// The call format (000's SEFS::create). It decides on a view of the arena, and commits once nothing can refuse it any more.
#![tactic(auto)]

ghost use Rattle.std.specs.Prelude.{◌≡◌, true, List, ℕ, ◌<◌, ◌≤◌, length};
ghost use Rattle.base.specs.Told.{code};
ghost use Rattle.base.specs.Out.{Went};
ghost use Rattle.table.specs.Table.{empty_table};
ghost use Rattle.arena.specs.Blocks.{legal};
ghost use Rattle.overlay.specs.View.{view, left, Fine, Empty};
ghost use Rattle.overlay.specs.Steps.{Did};
ghost use Rattle.sefs.specs.Create.{call_format};
ghost use Rattle.mem.specs.Mem.{Whole};
ghost use Rattle.mem.specs.State.{fs_of, Ready, Stepped};
ghost use Rattle.steps.specs.Ends.{Ended, Returned};
ghost use Rattle.calls_format.specs.Format.{make_meta, name_twice, sync_both, fill_root, format_work, cleared, formatted, emptied};

use base::Reason;
use calls::{Reply, done, refused};
use clears::clear_all;
use files::store::{cut, make};
use folders::{dirent_init, nlinks_inc};
use mem::{MEMORY, fresh_meta, id_at, put_empty};
use nodes::meta::sync_meta;
use nodes::{new_node, sync_row};
use structs::Timespec;

// The metadata file, as long as one group.
fn make_meta(arena: &[u8], work: &mut [u8]) -> Result<(), Reason>
    requires { Fine arena.now work.old × (3 ≤ left work.old) }
    ensures { Did (make_meta (view arena.now work.old)) arena.now work.old work.new 3 (code result) }
{
    let meta = [0u8; 16];
    make(arena, work, 0, &meta)?;
    cut(arena, work, 0, &meta, 131072)
}

// A folder's own `.`, and the `..` that names it.
fn name_twice(mem: &mut [u8], i: usize) -> Result<(), Reason>
    requires { Whole mem.old × (i < 34) }
    ensures { (a w : List ℕ) → Went (name_twice (fs_of a w mem.old) i) (fs_of a w mem.new) (Whole mem.new) (code result) }
{
    nlinks_inc(mem, i)?;
    nlinks_inc(mem, i)
}

fn sync_both(arena: &[u8], work: &mut [u8], mem: &mut [u8], i: usize) -> Result<(), Reason>
    requires { Ready arena.now work.old mem.old × ((13 ≤ left work.old) × (i < 34)) }
    ensures { Stepped (sync_both (fs_of arena.now work.old mem.old) i) arena.now work.old work.new mem.new 13 (code result) }
{
    sync_meta(arena, work, &mem[..])?;
    sync_row(arena, work, mem, i)
}

// The root is its own parent.
fn fill_root(arena: &[u8], work: &mut [u8], mem: &mut [u8], i: usize) -> Result<(), Reason>
    requires { Ready arena.now work.old mem.old × ((19 ≤ left work.old) × (i < 34)) }
    ensures { Stepped (fill_root (fs_of arena.now work.old mem.old) i) arena.now work.old work.new mem.new 19 (code result) }
{
    let id = id_at(&mem[..], i);
    dirent_init(arena, work, mem, i, id)?;
    name_twice(mem, i)?;
    sync_both(arena, work, mem, i)
}

fn format_work(
    arena: &[u8],
    work: &mut [u8],
    mem: &mut [u8],
    time: Timespec,
    file: [u8; 16],
) -> Result<(), Reason>
    requires { Ready arena.now work.old mem.old × (25 ≤ left work.old) }
    ensures { Stepped (format_work (fs_of arena.now work.old mem.old) time file) arena.now work.old work.new mem.new 25 (code result) }
{
    make_meta(arena, work)?;
    let row = new_node(arena, work, mem, 2, 493, time, file)?;
    fill_root(arena, work, mem, row)
}

// The workspace has no block yet. The steps start from what memory has, on an arena of zeros.
fn format_in(
    arena: &mut [u8],
    work: &mut [u8],
    mem: &mut [u8],
    time: Timespec,
    file: [u8; 16],
) -> Result<(), Reason>
    requires { Empty arena.old work.old 35 × Whole mem.old }
    ensures { Ended (emptied (format_work (cleared arena.old mem.old) time file)) arena.old arena.new empty_table (code result) }
{
    clear_all(&arena[..], work);
    format_work(&arena[..], work, mem, time, file)?;
    overlay::commit(arena, &work[..]);
    Ok(())
}

// The workspace is made.
fn format_over(
    arena: &mut [u8],
    mem: &mut [u8],
    time: Timespec,
    file: [u8; 16],
) -> Result<(), Reason>
    requires { (legal arena.old ≡ true) × Whole mem.old }
    ensures { Ended (emptied (format_work (cleared arena.old mem.old) time file)) arena.old arena.new empty_table (code result) }
{
    let mut work = [0u8; 17920];
    overlay::begin(&mut work);
    format_in(arena, &mut work, mem, time, file)
}

// Memory is made: no row in use, and one group of ids.
fn format_fresh(arena: &mut [u8], time: Timespec, file: [u8; 16]) -> Result<(), Reason>
    requires { legal arena.old ≡ true }
    ensures { Ended (formatted (call_format arena.old time file)) arena.old arena.new empty_table (code result) }
{
    let mut mem = [0u8; MEMORY];
    put_empty(&mut mem);
    fresh_meta(&mut mem);
    format_over(arena, &mut mem, time, file)
}

// The call but for the table that it leaves, the empty one.
pub fn format_on(arena: &mut [u8], time: Timespec, file: [u8; 16]) -> Result<(), Reason>
    ensures { Ended (formatted (call_format arena.old time file)) arena.old arena.new empty_table (code result) }
{
    if !arena::legal(&arena[..]) {
        return Err(Reason::BadArena);
    }
    format_fresh(arena, time, file)
}

pub fn format(arena: &mut [u8], time: Timespec, file: [u8; 16]) -> Reply
    ensures { Returned empty_table (formatted (call_format arena.old time file)) arena.old arena.new result }
{
    let t = table::empty();
    match format_on(arena, time, file) {
        Ok(()) => done(t),
        Err(reason) => refused(t, reason),
    }
}
