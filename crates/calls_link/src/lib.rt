// The call link. It asks and reads by the chains of `sound`, decides its steps on a view of the arena, and commits once nothing can refuse it any more.
#![tactic(auto)]

ghost use Rattle.std.specs.Prelude.{◌<◌, ◌≤◌, length};
ghost use Rattle.std.specs.Result.{result_unwrap_or};
ghost use Rattle.base.specs.Told.{code};
ghost use Rattle.base.specs.Out.{Went};
ghost use Rattle.overlay.specs.View.{left, Empty};
ghost use Rattle.sefs.specs.Create.{call_link};
ghost use Rattle.chains.specs.Led.{Led};
ghost use Rattle.mem.specs.Mem.{table_in, Whole};
ghost use Rattle.mem.specs.State.{fs_of, Ready, Stepped, fs_at};
ghost use Rattle.calls.specs.Asked.{Admitted};
ghost use Rattle.steps.specs.Ends.{Rest, ending, Ended, Returned};
ghost use Rattle.calls_link.specs.Link.{link_ask, link_child, link_moves, link_work, Asked};

use base::Reason;
use calls::led::admit;
use calls::{Reply, known, live_folder, new_name, not_long, settle};
use folders::nlinks_inc;
use mem::{MEMORY, put_table, rec_at};
use steps::{append_named, no_slot, reach_two_read, sync_two};
use structs::DiskINode;
use table::{Handle, Table};

// ---- link: 5, 7, 8, 10, 12, 9 (child a folder), 15, then the steps: slot, child's record, folder's record

fn link_ask(rec: DiskINode, name: &[u8]) -> Result<(), Reason>
    ensures { Went (link_ask rec name.now) tt (length name.now ≤ 255) (code result) }
{
    new_name(name)?;
    live_folder(rec)?;
    not_long(name)
}

fn link_child(rec: DiskINode) -> Result<(), Reason>
    ensures { Went (link_child rec) tt Unit (code result) }
{
    known(rec)?;
    if rec.kind == 2 {
        return Err(Reason::IsDir);
    }
    if rec.nlinks < 65535 {
        return Ok(());
    }
    Err(Reason::TooManyLinks)
}

// What is asked once the handles are known.
fn link_asks(
    arena: &[u8],
    first: &[u16],
    next: &[u16],
    mem: &[u8],
    i: usize,
    name: &[u8],
    c: usize,
) -> Result<(), Reason>
    requires led { Led arena.now first.now next.now }
    requires whole { Whole mem.now × ((i < 34) × (c < 34)) }
    ensures { Rest (link_work (fs_at arena.now mem.now) i name.now c) (link_moves (fs_at arena.now mem.now) i name.now c) (length name.now ≤ 255) (code result) }
{
    let rec = rec_at(mem, i);
    link_ask(rec, name)?;
    no_slot(arena, first, next, rec, name)?;
    link_child(rec_at(mem, c))
}

// What follows the tests of arena and table, by the chains that they left.
pub fn link_led(
    arena: &[u8],
    first: &[u16],
    next: &[u16],
    mem: &mut [u8],
    who: u8,
    h: Handle,
    name: &[u8],
    child: Handle,
) -> Result<(usize, usize), Reason>
    requires { Admitted arena.now first.now next.now mem.old }
    ensures { Rest (call_link arena.now (table_in mem.old) who h name.now child) (ending (link_moves (fs_at arena.now mem.new) (result_unwrap_or result (0, 0)).0 name.now (result_unwrap_or result (0, 0)).1)) (Asked arena.now mem.new name.now (result_unwrap_or result (0, 0)).0 (result_unwrap_or result (0, 0)).1) (code result) }
{
    let (i, c) = reach_two_read(arena, first, next, mem, who, h, child)?;
    link_asks(arena, first, next, &mem[..], i, name, c)?;
    Ok((i, c))
}

// The frame of the chains is left before a workspace is made.
fn link_asked(
    arena: &[u8],
    mem: &mut [u8],
    who: u8,
    h: Handle,
    name: &[u8],
    child: Handle,
) -> Result<(usize, usize), Reason>
    requires { Whole mem.old }
    ensures { Rest (call_link arena.now (table_in mem.old) who h name.now child) (ending (link_moves (fs_at arena.now mem.new) (result_unwrap_or result (0, 0)).0 name.now (result_unwrap_or result (0, 0)).1)) (Asked arena.now mem.new name.now (result_unwrap_or result (0, 0)).0 (result_unwrap_or result (0, 0)).1) (code result) }
{
    let mut chains = [0u16; 8192];
    admit(arena, &mut chains, &mem[..])?;
    let c = &chains[..];
    link_led(arena, &c[..4096], &c[4096..8192], mem, who, h, name, child)
}

// ---- the steps

fn link_moves(
    arena: &[u8],
    work: &mut [u8],
    mem: &mut [u8],
    i: usize,
    name: &[u8],
    c: usize,
) -> Result<(), Reason>
    requires { Ready arena.now work.old mem.old × ((9 ≤ left work.old) × ((i < 34) × ((c < 34) × (length name.now ≤ 255)))) }
    ensures { Stepped (link_moves (fs_of arena.now work.old mem.old) i name.now c) arena.now work.old work.new mem.new 9 (code result) }
{
    let kind = rec_at(&mem[..], c).kind;
    append_named(arena, work, mem, i, c, name, kind)?;
    nlinks_inc(mem, c)?;
    sync_two(arena, work, mem, i, c)
}

// The workspace has no block yet.
fn link_in(
    arena: &mut [u8],
    work: &mut [u8],
    mem: &mut [u8],
    i: usize,
    name: &[u8],
    c: usize,
) -> Result<(), Reason>
    requires { Empty arena.old work.old 19 × (Whole mem.old × ((i < 34) × ((c < 34) × (length name.now ≤ 255)))) }
    ensures { Ended (ending (link_moves (fs_at arena.old mem.old) i name.now c)) arena.old arena.new (table_in mem.new) (code result) }
{
    link_moves(&arena[..], work, mem, i, name, c)?;
    overlay::commit(arena, &work[..]);
    Ok(())
}

// The workspace is made.
pub fn link_rows(
    arena: &mut [u8],
    mem: &mut [u8],
    i: usize,
    name: &[u8],
    c: usize,
) -> Result<(), Reason>
    requires { Asked arena.old mem.old name.now i c }
    ensures { Ended (ending (link_moves (fs_at arena.old mem.old) i name.now c)) arena.old arena.new (table_in mem.new) (code result) }
{
    let mut work = [0u8; 9728];
    overlay::begin(&mut work);
    link_in(arena, &mut work, mem, i, name, c)
}

// The call on the table in memory.
pub fn link_on(
    arena: &mut [u8],
    mem: &mut [u8],
    who: u8,
    h: Handle,
    name: &[u8],
    child: Handle,
) -> Result<(), Reason>
    requires { Whole mem.old }
    ensures { Ended (call_link arena.old (table_in mem.old) who h name.now child) arena.old arena.new (table_in mem.new) (code result) }
{
    let (i, c) = link_asked(&arena[..], mem, who, h, name, child)?;
    link_rows(arena, mem, i, name, c)
}

pub fn link(arena: &mut [u8], t: Table, who: u8, h: Handle, name: &[u8], child: Handle) -> Reply
    ensures { Returned t (call_link arena.old t who h name.now child) arena.old arena.new result }
{
    let mut mem = [0u8; MEMORY];
    put_table(&mut mem, t);
    let r = link_on(arena, &mut mem, who, h, name, child);
    settle(t, &mem, r)
}
