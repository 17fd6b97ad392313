// A folder's slots as a listing gives them, once the folder's record is known: from a slot on by its number, as many as there are and as the output
// takes, and none before all are known to be readable.
#![tactic(auto)]

mod slots;

ghost use Rattle.std.specs.Prelude.{◌≡◌, ◌+◌, ◌*◌, ◌-◌, ◌≤◌, length};
ghost use Rattle.base.specs.Told.{code};
ghost use Rattle.base.specs.Out.{answer};
ghost use Rattle.sefs.specs.Read.{list_to};
ghost use Rattle.chains.specs.Led.{Led};
ghost use Rattle.calls.specs.Answers.{listed_of, Laid, Lays};
ghost use Rattle.list_slots.specs.List.{list_ask, list_in};

use base::{Reason, least};
use calls::{long, readable};
use chains::slots::end_of;
use slots::{list_check, list_write};
use structs::DiskINode;

fn list_ask(rec: DiskINode, next: u64, room: usize) -> Result<(), Reason>
    ensures { code result ≡ answer (list_ask rec next room) }
{
    readable(rec)?;
    if (next < long(rec.blocks)) & (room < 264) {
        return Err(Reason::OutFull);
    }
    Ok(())
}

// How many slots there are from `next` on: none past the end.
fn slots_left(blocks: u64, next: u64) -> usize
    ensures { result ≡ blocks - next }
{
    if next < blocks {
        return (blocks - next) as usize;
    }
    0
}

// The n slots from `at` on go to the output's start, once they are known to be readable.
fn write_slots(
    arena: &[u8],
    first: &[u16],
    next: &[u16],
    slot: &mut [u8],
    rec: DiskINode,
    at: usize,
    n: usize,
    out: &mut [u8],
) -> Result<(), Reason>
    requires led { Led arena.now first.now next.now }
    requires slot_len { (length slot.old ≡ 264) × ((at + n ≤ 4294967295) × (264 * n ≤ length out.old)) }
    ensures { Laid (list_to arena.now rec at n) out.old out.new (264 * n) (code result) }
{
    let end = end_of(arena, first, next, rec);
    list_check(arena, first, next, slot, rec, end, at, n)?;
    list_write(arena, first, next, rec, end, at, n, out);
    Ok(())
}

fn read_slots(
    arena: &[u8],
    first: &[u16],
    next: &[u16],
    rec: DiskINode,
    at: usize,
    n: usize,
    out: &mut [u8],
) -> Result<(), Reason>
    requires led { Led arena.now first.now next.now }
    requires n_bound { (at + n ≤ 4294967295) × (264 * n ≤ length out.old) }
    ensures { Laid (list_to arena.now rec at n) out.old out.new (264 * n) (code result) }
{
    let mut slot = [0u8; 264];
    write_slots(arena, first, next, &mut slot, rec, at, n, out)
}

// No slot is read where there are none to list: `at` may be any number then.
fn list_some(
    arena: &[u8],
    first: &[u16],
    next: &[u16],
    rec: DiskINode,
    at: u64,
    n: usize,
    out: &mut [u8],
) -> Result<(), Reason>
    requires led { Led arena.now first.now next.now }
    requires n_bound { (n ≤ 4294967295 - at) × (264 * n ≤ length out.old) }
    ensures { Laid (list_to arena.now rec at n) out.old out.new (264 * n) (code result) }
{
    if n == 0 {
        return Ok(());
    }
    read_slots(arena, first, next, rec, at as usize, n, out)
}

pub fn list_in(
    arena: &[u8],
    first: &[u16],
    next: &[u16],
    rec: DiskINode,
    at: u64,
    out: &mut [u8],
) -> Result<usize, Reason>
    requires { Led arena.now first.now next.now }
    ensures { Lays listed_of (list_in arena.now rec at (length out.old)) out.old out.new result }
{
    let room = out.len();
    list_ask(rec, at, room)?;
    let left = slots_left(long(rec.blocks), at);
    let n = least(left, room / 264);
    list_some(arena, first, next, rec, at, n, out)?;
    Ok(n)
}
