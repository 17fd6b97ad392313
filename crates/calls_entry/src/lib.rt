// The call get entry: a folder's slot, as it is stored. It changes no byte of the arena, and reads it by the chains of `sound`.
#![tactic(auto)]

ghost use Rattle.std.specs.Prelude.{◌≡◌, ◌≤◌, length};
ghost use Rattle.base.specs.Told.{code};
ghost use Rattle.base.specs.Out.{answer};
ghost use Rattle.sefs.specs.Read.{call_entry, named_slot};
ghost use Rattle.chains.specs.Led.{Led};
ghost use Rattle.mem.specs.Mem.{table_in, Whole};
ghost use Rattle.calls.specs.Answers.{answer_of, Laid, Lays};
ghost use Rattle.calls.specs.Asked.{Admitted};
ghost use Rattle.calls_entry.specs.Entry.{entry_ask, entry_in};

use base::{Reason, copy};
use calls::led::admit;
use calls::{by_handle, long, readable};
use chains::slots::{end_of, named_slot};
use mem::{MEMORY, put_table, rec_at};
use structs::DiskINode;
use table::{Handle, Table};

fn entry_ask(rec: DiskINode, k: u64, room: usize) -> Result<(), Reason>
    ensures { code result ≡ answer (entry_ask rec k room) }
{
    readable(rec)?;
    if k >= long(rec.blocks) {
        return Err(Reason::EntryNotFound);
    }
    if room < 264 {
        return Err(Reason::OutFull);
    }
    Ok(())
}

// Slot k goes to the output's start, once it is known to be readable.
fn write_entry(
    arena: &[u8],
    first: &[u16],
    next: &[u16],
    slot: &mut [u8],
    rec: DiskINode,
    k: usize,
    out: &mut [u8],
) -> Result<(), Reason>
    requires led { Led arena.now first.now next.now }
    requires slot_len { (length slot.old ≡ 264) × ((k ≤ 4294967295) × (264 ≤ length out.old)) }
    ensures { Laid (named_slot arena.now rec k) out.old out.new 264 (code result) }
{
    let end = end_of(arena, first, next, rec);
    named_slot(arena, first, next, rec, end, k, slot)?;
    copy(&mut out[..264], &slot[..]);
    Ok(())
}

fn read_entry(
    arena: &[u8],
    first: &[u16],
    next: &[u16],
    rec: DiskINode,
    k: usize,
    out: &mut [u8],
) -> Result<(), Reason>
    requires led { Led arena.now first.now next.now }
    requires k_bound { (k ≤ 4294967295) × (264 ≤ length out.old) }
    ensures { Laid (named_slot arena.now rec k) out.old out.new 264 (code result) }
{
    let mut slot = [0u8; 264];
    write_entry(arena, first, next, &mut slot, rec, k, out)
}

fn entry_in(
    arena: &[u8],
    first: &[u16],
    next: &[u16],
    rec: DiskINode,
    k: u64,
    out: &mut [u8],
) -> Result<(), Reason>
    requires { Led arena.now first.now next.now }
    ensures { Laid (entry_in arena.now rec k (length out.old)) out.old out.new 264 (code result) }
{
    entry_ask(rec, k, out.len())?;
    read_entry(arena, first, next, rec, k as usize, out)
}

// What follows the tests of arena and table, by the chains that they left.
pub fn entry_led(
    arena: &[u8],
    first: &[u16],
    next: &[u16],
    mem: &[u8],
    who: u8,
    h: Handle,
    k: u64,
    out: &mut [u8],
) -> Result<(), Reason>
    requires { Admitted arena.now first.now next.now mem.now }
    ensures { Laid (call_entry arena.now (table_in mem.now) who h k (length out.old)) out.old out.new 264 (code result) }
{
    let row = by_handle(mem, who, h)?;
    let rec = rec_at(mem, row);
    entry_in(arena, first, next, rec, k, out)
}

// The call on the table in memory.
pub fn entry_on(
    arena: &[u8],
    mem: &[u8],
    who: u8,
    h: Handle,
    k: u64,
    out: &mut [u8],
) -> Result<(), Reason>
    requires { Whole mem.now }
    ensures { Lays answer_of (call_entry arena.now (table_in mem.now) who h k (length out.old)) out.old out.new result }
{
    let mut chains = [0u16; 8192];
    admit(arena, &mut chains, mem)?;
    let c = &chains[..];
    entry_led(arena, &c[..4096], &c[4096..8192], mem, who, h, k, out)
}

pub fn get_entry(
    arena: &[u8],
    t: Table,
    who: u8,
    h: Handle,
    k: u64,
    out: &mut [u8],
) -> Result<(), Reason>
    ensures { Lays answer_of (call_entry arena.now t who h k (length out.old)) out.old out.new result }
{
    let mut mem = [0u8; MEMORY];
    put_table(&mut mem, t);
    entry_on(arena, &mem, who, h, k, out)
}
