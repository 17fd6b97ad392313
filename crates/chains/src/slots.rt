// A folder's slots, read (000's read_direntry and the lookups). A slot's 264 bytes go to a buffer that the caller lends. `end` is the end of
// the folder's file: one more than its length, or 0.
ghost use Rattle.std.specs.Prelude.{◌≡◌, ◌*◌, ◌<◌, ◌≤◌, length};
ghost use Rattle.std.specs.Result.{result_unwrap_or};
ghost use Rattle.base.specs.Told.{code};
ghost use Rattle.base.specs.Out.{Went, done};
ghost use Rattle.base.specs.Parts.{tab};
ghost use Rattle.structs.specs.Layout.{entry_of};
ghost use Rattle.utf8.specs.Names.{stored_name};
ghost use Rattle.files.specs.Read.{byte_at};
ghost use Rattle.sefs.specs.Nodes.{node_file};
ghost use Rattle.sefs.specs.Slots.{slot_bytes, is_ended, slot_at, look_to, find_slot};
ghost use Rattle.sefs.specs.Read.{named_slot};
ghost use Rattle.chains.specs.Led.{Led, end_of};

use crate::{length_of, read_below, read_run};
use base::{Reason, index};
use le::u32_at;
use structs::DiskINode;
use utf8::{StoredName, is_named, stored_name};

// Slot k of a folder whose length is known to hold it.
pub fn read_slot(
    arena: &[u8],
    first: &[u16],
    next: &[u16],
    rec: DiskINode,
    k: usize,
    slot: &mut [u8],
)
    requires led { Led arena.now first.now next.now }
    requires k_bound { (k < 4294967296) × (length slot.old ≡ 264) }
    ensures { slot.new ≡ tab (byte_at arena.now (node_file rec)) (264 * k) 264 }
{
    let file = rec.file;
    read_run(arena, first, next, 1, &file, 264 * k, slot);
}

pub fn end_of(arena: &[u8], first: &[u16], next: &[u16], rec: DiskINode) -> usize
    requires { Led arena.now first.now next.now }
    ensures { (result ≡ end_of arena.now (node_file rec)) × (result ≤ 4294967296) }
{
    let file = rec.file;
    length_of(arena, first, next, 1, &file)
}

// The 264 bytes of slot k. A type above 4 sticks, whoever reads it.
pub fn slot_bytes(
    arena: &[u8],
    first: &[u16],
    next: &[u16],
    rec: DiskINode,
    end: usize,
    k: usize,
    slot: &mut [u8],
) -> Result<(), Reason>
    requires led { Led arena.now first.now next.now }
    requires end_value { (end ≡ end_of arena.now (node_file rec)) × ((end ≤ 4294967296) × ((k ≤ 4294967295) × (length slot.old ≡ 264))) }
    ensures { Went (slot_bytes arena.now rec k) slot.new (length slot.new ≡ 264) (code result) }
{
    let file = rec.file;
    read_below(arena, first, next, 1, &file, end, 264 * k, slot)?;
    if u32_at(&slot[..], 260) > 4 {
        return Err(Reason::Stuck);
    }
    Ok(())
}

// Whether a name is ended and is UTF-8.
pub fn is_ended(name: &[u8]) -> bool
    ensures { result ≡ is_ended (stored_name name.now) }
{
    let s = stored_name(name);
    match s {
        StoredName::Ended(_) => true,
        StoredName::Broken => false,
    }
}

// Slot k, where its name is looked at: one with no zero or not UTF-8 sticks.
pub fn named_slot(
    arena: &[u8],
    first: &[u16],
    next: &[u16],
    rec: DiskINode,
    end: usize,
    k: usize,
    slot: &mut [u8],
) -> Result<(), Reason>
    requires led { Led arena.now first.now next.now }
    requires end_value { (end ≡ end_of arena.now (node_file rec)) × ((end ≤ 4294967296) × ((k ≤ 4294967295) × (length slot.old ≡ 264))) }
    ensures { Went (named_slot arena.now rec k) slot.new (length slot.new ≡ 264) (code result) }
{
    slot_bytes(arena, first, next, rec, end, k, slot)?;
    if is_ended(&slot[4..260]) {
        return Ok(());
    }
    Err(Reason::Stuck)
}

// The first slot with that name, or the count of slots where there is none; the empty name means `.`. Slots after it are not read.
pub fn lookup(
    arena: &[u8],
    first: &[u16],
    next: &[u16],
    rec: DiskINode,
    name: &[u8],
    slot: &mut [u8],
) -> Result<usize, Reason>
    requires led { Led arena.now first.now next.now }
    requires slot_len { length slot.old ≡ 264 }
    ensures { Went (look_to arena.now rec name.now rec.blocks) (result_unwrap_or result 0) ((result_unwrap_or result 0 < rec.blocks → slot_at arena.now rec (result_unwrap_or result 0) ≡ done (entry_of slot.new)) × (result_unwrap_or result 0 ≤ rec.blocks)) (code result) }
{
    let end = end_of(arena, first, next, rec);
    let n = index(rec.blocks);
    for k in 0..n {
        named_slot(arena, first, next, rec, end, k, slot)?;
        if is_named(&slot[4..260], name) {
            return Ok(k);
        }
    }
    Ok(n)
}

// The first slot with that name; 11 where there is none.
pub fn find_slot(
    arena: &[u8],
    first: &[u16],
    next: &[u16],
    rec: DiskINode,
    name: &[u8],
    slot: &mut [u8],
) -> Result<usize, Reason>
    requires led { Led arena.now first.now next.now }
    requires slot_len { length slot.old ≡ 264 }
    ensures { Went (find_slot arena.now rec name.now) (record { place = (result_unwrap_or result 0); entry = entry_of slot.new }) (result_unwrap_or result 0 < rec.blocks) (code result) }
{
    let place = lookup(arena, first, next, rec, name, slot)?;
    if place < index(rec.blocks) {
        return Ok(place);
    }
    Err(Reason::EntryNotFound)
}
