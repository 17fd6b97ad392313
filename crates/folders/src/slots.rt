// A folder's slots, read after a store (000's read_direntry and the lookups). The folder is a row of the open nodes, and its record is looked at where
// it stands in memory; a slot's 264 bytes go to a buffer that the caller lends.
ghost use Rattle.std.specs.Prelude.{◌≡◌, ◌<◌, ◌≤◌, length};
ghost use Rattle.std.specs.Result.{result_unwrap_or};
ghost use Rattle.base.specs.Told.{code};
ghost use Rattle.base.specs.Out.{Went, done};
ghost use Rattle.structs.specs.Layout.{entry_of};
ghost use Rattle.overlay.specs.View.{view};
ghost use Rattle.table.specs.Table.{row_at};
ghost use Rattle.sefs.specs.Slots.{slot_bytes, slot_at, look_to, find_slot};
ghost use Rattle.mem.specs.Mem.{table_in};
ghost use Rattle.mem.specs.State.{Ready};

use base::{Reason, index};
use chains::slots::is_ended;
use files::read::read;
use le::u32_at;
use mem::{blocks_at, file_at};
use utf8::is_named;

// The 264 bytes of slot k. A type above 4 sticks, whoever reads it.
pub fn slot_bytes<'a>(
    arena: &'a [u8],
    work: &'a [u8],
    mem: &[u8],
    i: usize,
    k: usize,
    slot: &mut [u8],
) -> Result<(), Reason>
    requires { Ready arena.now work.now mem.now × ((i < 34) × ((k ≤ 4294967295) × (length slot.old ≡ 264))) }
    ensures { Went (slot_bytes (view arena.now work.now) (row_at (table_in mem.now) i).rec k) slot.new (length slot.new ≡ 264) (code result) }
{
    read(arena, work, 1, file_at(mem, i), 264 * k, slot)?;
    if u32_at(&slot[..], 260) > 4 {
        return Err(Reason::Stuck);
    }
    Ok(())
}

// Slot k, where its name is looked at: one with no zero or not UTF-8 sticks.
pub fn slot_at<'a>(
    arena: &'a [u8],
    work: &'a [u8],
    mem: &[u8],
    i: usize,
    k: usize,
    slot: &mut [u8],
) -> Result<(), Reason>
    requires { Ready arena.now work.now mem.now × ((i < 34) × ((k ≤ 4294967295) × (length slot.old ≡ 264))) }
    ensures { Went (slot_at (view arena.now work.now) (row_at (table_in mem.now) i).rec k) (entry_of slot.new) (length slot.new ≡ 264) (code result) }
{
    slot_bytes(arena, work, mem, i, k, slot)?;
    if is_ended(&slot[4..260]) {
        return Ok(());
    }
    Err(Reason::Stuck)
}

// The first slot with that name, or the count of slots where there is none; the empty name means `.`. Slots after it are not read.
pub fn lookup<'a>(
    arena: &'a [u8],
    work: &'a [u8],
    mem: &[u8],
    i: usize,
    name: &[u8],
    slot: &mut [u8],
) -> Result<usize, Reason>
    requires { Ready arena.now work.now mem.now × ((i < 34) × (length slot.old ≡ 264)) }
    ensures { Went (look_to (view arena.now work.now) (row_at (table_in mem.now) i).rec name.now (row_at (table_in mem.now) i).rec.blocks) (result_unwrap_or result 0) ((result_unwrap_or result 0 < (row_at (table_in mem.now) i).rec.blocks → slot_at (view arena.now work.now) (row_at (table_in mem.now) i).rec (result_unwrap_or result 0) ≡ done (entry_of slot.new)) × (result_unwrap_or result 0 ≤ (row_at (table_in mem.now) i).rec.blocks)) (code result) }
{
    let n = index(blocks_at(mem, i));
    for k in 0..n {
        slot_at(arena, work, mem, i, k, slot)?;
        if is_named(&slot[4..260], name) {
            return Ok(k);
        }
    }
    Ok(n)
}

// The first slot with that name; 11 where there is none.
pub fn find_slot<'a>(
    arena: &'a [u8],
    work: &'a [u8],
    mem: &[u8],
    i: usize,
    name: &[u8],
    slot: &mut [u8],
) -> Result<usize, Reason>
    requires { Ready arena.now work.now mem.now × ((i < 34) × (length slot.old ≡ 264)) }
    ensures { Went (find_slot (view arena.now work.now) (row_at (table_in mem.now) i).rec name.now) (record { place = (result_unwrap_or result 0); entry = entry_of slot.new }) (result_unwrap_or result 0 < (row_at (table_in mem.now) i).rec.blocks) (code result) }
{
    let place = lookup(arena, work, mem, i, name, slot)?;
    if place < index(blocks_at(mem, i)) {
        return Ok(place);
    }
    Err(Reason::EntryNotFound)
}
