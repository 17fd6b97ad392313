// A folder's slots, as the listing reads them: all are known to be readable before one is written. `end` is the end of the folder's file.
ghost use Rattle.std.specs.Prelude.{◌≡◌, ◌+◌, ◌*◌, ◌≤◌, length};
ghost use Rattle.base.specs.Told.{code};
ghost use Rattle.base.specs.Out.{Went, done};
ghost use Rattle.sefs.specs.Nodes.{node_file};
ghost use Rattle.sefs.specs.Read.{list_slot, list_to};
ghost use Rattle.chains.specs.Led.{Led, end_of};
ghost use Rattle.calls.specs.Answers.{Laid};
ghost use Rattle.list_slots.specs.List.{whether};

use base::Reason;
use chains::slots::{named_slot, slot_bytes};
use le::u32_at;
use structs::DiskINode;

// Type 0 sticks where 000 lists.
fn list_slot(
    arena: &[u8],
    first: &[u16],
    next: &[u16],
    rec: DiskINode,
    end: usize,
    k: usize,
    slot: &mut [u8],
) -> Result<(), Reason>
    requires led { Led arena.now first.now next.now }
    requires end_value { (end ≡ end_of arena.now (node_file rec)) × ((end ≤ 4294967296) × ((k ≤ 4294967295) × (length slot.old ≡ 264))) }
    ensures { Went (list_slot arena.now rec k) slot.new (length slot.new ≡ 264) (code result) }
{
    named_slot(arena, first, next, rec, end, k, slot)?;
    if u32_at(&slot[..], 260) == 0 {
        return Err(Reason::Stuck);
    }
    Ok(())
}

// Whether the n slots from `at` on can be listed.
pub fn list_check(
    arena: &[u8],
    first: &[u16],
    next: &[u16],
    slot: &mut [u8],
    rec: DiskINode,
    end: usize,
    at: usize,
    n: usize,
) -> Result<(), Reason>
    requires led { Led arena.now first.now next.now }
    requires end_value { (end ≡ end_of arena.now (node_file rec)) × ((end ≤ 4294967296) × ((at + n ≤ 4294967295) × (length slot.old ≡ 264))) }
    ensures { Went (whether (list_to arena.now rec at n)) tt Unit (code result) }
{
    for k in 0..n {
        list_slot(arena, first, next, rec, end, at + k, slot)?;
    }
    Ok(())
}

// They go to the output's start.
pub fn list_write(
    arena: &[u8],
    first: &[u16],
    next: &[u16],
    rec: DiskINode,
    end: usize,
    at: usize,
    n: usize,
    out: &mut [u8],
)
    requires led { Led arena.now first.now next.now }
    requires end_value { (end ≡ end_of arena.now (node_file rec)) × ((end ≤ 4294967296) × ((at + n ≤ 4294967295) × (264 * n ≤ length out.old))) }
    requires n_value { whether (list_to arena.now rec at n) ≡ done tt }
    ensures { Laid (list_to arena.now rec at n) out.old out.new (264 * n) 0 }
{
    for k in 0..n {
        let o = 264 * k;
        let _ = slot_bytes(arena, first, next, rec, end, at + k, &mut out[o..o + 264]);
    }
}
