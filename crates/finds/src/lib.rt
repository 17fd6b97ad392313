// What find asks and looks at, and what it hands out: whether the name may be looked for in the folder, the id in its slot, and a hold on the
// node. A walk asks the same of each part.
#![tactic(auto)]

ghost use Rattle.std.specs.Prelude.{◌≡◌, ℕ, ◌<◌, length};
ghost use Rattle.std.specs.Result.{result_unwrap_or};
ghost use Rattle.base.specs.Told.{code};
ghost use Rattle.base.specs.Out.{Went, answer};
ghost use Rattle.table.specs.Table.{add_hold};
ghost use Rattle.sefs.specs.Ask.{start};
ghost use Rattle.sefs.specs.Open.{hold_node};
ghost use Rattle.chains.specs.Led.{Led};
ghost use Rattle.mem.specs.Mem.{table_in, Whole, memory_size};
ghost use Rattle.calls.specs.Answers.{added_as, no_handle};
ghost use Rattle.finds.specs.Parts.{not_orphan, find_name, find_folder, find_id};

use base::Reason;
use calls::{folder, hand, known, not_long};
use chains::slots::find_slot;
use le::u32_at;
use nodes_read::get_node;
use nodes_read::meta::load_meta;
use structs::DiskINode;
use table::Handle;
use verdicts::is_orphan;

// 8, for exactly `..`.
fn not_orphan(rec: DiskINode, name: &[u8]) -> Result<(), Reason>
    ensures { code result ≡ answer (not_orphan rec name.now) }
{
    if is_orphan(rec, name) {
        return Err(Reason::DirRemoved);
    }
    Ok(())
}

fn find_name(rec: DiskINode, name: &[u8]) -> Result<(), Reason>
    ensures { code result ≡ answer (find_name rec name.now) }
{
    not_long(name)?;
    not_orphan(rec, name)
}

pub fn find_folder(rec: DiskINode, name: &[u8]) -> Result<(), Reason>
    ensures { code result ≡ answer (find_folder rec name.now) }
{
    known(rec)?;
    folder(rec)?;
    find_name(rec, name)
}

fn id_in(
    arena: &[u8],
    first: &[u16],
    next: &[u16],
    slot: &mut [u8],
    rec: DiskINode,
    name: &[u8],
) -> Result<u32, Reason>
    requires led { Led arena.now first.now next.now }
    requires slot_len { length slot.old ≡ 264 }
    ensures { Went (find_id arena.now rec name.now) (result_unwrap_or result 0) Unit (code result) }
{
    find_slot(arena, first, next, rec, name, slot)?;
    Ok(u32_at(&slot[..], 0))
}

pub fn find_id(
    arena: &[u8],
    first: &[u16],
    next: &[u16],
    rec: DiskINode,
    name: &[u8],
) -> Result<u32, Reason>
    requires { Led arena.now first.now next.now }
    ensures { Went (find_id arena.now rec name.now) (result_unwrap_or result 0) Unit (code result) }
{
    let mut slot = [0u8; 264];
    id_in(arena, first, next, &mut slot, rec, name)
}

// Whoever has the hold then.
fn open_node(
    arena: &[u8],
    first: &[u16],
    next: &[u16],
    mem: &mut [u8],
    id: u32,
) -> Result<usize, Reason>
    requires led { Led arena.now first.now next.now }
    requires mem_len { length mem.old ≡ memory_size }
    ensures { (w : ℕ) → Went (hold_node (start arena.now (table_in mem.old)) w id) (add_hold (table_in mem.new) w (result_unwrap_or result 0)) (Whole mem.new × (result_unwrap_or result 0 < 34)) (code result) }
{
    load_meta(arena, first, next, mem);
    get_node(arena, first, next, mem, id)
}

pub fn hold_node(
    arena: &[u8],
    first: &[u16],
    next: &[u16],
    mem: &mut [u8],
    who: u8,
    id: u32,
) -> Result<Handle, Reason>
    requires led { Led arena.now first.now next.now }
    requires mem_len { length mem.old ≡ memory_size }
    ensures { Went (hold_node (start arena.now (table_in mem.old)) who id) (added_as (result_unwrap_or result no_handle) (table_in mem.new)) Unit (code result) }
{
    let o = open_node(arena, first, next, mem, id);
    hand(mem, who, o)
}
