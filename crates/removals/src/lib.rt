// What a removal asks of folder, name and node, and what it picks before any store. `folder` says which of the two calls asks.
#![tactic(auto)]

ghost use Rattle.std.specs.Prelude.{◌≡◌, ◌<◌};
ghost use Rattle.std.specs.Result.{result_unwrap_or};
ghost use Rattle.base.specs.Told.{code};
ghost use Rattle.table.specs.Table.{row_at};
ghost use Rattle.base.specs.Out.{answer};
ghost use Rattle.sefs.specs.Remove.{empty_folder, removable};
ghost use Rattle.chains.specs.Led.{Led};
ghost use Rattle.mem.specs.Mem.{table_in, Whole};
ghost use Rattle.mem.specs.State.{fs_at};
ghost use Rattle.steps.specs.Ends.{Rest};
ghost use Rattle.removals.specs.Picks.{no_picked};
ghost use Rattle.removals.specs.Removals.{name_asks, remove_asks, remove_node, remove_id};

use base::Reason;
use calls::{good_name, live_folder, not_long, not_special};
use mem::{blocks_at, kind_at};
use nodes_read::get_node;
use structs::DiskINode;

fn ask_name(name: &[u8]) -> Result<(), Reason>
    ensures { code result ≡ answer (name_asks name.now) }
{
    not_special(name)?;
    not_long(name)
}

pub fn remove_ask(rec: DiskINode, name: &[u8]) -> Result<(), Reason>
    ensures { code result ≡ answer (remove_asks rec name.now) }
{
    good_name(name)?;
    live_folder(rec)?;
    ask_name(name)
}

// A folder with at least 2 slots, and here no more.
fn empty_folder(mem: &[u8], i: usize) -> Result<(), Reason>
    requires { Whole mem.now × (i < 34) }
    ensures { code result ≡ answer (empty_folder (row_at (table_in mem.now) i).rec) }
{
    let kind = kind_at(mem, i);
    if kind != 2 {
        return Err(Reason::NotDir);
    }
    let total = blocks_at(mem, i);
    if total < 2 {
        return Err(Reason::Stuck);
    }
    if total > 2 {
        return Err(Reason::DirNotEmpty);
    }
    Ok(())
}

// The one place where the two calls differ.
fn ask_node(mem: &[u8], i: usize, folder: bool) -> Result<(), Reason>
    requires { Whole mem.now × (i < 34) }
    ensures { code result ≡ answer (removable folder (row_at (table_in mem.now) i).rec) }
{
    let kind = kind_at(mem, i);
    if kind > 4 {
        return Err(Reason::Stuck);
    }
    if folder {
        return empty_folder(mem, i);
    }
    if kind == 2 {
        return Err(Reason::IsDir);
    }
    Ok(())
}

// What is found before the first store: the folder's row, the node's, and the place of the slot that names it.
#[derive(Clone, Copy)]
pub struct Picked {
    pub row: usize,
    pub node: usize,
    pub place: usize,
}

// Slot k of folder i names the node `id`.
pub fn pick_id(
    arena: &[u8],
    first: &[u16],
    next: &[u16],
    mem: &mut [u8],
    i: usize,
    id: u32,
    k: usize,
    folder: bool,
) -> Result<Picked, Reason>
    requires led { Led arena.now first.now next.now }
    requires whole { Whole mem.old × (i < 34) }
    ensures { Rest (remove_id folder (fs_at arena.now mem.old) i id k) (remove_node (fs_at arena.now mem.new) (result_unwrap_or result no_picked).row (result_unwrap_or result no_picked).node (result_unwrap_or result no_picked).place) (Whole mem.new × (((result_unwrap_or result no_picked).row < 34) × ((result_unwrap_or result no_picked).node < 34))) (code result) }
{
    let node = get_node(arena, first, next, mem, id)?;
    ask_node(&mem[..], node, folder)?;
    Ok(Picked {
        row: i,
        node,
        place: k,
    })
}
