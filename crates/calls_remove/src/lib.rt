// The calls remove-file and remove-folder: 5, 7, 8, 9 (`.`, `..`, empty), 10, 11, the one's 9 or the other's 7 and 13, then the steps. They are one
// call but for what is asked of the node; `folder` says which.
#![tactic(auto)]

ghost use Rattle.std.specs.Prelude.{◌≡◌, true, ◌<◌, ◌≤◌, length};
ghost use Rattle.std.specs.Result.{result_unwrap_or};
ghost use Rattle.base.specs.Told.{code};
ghost use Rattle.arena.specs.Blocks.{legal};
ghost use Rattle.overlay.specs.View.{left, Empty};
ghost use Rattle.sefs.specs.Remove.{call_remove, call_remove_file, call_remove_folder};
ghost use Rattle.chains.specs.Led.{Led};
ghost use Rattle.mem.specs.Mem.{table_in, Whole};
ghost use Rattle.mem.specs.State.{fs_of, Ready, Stepped, fs_at};
ghost use Rattle.calls.specs.Asked.{Admitted};
ghost use Rattle.steps.specs.Ends.{Rest, ending, Ended, Returned};
ghost use Rattle.removals.specs.Picks.{no_picked};
ghost use Rattle.removals.specs.Removals.{remove_node};
ghost use Rattle.calls_remove.specs.Steps.{remove_name, remove_from};

use base::Reason;
use calls::led::admit;
use calls::{Reply, settle};
use chains::slots::find_slot;
use folders::dirent_node_remove;
use le::u32_at;
use mem::{MEMORY, put_table, rec_at};
use nodes::sync_row;
use removals::{Picked, pick_id, remove_ask};
use steps::reach_read;
use table::{Handle, Table};

fn pick_name(
    arena: &[u8],
    first: &[u16],
    next: &[u16],
    mem: &mut [u8],
    i: usize,
    name: &[u8],
    folder: bool,
) -> Result<Picked, Reason>
    requires led { Led arena.now first.now next.now }
    requires whole { Whole mem.old × (i < 34) }
    ensures { Rest (remove_name folder (fs_at arena.now mem.old) i name.now) (remove_node (fs_at arena.now mem.new) (result_unwrap_or result no_picked).row (result_unwrap_or result no_picked).node (result_unwrap_or result no_picked).place) (Whole mem.new × (((result_unwrap_or result no_picked).row < 34) × ((result_unwrap_or result no_picked).node < 34))) (code result) }
{
    let mut slot = [0u8; 264];
    let place = find_slot(arena, first, next, rec_at(&mem[..], i), name, &mut slot)?;
    pick_id(arena, first, next, mem, i, u32_at(&slot, 0), place, folder)
}

fn pick_in(
    arena: &[u8],
    first: &[u16],
    next: &[u16],
    mem: &mut [u8],
    i: usize,
    name: &[u8],
    folder: bool,
) -> Result<Picked, Reason>
    requires led { Led arena.now first.now next.now }
    requires whole { Whole mem.old × (i < 34) }
    ensures { Rest (remove_from folder (fs_at arena.now mem.old) i name.now) (remove_node (fs_at arena.now mem.new) (result_unwrap_or result no_picked).row (result_unwrap_or result no_picked).node (result_unwrap_or result no_picked).place) (Whole mem.new × (((result_unwrap_or result no_picked).row < 34) × ((result_unwrap_or result no_picked).node < 34))) (code result) }
{
    remove_ask(rec_at(&mem[..], i), name)?;
    pick_name(arena, first, next, mem, i, name, folder)
}

// What follows the tests of arena and table, by the chains that they left.
pub fn pick_led(
    arena: &[u8],
    first: &[u16],
    next: &[u16],
    mem: &mut [u8],
    who: u8,
    h: Handle,
    name: &[u8],
    folder: bool,
) -> Result<Picked, Reason>
    requires { Admitted arena.now first.now next.now mem.old }
    ensures { Rest (call_remove folder arena.now (table_in mem.old) who h name.now) (ending (remove_node (fs_at arena.now mem.new) (result_unwrap_or result no_picked).row (result_unwrap_or result no_picked).node (result_unwrap_or result no_picked).place)) ((legal arena.now ≡ true) × (Whole mem.new × (((result_unwrap_or result no_picked).row < 34) × ((result_unwrap_or result no_picked).node < 34)))) (code result) }
{
    let row = reach_read(arena, first, next, mem, who, h)?;
    pick_in(arena, first, next, mem, row, name, folder)
}

// The frame of the chains is left before a workspace is made.
fn pick_asked(
    arena: &[u8],
    mem: &mut [u8],
    who: u8,
    h: Handle,
    name: &[u8],
    folder: bool,
) -> Result<Picked, Reason>
    requires { Whole mem.old }
    ensures { Rest (call_remove folder arena.now (table_in mem.old) who h name.now) (ending (remove_node (fs_at arena.now mem.new) (result_unwrap_or result no_picked).row (result_unwrap_or result no_picked).node (result_unwrap_or result no_picked).place)) ((legal arena.now ≡ true) × (Whole mem.new × (((result_unwrap_or result no_picked).row < 34) × ((result_unwrap_or result no_picked).node < 34)))) (code result) }
{
    let mut chains = [0u16; 8192];
    admit(arena, &mut chains, &mem[..])?;
    let c = &chains[..];
    pick_led(arena, &c[..4096], &c[4096..8192], mem, who, h, name, folder)
}

// ---- the steps

// `slot` is room for a slot.
fn remove_node(
    arena: &[u8],
    work: &mut [u8],
    mem: &mut [u8],
    slot: &mut [u8],
    i: usize,
    c: usize,
    k: usize,
) -> Result<(), Reason>
    requires { Ready arena.now work.old mem.old × ((21 ≤ left work.old) × ((i < 34) × ((c < 34) × (length slot.old ≡ 264)))) }
    ensures { Stepped (remove_node (fs_of arena.now work.old mem.old) i c k) arena.now work.old work.new mem.new 21 (code result) }
{
    dirent_node_remove(arena, work, mem, slot, i, c, k)?;
    sync_row(arena, work, mem, i)
}

// The workspace has no block yet.
fn remove_in(
    arena: &mut [u8],
    work: &mut [u8],
    mem: &mut [u8],
    slot: &mut [u8],
    i: usize,
    c: usize,
    k: usize,
) -> Result<(), Reason>
    requires { Empty arena.old work.old 31 × (Whole mem.old × ((i < 34) × ((c < 34) × (length slot.old ≡ 264)))) }
    ensures { Ended (ending (remove_node (fs_at arena.old mem.old) i c k)) arena.old arena.new (table_in mem.new) (code result) }
{
    remove_node(&arena[..], work, mem, slot, i, c, k)?;
    overlay::commit(arena, &work[..]);
    Ok(())
}

// The workspace is made, and the only room for a slot.
pub fn remove(arena: &mut [u8], mem: &mut [u8], i: usize, c: usize, k: usize) -> Result<(), Reason>
    requires { (legal arena.old ≡ true) × (Whole mem.old × ((i < 34) × (c < 34))) }
    ensures { Ended (ending (remove_node (fs_at arena.old mem.old) i c k)) arena.old arena.new (table_in mem.new) (code result) }
{
    let mut work = [0u8; 15872];
    let mut slot = [0u8; 264];
    overlay::begin(&mut work);
    remove_in(arena, &mut work, mem, &mut slot, i, c, k)
}

// The call on the table in memory.
pub fn remove_on(
    arena: &mut [u8],
    mem: &mut [u8],
    who: u8,
    h: Handle,
    name: &[u8],
    folder: bool,
) -> Result<(), Reason>
    requires { Whole mem.old }
    ensures { Ended (call_remove folder arena.old (table_in mem.old) who h name.now) arena.old arena.new (table_in mem.new) (code result) }
{
    let p = pick_asked(&arena[..], mem, who, h, name, folder)?;
    remove(arena, mem, p.row, p.node, p.place)
}

pub fn remove_named(
    arena: &mut [u8],
    t: Table,
    who: u8,
    h: Handle,
    name: &[u8],
    folder: bool,
) -> Reply
    ensures { Returned t (call_remove folder arena.old t who h name.now) arena.old arena.new result }
{
    let mut mem = [0u8; MEMORY];
    put_table(&mut mem, t);
    let r = remove_on(arena, &mut mem, who, h, name, folder);
    settle(t, &mem, r)
}

pub fn remove_file(arena: &mut [u8], t: Table, who: u8, h: Handle, name: &[u8]) -> Reply
    ensures { Returned t (call_remove_file arena.old t who h name.now) arena.old arena.new result }
{
    remove_named(arena, t, who, h, name, false)
}

pub fn remove_folder(arena: &mut [u8], t: Table, who: u8, h: Handle, name: &[u8]) -> Reply
    ensures { Returned t (call_remove_folder arena.old t who h name.now) arena.old arena.new result }
{
    remove_named(arena, t, who, h, name, true)
}
