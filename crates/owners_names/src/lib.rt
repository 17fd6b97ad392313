// An owner's calls that make, move and remove names, on the table in memory. What they ask is read by the chains; after their steps the chains are
// made again.
#![tactic(auto)]

ghost use Rattle.std.specs.Prelude.{◌≡◌, length};
ghost use Rattle.std.specs.Result.{result_unwrap_or};
ghost use Rattle.base.specs.Told.{code};
ghost use Rattle.table_bytes.specs.Layout.{table_of};
ghost use Rattle.sefs.specs.Create.{call_create, call_link};
ghost use Rattle.sefs.specs.Move.{call_move};
ghost use Rattle.sefs.specs.Remove.{call_remove};
ghost use Rattle.mem.specs.Mem.{table_in};
ghost use Rattle.calls.specs.Answers.{added_as, no_handle};
ghost use Rattle.steps.specs.Ends.{Ended};
ghost use Rattle.calls_create.specs.Held.{EndedHeld};
ghost use Rattle.owners_kept.specs.Owned.{Chained, Kept};

use base::Reason;
use calls_create::{New, create_led, create_rows};
use calls_link::{link_led, link_rows};
use calls_move::{SAME, move_rows, plan_led};
use calls_remove::{pick_led, remove};
use mem::begin;
use sound::chain_all;
use table::Handle;

pub fn create_on(
    arena: &mut [u8],
    chains: &mut [u16],
    mem: &mut [u8],
    who: u8,
    h: Handle,
    name: &[u8],
    new: New,
) -> Result<Handle, Reason>
    requires { Kept arena.old chains.old mem.old }
    ensures ended_held { EndedHeld (call_create arena.old (table_in mem.old) who h name.now new.kind new.mode new.time new.file) arena.old arena.new (added_as (result_unwrap_or result no_handle) (table_in mem.new)) (code result) }
    ensures chained { Chained arena.new chains.new }
{
    let c = &chains[..];
    let row = create_led(
        &arena[..],
        &c[..4096],
        &c[4096..8192],
        mem,
        who,
        h,
        name,
        new,
    )?;
    let r = create_rows(arena, mem, who, row, name, new);
    chain_all(&arena[..], chains);
    r
}

pub fn link_on(
    arena: &mut [u8],
    chains: &mut [u16],
    mem: &mut [u8],
    who: u8,
    h: Handle,
    name: &[u8],
    child: Handle,
) -> Result<(), Reason>
    requires { Kept arena.old chains.old mem.old }
    ensures ended { Ended (call_link arena.old (table_in mem.old) who h name.now child) arena.old arena.new (table_in mem.new) (code result) }
    ensures chained { Chained arena.new chains.new }
{
    let c = &chains[..];
    let (i, j) = link_led(
        &arena[..],
        &c[..4096],
        &c[4096..8192],
        mem,
        who,
        h,
        name,
        child,
    )?;
    let r = link_rows(arena, mem, i, name, j);
    chain_all(&arena[..], chains);
    r
}

pub fn remove_on(
    arena: &mut [u8],
    chains: &mut [u16],
    mem: &mut [u8],
    who: u8,
    h: Handle,
    name: &[u8],
    folder: bool,
) -> Result<(), Reason>
    requires { Kept arena.old chains.old mem.old }
    ensures ended { Ended (call_remove folder arena.old (table_in mem.old) who h name.now) arena.old arena.new (table_in mem.new) (code result) }
    ensures chained { Chained arena.new chains.new }
{
    let c = &chains[..];
    let p = pick_led(
        &arena[..],
        &c[..4096],
        &c[4096..8192],
        mem,
        who,
        h,
        name,
        folder,
    )?;
    let r = remove(arena, mem, p.row, p.node, p.place);
    chain_all(&arena[..], chains);
    r
}

// `slot` is room for the moved slot. Where both names are one node's, nothing changes: memory gets the table again as it was.
fn move_slot(
    arena: &mut [u8],
    chains: &mut [u16],
    mem: &mut [u8],
    slot: &mut [u8],
    table: &[u8],
    who: u8,
    h: Handle,
    old: &[u8],
    to: Handle,
    name: &[u8],
) -> Result<(), Reason>
    requires kept { Kept arena.old chains.old mem.old }
    requires slot_len { (length slot.old ≡ 264) × ((length table.now ≡ 4402) × (table_in mem.old ≡ table_of table.now)) }
    ensures ended { Ended (call_move arena.old (table_in mem.old) who h old.now to name.now) arena.old arena.new (table_in mem.new) (code result) }
    ensures chained { Chained arena.new chains.new }
{
    let c = &chains[..];
    let first = &c[..4096];
    let next = &c[4096..8192];
    let p = plan_led(&arena[..], first, next, mem, slot, who, h, old, to, name)?;
    if p.way == SAME {
        begin(mem, table);
        return Ok(());
    }
    let r = move_rows(arena, mem, slot, p, old, name);
    chain_all(&arena[..], chains);
    r
}

pub fn move_on(
    arena: &mut [u8],
    chains: &mut [u16],
    mem: &mut [u8],
    table: &[u8],
    who: u8,
    h: Handle,
    old: &[u8],
    to: Handle,
    name: &[u8],
) -> Result<(), Reason>
    requires kept { Kept arena.old chains.old mem.old }
    requires table_len { (length table.now ≡ 4402) × (table_in mem.old ≡ table_of table.now) }
    ensures ended { Ended (call_move arena.old (table_in mem.old) who h old.now to name.now) arena.old arena.new (table_in mem.new) (code result) }
    ensures chained { Chained arena.new chains.new }
{
    let mut slot = [0u8; 264];
    move_slot(arena, chains, mem, &mut slot, table, who, h, old, to, name)
}
