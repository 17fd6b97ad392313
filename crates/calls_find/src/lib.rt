// The calls that open a node: root and find. They change no byte of the arena, and read it by the chains of `sound`.
#![tactic(auto)]

ghost use Rattle.std.specs.Prelude.{◌≡◌, ◌<◌};
ghost use Rattle.std.specs.Result.{result_unwrap_or};
ghost use Rattle.base.specs.Told.{code};
ghost use Rattle.base.specs.Out.{Went, answer};
ghost use Rattle.sefs.specs.Open.{call_root, call_find};
ghost use Rattle.chains.specs.Led.{Led};
ghost use Rattle.mem.specs.Mem.{table_in, Whole};
ghost use Rattle.table.specs.Table.{row_at};
ghost use Rattle.calls.specs.Answers.{added_as, no_handle};
ghost use Rattle.calls.specs.Asked.{Admitted};
ghost use Rattle.calls_find.specs.Finds.{Gives, give_node, give_named, find_ask, find_in};

use base::Reason;
use calls::led::admit;
use calls::{HeldReply, an_owner, by_handle, good_name, settle_held};
use finds::{find_folder, find_id, hold_node};
use holds::can_hold;
use mem::{MEMORY, put_table, rec_at};
use structs::DiskINode;
use table::{Handle, Table};

// 16 where no hold can be given.
pub fn give_node(
    arena: &[u8],
    first: &[u16],
    next: &[u16],
    mem: &mut [u8],
    who: u8,
    id: u32,
) -> Result<Handle, Reason>
    requires led { Led arena.now first.now next.now }
    requires whole { Whole mem.old }
    ensures { Went (give_node arena.now (table_in mem.old) who id) (added_as (result_unwrap_or result no_handle) (table_in mem.new)) Unit (code result) }
{
    if !can_hold(&mem[..], who) {
        return Err(Reason::TableFull);
    }
    hold_node(arena, first, next, mem, who, id)
}

// ---- root

// What follows the tests of arena and table, by the chains that they left; so below, too.
pub fn root_led(
    arena: &[u8],
    first: &[u16],
    next: &[u16],
    mem: &mut [u8],
    who: u8,
) -> Result<Handle, Reason>
    requires { Admitted arena.now first.now next.now mem.old }
    ensures { Went (call_root arena.now (table_in mem.old) who) (added_as (result_unwrap_or result no_handle) (table_in mem.new)) Unit (code result) }
{
    an_owner(who)?;
    give_node(arena, first, next, mem, who, 2)
}

// The call on the table in memory; so below, too.
pub fn root_on(arena: &[u8], mem: &mut [u8], who: u8) -> Result<Handle, Reason>
    requires { Whole mem.old }
    ensures { Went (call_root arena.now (table_in mem.old) who) (added_as (result_unwrap_or result no_handle) (table_in mem.new)) Unit (code result) }
{
    let mut chains = [0u16; 8192];
    admit(arena, &mut chains, &mem[..])?;
    let c = &chains[..];
    root_led(arena, &c[..4096], &c[4096..8192], mem, who)
}

pub fn root(arena: &[u8], t: Table, who: u8) -> HeldReply
    ensures { Gives t (call_root arena.now t who) result }
{
    let mut mem = [0u8; MEMORY];
    put_table(&mut mem, t);
    let h = root_on(arena, &mut mem, who);
    settle_held(t, &mem, h)
}

// ---- find

fn find_ask(rec: DiskINode, name: &[u8]) -> Result<(), Reason>
    ensures { code result ≡ answer (find_ask rec name.now) }
{
    good_name(name)?;
    find_folder(rec, name)
}

fn find_in(
    arena: &[u8],
    first: &[u16],
    next: &[u16],
    rec: DiskINode,
    name: &[u8],
) -> Result<u32, Reason>
    requires { Led arena.now first.now next.now }
    ensures { Went (find_in arena.now rec name.now) (result_unwrap_or result 0) Unit (code result) }
{
    find_ask(rec, name)?;
    find_id(arena, first, next, rec, name)
}

// The node that the name leads to, in the folder of row i.
fn give_named(
    arena: &[u8],
    first: &[u16],
    next: &[u16],
    mem: &mut [u8],
    who: u8,
    i: usize,
    name: &[u8],
) -> Result<Handle, Reason>
    requires led { Led arena.now first.now next.now }
    requires whole { Whole mem.old × (i < 34) }
    ensures { Went (give_named arena.now (table_in mem.old) who (row_at (table_in mem.old) i).rec name.now) (added_as (result_unwrap_or result no_handle) (table_in mem.new)) Unit (code result) }
{
    let id = find_in(arena, first, next, rec_at(&mem[..], i), name)?;
    give_node(arena, first, next, mem, who, id)
}

pub fn find_led(
    arena: &[u8],
    first: &[u16],
    next: &[u16],
    mem: &mut [u8],
    who: u8,
    h: Handle,
    name: &[u8],
) -> Result<Handle, Reason>
    requires { Admitted arena.now first.now next.now mem.old }
    ensures { Went (call_find arena.now (table_in mem.old) who h name.now) (added_as (result_unwrap_or result no_handle) (table_in mem.new)) Unit (code result) }
{
    let row = by_handle(&mem[..], who, h)?;
    give_named(arena, first, next, mem, who, row, name)
}

pub fn find_on(
    arena: &[u8],
    mem: &mut [u8],
    who: u8,
    h: Handle,
    name: &[u8],
) -> Result<Handle, Reason>
    requires { Whole mem.old }
    ensures { Went (call_find arena.now (table_in mem.old) who h name.now) (added_as (result_unwrap_or result no_handle) (table_in mem.new)) Unit (code result) }
{
    let mut chains = [0u16; 8192];
    admit(arena, &mut chains, &mem[..])?;
    let c = &chains[..];
    find_led(arena, &c[..4096], &c[4096..8192], mem, who, h, name)
}

pub fn find(arena: &[u8], t: Table, who: u8, h: Handle, name: &[u8]) -> HeldReply
    ensures { Gives t (call_find arena.now t who h name.now) result }
{
    let mut mem = [0u8; MEMORY];
    put_table(&mut mem, t);
    let r = find_on(arena, &mut mem, who, h, name);
    settle_held(t, &mem, r)
}
