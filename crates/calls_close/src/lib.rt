// The call close: a row's last hold stores a dirty record; at links 0 the node is freed.
#![tactic(auto)]

ghost use Rattle.std.specs.Prelude.{◌≡◌, ◌<◌, true};
ghost use Rattle.std.specs.Result.{result_unwrap_or};
ghost use Rattle.base.specs.Told.{code};
ghost use Rattle.arena.specs.Blocks.{legal};
ghost use Rattle.overlay.specs.View.{Empty};
ghost use Rattle.sefs.specs.Nodes.{drop_node};
ghost use Rattle.sefs.specs.Close.{close_steps, call_close};
ghost use Rattle.mem.specs.Mem.{table_in, Whole};
ghost use Rattle.calls.specs.Asked.{Admitted};
ghost use Rattle.steps.specs.Ends.{Rest, ending, Ended, Returned};
ghost use Rattle.mem.specs.State.{fs_at};
ghost use Rattle.calls_close.specs.Closings.{no_closing};

use base::Reason;
use calls::led::admit;
use calls::{Reply, by_handle, settle};
use holds::close_hold;
use mem::{MEMORY, clear_row, put_table};
use nodes::drop_node;
use nodes_read::meta::load_meta;
use rows::is_stored;
use table::{Handle, Table};

// What is known before the first store: the handle's row, and whether its last hold was closed.
#[derive(Clone, Copy)]
pub struct Closing {
    pub row: usize,
    pub last: bool,
}

// What follows the tests of arena and table, by the chains that they left.
pub fn close_led(
    arena: &[u8],
    first: &[u16],
    next: &[u16],
    mem: &mut [u8],
    who: u8,
    h: Handle,
) -> Result<Closing, Reason>
    requires { Admitted arena.now first.now next.now mem.old }
    ensures { Rest (call_close arena.now (table_in mem.old) who h) (ending (close_steps (fs_at arena.now mem.new) (result_unwrap_or result no_closing).last (result_unwrap_or result no_closing).row)) ((legal arena.now ≡ true) × (Whole mem.new × ((result_unwrap_or result no_closing).row < 34))) (code result) }
{
    let row = by_handle(&mem[..], who, h)?;
    let last = close_hold(mem, h.hold);
    load_meta(arena, first, next, mem);
    Ok(Closing { row, last })
}

// The frame of the chains is left before a workspace is made.
fn close_asked(arena: &[u8], mem: &mut [u8], who: u8, h: Handle) -> Result<Closing, Reason>
    requires { Whole mem.old }
    ensures { Rest (call_close arena.now (table_in mem.old) who h) (ending (close_steps (fs_at arena.now mem.new) (result_unwrap_or result no_closing).last (result_unwrap_or result no_closing).row)) ((legal arena.now ≡ true) × (Whole mem.new × ((result_unwrap_or result no_closing).row < 34))) (code result) }
{
    let mut chains = [0u16; 8192];
    admit(arena, &mut chains, &mem[..])?;
    let c = &chains[..];
    close_led(arena, &c[..4096], &c[4096..8192], mem, who, h)
}

// The node of row i is dropped. The workspace has no block yet.
fn drop_in(arena: &mut [u8], work: &mut [u8], mem: &mut [u8], i: usize) -> Result<(), Reason>
    requires { Empty arena.old work.old 23 × (Whole mem.old × (i < 34)) }
    ensures { Ended (ending (drop_node (fs_at arena.old mem.old) i)) arena.old arena.new (table_in mem.new) (code result) }
{
    drop_node(&arena[..], work, mem, i)?;
    overlay::commit(arena, &work[..]);
    Ok(())
}

// Row i has no hold any more: the workspace is made for the node's end.
fn close_last(arena: &mut [u8], mem: &mut [u8], i: usize) -> Result<(), Reason>
    requires { (legal arena.old ≡ true) × (Whole mem.old × (i < 34)) }
    ensures { Ended (ending (drop_node (fs_at arena.old mem.old) i)) arena.old arena.new (table_in mem.new) (code result) }
{
    let mut work = [0u8; 11776];
    overlay::begin(&mut work);
    drop_in(arena, &mut work, mem, i)
}

// A row that is stored is cleared in memory, and no workspace is made for it.
fn drop_row(arena: &mut [u8], mem: &mut [u8], i: usize) -> Result<(), Reason>
    requires { (legal arena.old ≡ true) × (Whole mem.old × (i < 34)) }
    ensures { Ended (ending (drop_node (fs_at arena.old mem.old) i)) arena.old arena.new (table_in mem.new) (code result) }
{
    if is_stored(&mem[..], i) {
        clear_row(mem, i);
        return Ok(());
    }
    close_last(arena, mem, i)
}

// A row that has another hold is left as it is.
pub fn close_row(arena: &mut [u8], mem: &mut [u8], last: bool, i: usize) -> Result<(), Reason>
    requires { (legal arena.old ≡ true) × (Whole mem.old × (i < 34)) }
    ensures { Ended (ending (close_steps (fs_at arena.old mem.old) last i)) arena.old arena.new (table_in mem.new) (code result) }
{
    if last {
        return drop_row(arena, mem, i);
    }
    Ok(())
}

// The call on the table in memory.
pub fn close_on(arena: &mut [u8], mem: &mut [u8], who: u8, h: Handle) -> Result<(), Reason>
    requires { Whole mem.old }
    ensures { Ended (call_close arena.old (table_in mem.old) who h) arena.old arena.new (table_in mem.new) (code result) }
{
    let b = close_asked(&arena[..], mem, who, h)?;
    close_row(arena, mem, b.last, b.row)
}

pub fn close(arena: &mut [u8], t: Table, who: u8, h: Handle) -> Reply
    ensures { Returned t (call_close arena.old t who h) arena.old arena.new result }
{
    let mut mem = [0u8; MEMORY];
    put_table(&mut mem, t);
    let r = close_on(arena, &mut mem, who, h);
    settle(t, &mem, r)
}
