// The call resize: the file's length and the node's size become n, and the row is dirty. No record is stored.
#![tactic(auto)]

ghost use Rattle.std.specs.Result.{result_unwrap_or};
ghost use Rattle.base.specs.Told.{code};
ghost use Rattle.base.specs.Out.{Went};
ghost use Rattle.sefs.specs.Contents.{call_resize};
ghost use Rattle.mem.specs.Mem.{table_in, Whole};
ghost use Rattle.calls.specs.Asked.{Admitted};
ghost use Rattle.steps.specs.Ends.{Ended, Returned};
ghost use Rattle.sizes.specs.Sizes.{ask_end, no_sizing, Reached};

use base::Reason;
use calls::led::admit;
use calls::{Reply, settle};
use mem::{MEMORY, put_table};
use sizes::{Sizing, reach_file, set_size};
use table::{Handle, Table};

pub fn resize_led(
    arena: &[u8],
    first: &[u16],
    next: &[u16],
    mem: &[u8],
    who: u8,
    h: Handle,
    n: u64,
) -> Result<Sizing, Reason>
    requires { Admitted arena.now first.now next.now mem.now }
    ensures { Went (ask_end arena.now (table_in mem.now) who h n) (result_unwrap_or result no_sizing).row (Reached arena.now (table_in mem.now) (result_unwrap_or result no_sizing).row (result_unwrap_or result no_sizing).head n) (code result) }
{
    reach_file(arena, first, next, mem, who, h, 0, n)
}

// The frame of the chains is left before the stores.
fn resize_asked(arena: &[u8], mem: &[u8], who: u8, h: Handle, n: u64) -> Result<Sizing, Reason>
    requires { Whole mem.now }
    ensures { Went (ask_end arena.now (table_in mem.now) who h n) (result_unwrap_or result no_sizing).row (Reached arena.now (table_in mem.now) (result_unwrap_or result no_sizing).row (result_unwrap_or result no_sizing).head n) (code result) }
{
    let mut chains = [0u16; 8192];
    admit(arena, &mut chains, mem)?;
    let c = &chains[..];
    resize_led(arena, &c[..4096], &c[4096..8192], mem, who, h, n)
}

// The call on the table in memory.
pub fn resize_on(arena: &mut [u8], mem: &mut [u8], who: u8, h: Handle, n: u64) -> Result<(), Reason>
    requires { Whole mem.old }
    ensures { Ended (call_resize arena.old (table_in mem.old) who h n) arena.old arena.new (table_in mem.new) (code result) }
{
    let s = resize_asked(&arena[..], &mem[..], who, h, n)?;
    set_size(arena, mem, s.row, s.head, n as usize);
    Ok(())
}

pub fn resize(arena: &mut [u8], t: Table, who: u8, h: Handle, n: u64) -> Reply
    ensures { Returned t (call_resize arena.old t who h n) arena.old arena.new result }
{
    let mut mem = [0u8; MEMORY];
    put_table(&mut mem, t);
    let r = resize_on(arena, &mut mem, who, h, n);
    settle(t, &mem, r)
}
