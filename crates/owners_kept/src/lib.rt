// What an owner keeps beside its arena: the chains of all blocks. Close and sync, on the table in memory: what they ask is read by the chains;
// after their steps the chains are made again.
#![tactic(auto)]

ghost use Rattle.std.specs.Prelude.{◌≡◌, true, ◌<◌};
ghost use Rattle.base.specs.Told.{code};
ghost use Rattle.arena.specs.Blocks.{legal};
ghost use Rattle.sefs.specs.Close.{close_steps, call_close, call_sync};
ghost use Rattle.mem.specs.Mem.{table_in, Whole};
ghost use Rattle.mem.specs.State.{fs_at};
ghost use Rattle.steps.specs.Ends.{ending, Ended};
ghost use Rattle.owners_kept.specs.Owned.{Chained, Kept};

use base::Reason;
use calls_close::{close_led, close_row};
use calls_sync::{sync_in, sync_led};
use rows::stores;
use sound::chain_all;
use table::Handle;

// ---- close

// Where nothing is stored, the chains stay right.
fn close_kept(
    arena: &mut [u8],
    chains: &mut [u16],
    mem: &mut [u8],
    last: bool,
    i: usize,
) -> Result<(), Reason>
    requires { Chained arena.old chains.old × ((legal arena.old ≡ true) × (Whole mem.old × (i < 34))) }
    ensures ended { Ended (ending (close_steps (fs_at arena.old mem.old) last i)) arena.old arena.new (table_in mem.new) (code result) }
    ensures chained { Chained arena.new chains.new }
{
    let again = stores(&mem[..], last, i);
    let r = close_row(arena, mem, last, i);
    if again {
        chain_all(&arena[..], chains);
    }
    r
}

pub fn close_on(
    arena: &mut [u8],
    chains: &mut [u16],
    mem: &mut [u8],
    who: u8,
    h: Handle,
) -> Result<(), Reason>
    requires { Kept arena.old chains.old mem.old }
    ensures ended { Ended (call_close arena.old (table_in mem.old) who h) arena.old arena.new (table_in mem.new) (code result) }
    ensures chained { Chained arena.new chains.new }
{
    let c = &chains[..];
    let b = close_led(&arena[..], &c[..4096], &c[4096..8192], mem, who, h)?;
    close_kept(arena, chains, mem, b.last, b.row)
}

// ---- sync

pub fn sync_on(arena: &mut [u8], chains: &mut [u16], mem: &mut [u8]) -> Result<(), Reason>
    requires { Kept arena.old chains.old mem.old }
    ensures ended { Ended (call_sync arena.old (table_in mem.old)) arena.old arena.new (table_in mem.new) (code result) }
    ensures chained { Chained arena.new chains.new }
{
    let c = &chains[..];
    sync_led(&arena[..], &c[..4096], &c[4096..8192], mem);
    let r = sync_in(arena, mem);
    chain_all(&arena[..], chains);
    r
}
