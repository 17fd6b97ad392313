// The call inventory (order 10): a line for each name of an arena that the checker passes with the empty table. One pass measures the text, and
// where it fits a second one writes it.
#![tactic(auto)]

ghost use Rattle.std.specs.Prelude.{◌≡◌, length};
ghost use Rattle.table.specs.Table.{empty_table};
ghost use Rattle.rules.specs.Tests.{checked};
ghost use Rattle.chains.specs.Led.{Led};
ghost use Rattle.mem.specs.Mem.{table_in, Whole};
ghost use Rattle.calls.specs.Answers.{taken_of, Lays};
ghost use Rattle.calls.specs.Asked.{Blank};
ghost use Rattle.inventory.specs.Inventory.{call_inventory};

mod passes;
mod places;

use base::Reason;
use calls::led::admit_arena;
use fsck::{Verdict, check_led};
use mem::{MEMORY, put_empty};
use passes::pass;

// Of an arena that passes.
fn inventory_passed(
    arena: &[u8],
    first: &[u16],
    next: &[u16],
    out: &mut [u8],
) -> Result<usize, Reason>
    requires led { Led arena.now first.now next.now }
    requires empty_table_value { checked arena.now empty_table ≡ 0 }
    ensures { Lays taken_of (call_inventory arena.now (length out.old)) out.old out.new result }
{
    let measured = pass(arena, first, next, false, out);
    if measured.full {
        return Err(Reason::OutFull);
    }
    pass(arena, first, next, true, out);
    Ok(measured.at)
}

// What follows the tests of the arena, by the chains that they left: rules 3 to 8 with the empty table, and then the text.
fn inventory_led(
    arena: &[u8],
    first: &[u16],
    next: &[u16],
    mem: &mut [u8],
    out: &mut [u8],
) -> Result<usize, Reason>
    requires led { Led arena.now first.now next.now }
    requires whole { Whole mem.old × (table_in mem.old ≡ empty_table) }
    ensures { Lays taken_of (call_inventory arena.now (length out.old)) out.old out.new result }
{
    let v = check_led(arena, first, next, mem);
    match v {
        Verdict::Pass {
            nodes: _,
            unused: _,
            free: _,
        } => inventory_passed(arena, first, next, out),
        Verdict::Fail(_) => Err(Reason::WrongFs),
    }
}

fn inventory_in(
    arena: &[u8],
    chains: &mut [u16],
    mem: &mut [u8],
    out: &mut [u8],
) -> Result<usize, Reason>
    requires blank { Blank chains.old }
    requires whole { Whole mem.old × (table_in mem.old ≡ empty_table) }
    ensures { Lays taken_of (call_inventory arena.now (length out.old)) out.old out.new result }
{
    admit_arena(arena, chains)?;
    let c = &chains[..];
    inventory_led(arena, &c[..4096], &c[4096..8192], mem, out)
}

pub fn inventory(arena: &[u8], out: &mut [u8]) -> Result<usize, Reason>
    ensures { Lays taken_of (call_inventory arena.now (length out.old)) out.old out.new result }
{
    let mut chains = [0u16; 8192];
    let mut mem = [0u8; MEMORY];
    put_empty(&mut mem);
    inventory_in(arena, &mut chains, &mut mem, out)
}
