// The call mend (order 11): what a host that died has left is mended, where no hold is live. It is decided by counting before any store, and then
// everything is stored on the arena itself. The table stays.
#![tactic(auto)]

ghost use Rattle.std.specs.Prelude.{◌≡◌, length};
ghost use Rattle.base.specs.Told.{code};
ghost use Rattle.mem.specs.Mem.{table_in, Whole};
ghost use Rattle.calls.specs.Asked.{Blank};
ghost use Rattle.fsck_read.specs.Loaded.{Loaded, Of};
ghost use Rattle.mending.specs.Mend.{call_mend};
ghost use Rattle.mend_plan.specs.Plan.{Ready};
ghost use Rattle.calls_mend.specs.Mends.{Mends, MendEnded, Asked};

use base::Reason;
use calls::led::admit;
use holds::no_holds;
use mem::{MEMORY, put_empty, put_table};
use mend_plan::{META_BLOCKS, plan_mending};
use mend_stores::mend_stores;
use table::Table;

// Before any store, by the chains: they have their own frame, which is left before the stores.
fn plan_led(
    arena: &[u8],
    chains: &mut [u16],
    mem: &mut [u8],
    work: &mut [u16],
    places: &mut [u16],
) -> Result<(), Reason>
    requires blank { Blank chains.old × Whole mem.old }
    requires work_len { (length work.old ≡ 8192) × (length places.old ≡ 1093) }
    ensures { Asked arena.now (table_in mem.old) ((Loaded mem.new × Of arena.now mem.new) × Ready arena.now work.new places.new) (code result) }
{
    admit(arena, chains, &mem[..])?;
    if !no_holds(&mem[..]) {
        return Err(Reason::InUse);
    }
    put_empty(mem);
    let c = &chains[..];
    plan_mending(arena, &c[..4096], &c[4096..8192], mem, work, places)
}

fn plan_asked(
    arena: &[u8],
    mem: &mut [u8],
    work: &mut [u16],
    places: &mut [u16],
) -> Result<(), Reason>
    requires { Whole mem.old × ((length work.old ≡ 8192) × (length places.old ≡ 1093)) }
    ensures { Asked arena.now (table_in mem.old) ((Loaded mem.new × Of arena.now mem.new) × Ready arena.now work.new places.new) (code result) }
{
    let mut chains = [0u16; 8192];
    plan_led(arena, &mut chains, mem, work, places)
}

fn mend_in(
    arena: &mut [u8],
    mem: &mut [u8],
    work: &mut [u16],
    places: &mut [u16],
) -> Result<(), Reason>
    requires { Whole mem.old × ((length work.old ≡ 8192) × (length places.old ≡ 1093)) }
    ensures { MendEnded (call_mend arena.old (table_in mem.old)) arena.old arena.new (code result) }
{
    plan_asked(&arena[..], mem, work, places)?;
    mend_stores(arena, mem, &work[..], places);
    Ok(())
}

// The call on the table in memory, which is no table's afterwards.
pub fn mend_on(arena: &mut [u8], mem: &mut [u8]) -> Result<(), Reason>
    requires { Whole mem.old }
    ensures { MendEnded (call_mend arena.old (table_in mem.old)) arena.old arena.new (code result) }
{
    let mut work = [0u16; 8192];
    let mut places = [0u16; META_BLOCKS];
    mend_in(arena, mem, &mut work, &mut places)
}

pub fn mend(arena: &mut [u8], t: Table) -> Result<(), Reason>
    ensures { Mends (call_mend arena.old t) arena.old arena.new result }
{
    let mut mem = [0u8; MEMORY];
    put_table(&mut mem, t);
    mend_on(arena, &mut mem)
}
