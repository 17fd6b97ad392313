// What a call asks first: arena and table. The chains that `sound` builds on the way are left to what reads the arena next.
ghost use Rattle.base.specs.Told.{code};
ghost use Rattle.base.specs.Out.{Went};
ghost use Rattle.sound.specs.Chain.{firsts, nexts};
ghost use Rattle.sefs.specs.Ask.{admit_arena, admit as admit_both};
ghost use Rattle.chains.specs.Led.{Led};
ghost use Rattle.mem.specs.Mem.{table_in, Whole};
ghost use Rattle.calls.specs.Asked.{Blank, Admitted};

use base::Reason;
use holds::well_formed;
use sound::sound_in;

// 1, 2.
pub fn admit_arena(arena: &[u8], chains: &mut [u16]) -> Result<(), Reason>
    requires { Blank chains.old }
    ensures { Went (admit_arena arena.now) tt (Led arena.now (firsts chains.new) (nexts chains.new)) (code result) }
{
    if !arena::legal(arena) {
        return Err(Reason::BadArena);
    }
    if !sound_in(arena, chains) {
        return Err(Reason::Damaged);
    }
    Ok(())
}

// 1, 2, 3.
pub fn admit(arena: &[u8], chains: &mut [u16], mem: &[u8]) -> Result<(), Reason>
    requires { Blank chains.old × Whole mem.now }
    ensures { Went (admit_both arena.now (table_in mem.now)) tt (Admitted arena.now (firsts chains.new) (nexts chains.new) mem.now) (code result) }
{
    admit_arena(arena, chains)?;
    if well_formed(mem) {
        return Ok(());
    }
    Err(Reason::BadTable)
}
