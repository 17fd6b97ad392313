// Format begins with a storage that is cleared: on the view every block is free.
#![tactic(auto)]

ghost use Rattle.std.specs.Prelude.{length, replicate};
ghost use Rattle.overlay.specs.View.{Fine};
ghost use Rattle.overlay.specs.Steps.{Changed};

pub fn clear_all(arena: &[u8], work: &mut [u8])
    requires { Fine arena.now work.old }
    ensures { Changed arena.now work.old work.new (replicate (length arena.now) 0) 0 }
{
    for k in 0..arena.len() / 512 {
        overlay::free(work, k);
    }
}
