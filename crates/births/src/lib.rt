// What a new node is born with, before it is named.
#![tactic(auto)]

ghost use Rattle.std.specs.Prelude.{◌<◌, ◌≤◌};
ghost use Rattle.base.specs.Told.{code};
ghost use Rattle.overlay.specs.View.{left};
ghost use Rattle.sefs.specs.Create.{birth as born_of};
ghost use Rattle.mem.specs.State.{fs_of, Ready, Stepped};

use base::Reason;
use folders::dirent_init;
use mem::id_at;

// A folder is born with its two slots.
pub fn birth(
    arena: &[u8],
    work: &mut [u8],
    mem: &mut [u8],
    i: usize,
    c: usize,
    kind: u32,
) -> Result<(), Reason>
    requires { Ready arena.now work.old mem.old × ((6 ≤ left work.old) × ((i < 34) × (c < 34))) }
    ensures { Stepped (born_of (fs_of arena.now work.old mem.old) i c kind) arena.now work.old work.new mem.new 6 (code result) }
{
    if kind == 2 {
        let parent = id_at(&mem[..], i);
        return dirent_init(arena, work, mem, c, parent);
    }
    Ok(())
}
