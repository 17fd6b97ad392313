// What the timings of tests/bench call.
#![tactic(auto)]

ghost use Rattle.std.specs.Prelude.{◌≡◌, ◌≤◌};
ghost use Rattle.base.specs.Count.{sum_to};
ghost use Rattle.arena.specs.Blocks.{blk, blocks};
ghost use Rattle.arena.specs.Fields.{check_of};
ghost use Rattle.sound.specs.Sound.{sound as sound_arena};

use arena::block_check;
use sound::sound;

#[unsafe(no_mangle)]
pub extern "C" fn bench_sound(arena: &[u8]) -> bool
    requires { blocks arena.now ≤ 4096 }
    ensures { result ≡ sound_arena arena.now }
{
    sound(arena)
}

// The checks of all blocks, added.
#[unsafe(no_mangle)]
pub extern "C" fn bench_check(arena: &[u8]) -> u64
    requires { blocks arena.now ≤ 4096 }
    ensures { result ≡ sum_to (λ k. check_of (blk arena.now k)) (blocks arena.now) }
{
    let mut sum: u64 = 0;
    for k in 0..arena.len() / 512 {
        let o = 512 * k;
        sum += u64::from(block_check(&arena[o..o + 512]));
    }
    sum
}
