// Crate `bench` as a static library for C (tests/bench/host.c): a function of each name, which calls that one, asks what it asks and promises the same.
#![tactic(auto)]

ghost use Rattle.std.specs.Prelude.{◌≡◌, ◌≤◌};
ghost use Rattle.base.specs.Count.{sum_to};
ghost use Rattle.arena.specs.Blocks.{blk, blocks};
ghost use Rattle.arena.specs.Fields.{check_of};
ghost use Rattle.sound.specs.Sound.{sound as sound_arena};

#[unsafe(no_mangle)]
pub extern "C" fn bench_sound(arena: &[u8]) -> bool
    requires { blocks arena.now ≤ 4096 }
    ensures { result ≡ sound_arena arena.now }
{
    bench::bench_sound(arena)
}

#[unsafe(no_mangle)]
pub extern "C" fn bench_check(arena: &[u8]) -> u64
    requires { blocks arena.now ≤ 4096 }
    ensures { result ≡ sum_to (λ k. check_of (blk arena.now k)) (blocks arena.now) }
{
    bench::bench_check(arena)
}
