// Whether an arena is sound, in time that grows with its length: one pass joins each block to the chain of its hash and looks for its
// key there, and one looks for the head of each data block.
#![tactic(auto)]

mod block;
pub mod chain;

ghost use Rattle.std.specs.Prelude.{◌≡◌, true, ℕ, ◌≤◌, ◌<◌, length, get_or};
ghost use Rattle.base.specs.Count.{all_to};
ghost use Rattle.arena.specs.Blocks.{blocks};
ghost use Rattle.sound.specs.Sound.{under, sound as sound_arena};
ghost use Rattle.sound.specs.Chain.{Chains, firsts, nexts, alone};

use chain::{add_block, join, under_at};

// The chains: the first block of each bucket, and behind them the next one after each block.
pub const BUCKETS: usize = 4096;

pub const CHAINS: usize = 8192;

// Every block by itself and no key twice; the chains of all blocks.
fn all_alone(arena: &[u8], chains: &mut [u16]) -> bool
    requires arena_bound { (blocks arena.now ≤ 4096) × (length chains.old ≡ 8192) }
    requires by_index { (h : ℕ) → h < 4096 → get_or chains.old h 0 ≡ 0 }
    ensures value { result ≡ all_to (alone arena.now) (blocks arena.now) }
    ensures chains { result ≡ true → Chains arena.now (firsts chains.new) (nexts chains.new) (blocks arena.now) }
{
    let n = arena.len() / 512;
    for k in 0..n {
        if !add_block(arena, chains, k) {
            return false;
        }
    }
    true
}

// The chains of no block.
fn unchain(chains: &mut [u16])
    requires { length chains.old ≡ 8192 }
    ensures { (h : ℕ) → h < 4096 → get_or chains.new h 0 ≡ 0 }
{
    chains[..BUCKETS].fill(0);
}

// The chains of all blocks, for an arena that its owner knows to be sound: no block is tested.
pub fn chain_all(arena: &[u8], chains: &mut [u16])
    requires { (blocks arena.now ≤ 4096) × (length chains.old ≡ 8192) }
    ensures { Chains arena.now (firsts chains.new) (nexts chains.new) (blocks arena.now) }
{
    unchain(chains);
    let n = arena.len() / 512;
    for k in 0..n {
        join(arena, chains, k);
    }
}

// Every data block under its head.
fn all_under(arena: &[u8], first: &[u16], next: &[u16]) -> bool
    requires arena_bound { (blocks arena.now ≤ 4096) × ((length first.now ≡ 4096) × (length next.now ≡ 4096)) }
    requires chains { Chains arena.now first.now next.now (blocks arena.now) }
    requires arena_value { all_to (alone arena.now) (blocks arena.now) ≡ true }
    ensures { result ≡ all_to (under arena.now) (blocks arena.now) }
{
    let n = arena.len() / 512;
    for k in 0..n {
        if !under_at(arena, first, next, k) {
            return false;
        }
    }
    true
}

// Whether the arena is sound; where it is, the chains of all blocks are left in `chains`. They are one array and not two, since the
// compiler lays one local array over a caller's workspace, but not two.
pub fn sound_in(arena: &[u8], chains: &mut [u16]) -> bool
    requires arena_bound { (blocks arena.now ≤ 4096) × (length chains.old ≡ 8192) }
    requires by_index { (h : ℕ) → h < 4096 → get_or chains.old h 0 ≡ 0 }
    ensures value { result ≡ sound_arena arena.now }
    ensures chains { result ≡ true → Chains arena.now (firsts chains.new) (nexts chains.new) (blocks arena.now) }
{
    if !all_alone(arena, chains) {
        return false;
    }
    let (first, next) = chains.split_at(BUCKETS);
    all_under(arena, first, next)
}

// Whether the arena is sound. A caller has tested that its length is legal.
pub fn sound(arena: &[u8]) -> bool
    requires { blocks arena.now ≤ 4096 }
    ensures { result ≡ sound_arena arena.now }
{
    let mut chains = [0u16; 8192];
    sound_in(arena, &mut chains)
}
