// The chains: blocks of one hash, the latest first.
ghost use Rattle.std.specs.Prelude.{◌≡◌, true, false, ℕ, ◌+◌, ◌<◌, ◌≤◌, length, get_or, set};
ghost use Rattle.base.specs.Count.{all_to};
ghost use Rattle.base.specs.Search.{last};
ghost use Rattle.arena.specs.Blocks.{blk, blocks};
ghost use Rattle.arena.specs.Fields.{file, is_free};
ghost use Rattle.sound.specs.Sound.{under};
ghost use Rattle.sound.specs.Chain.{is_key, bucket_of, file_hash, hash_key, hash_of, in_bucket, Chains, firsts, nexts, alone};

use crate::block::{all_zero, layout_ok, within_ok};
use arena::{is_data, is_head};
use base::index16;
use le::u32_at;

fn wide(x: u32) -> u64
    ensures { (result ≡ x) × (result < 4294967296) }
{
    x as u64
}

fn bucket(x: u64) -> usize
    ensures { (result ≡ bucket_of x) × (result < 4096) }
{
    (x / 67108864 % 4096) as usize
}

fn file_hash(which: u8, name: &[u8]) -> u64
    requires { length name.now ≡ 16 }
    ensures { (result ≡ file_hash which name.now) × (result < 9223372036854775808) }
{
    wide(u32_at(name, 0)) * 433494437
        + wide(u32_at(name, 4)) * 479001599
        + wide(u32_at(name, 8)) * 334214459
        + wide(u32_at(name, 12)) * 387420489
        + (which as u64) * 179424673
}

fn hash_key(head: bool, which: u8, name: &[u8], number: u32) -> usize
    requires { length name.now ≡ 16 }
    ensures { (result ≡ hash_key head which name.now number) × (result < 4096) }
{
    let f = file_hash(which, name);
    if head {
        bucket(f)
    } else {
        bucket(f + (wide(number) * 331804471 + 268435399))
    }
}

fn is_key(part: &[u8], head: bool, which: u8, name: &[u8], number: u32) -> bool
    requires { (length part.now ≡ 512) × (length name.now ≡ 16) }
    ensures { result ≡ is_key head (file which name.now) number part.now }
{
    if head {
        is_head(part, which, name)
    } else {
        is_data(part, which, name, number)
    }
}

// One more than the latest of the first k blocks that has that key, or 0. The chain of its hash begins at start.
fn find_key(
    arena: &[u8],
    next: &[u16],
    k: usize,
    start: usize,
    head: bool,
    which: u8,
    name: &[u8],
    number: u32,
) -> usize
    requires name_len { (length name.now ≡ 16) × ((k ≤ blocks arena.now) × (k ≤ length next.now)) }
    requires by_index { (j : ℕ) → j < k → is_free (blk arena.now j) ≡ false → get_or next.now j 0 ≡ last (in_bucket arena.now (hash_of (blk arena.now j))) j }
    requires start_value { start ≡ last (in_bucket arena.now (hash_key head which name.now number)) k }
    ensures { result ≡ last (λ j. is_key head (file which name.now) number (blk arena.now j)) k }
{
    let mut c = start;
    // A while: the next place comes from the chain, not from a counter.
    while c > 0 {
        let j = c - 1;
        let o = 512 * j;
        if is_key(&arena[o..o + 512], head, which, name, number) {
            return c;
        }
        c = index16(next[j]);
    }
    0
}

// Block k joins the chain of hash h.
fn insert(chains: &mut [u16], k: usize, h: usize)
    requires { (length chains.old ≡ 8192) × ((h < 4096) × (k < 4096)) }
    ensures { chains.new ≡ set (set chains.old (4096 + k) (get_or chains.old h 0)) h (k + 1) }
{
    chains[4096 + k] = chains[h];
    chains[h] = (k + 1) as u16;
}

// Block k by itself, and no block before it with its key; it joins the chains.
pub fn add_block(arena: &[u8], chains: &mut [u16], k: usize) -> bool
    requires k_bound { (k < blocks arena.now) × ((k < 4096) × (length chains.old ≡ 8192)) }
    requires chains { Chains arena.now (firsts chains.old) (nexts chains.old) k }
    ensures value { result ≡ alone arena.now k }
    ensures chains_2 { result ≡ true → Chains arena.now (firsts chains.new) (nexts chains.new) (k + 1) }
{
    let o = 512 * k;
    let part = &arena[o..o + 512];
    if part[0] == 0 {
        return all_zero(part);
    }
    if !layout_ok(part) {
        return false;
    }
    let head = part[0] == 1;
    let which = part[1];
    let name = &part[4..20];
    let number = u32_at(part, 20);
    let h = hash_key(head, which, name, number);
    let start = index16(chains[h]);
    if find_key(arena, &chains[4096..], k, start, head, which, name, number) > 0 {
        return false;
    }
    insert(chains, k, h);
    true
}

// Block k joins the chains, where it is used. Nothing of it is tested.
pub fn join(arena: &[u8], chains: &mut [u16], k: usize)
    requires k_bound { (k < blocks arena.now) × ((k < 4096) × (length chains.old ≡ 8192)) }
    requires chains { Chains arena.now (firsts chains.old) (nexts chains.old) k }
    ensures { Chains arena.now (firsts chains.new) (nexts chains.new) (k + 1) }
{
    let o = 512 * k;
    let part = &arena[o..o + 512];
    if part[0] == 0 {
        return;
    }
    let number = u32_at(part, 20);
    let h = hash_key(part[0] == 1, part[1], &part[4..20], number);
    insert(chains, k, h);
}

// One more than the number of the block that has that key, or 0. The chains are those of all blocks.
pub fn find(
    arena: &[u8],
    first: &[u16],
    next: &[u16],
    head: bool,
    which: u8,
    name: &[u8],
    number: u32,
) -> usize
    requires name_len { (length name.now ≡ 16) × ((blocks arena.now ≤ 4096) × ((length first.now ≡ 4096) × (length next.now ≡ 4096))) }
    requires chains { Chains arena.now first.now next.now (blocks arena.now) }
    ensures { (result ≡ last (λ j. is_key head (file which name.now) number (blk arena.now j)) (blocks arena.now)) × (result ≤ blocks arena.now) }
{
    let n = arena.len() / 512;
    let h = hash_key(head, which, name, number);
    let start = index16(first[h]);
    find_key(arena, next, n, start, head, which, name, number)
}

// Block k, where it is a data block, under its head.
pub fn under_at(arena: &[u8], first: &[u16], next: &[u16], k: usize) -> bool
    requires k_bound { (k < blocks arena.now) × ((blocks arena.now ≤ 4096) × ((length first.now ≡ 4096) × (length next.now ≡ 4096))) }
    requires chains { Chains arena.now first.now next.now (blocks arena.now) }
    requires arena_value { all_to (alone arena.now) (blocks arena.now) ≡ true }
    ensures { result ≡ under arena.now k }
{
    let o = 512 * k;
    let part = &arena[o..o + 512];
    if part[0] != 2 {
        return true;
    }
    let which = part[1];
    let name = &part[4..20];
    let c = find(arena, first, next, true, which, name, 0);
    if c == 0 {
        return false;
    }
    let p = 512 * (c - 1);
    within_ok(part, u32_at(&arena[p..p + 512], 20))
}
