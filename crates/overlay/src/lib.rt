// The arena as it would be after the stores so far: the arena is only read, and changed blocks stand in a lent workspace until commit.
#![tactic(auto)]

ghost use Rattle.std.specs.Prelude.{◌≡◌, ◌+◌, ◌*◌, ◌-◌, ◌<◌, ◌≤◌, length};
ghost use Rattle.arena.specs.Blocks.{blocks, put_blk};
ghost use Rattle.arena.specs.Fields.{seal};
ghost use Rattle.overlay.specs.View.{mark_of, used_of, blk_of, view, committed, left, stored_new, stored, freed, begun, Fine};

use arena::write_block;
use base::byte;

// A workspace of zeros, made ready.
#[tactic(auto, unfolding(crate::specs::View::begun))]
pub fn begin(work: &mut [u8])
    requires { 4096 < length work.old }
    ensures { work.new ≡ begun work.old }
{
    work[4096] = 10;
}

// Block k as it would be.
#[tactic(auto, unfolding(crate::specs::View::blk_of, arena::specs::Blocks::blk))]
pub fn block<'a>(arena: &'a [u8], work: &'a [u8], k: usize) -> &'a [u8]
    requires { (k < blocks arena.now) × Fine arena.now work.now }
    ensures { result.now ≡ blk_of arena.now work.now k }
{
    let m = byte(work[k]);
    if m == 0 {
        let o = 512 * k;
        return &arena[o..o + 512];
    }
    let p = 512 * m;
    &work[p..p + 512]
}

// Block k becomes b, with its check, in a new block of the workspace.
#[tactic(auto, unfolding(crate::specs::View::left, crate::specs::View::stored_new, arena::specs::Blocks::put_blk))]
fn store_new(work: &mut [u8], k: usize, b: &[u8])
    requires k_bound { (k < 4096) × (length b.now ≡ 512) }
    requires bound { (9 < used_of work.old) × ((length work.old ≡ 512 * blocks work.old) × ((blocks work.old ≤ 255) × (1 ≤ left work.old))) }
    ensures { work.new ≡ stored_new work.old k b.now }
{
    let m = byte(work[4096]);
    let o = 512 * m;
    write_block(&mut work[o..o + 512], b);
    work[k] = m as u8;
    work[4096] = (m + 1) as u8;
}

// Block m of the workspace becomes b, with its check.
#[tactic(auto, unfolding(arena::specs::Blocks::put_blk))]
fn store_over(work: &mut [u8], m: usize, b: &[u8])
    requires { (m < blocks work.old) × (length b.now ≡ 512) }
    ensures { work.new ≡ put_blk work.old m (seal b.now) }
{
    let o = 512 * m;
    write_block(&mut work[o..o + 512], b);
}

// Block k becomes b, with its check. One that was stored before keeps its place in the workspace.
#[tactic(auto, unfolding(crate::specs::View::left, crate::specs::View::stored, crate::specs::View::has_own))]
pub fn store(work: &mut [u8], k: usize, b: &[u8])
    requires k_bound { (k < 4096) × (length b.now ≡ 512) }
    requires bound { (9 < used_of work.old) × ((length work.old ≡ 512 * blocks work.old) × ((blocks work.old ≤ 255) × (1 ≤ left work.old))) }
    ensures { work.new ≡ stored work.old k b.now }
{
    let m = byte(work[k]);
    let u = byte(work[4096]);
    if 9 < m && m < u {
        store_over(work, m, b);
    } else {
        store_new(work, k, b);
    }
}

// Block k becomes free.
#[tactic(auto, unfolding(crate::specs::View::freed))]
pub fn free(work: &mut [u8], k: usize)
    requires { k < length work.old }
    ensures { work.new ≡ freed work.old k }
{
    work[k] = 9;
}

// Block k of the arena becomes what it would be: a part lent from the arena's middle goes to the block writer.
#[tactic(auto, unfolding(crate::specs::View::committed, arena::specs::Blocks::put_blk, arena::specs::Blocks::blk))]
fn commit_block(arena: &mut [u8], work: &[u8], k: usize)
    requires { (k < blocks arena.old) × ((k < length work.now) × (mark_of work.now k < blocks work.now)) }
    ensures { arena.new ≡ committed arena.old work.now k }
{
    let m = byte(work[k]);
    if m != 0 {
        let o = 512 * k;
        let p = 512 * m;
        write_block(&mut arena[o..o + 512], &work[p..p + 512]);
    }
}

// The arena becomes what it would be.
pub fn commit(arena: &mut [u8], work: &[u8])
    requires { Fine arena.old work.now }
    ensures { arena.new ≡ view arena.old work.now }
{
    for k in 0..arena.len() / 512 {
        commit_block(arena, work, k);
    }
}
