// Where the blocks of a file are, found once by the chains: a plan, by which they are then read and written on the arena itself. A place is one
// more than a block's number, or 0 where the block is not there. A file is `which` and a name of 16 bytes.
#![tactic(auto)]

ghost use Rattle.std.specs.Prelude.{◌≡◌, true, ◌+◌, ◌*◌, ◌/◌, ◌<◌, ◌≤◌, length};
ghost use Rattle.base.specs.Told.{code};
ghost use Rattle.base.specs.Out.{done};
ghost use Rattle.base.specs.Parts.{tab};
ghost use Rattle.arena.specs.Blocks.{blocks};
ghost use Rattle.arena.specs.Fields.{file};
ghost use Rattle.arena.specs.Places.{free_of};
ghost use Rattle.files.specs.Read.{there};
ghost use Rattle.files.specs.Store.{write_blk, put_block};
ghost use Rattle.files.specs.Store.{touched as touched_by};
ghost use Rattle.chains.specs.Led.{Led, block_at};
ghost use Rattle.plans.specs.Plan.{absent_to, Places, Decided, payload_by, byte_by, InArena};

use arena::free_count;
use base::{Reason, byte, clear, copy, index16, least, most, one};
use chains::block_at;
use inplace::{edit, next_free, write_new};

// How many blocks n bytes from pos on touch.
pub fn touched(pos: usize, n: usize) -> usize
    requires { pos + n ≤ 4294967295 }
    ensures { result ≡ touched_by pos n }
{
    if n == 0 {
        return 0;
    }
    (pos + n - 1) / 480 + 1 - pos / 480
}

// The plan for k blocks from the one at pos on, and how many of them are absent.
pub fn plan_blocks(
    arena: &[u8],
    first: &[u16],
    next: &[u16],
    which: u8,
    name: &[u8; 16],
    pos: usize,
    k: usize,
    plan: &mut [u16],
) -> usize
    requires led { Led arena.now first.now next.now }
    requires k_in_bounds { (k ≤ length plan.old) × (pos / 480 + k ≤ 4294967296) }
    ensures value { result ≡ absent_to arena.now (file which name.now) pos k }
    ensures places { Places arena.now (file which name.now) pos plan.new k }
{
    let q = pos / 480;
    let mut lacking: usize = 0;
    for i in 0..k {
        let c = block_at(arena, first, next, which, name, (q + i) as u32);
        plan[i] = c as u16;
        lacking = lacking + byte(one(c == 0));
    }
    lacking
}

// 17 where n bytes from pos on lack more blocks than are free; else the plan has where each of theirs is. More blocks than there are need no search.
pub fn decide(
    arena: &[u8],
    first: &[u16],
    next: &[u16],
    which: u8,
    name: &[u8; 16],
    pos: usize,
    n: usize,
    plan: &mut [u16],
) -> Result<(), Reason>
    requires led { Led arena.now first.now next.now }
    requires plan_len { (length plan.old ≡ 4096) × ((pos + n ≤ 4294967295) × (there arena.now (file which name.now) ≡ true)) }
    ensures { Decided arena.now (file which name.now) pos n plan.new (code result) }
{
    let k = touched(pos, n);
    if k > arena.len() / 512 {
        return Err(Reason::NoDeviceSpace);
    }
    let lacking = plan_blocks(arena, first, next, which, name, pos, k, plan);
    if lacking > free_count(arena) {
        return Err(Reason::NoDeviceSpace);
    }
    Ok(())
}

// ---- one block

// Bytes in block q of the file from `off` on: `found` is one more than the number of that block, or 0, and then the lowest free block becomes it,
// and is the answer. No block below the answer is free.
pub fn put_bytes(
    arena: &mut [u8],
    which: u8,
    name: &[u8; 16],
    q: usize,
    off: usize,
    src: &[u8],
    found: usize,
    from: usize,
) -> usize
    requires src_bound { (off + length src.now ≤ 480) × (q < 4294967296) }
    requires found_value { (found ≡ block_at arena.old (file which name.now) q) × ((from ≤ free_of arena.old) × (found ≡ 0 → free_of arena.old < blocks arena.old)) }
    ensures { (write_blk arena.old (file which name.now) q off src.now ≡ done arena.new) × ((result ≤ free_of arena.old) × (found ≡ 0 → result ≡ free_of arena.old)) }
{
    if found > 0 {
        edit(arena, found - 1, off, src);
        return from;
    }
    let k = next_free(&arena[..], from);
    write_new(arena, k, which, name, q as u32, off, src);
    k
}

// The bytes of src, which go into the file from pos on, that fall into its block q.
pub fn put_block(
    arena: &mut [u8],
    which: u8,
    name: &[u8; 16],
    pos: usize,
    src: &[u8],
    q: usize,
    found: usize,
    from: usize,
) -> usize
    requires src_bound { (pos + length src.now ≤ 4294967295) × ((pos ≤ 480 * q + 480) × (480 * q ≤ pos + length src.now)) }
    requires found_value { (found ≡ block_at arena.old (file which name.now) q) × ((from ≤ free_of arena.old) × (found ≡ 0 → free_of arena.old < blocks arena.old)) }
    ensures { (put_block arena.old (file which name.now) pos src.now q ≡ done arena.new) × ((result ≤ free_of arena.old) × (found ≡ 0 → result ≡ free_of arena.old)) }
{
    let lo = most(pos, 480 * q);
    let hi = least(pos + src.len(), 480 * q + 480);
    let s = lo - pos;
    let e = hi - pos;
    put_bytes(arena, which, name, q, lo - 480 * q, &src[s..e], found, from)
}

// ---- read by places

// The payload of a block from `off` on, as many bytes as out takes: `found` is one more than its number, or 0, and then they are zeros.
pub fn read_block(arena: &[u8], found: usize, off: usize, out: &mut [u8])
    requires { (found ≤ blocks arena.now) × (off + length out.old ≤ 480) }
    ensures { out.new ≡ tab (payload_by arena.now found) off (length out.old) }
{
    if found == 0 {
        clear(out);
        return;
    }
    let s = 512 * (found - 1) + 24 + off;
    let e = s + out.len();
    copy(out, &arena[s..e]);
}

// The bytes of a file from p on, at most 480, by the places of its blocks from block q on.
pub fn read_places(arena: &[u8], places: &[u16], q: usize, p: usize, out: &mut [u8])
    requires out_len_bound { (length out.old ≤ 480) × ((q ≤ p / 480) × ((p + length out.old ≤ 4294967295) × (p + length out.old ≤ 480 * (q + length places.now)))) }
    requires in_arena { InArena arena.now places.now }
    ensures { out.new ≡ tab (byte_by arena.now places.now q) p (length out.old) }
{
    let n = out.len();
    if n == 0 {
        return;
    }
    let i = p / 480 - q;
    let off = p % 480;
    let m = least(480 - off, n);
    read_block(arena, index16(places[i]), off, &mut out[0..m]);
    if m == n {
        return;
    }
    read_block(arena, index16(places[i + 1]), 0, &mut out[m..n]);
}
