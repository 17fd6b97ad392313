// Zeros and moved bytes in a node's file, on the arena itself, once nothing can refuse them (order 13). 000 goes in pieces of 128 bytes; here each block
// is written once. Where the blocks are that are written stands in a plan, and where those are that are read in `source`: both as of the arena before.
#![tactic(auto)]

ghost use Rattle.std.specs.Prelude.{◌≡◌, true, ◌+◌, ◌*◌, ◌-◌, ◌/◌, ◌<◌, ◌≤◌, min, max, length, replicate, get_or, set};
ghost use Rattle.base.specs.Out.{done, bind};
ghost use Rattle.base.specs.Parts.{tab};
ghost use Rattle.arena.specs.Blocks.{blocks};
ghost use Rattle.arena.specs.Fields.{file};
ghost use Rattle.arena.specs.Places.{free_of, head_of};
ghost use Rattle.files.specs.Read.{there, byte_at};
ghost use Rattle.files.specs.Store.{write_blk, put_block, put_file, lo, hi};
ghost use Rattle.files.specs.Store.{touched as touched_by};
ghost use Rattle.pieces.specs.Pieces.{write_zeros, copy_down, copy_up, pieces};
ghost use Rattle.pieces.specs.Pieces.{falling as falling_by};
ghost use Rattle.pieces.specs.Made.{made_blk, made_piece, made_to};
ghost use Rattle.chains.specs.Led.{block_at};
ghost use Rattle.plans.specs.Plan.{Places, Planned, byte_by, InArena};
ghost use Rattle.range_stores.specs.Moves.{Movable, Insertable, UpToDate, PieceMakable, Makable, Fillable};

use inplace::{next_free, raise, write_new};
use plans::{put_bytes, read_places, touched};

// "blocks of 128 as in 000"
const PIECE: usize = 128;

// ---- zeros

// Those of n zeros from pos on that fall into block q.
fn zero_block(
    arena: &mut [u8],
    name: &[u8; 16],
    pos: usize,
    n: usize,
    q: usize,
    found: usize,
    from: usize,
) -> usize
    requires n_bound { (pos + n ≤ 4294967295) × ((pos ≤ 480 * q + 480) × (480 * q ≤ pos + n)) }
    requires found_value { (found ≡ block_at arena.old (file 1 name.now) q) × ((from ≤ free_of arena.old) × (found ≡ 0 → free_of arena.old < blocks arena.old)) }
    ensures { (put_block arena.old (file 1 name.now) pos (replicate n 0) q ≡ done arena.new) × (result ≤ free_of arena.old) }
{
    let zeros = [0u8; 480];
    let s = pos.max(480 * q);
    let e = (pos + n).min(480 * q + 480);
    let m = e - s;
    put_bytes(arena, 1, name, q, s - 480 * q, &zeros[..m], found, from)
}

// n zeros from pos on, into the file whose head is block k.
pub fn put_zeros(arena: &mut [u8], k: usize, name: &[u8; 16], pos: usize, n: usize, plan: &[u16])
    requires n_bound { (pos + n ≤ 4294967295) × ((there arena.old (file 1 name.now) ≡ true) × (k ≡ head_of arena.old (file 1 name.now))) }
    requires planned { Planned arena.old (file 1 name.now) pos n plan.now }
    ensures { write_zeros arena.old (file 1 name.now) pos n ≡ done arena.new }
{
    if n == 0 {
        return;
    }
    raise(arena, k, (pos + n) as u32);
    let t = touched(pos, n);
    let q = pos / 480;
    let mut from: usize = 0;
    for i in 0..t {
        from = zero_block(arena, name, pos, n, q + i, usize::from(plan[i]), from);
    }
}

// ---- bytes that move

// The bytes from p on, found by the places of the blocks from block `first` on, go into block q from `off` on, as many as the room takes. They are read
// before the block is written.
fn move_part(
    arena: &mut [u8],
    name: &[u8; 16],
    source: &[u16],
    first: usize,
    p: usize,
    q: usize,
    off: usize,
    room: &mut [u8],
    found: usize,
    from: usize,
) -> usize
    requires first_bound { ((first ≤ p / 480) × ((p + length room.old ≤ 4294967295) × (p + length room.old ≤ 480 * (first + length source.now)))) × ((off + length room.old ≤ 480) × (q < 4294967296)) }
    requires in_arena { InArena arena.old source.now }
    requires found_value { (found ≡ block_at arena.old (file 1 name.now) q) × ((from ≤ free_of arena.old) × (found ≡ 0 → free_of arena.old < blocks arena.old)) }
    ensures { (write_blk arena.old (file 1 name.now) q off (tab (byte_by arena.old source.now first) p (length room.old)) ≡ done arena.new) × (result ≤ free_of arena.old) }
{
    read_places(&arena[..], source, first, p, room);
    put_bytes(arena, 1, name, q, off, &room[..], found, from)
}

// Those of n bytes, which go from src on to dst, that fall into block q.
fn move_block(
    arena: &mut [u8],
    name: &[u8; 16],
    src: usize,
    dst: usize,
    n: usize,
    q: usize,
    found: usize,
    from: usize,
    source: &[u16],
) -> usize
    requires n_bound { ((src + n ≤ 4294967295) × (dst + n ≤ 4294967295)) × ((dst ≤ 480 * q + 480) × ((480 * q ≤ dst + n) × (src + n ≤ 480 * (src / 480 + length source.now)))) }
    requires in_arena { InArena arena.old source.now }
    requires found_value { (found ≡ block_at arena.old (file 1 name.now) q) × ((from ≤ free_of arena.old) × (found ≡ 0 → free_of arena.old < blocks arena.old)) }
    ensures { (write_blk arena.old (file 1 name.now) q (lo dst q - 480 * q) (tab (byte_by arena.old source.now (src / 480)) (src + (lo dst q - dst)) (hi dst n q - lo dst q)) ≡ done arena.new) × (result ≤ free_of arena.old) }
{
    let s = dst.max(480 * q);
    let e = (dst + n).min(480 * q + 480);
    let m = e - s;
    let mut room = [0u8; 480];
    move_part(
        arena,
        name,
        source,
        src / 480,
        src + (s - dst),
        q,
        s - 480 * q,
        &mut room[..m],
        found,
        from,
    )
}

// Towards the start: blocks rise, and what is still to be read lies above what was written. Of `source` the places are lent that the bytes have: what
// lies past them may be anything.
pub fn move_down(
    arena: &mut [u8],
    k: usize,
    name: &[u8; 16],
    src: usize,
    dst: usize,
    n: usize,
    plan: &[u16],
    source: &[u16],
)
    requires { Movable arena.old (file 1 name.now) k src dst n plan.now source.now × (dst ≤ src) }
    ensures { copy_down arena.old (file 1 name.now) src dst n ≡ done arena.new }
{
    let t = touched(dst, n);
    let m = touched(src, n);
    let q = dst / 480;
    let mut from: usize = 0;
    for i in 0..t {
        from = move_block(
            arena,
            name,
            src,
            dst,
            n,
            q + i,
            usize::from(plan[i]),
            from,
            &source[..m],
        );
    }
}

// ---- towards the end

// Where the piece begins that is taken after k others, counted from the first of the n bytes.
fn falling(n: usize, k: usize) -> usize
    requires { (n ≤ 4294967295) × (k ≤ 4294967295) }
    ensures { result ≡ falling_by n k }
{
    n.saturating_sub(PIECE * (k + 1))
}

// Block q is made of zeros alone where its place, entry i of the plan, is 0. No block below `from` is free, and none below the answer.
fn make_absent(
    arena: &mut [u8],
    name: &[u8; 16],
    q: usize,
    plan: &mut [u16],
    i: usize,
    from: usize,
) -> usize
    requires q_bound { (q < 4294967296) × ((i < length plan.old) × ((blocks arena.old ≤ 4096) × (there arena.old (file 1 name.now) ≡ true))) }
    requires i_value { (get_or plan.old i 0 ≡ block_at arena.old (file 1 name.now) q) × ((from ≤ free_of arena.old) × (block_at arena.old (file 1 name.now) q ≡ 0 → free_of arena.old < blocks arena.old)) }
    ensures { (made_blk arena.old (file 1 name.now) q ≡ done arena.new) × ((result ≤ free_of arena.new) × (plan.new ≡ set plan.old i (block_at arena.new (file 1 name.now) q))) }
{
    if plan[i] > 0 {
        return from;
    }
    let k = next_free(&arena[..], from);
    write_new(arena, k, 1, name, q as u32, 0, &[]);
    plan[i] = (k + 1) as u16;
    k
}

// The blocks of a piece of n bytes from pos on: one, or two beside each other. The plan begins with block `first`.
fn make_piece(
    arena: &mut [u8],
    name: &[u8; 16],
    pos: usize,
    n: usize,
    plan: &mut [u16],
    first: usize,
    from: usize,
) -> usize
    requires { PieceMakable arena.old (file 1 name.now) pos n first from plan.old }
    ensures { (made_piece arena.old (file 1 name.now) pos n ≡ done arena.new) × ((result ≤ free_of arena.new) × UpToDate arena.old arena.new (file 1 name.now) first plan.old plan.new) }
{
    let a = pos / 480;
    let z = (pos + n - 1) / 480;
    let at = make_absent(arena, name, a, plan, a - first, from);
    make_absent(arena, name, z, plan, z - first, at)
}

// The absent blocks of n bytes from dst on, in the order in which falling pieces make them.
fn make_blocks(arena: &mut [u8], name: &[u8; 16], dst: usize, n: usize, plan: &mut [u16])
    requires { Makable arena.old (file 1 name.now) dst n plan.old }
    ensures { (made_to arena.old (file 1 name.now) dst n (pieces n) ≡ done arena.new) × Places arena.new (file 1 name.now) dst plan.new (touched_by dst n) }
{
    let p = n.div_ceil(PIECE);
    let first = dst / 480;
    let mut from: usize = 0;
    for k in 0..p {
        let s = falling(n, k);
        let e = n - PIECE * k;
        from = make_piece(arena, name, dst + s, e - s, plan, first, from);
    }
}

// The blocks that n bytes from dst on touch, all of which are there, are written: they fall, and what is still to be read lies below what was written.
fn fill_down(
    arena: &mut [u8],
    name: &[u8; 16],
    src: usize,
    dst: usize,
    n: usize,
    plan: &[u16],
    source: &[u16],
)
    requires { Fillable arena.old (file 1 name.now) src dst n plan.now source.now }
    ensures { put_file arena.old (file 1 name.now) dst (tab (byte_at arena.old (file 1 name.now)) src n) ≡ done arena.new }
{
    let m = touched(src, n);
    let q = dst / 480;
    let t = touched(dst, n);
    for i in (0..t).rev() {
        move_block(
            arena,
            name,
            src,
            dst,
            n,
            q + i,
            usize::from(plan[i]),
            0,
            &source[..m],
        );
    }
}

// Towards the end. The plan then has where all the blocks are that were written.
pub fn move_up(
    arena: &mut [u8],
    k: usize,
    name: &[u8; 16],
    src: usize,
    dst: usize,
    n: usize,
    plan: &mut [u16],
    source: &[u16],
)
    requires { Movable arena.old (file 1 name.now) k src dst n plan.old source.now × (src ≤ dst) }
    ensures n_value { copy_up arena.old (file 1 name.now) src dst n ≡ done arena.new }
    ensures places { Places arena.new (file 1 name.now) dst plan.new (touched_by dst n) }
{
    raise(arena, k, (dst + n) as u32);
    make_blocks(arena, name, dst, n, plan);
    fill_down(arena, name, src, dst, n, &plan[..], source);
}

// The n bytes from `from` on move up by len, and the hole becomes zero.
pub fn open_hole(
    arena: &mut [u8],
    k: usize,
    name: &[u8; 16],
    from: usize,
    len: usize,
    n: usize,
    plan: &mut [u16],
    source: &[u16],
)
    requires { Insertable arena.old (file 1 name.now) k from len n plan.old source.now }
    ensures { bind (copy_up arena.old (file 1 name.now) from (from + len) n) (λ d. write_zeros d (file 1 name.now) from len) ≡ done arena.new }
{
    let o = (from + len) / 480 - from / 480;
    move_up(arena, k, name, from, from + len, n, &mut plan[o..], source);
    put_zeros(arena, k, name, from, len, &plan[..]);
}
