// The four stores: put, cut, make, drop. Each works on the view and answers as its definition does there; the arena itself is only read.
ghost use Rattle.std.specs.Prelude.{◌≡◌, ◌+◌, ◌*◌, ◌-◌, ◌<◌, ◌≤◌, ◌/◌, ◌%◌, length, replicate, ltb};
ghost use Rattle.base.specs.Told.{code};
ghost use Rattle.base.specs.Out.{done, bind};
ghost use Rattle.base.specs.Parts.{paste};
ghost use Rattle.base.specs.Search.{pick};
ghost use Rattle.le.specs.Le.{le_put};
ghost use Rattle.arena.specs.Blocks.{blocks, blk, put_blk};
ghost use Rattle.arena.specs.Fields.{file, number_of, seal, fresh};
ghost use Rattle.arena.specs.Places.{head_of};
ghost use Rattle.overlay.specs.View.{view, freed, left, Fine};
ghost use Rattle.overlay.specs.Steps.{Changed, Did};
ghost use Rattle.files.specs.Store.{claim as claim_block, write_blk, put_block, put_to, touched, put_file, make_file, clear_all, is_past, is_of, zero_tail, cut_file, drop_file};

use crate::{find_data, find_free, find_head};
use arena::{is_data, is_head, make_block};
use base::{Reason, clear, copy, index, least, most};
use le::{put_u32, u32_at};
use overlay::{block, free};

// ---- one block

// A part of a block becomes src.
fn lay(b: &mut [u8], off: usize, src: &[u8])
    requires { off + length src.now ≤ length b.old }
    ensures { b.new ≡ paste b.old off src.now }
{
    let e = off + src.len();
    copy(&mut b[off..e], src);
}

// Bytes of block k from `off` on.
fn edit(arena: &[u8], work: &mut [u8], k: usize, off: usize, src: &[u8])
    requires fine { Fine arena.now work.old × (1 ≤ left work.old) }
    requires k_bound { (k < blocks arena.now) × (off + length src.now ≤ 512) }
    ensures { Changed arena.now work.old work.new (put_blk (view arena.now work.old) k (seal (paste (blk (view arena.now work.old) k) off src.now))) 1 }
{
    let mut b = [0u8; 512];
    copy(&mut b, block(arena, &work[..], k));
    lay(&mut b, off, src);
    overlay::store(work, k, &b);
}

// A new block: the lowest free one becomes b; 17 where there is none.
fn claim(arena: &[u8], work: &mut [u8], b: &[u8]) -> Result<(), Reason>
    requires fine { Fine arena.now work.old × (1 ≤ left work.old) }
    requires b_len { length b.now ≡ 512 }
    ensures { Did (claim_block (view arena.now work.old) b.now) arena.now work.old work.new 1 (code result) }
{
    let k = find_free(arena, &work[..]);
    if k >= arena.len() / 512 {
        return Err(Reason::NoDeviceSpace);
    }
    overlay::store(work, k, b);
    Ok(())
}

// A new data block with src in its payload from `off` on.
fn write_new(
    arena: &[u8],
    work: &mut [u8],
    which: u8,
    name: &[u8],
    number: u32,
    off: usize,
    src: &[u8],
) -> Result<(), Reason>
    requires fine { Fine arena.now work.old × (1 ≤ left work.old) }
    requires name_len { (length name.now ≡ 16) × (off + length src.now ≤ 480) }
    ensures { Did (claim_block (view arena.now work.old) (paste (fresh 2 (file which name.now) number) (24 + off) src.now)) arena.now work.old work.new 1 (code result) }
{
    let mut b = [0u8; 512];
    make_block(&mut b, 2, which, name, number);
    lay(&mut b, 24 + off, src);
    claim(arena, work, &b)
}

// src in block `number` of the file from `off` on: in the block that is there, or in a new one.
fn write_blk(
    arena: &[u8],
    work: &mut [u8],
    which: u8,
    name: &[u8],
    number: u32,
    off: usize,
    src: &[u8],
) -> Result<(), Reason>
    requires fine { Fine arena.now work.old × (1 ≤ left work.old) }
    requires name_len { (length name.now ≡ 16) × (off + length src.now ≤ 480) }
    ensures { Did (write_blk (view arena.now work.old) (file which name.now) number off src.now) arena.now work.old work.new 1 (code result) }
{
    let k = find_data(arena, &work[..], which, name, number);
    if k >= arena.len() / 512 {
        return write_new(arena, work, which, name, number, off, src);
    }
    edit(arena, work, k, 24 + off, src);
    Ok(())
}

// The head at block k with another length.
fn set_length(arena: &[u8], work: &mut [u8], k: usize, len: u32)
    requires fine { Fine arena.now work.old × (1 ≤ left work.old) }
    requires k_bound { k < blocks arena.now }
    ensures { Changed arena.now work.old work.new (put_blk (view arena.now work.old) k (seal (le_put (blk (view arena.now work.old) k) 20 4 len))) 1 }
{
    let mut b = [0u8; 4];
    put_u32(&mut b, 0, len);
    edit(arena, work, k, 20, &b);
}

// ---- put

// The length of the head at block k, raised to len where it is lower.
fn raise(arena: &[u8], work: &mut [u8], k: usize, len: u32)
    requires fine { Fine arena.now work.old × (1 ≤ left work.old) }
    requires k_bound { k < blocks arena.now }
    ensures { Changed arena.now work.old work.new (pick (ltb (number_of (blk (view arena.now work.old) k)) len) (put_blk (view arena.now work.old) k (seal (le_put (blk (view arena.now work.old) k) 20 4 len))) (view arena.now work.old)) 1 }
{
    if u32_at(block(arena, &work[..], k), 20) >= len {
        return;
    }
    set_length(arena, work, k, len);
}

// The bytes of src that fall into block q.
fn put_block(
    arena: &[u8],
    work: &mut [u8],
    which: u8,
    name: &[u8],
    pos: usize,
    src: &[u8],
    q: usize,
) -> Result<(), Reason>
    requires fine { Fine arena.now work.old × (1 ≤ left work.old) }
    requires name_len { (length name.now ≡ 16) × ((pos + length src.now ≤ 4294967295) × ((pos ≤ 480 * q + 480) × (480 * q ≤ pos + length src.now))) }
    ensures { Did (put_block (view arena.now work.old) (file which name.now) pos src.now q) arena.now work.old work.new 1 (code result) }
{
    let lo = most(pos, 480 * q);
    let hi = least(pos + src.len(), 480 * q + 480);
    let s = lo - pos;
    let e = hi - pos;
    write_blk(arena, work, which, name, q as u32, lo - 480 * q, &src[s..e])
}

// The blocks that src touches, in rising order: a run of at most 480 bytes touches one or two.
fn put_blocks(
    arena: &[u8],
    work: &mut [u8],
    which: u8,
    name: &[u8],
    pos: usize,
    src: &[u8],
) -> Result<(), Reason>
    requires fine { Fine arena.now work.old × (touched pos (length src.now) ≤ left work.old) }
    requires name_len { (length name.now ≡ 16) × ((pos + length src.now ≤ 4294967295) × ((0 < length src.now) × (length src.now ≤ 480))) }
    ensures { Did (bind (put_block (view arena.now work.old) (file which name.now) pos src.now (pos / 480)) (λ d. pick (ltb (pos / 480) ((pos + length src.now - 1) / 480)) (put_block d (file which name.now) pos src.now ((pos + length src.now - 1) / 480)) (done d))) arena.now work.old work.new (touched pos (length src.now)) (code result) }
{
    let first = pos / 480;
    let last = (pos + src.len() - 1) / 480;
    put_block(arena, work, which, name, pos, src, first)?;
    if first >= last {
        return Ok(());
    }
    put_block(arena, work, which, name, pos, src, last)
}

// The same with the length raised first, for a file whose head is block k.
fn put_at(
    arena: &[u8],
    work: &mut [u8],
    k: usize,
    which: u8,
    name: &[u8],
    pos: usize,
    src: &[u8],
) -> Result<(), Reason>
    requires fine { Fine arena.now work.old × (1 + touched pos (length src.now) ≤ left work.old) }
    requires name_len { (length name.now ≡ 16) × ((pos + length src.now ≤ 4294967295) × (length src.now ≤ 480)) }
    requires k_value { (k ≡ head_of (view arena.now work.old) (file which name.now)) × (k < blocks arena.now) }
    ensures { Did (put_to (view arena.now work.old) (file which name.now) pos src.now (touched pos (length src.now))) arena.now work.old work.new (1 + touched pos (length src.now)) (code result) }
{
    raise(arena, work, k, (pos + src.len()) as u32);
    if src.len() == 0 {
        return Ok(());
    }
    put_blocks(arena, work, which, name, pos, src)
}

// src at pos of the file: 19 where it is missing, 17 where the end passes the longest length or no block is free.
pub fn put(
    arena: &[u8],
    work: &mut [u8],
    which: u8,
    name: &[u8],
    pos: usize,
    src: &[u8],
) -> Result<(), Reason>
    requires fine { Fine arena.now work.old × (1 + touched pos (length src.now) ≤ left work.old) }
    requires name_len { (length name.now ≡ 16) × (length src.now ≤ 480) }
    ensures { Did (put_file (view arena.now work.old) (file which name.now) pos src.now) arena.now work.old work.new (1 + touched pos (length src.now)) (code result) }
{
    let k = find_head(arena, &work[..], which, name);
    if k >= arena.len() / 512 {
        return Err(Reason::Stuck);
    }
    if pos > 4294967295 - src.len() {
        return Err(Reason::NoDeviceSpace);
    }
    put_at(arena, work, k, which, name, pos, src)
}

// ---- make

// A head of length 0; 17 where no block is free.
pub fn make(arena: &[u8], work: &mut [u8], which: u8, name: &[u8]) -> Result<(), Reason>
    requires fine { Fine arena.now work.old × (1 ≤ left work.old) }
    requires name_len { length name.now ≡ 16 }
    ensures { Did (make_file (view arena.now work.old) (file which name.now)) arena.now work.old work.new 1 (code result) }
{
    let mut b = [0u8; 512];
    make_block(&mut b, 1, which, name, 0);
    claim(arena, work, &b)
}

// ---- blocks that become free

fn free_if(work: &mut [u8], k: usize, yes: bool)
    requires { k < length work.old }
    ensures { work.new ≡ pick yes (freed work.old k) work.old }
{
    if !yes {
        return;
    }
    free(work, k);
}

fn is_of(b: &[u8], which: u8, name: &[u8]) -> bool
    requires { (length b.now ≡ 512) × (length name.now ≡ 16) }
    ensures { result ≡ is_of (file which name.now) b.now }
{
    if is_head(b, which, name) {
        return true;
    }
    is_data(b, which, name, u32_at(b, 20))
}

fn is_past(b: &[u8], which: u8, name: &[u8], len: usize) -> bool
    requires { (length b.now ≡ 512) × (length name.now ≡ 16) }
    ensures { result ≡ is_past (file which name.now) len b.now }
{
    let q = u32_at(b, 20);
    if !is_data(b, which, name, q) {
        return false;
    }
    len <= 480 * index(q)
}

// Whether the block goes: all of the file do, or its data blocks wholly past len.
fn goes(b: &[u8], which: u8, name: &[u8], all: bool, len: usize) -> bool
    requires { (length b.now ≡ 512) × (length name.now ≡ 16) }
    ensures { result ≡ pick all (is_of (file which name.now)) (is_past (file which name.now) len) b.now }
{
    if all {
        return is_of(b, which, name);
    }
    is_past(b, which, name, len)
}

// The blocks that go become free.
fn free_blocks(arena: &[u8], work: &mut [u8], which: u8, name: &[u8], all: bool, len: usize)
    requires { Fine arena.now work.old × (length name.now ≡ 16) }
    ensures { Changed arena.now work.old work.new (clear_all (pick all (is_of (file which name.now)) (is_past (file which name.now) len)) (view arena.now work.old)) 0 }
{
    for k in 0..arena.len() / 512 {
        let yes = goes(block(arena, &work[..], k), which, name, all, len);
        free_if(work, k, yes);
    }
}

// ---- cut

// The payload of a block from `off` on becomes zero.
fn clear_from(b: &mut [u8], off: usize)
    requires { (length b.old ≡ 512) × (off ≤ 480) }
    ensures { b.new ≡ paste b.old (24 + off) (replicate (480 - off) 0) }
{
    let s = 24 + off;
    clear(&mut b[s..504]);
}

// The bytes past len in the block that len falls into become zero.
fn zero_tail(arena: &[u8], work: &mut [u8], which: u8, name: &[u8], len: usize)
    requires fine { Fine arena.now work.old × (1 ≤ left work.old) }
    requires name_len { (length name.now ≡ 16) × (len ≤ 4294967295) }
    ensures { Changed arena.now work.old work.new (zero_tail (view arena.now work.old) (file which name.now) len) 1 }
{
    let k = find_data(arena, &work[..], which, name, (len / 480) as u32);
    if k >= arena.len() / 512 {
        return;
    }
    let mut b = [0u8; 512];
    copy(&mut b, block(arena, &work[..], k));
    clear_from(&mut b, len % 480);
    overlay::store(work, k, &b);
}

// The file's length becomes len.
pub fn cut(arena: &[u8], work: &mut [u8], which: u8, name: &[u8], len: usize) -> Result<(), Reason>
    requires fine { Fine arena.now work.old × (2 ≤ left work.old) }
    requires name_len { length name.now ≡ 16 }
    ensures { Did (cut_file (view arena.now work.old) (file which name.now) len) arena.now work.old work.new 2 (code result) }
{
    let k = find_head(arena, &work[..], which, name);
    if k >= arena.len() / 512 {
        return Err(Reason::Stuck);
    }
    if len > 4294967295 {
        return Err(Reason::NoDeviceSpace);
    }
    set_length(arena, work, k, len as u32);
    free_blocks(arena, work, which, name, false, len);
    zero_tail(arena, work, which, name, len);
    Ok(())
}

// ---- drop

pub fn drop(arena: &[u8], work: &mut [u8], which: u8, name: &[u8]) -> Result<(), Reason>
    requires { Fine arena.now work.old × (length name.now ≡ 16) }
    ensures { Did (drop_file (view arena.now work.old) (file which name.now)) arena.now work.old work.new 0 (code result) }
{
    if find_head(arena, &work[..], which, name) >= arena.len() / 512 {
        return Err(Reason::Stuck);
    }
    free_blocks(arena, work, which, name, true, 0);
    Ok(())
}
