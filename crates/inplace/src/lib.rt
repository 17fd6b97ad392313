// Stores on the arena itself, for calls that have decided that nothing can refuse them any more. A block is a part lent from the arena's
// middle: what of it changes is changed there, and its check is filled. A file is `which` and a name of 16 bytes.
#![tactic(auto)]

ghost use Rattle.std.specs.Prelude.{◌≡◌, ◌+◌, ◌-◌, ◌<◌, ◌≤◌, length, replicate, ltb};
ghost use Rattle.base.specs.Parts.{paste};
ghost use Rattle.base.specs.Search.{pick};
ghost use Rattle.le.specs.Le.{le_put};
ghost use Rattle.arena.specs.Blocks.{blk, put_blk, blocks};
ghost use Rattle.arena.specs.Fields.{file, number_of, seal, fresh, zeros};
ghost use Rattle.arena.specs.Places.{free_of, data_of};
ghost use Rattle.files.specs.Store.{clear_all, is_past, is_of, zero_tail};

use arena::{is_data, is_free, is_head, make_block, put_check};
use base::{clear, copy, index};
use le::{put_u32, u32_at};

// ---- a block of 512 bytes

fn number_block(b: &mut [u8], len: u32)
    requires { length b.old ≡ 512 }
    ensures { b.new ≡ seal (le_put b.old 20 4 len) }
{
    put_u32(b, 20, len);
    put_check(b);
}

fn edit_block(b: &mut [u8], off: usize, src: &[u8])
    requires { (length b.old ≡ 512) × (off + length src.now ≤ 480) }
    ensures { b.new ≡ seal (paste b.old (24 + off) src.now) }
{
    let s = 24 + off;
    let e = s + src.len();
    copy(&mut b[s..e], src);
    put_check(b);
}

fn new_block(b: &mut [u8], which: u8, name: &[u8; 16], number: u32, off: usize, src: &[u8])
    requires { (length b.old ≡ 512) × (off + length src.now ≤ 480) }
    ensures { b.new ≡ seal (paste (fresh 2 (file which name.now) number) (24 + off) src.now) }
{
    make_block(b, 2, which, name, number);
    edit_block(b, off, src);
}

fn clear_block(b: &mut [u8], off: usize)
    requires { (length b.old ≡ 512) × (off ≤ 480) }
    ensures { b.new ≡ seal (paste b.old (24 + off) (replicate (480 - off) 0)) }
{
    let s = 24 + off;
    clear(&mut b[s..504]);
    put_check(b);
}

// Whether it is a data block of the file that lies wholly past len.
fn is_past(b: &[u8], which: u8, name: &[u8; 16], len: usize) -> bool
    requires { length b.now ≡ 512 }
    ensures { result ≡ is_past (file which name.now) len b.now }
{
    let q = u32_at(b, 20);
    is_data(b, which, name, q) && len <= 480 * index(q)
}

// Whether it is a block of the file: its head, or one of its data blocks.
pub fn is_of(b: &[u8], which: u8, name: &[u8; 16]) -> bool
    requires { length b.now ≡ 512 }
    ensures { result ≡ is_of (file which name.now) b.now }
{
    is_head(b, which, name) || is_data(b, which, name, u32_at(b, 20))
}

// ---- block k of the arena

// The length of the head at block k becomes len.
pub fn set_length(arena: &mut [u8], k: usize, len: u32)
    requires { k < blocks arena.old }
    ensures { arena.new ≡ put_blk arena.old k (seal (le_put (blk arena.old k) 20 4 len)) }
{
    let o = 512 * k;
    number_block(&mut arena[o..o + 512], len);
}

// The same where it is lower.
pub fn raise(arena: &mut [u8], k: usize, len: u32)
    requires { k < blocks arena.old }
    ensures { arena.new ≡ pick (ltb (number_of (blk arena.old k)) len) (put_blk arena.old k (seal (le_put (blk arena.old k) 20 4 len))) arena.old }
{
    let o = 512 * k;
    if u32_at(&arena[o..o + 512], 20) >= len {
        return;
    }
    set_length(arena, k, len);
}

// The payload of block k becomes src from `off` on.
pub fn edit(arena: &mut [u8], k: usize, off: usize, src: &[u8])
    requires { (k < blocks arena.old) × (off + length src.now ≤ 480) }
    ensures { arena.new ≡ put_blk arena.old k (seal (paste (blk arena.old k) (24 + off) src.now)) }
{
    let o = 512 * k;
    edit_block(&mut arena[o..o + 512], off, src);
}

// Block k becomes block `number` of the file, zero but for src from `off` on.
pub fn write_new(
    arena: &mut [u8],
    k: usize,
    which: u8,
    name: &[u8; 16],
    number: u32,
    off: usize,
    src: &[u8],
)
    requires { (k < blocks arena.old) × (off + length src.now ≤ 480) }
    ensures { arena.new ≡ put_blk arena.old k (seal (paste (fresh 2 (file which name.now) number) (24 + off) src.now)) }
{
    let o = 512 * k;
    new_block(&mut arena[o..o + 512], which, name, number, off, src);
}

// The payload of block k becomes zero from `off` on.
fn clear_tail(arena: &mut [u8], k: usize, off: usize)
    requires { (k < blocks arena.old) × (off ≤ 480) }
    ensures { arena.new ≡ put_blk arena.old k (seal (paste (blk arena.old k) (24 + off) (replicate (480 - off) 0))) }
{
    let o = 512 * k;
    clear_block(&mut arena[o..o + 512], off);
}

// Block k becomes free where that is asked.
fn free_at(arena: &mut [u8], k: usize, yes: bool)
    requires { k < blocks arena.old }
    ensures { arena.new ≡ pick yes (put_blk arena.old k zeros) arena.old }
{
    if !yes {
        return;
    }
    let o = 512 * k;
    clear(&mut arena[o..o + 512]);
}

// The file's data blocks wholly past len become free.
pub fn free_past(arena: &mut [u8], which: u8, name: &[u8; 16], len: usize)
    ensures { arena.new ≡ clear_all (is_past (file which name.now) len) arena.old }
{
    for k in 0..arena.len() / 512 {
        let o = 512 * k;
        let yes = is_past(&arena[o..o + 512], which, name, len);
        free_at(arena, k, yes);
    }
}

// All blocks of the file become free.
pub fn drop_file(arena: &mut [u8], which: u8, name: &[u8; 16])
    ensures { arena.new ≡ clear_all (is_of (file which name.now)) arena.old }
{
    for k in 0..arena.len() / 512 {
        let o = 512 * k;
        let yes = is_of(&arena[o..o + 512], which, name);
        free_at(arena, k, yes);
    }
}

// ---- searches

// The lowest free block, or the number of blocks where there is none. All below `from` are in use.
pub fn next_free(arena: &[u8], from: usize) -> usize
    requires { from ≤ free_of arena.now }
    ensures { result ≡ free_of arena.now }
{
    let n = arena.len() / 512;
    for k in from..n {
        let o = 512 * k;
        if is_free(&arena[o..o + 512]) {
            return k;
        }
    }
    n
}

// Block `number` of the file.
fn find_data(arena: &[u8], which: u8, name: &[u8; 16], number: u32) -> usize
    ensures { result ≡ data_of arena.now (file which name.now) number }
{
    let n = arena.len() / 512;
    for k in 0..n {
        let o = 512 * k;
        if is_data(&arena[o..o + 512], which, name, number) {
            return k;
        }
    }
    n
}

// The bytes past len in the block that len falls into become zero.
pub fn zero_tail(arena: &mut [u8], which: u8, name: &[u8; 16], len: usize)
    requires { len ≤ 4294967295 }
    ensures { arena.new ≡ zero_tail arena.old (file which name.now) len }
{
    let k = find_data(&arena[..], which, name, (len / 480) as u32);
    if k >= arena.len() / 512 {
        return;
    }
    clear_tail(arena, k, len % 480);
}
