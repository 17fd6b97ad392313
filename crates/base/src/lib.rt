// What every layer shares: the reasons of a refusal, a search with its bound, numbers made wider, and bytes copied and cleared.
#![tactic(auto)]

mod reasons;

ghost use Rattle.std.specs.Prelude.{◌≡◌, ◌<◌, min, max, length, replicate};
ghost use Rattle.base.specs.Count.{bit};
ghost use Rattle.base.specs.Search.{found_below};

pub use reasons::{Reason, code};

// A search that came to its bound has found none.
pub fn found_below(k: usize, bound: usize) -> Option<usize>
    ensures { result ≡ found_below k bound }
{
    if k < bound { Some(k) } else { None }
}

// A cast of a byte that was read asks that it fits; a cast of a parameter does not, and its bound is known here.
pub fn wide(x: u8) -> u32
    ensures { (result ≡ x) × (result < 256) }
{
    x as u32
}

// A test as a number.
pub fn one(b: bool) -> u8
    ensures { result ≡ bit b }
{
    b as u8
}

// The same number, as an index.
pub fn byte(x: u8) -> usize
    ensures { result ≡ x }
{
    x as usize
}

pub fn index(x: u32) -> usize
    ensures { result ≡ x }
{
    x as usize
}

pub fn index16(x: u16) -> usize
    ensures { result ≡ x }
{
    x as usize
}

pub fn least(a: usize, b: usize) -> usize
    ensures { result ≡ min a b }
{
    a.min(b)
}

pub fn most(a: usize, b: usize) -> usize
    ensures { result ≡ max a b }
{
    a.max(b)
}

// All of dst becomes src. A loop, since copy_from_slice may call memmove: an archive for C needs memcpy and memset from outside, and no more.
pub fn copy(dst: &mut [u8], src: &[u8])
    requires { length dst.old ≡ length src.now }
    ensures { dst.new ≡ src.now }
{
    for i in 0..dst.len() {
        dst[i] = src[i];
    }
}

// All of dst becomes zero.
pub fn clear(dst: &mut [u8])
    ensures { dst.new ≡ replicate (length dst.old) 0 }
{
    dst.fill(0);
}
