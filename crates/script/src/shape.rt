// Whether a command's bytes are all there and its lengths within their limits: how many bytes it has, or 0 where it breaks the format.
ghost use Rattle.std.specs.Prelude.{◌+◌, ◌<◌, ◌≤◌, length};

use base::{index, index16};
use le::{u16_at, u32_at};

// n bytes.
fn whole(rest: &[u8], n: usize) -> usize
    ensures { (result ≤ length rest.now) × (result ≤ n) }
{
    if n <= rest.len() {
        return n;
    }
    0
}

// An arena's length, which the arena takes: 1 has as many bytes too, 2 has none.
fn arena_size(rest: &[u8], limit: usize) -> usize
    ensures { result ≤ length rest.now }
{
    if rest.len() < 5 {
        return 0;
    }
    let n = index(u32_at(rest, 1));
    if n > limit {
        return 0;
    }
    if rest[0] == 2 {
        return 5;
    }
    whole(rest, 5 + n)
}

// n bytes, a length of at most `longest`, as many bytes, and `more` bytes.
fn named(rest: &[u8], n: usize, longest: usize, more: usize) -> usize
    requires { (n ≤ 65536) × ((longest ≤ 8192) × (more ≤ 64)) }
    ensures { (result ≤ length rest.now) × (result ≤ n + (longest + (more + 2))) }
{
    if rest.len() < n + 2 {
        return 0;
    }
    let m = index16(u16_at(rest, n));
    if m > longest {
        return 0;
    }
    whole(rest, n + 2 + m + more)
}

// Two names, each after a handle, behind who asks: move.
fn named_twice(rest: &[u8]) -> usize
    ensures { result ≤ length rest.now }
{
    let n = named(rest, 14, 1024, 12);
    if n == 0 {
        return 0;
    }
    named(rest, n, 1024, 0)
}

// n bytes and an output's length.
fn with_output(rest: &[u8], n: usize) -> usize
    requires { n ≤ 65536 }
    ensures { result ≤ length rest.now }
{
    if rest.len() < n + 2 {
        return 0;
    }
    if u16_at(rest, n) > 8192 {
        return 0;
    }
    n + 2
}

// A path after who asks and a handle, and an output's length after it: walk.
fn path_output(rest: &[u8]) -> usize
    ensures { result ≤ length rest.now }
{
    let n = named(rest, 14, 8192, 0);
    if n == 0 {
        return 0;
    }
    with_output(rest, n)
}

// Who asks, a handle, a mode, which is at most 5, its flags and a range: fallocate.
fn ranged(rest: &[u8]) -> usize
    ensures { result ≤ length rest.now }
{
    if rest.len() < 32 {
        return 0;
    }
    if rest[14] > 5 {
        return 0;
    }
    32
}

// The commands of one size each.
fn fixed(c: u8) -> usize {
    match c {
        3 => 6,
        4 => 4403,
        16 => 33,
        17 | 28 | 30 | 39 => 1,
        18 => 2,
        24 | 29 => 14,
        25 => 80,
        34 => 22,
        _ => 0,
    }
}

// The command that `rest` begins with, by its first byte: all sizes of docs/REPLAY.md. An arena may have `limit` bytes.
pub fn size_of(rest: &[u8], limit: usize) -> usize
    requires { 0 < length rest.now }
    ensures { result ≤ length rest.now }
{
    match rest[0] {
        1 | 2 => arena_size(rest, limit),
        19 | 36 | 37 => named(rest, 14, 1024, 0),
        20 => named(rest, 14, 1024, 38),
        21 => named(rest, 14, 1024, 12),
        23 => named_twice(rest),
        26 | 32 => with_output(rest, 22),
        27 => with_output(rest, 23),
        33 => named(rest, 22, 8192, 0),
        35 => path_output(rest),
        38 => with_output(rest, 1),
        40 => ranged(rest),
        41 => with_output(rest, 14),
        c => whole(rest, fixed(c)),
    }
}
