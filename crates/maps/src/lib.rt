// The free maps of up to four groups, 128 bytes each, joined. A set bit means a free block.
#![tactic(auto)]

ghost use Rattle.std.specs.Prelude.{◌≡◌, ◌+◌, ◌*◌, ◌/◌, ◌≤◌, ◌<◌, length};
ghost use Rattle.base.specs.Search.{lowest, found_below};
ghost use Rattle.maps.specs.Maps.{bit_of, put_bit, bit_at, with_bit, set_bits};

use base::one;

// A map is a block of the metadata file, of 128 bytes: a bit for each of 1,024 blocks.
pub const BLKSIZE: usize = 128;

pub const BLKBITS: usize = 1024;

fn bit_of(x: u8, k: usize) -> bool
    requires { k < 8 }
    ensures { result ≡ bit_of x k }
{
    (x >> k) % 2 == 1
}

fn put_bit_of(x: u8, k: usize, b: bool) -> u8
    requires { k < 8 }
    ensures { result ≡ put_bit x k b }
{
    let p = 1u8 << k;
    let old = one(bit_of(x, k));
    let new = one(b);
    x - old * p + new * p
}

// Is block i free?
pub fn bit_at(maps: &[u8], i: usize) -> bool
    requires { i / 8 < length maps.now }
    ensures { result ≡ bit_at maps.now i }
{
    bit_of(maps[i / 8], i % 8)
}

// Block i becomes free, or used.
pub fn put_bit(maps: &mut [u8], i: usize, b: bool)
    requires { i / 8 < length maps.old }
    ensures { maps.new ≡ with_bit maps.old i b }
{
    let at = i / 8;
    let x = maps[at];
    maps[at] = put_bit_of(x, i % 8, b);
}

// The lowest set bit of the lowest group that has one.
pub fn lowest_set(maps: &[u8], groups: usize) -> Option<usize>
    requires { (groups ≤ 4) × (128 * groups ≤ length maps.now) }
    ensures { result ≡ found_below (lowest (bit_at maps.now) (1024 * groups)) (1024 * groups) }
{
    let id = 'search: {
        for group in 0..groups {
            for byte in 0..BLKSIZE {
                let x = maps[BLKSIZE * group + byte];
                for k in 0..8 {
                    if bit_of(x, k) {
                        break 'search BLKBITS * group + 8 * byte + k;
                    }
                }
            }
        }
        BLKBITS * groups
    };
    base::found_below(id, BLKBITS * groups)
}

// How many blocks are free.
pub fn count_set(maps: &[u8], groups: usize) -> u32
    requires { (groups ≤ 4) × (128 * groups ≤ length maps.now) }
    ensures { result ≡ set_bits maps.now (1024 * groups) }
{
    let mut count = 0;
    for i in 0..BLKBITS * groups {
        if bit_at(maps, i) {
            count += 1;
        }
    }
    count
}
