// The arena's blocks, of 512 bytes each: their check, the block writer, new blocks, and what a block is.
#![tactic(auto)]

ghost use Rattle.std.specs.Prelude.{◌≡◌, length};
ghost use Rattle.base.specs.Decides.{same};
ghost use Rattle.arena.specs.Blocks.{legal as legal_arena};
ghost use Rattle.arena.specs.Fields.{check_of, seal, fresh, file, name_of, is_free, is_head, is_data};
ghost use Rattle.arena.specs.Places.{free_count};

use base::copy;
use le::{put_u32, u32_at, u64_at};

// How long a block is, and how many of them an arena may have.
pub const BLOCK: usize = 512;

pub const FEWEST_BLOCKS: usize = 16;

pub const MOST_BLOCKS: usize = 4096;

// What a block is, by its first byte.
pub const FREE: u8 = 0;

pub const HEAD: u8 = 1;

pub const DATA: u8 = 2;

// Whose it is, by its second byte: the metadata file's or a node file's.
pub const META_FILE: u8 = 0;

pub const NODE_FILE: u8 = 1;

// Where its fields stand: the file's name, up to its number; a data block's payload; the check.
pub const NAME_AT: usize = 4;

pub const NUMBER_AT: usize = 20;

pub const PAYLOAD_AT: usize = 24;

pub const PAYLOAD_END: usize = 504;

pub const CHECK_AT: usize = 508;

// How many bytes of its file a data block has.
pub const PAYLOAD: usize = 480;

// Whether the length is 16 to 4,096 whole blocks.
#[tactic(auto, unfolding(crate::specs::Blocks::legal))]
pub fn legal(arena: &[u8]) -> bool
    ensures { result ≡ legal_arena arena.now }
{
    let n = arena.len();
    n % BLOCK == 0 && n / BLOCK >= FEWEST_BLOCKS && n / BLOCK <= MOST_BLOCKS
}

// The sum over i from 0 to 507 of (i + 1) times byte i.
pub fn block_check(part: &[u8]) -> u32
    requires { length part.now ≡ 512 }
    ensures { result ≡ check_of part.now }
{
    let mut sum: u32 = 0;
    for (i, byte) in part[..CHECK_AT].iter().enumerate() {
        sum += (i as u32 + 1) * u32::from(*byte);
    }
    sum
}

// Fills the check.
#[tactic(auto, unfolding(crate::specs::Fields::seal))]
pub fn put_check(part: &mut [u8])
    requires { length part.old ≡ 512 }
    ensures { part.new ≡ seal part.old }
{
    let c = block_check(&part[..]);
    put_u32(part, CHECK_AT, c);
}

// The block writer: the part, lent from the arena's middle, becomes the block b with its check.
pub fn write_block(part: &mut [u8], b: &[u8])
    requires { (length part.old ≡ 512) × (length b.now ≡ 512) }
    ensures { part.new ≡ seal b.now }
{
    copy(part, b);
    put_check(part);
}

// A block of its own, with no check yet.
pub fn make_block(part: &mut [u8], tag: u8, which: u8, name: &[u8], number: u32)
    requires { (length part.old ≡ 512) × (length name.now ≡ 16) }
    ensures { part.new ≡ fresh tag (file which name.now) number }
{
    part.fill(0);
    part[0] = tag;
    part[1] = which;
    copy(&mut part[NAME_AT..NUMBER_AT], name);
    put_u32(part, NUMBER_AT, number);
}

// Whether the block bears that name.
fn same_name(part: &[u8], name: &[u8]) -> bool
    requires { (length part.now ≡ 512) × (length name.now ≡ 16) }
    ensures { result ≡ same (name_of part.now) name.now }
{
    u64_at(part, NAME_AT) == u64_at(name, 0) && u64_at(part, NAME_AT + 8) == u64_at(name, 8)
}

#[tactic(auto, unfolding(crate::specs::Fields::is_free))]
pub fn is_free(part: &[u8]) -> bool
    requires { length part.now ≡ 512 }
    ensures { result ≡ is_free part.now }
{
    part[0] == FREE
}

#[tactic(auto, unfolding(crate::specs::Fields::is_head, crate::specs::Fields::same_file))]
pub fn is_head(part: &[u8], which: u8, name: &[u8]) -> bool
    requires { (length part.now ≡ 512) × (length name.now ≡ 16) }
    ensures { result ≡ is_head (file which name.now) part.now }
{
    part[0] == HEAD && part[1] == which && same_name(part, name)
}

#[tactic(auto, unfolding(crate::specs::Fields::is_data, crate::specs::Fields::same_file))]
pub fn is_data(part: &[u8], which: u8, name: &[u8], number: u32) -> bool
    requires { (length part.now ≡ 512) × (length name.now ≡ 16) }
    ensures { result ≡ is_data (file which name.now) number part.now }
{
    part[0] == DATA
        && u32_at(part, NUMBER_AT) == number
        && part[1] == which
        && same_name(part, name)
}

// How many blocks are free.
pub fn free_count(arena: &[u8]) -> usize
    ensures { result ≡ free_count arena.now }
{
    let mut count = 0;
    for k in 0..arena.len() / BLOCK {
        let at = BLOCK * k;
        if is_free(&arena[at..at + BLOCK]) {
            count += 1;
        }
    }
    count
}
