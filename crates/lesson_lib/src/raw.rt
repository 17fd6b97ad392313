// What the bytes of an image of 16 blocks tell, where no call tells it. It stands in a world, behind the 4,402 bytes of the table.
ghost use Rattle.std.specs.Prelude.{◌≡◌, ◌+◌, ◌%◌, ◌<◌, ◌≤◌, length};

use arena::{free_count, is_data, is_head, put_check};
use base::copy;
use le::{put_u32, u32_at};
use structs::super_block_at;

// Where the maps of the first two groups begin in the metadata file.
pub const FIRST_MAP: u32 = 128;

pub const SECOND_MAP: u32 = 131200;

// Where the superblock begins there, and the records of the root and of node 4; and how long each of these is.
const SUPER_BLOCK: u32 = 0;

const ROOT_RECORD: u32 = 256;

const RECORD_4: u32 = 512;

const SUPER_BYTES: usize = 16;

const MAP_BYTES: usize = 128;

const RECORD_BYTES: usize = 112;

// The root's file is named by 16 ones, and that of the glyph whose create stops by 16 threes.
const ROOT_FILE: u8 = 1;

const NEW_FILE: u8 = 3;

// How many blocks are in use.
pub fn used(arena: &[u8]) -> u64
    requires { length arena.now ≡ 8192 }
{
    let free = free_count(arena);
    16 - free as u64
}

// A block of a file: its head, or its data with that number.
#[derive(Clone, Copy)]
enum Piece {
    Head,
    Data(u32),
}

fn is_piece(block: &[u8; 512], which: u8, name: &[u8; 16], p: Piece) -> bool {
    match p {
        Piece::Head => is_head(block, which, name),
        Piece::Data(n) => is_data(block, which, name, n),
    }
}

// The block that has it. Where there is none it is block 0: format puts the head of the metadata file there, and a head's payload is zeros, as
// an absent block reads.
fn block_of(arena: &[u8], which: u8, name: &[u8; 16], p: Piece) -> usize
    requires { length arena.now ≡ 8192 }
    ensures { result < 16 }
{
    let (blocks, _) = arena.as_chunks::<512>();
    for (k, block) in blocks.iter().enumerate() {
        if is_piece(block, which, name, p) {
            return k;
        }
    }
    0
}

// How long a file is, by its head.
fn length_of(world: &[u8], which: u8, name: &[u8; 16]) -> u64
    requires { length world.now ≡ 12594 }
{
    let o = 512 * block_of(&world[4402..], which, name, Piece::Head);
    u64::from(u32_at(world, o + 4422))
}

pub fn meta_length(world: &[u8]) -> u64
    requires { length world.now ≡ 12594 }
{
    length_of(world, 0, &[0u8; 16])
}

pub fn root_length(world: &[u8]) -> u64
    requires { length world.now ≡ 12594 }
{
    length_of(world, 1, &[ROOT_FILE; 16])
}

// Where a block of the metadata file's data begins.
fn meta_at(world: &[u8], number: u32) -> usize
    requires { length world.now ≡ 12594 }
    ensures { result + 512 ≤ 12594 }
{
    4402 + 512 * block_of(&world[4402..], 0, &[0u8; 16], Piece::Data(number))
}

// The superblock's count of free node numbers.
pub fn unused(world: &[u8]) -> u64
    requires { length world.now ≡ 12594 }
{
    let o = meta_at(world, 0);
    u64::from(super_block_at(world, o + 24).unused)
}

// A byte of the metadata file.
pub fn meta_byte(world: &[u8], pos: u32) -> u8
    requires { length world.now ≡ 12594 }
{
    let o = meta_at(world, pos / 480);
    world[o + 24 + (pos % 480) as usize]
}

// Whether two worlds have the same image.
pub fn same_image(a: &[u8], b: &[u8]) -> bool
    requires { (4402 ≤ length a.now) × (4402 ≤ length b.now) }
{
    a[4402..] == b[4402..]
}

// The metadata file's first block, with unused 0 and no bit set in the first map.
fn use_all(block: &mut [u8])
    requires { length block.old ≡ 512 }
{
    put_u32(block, 32, 0);
    block[152..280].fill(0);
    put_check(block);
}

// The first group has no number left.
pub fn fill_group(world: &mut [u8])
    requires { length world.old ≡ 12594 }
{
    let o = meta_at(world, 0);
    use_all(&mut world[o..o + 512]);
}

// ---- a create that stops half way: its stores are taken over one by one from the world in which it was done. Our own create can't be stopped
// between them: it decides first, and then writes whole blocks by rising number. Both worlds have each block at the same place, since a new one
// is the lowest that is free.

// 000's stores of a create of a file in the root, where no group comes, in their order. The glyph is node 4.
#[derive(Clone, Copy)]
pub enum Store {
    NewFile,
    Slot,
    SuperBlock,
    Map,
    NewRecord,
    RootRecord,
}

// A block of a node's file.
fn take_block(world: &mut [u8], whole: &[u8], n: u8, p: Piece)
    requires { (length world.old ≡ 12594) × (length whole.now ≡ 12594) }
{
    let o = 4402 + 512 * block_of(&whole[4402..], 1, &[n; 16], p);
    copy(&mut world[o..o + 512], &whole[o..o + 512]);
}

// The root's slot 3, which is one store with the length that it brings: bytes 792 to 1055, in the second and third block.
fn take_slot(world: &mut [u8], whole: &[u8])
    requires { (length world.old ≡ 12594) × (length whole.now ≡ 12594) }
{
    take_block(world, whole, ROOT_FILE, Piece::Head);
    take_block(world, whole, ROOT_FILE, Piece::Data(1));
    take_block(world, whole, ROOT_FILE, Piece::Data(2));
}

// A part of a block, and its check anew.
fn take_part(block: &mut [u8], whole: &[u8], from: usize, n: usize)
    requires { (length block.old ≡ 512) × ((length whole.now ≡ 512) × (from + n ≤ 512)) }
{
    let to = from + n;
    copy(&mut block[from..to], &whole[from..to]);
    put_check(block);
}

// A part of the metadata file that lies in one block.
fn take_meta(world: &mut [u8], whole: &[u8], pos: u32, n: usize)
    requires { (length world.old ≡ 12594) × ((length whole.now ≡ 12594) × (pos % 480 + n ≤ 480)) }
{
    let o = meta_at(whole, pos / 480);
    let from = 24 + (pos % 480) as usize;
    take_part(&mut world[o..o + 512], &whole[o..o + 512], from, n);
}

pub fn take_store(world: &mut [u8], whole: &[u8], s: Store)
    requires { (length world.old ≡ 12594) × (length whole.now ≡ 12594) }
{
    match s {
        Store::NewFile => take_block(world, whole, NEW_FILE, Piece::Head),
        Store::Slot => take_slot(world, whole),
        Store::SuperBlock => take_meta(world, whole, SUPER_BLOCK, SUPER_BYTES),
        Store::Map => take_meta(world, whole, FIRST_MAP, MAP_BYTES),
        Store::NewRecord => take_meta(world, whole, RECORD_4, RECORD_BYTES),
        Store::RootRecord => take_meta(world, whole, ROOT_RECORD, RECORD_BYTES),
    }
}
