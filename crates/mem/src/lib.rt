// What a call has in memory (000's SEFS), as bytes that the call lends to its steps: the table of open nodes in the layout of a table's
// bytes, and behind it the superblock and the free maps as they were at the call's start and as the steps since have changed them.
//   0     34 rows of 117 bytes: id, dirty mark, record
//   3978  32 holds of 13 bytes: row, stamp, owner
//   4394  the next stamp
//   4402  1 where superblock and maps could be read, else 0
//   4403  the superblock, 16 bytes
//   4419  the maps of up to four groups, 128 bytes each, up to 4931
#![tactic(auto)]

ghost use Rattle.std.specs.Prelude.{◌≡◌, true, ◌∷◌, ◌+◌, ◌*◌, ◌<◌, length, get_or, set, replicate, eqb};
ghost use Rattle.base.specs.Count.{bit};
ghost use Rattle.base.specs.Out.{done};
ghost use Rattle.base.specs.Parts.{part};
ghost use Rattle.base.specs.Search.{lowest, found_below};
ghost use Rattle.maps.specs.Maps.{bit_at, with_bit};
ghost use Rattle.table.specs.Table.{empty_table, row_at, names_row, row_of, row_used, take_row, with_row, with_dirty, free_row_at};
ghost use Rattle.table_bytes.specs.Layout.{table_of, bytes_of_table};
ghost use Rattle.sefs.specs.Create.{fresh_meta};
ghost use Rattle.sefs.specs.Meta.{super_with, grown};
ghost use Rattle.sefs.specs.Records.{with_links, with_blocks};
ghost use Rattle.mem.specs.Mem.{table_in, super_in, maps_in, meta_in, Whole, Tabled, Mapped, memory_size};

use base::{copy, index};
use le::{put_u16, put_u32, u16_at, u32_at};
use structs::{DiskINode, SEFS_MAGIC, SuperBlock, put_super_block, super_block_at};
use table::{Row, Table};
use table_bytes::{hold_in, row_in, settle_marks};

// Whether superblock and maps could be read; the superblock; the maps; how long it all is.
pub const META_AT: usize = 4402;

pub const SUPER_AT: usize = 4403;

pub const MAPS_AT: usize = 4419;

pub const MEMORY: usize = 4931;

// ---- rows

pub fn row_at(mem: &[u8], i: usize) -> Row
    requires { Whole mem.now × (i < 34) }
    ensures { result ≡ row_at (table_in mem.now) i }
{
    row_in(mem, 117 * i)
}

pub fn id_at(mem: &[u8], i: usize) -> u32
    requires { Whole mem.now × (i < 34) }
    ensures { result ≡ (row_at (table_in mem.now) i).id }
{
    u32_at(mem, 117 * i)
}

pub fn dirty_at(mem: &[u8], i: usize) -> bool
    requires { Whole mem.now × (i < 34) }
    ensures { result ≡ (row_at (table_in mem.now) i).dirty }
{
    mem[117 * i + 4] != 0
}

pub fn rec_at(mem: &[u8], i: usize) -> DiskINode
    requires { Whole mem.now × (i < 34) }
    ensures { result ≡ (row_at (table_in mem.now) i).rec }
{
    let row = row_at(mem, i);
    row.rec
}

// ---- fields of a row's record, where they stand: the record is copied nowhere

pub fn kind_at(mem: &[u8], i: usize) -> u32
    requires { Whole mem.now × (i < 34) }
    ensures { result ≡ (row_at (table_in mem.now) i).rec.kind }
{
    u32_at(mem, 117 * i + 13)
}

pub fn nlinks_at(mem: &[u8], i: usize) -> u16
    requires { Whole mem.now × (i < 34) }
    ensures { result ≡ (row_at (table_in mem.now) i).rec.nlinks }
{
    u16_at(mem, 117 * i + 19)
}

pub fn blocks_at(mem: &[u8], i: usize) -> u32
    requires { Whole mem.now × (i < 34) }
    ensures { result ≡ (row_at (table_in mem.now) i).rec.blocks }
{
    u32_at(mem, 117 * i + 21)
}

// The name of its file, 16 bytes.
pub fn file_at(mem: &[u8], i: usize) -> &[u8]
    requires { Whole mem.now × (i < 34) }
    ensures { (result.now ≡ (row_at (table_in mem.now) i).rec.file) × (length result.now ≡ 16) }
{
    let o = 117 * i + 85;
    &mem[o..o + 16]
}

// ---- rows that change

pub fn put_row(mem: &mut [u8], i: usize, row: Row)
    requires { Whole mem.old × (i < 34) }
    ensures { Tabled mem.old mem.new (with_row (table_in mem.old) i row) }
{
    table_bytes::put_row(mem, 117 * i, row);
}

// Row i with another record: any change marks it dirty.
pub fn set_rec(mem: &mut [u8], i: usize, rec: DiskINode)
    requires { Whole mem.old × (i < 34) }
    ensures { Tabled mem.old mem.new (take_row (table_in mem.old) i (row_at (table_in mem.old) i).id rec true) }
{
    let id = id_at(&mem[..], i);
    put_row(
        mem,
        i,
        Row {
            id,
            dirty: true,
            rec,
        },
    );
}

// One number of row i's record, which marks it dirty too.
pub fn set_links(mem: &mut [u8], i: usize, n: u16)
    requires { Whole mem.old × (i < 34) }
    ensures { Tabled mem.old mem.new (take_row (table_in mem.old) i (row_at (table_in mem.old) i).id (with_links (row_at (table_in mem.old) i).rec n) true) }
{
    put_u16(mem, 117 * i + 19, n);
    mem[117 * i + 4] = 1;
}

pub fn set_blocks(mem: &mut [u8], i: usize, n: u32)
    requires { Whole mem.old × (i < 34) }
    ensures { Tabled mem.old mem.new (take_row (table_in mem.old) i (row_at (table_in mem.old) i).id (with_blocks (row_at (table_in mem.old) i).rec n) true) }
{
    put_u32(mem, 117 * i + 21, n);
    mem[117 * i + 4] = 1;
}

pub fn put_dirty(mem: &mut [u8], i: usize, dirty: bool)
    requires { Whole mem.old × (i < 34) }
    ensures { Tabled mem.old mem.new (with_dirty (table_in mem.old) i dirty) }
{
    let mut row = row_at(&mem[..], i);
    row.dirty = dirty;
    put_row(mem, i, row);
}

// A freed row becomes all zero.
pub fn clear_row(mem: &mut [u8], i: usize)
    requires { Whole mem.old × (i < 34) }
    ensures { Tabled mem.old mem.new (free_row_at (table_in mem.old) i) }
{
    put_row(
        mem,
        i,
        Row {
            id: 0,
            dirty: false,
            rec: table::zero_record(),
        },
    );
}

// The lowest row with that id; id 0 asks for a free row.
pub fn find_row(mem: &[u8], id: u32) -> Option<usize>
    requires { Whole mem.now }
    ensures { result ≡ row_of (table_in mem.now) id }
{
    for i in 0..34 {
        if id_at(mem, i) == id {
            return Some(i);
        }
    }
    None
}

// ---- holds

fn names_row(mem: &[u8], n: usize, i: usize) -> bool
    requires { Whole mem.now × (n < 32) }
    ensures { result ≡ names_row (table_in mem.now) i n }
{
    let h = hold_in(mem, 3978 + 13 * n);
    (h.stamp != 0) & (index(h.row) == i)
}

// Whether a live hold names row i.
pub fn row_held(mem: &[u8], i: usize) -> bool
    requires { Whole mem.now }
    ensures { result ≡ row_used (table_in mem.now) i }
{
    for n in 0..32 {
        if names_row(mem, n, i) {
            return true;
        }
    }
    false
}

// ---- superblock and maps

pub fn has_meta(mem: &[u8]) -> bool
    requires { Whole mem.now }
    ensures { result ≡ eqb (get_or mem.now 4402 0) 1 }
{
    mem[4402] == 1
}

pub fn super_at(mem: &[u8]) -> SuperBlock
    requires { Whole mem.now }
    ensures { result ≡ super_in mem.now }
{
    super_block_at(mem, 4403)
}

pub fn super_bytes(mem: &[u8]) -> &[u8]
    requires { Whole mem.now }
    ensures { result.now ≡ part mem.now 4403 4419 }
{
    &mem[4403..4419]
}

pub fn map_bytes(mem: &[u8], group: usize) -> &[u8]
    requires { Whole mem.now × (group < 4) }
    ensures { result.now ≡ part mem.now (4419 + 128 * group) (4419 + 128 * group + 128) }
{
    let o = 4419 + 128 * group;
    &mem[o..o + 128]
}

// The lowest set bit of the groups' maps.
pub fn first_bit(mem: &[u8]) -> Option<usize>
    requires { Whole mem.now × (get_or mem.now 4402 0 ≡ 1) }
    ensures { result ≡ found_below (lowest (bit_at (maps_in mem.now)) (1024 * (super_in mem.now).groups)) (1024 * (super_in mem.now).groups) }
{
    let groups = super_at(mem).groups;
    maps::lowest_set(&mem[4419..MEMORY], index(groups))
}

pub fn bit_at(mem: &[u8], id: usize) -> bool
    requires whole { Whole mem.now × (id < 1024 * (super_in mem.now).groups) }
    requires mem_value { get_or mem.now 4402 0 ≡ 1 }
    ensures { result ≡ bit_at (maps_in mem.now) id }
{
    maps::bit_at(&mem[4419..MEMORY], id)
}

// Bit `id` and the count of unused ids, together.
pub fn put_bit(mem: &mut [u8], id: usize, b: bool, unused: u32)
    requires whole { Whole mem.old × (id < 1024 * (super_in mem.old).groups) }
    requires mem_value { get_or mem.old 4402 0 ≡ 1 }
    ensures { Mapped mem.old mem.new (record { super = super_with (super_in mem.old) (super_in mem.old).blocks unused (super_in mem.old).groups; maps = with_bit (maps_in mem.old) id b }) }
{
    let mut sb = super_at(&mem[..]);
    maps::put_bit(&mut mem[4419..MEMORY], id, b);
    sb.unused = unused;
    put_super_block(mem, 4403, sb);
}

// A new group: every bit of its map set but that of its own block, and the superblock counts it.
pub fn add_group(mem: &mut [u8])
    requires whole { Whole mem.old × (get_or mem.old 4402 0 ≡ 1) }
    requires mem_bound { ((super_in mem.old).groups < 4) × (((super_in mem.old).blocks + 1024 < 4294967296) × ((super_in mem.old).unused + 1023 < 4294967296)) }
    ensures { Mapped mem.old mem.new (grown (super_in mem.old) (maps_in mem.old)) }
{
    let mut sb = super_at(&mem[..]);
    let o = 4419 + 128 * index(sb.groups);
    put_map(&mut mem[o..o + 128], 253);
    sb.blocks += 1024;
    sb.unused += 1023;
    sb.groups += 1;
    put_super_block(mem, 4403, sb);
}

// A group's map: the first byte, and every bit of the others set.
fn put_map(map: &mut [u8], first: u8)
    requires { length map.old ≡ 128 }
    ensures { map.new ≡ first ∷ replicate 127 255 }
{
    map.fill(255);
    map[0] = first;
}

// ---- the start and the end of a call

pub fn table_at(mem: &[u8]) -> Table
    requires { length mem.now ≡ memory_size }
    ensures { result ≡ table_in mem.now }
{
    table_bytes::read_table(mem)
}

fn mark_of(b: bool) -> u8
    ensures { result ≡ bit b }
{
    b as u8
}

// Whether superblock and maps could be read.
pub fn put_flag(mem: &mut [u8], b: bool)
    requires { length mem.old ≡ memory_size }
    ensures { mem.new ≡ set mem.old 4402 (bit b) }
{
    mem[4402] = mark_of(b);
}

// A call's memory at its start: the table's bytes, and no superblock or map read yet.
pub fn put_table(mem: &mut [u8], t: Table)
    requires { length mem.old ≡ memory_size }
    ensures { (table_in mem.new ≡ t) × Whole mem.new }
{
    put_flag(mem, false);
    table_bytes::write_table(mem, t);
}

// The same from the table's bytes, with no table by value.
pub fn begin(mem: &mut [u8], table: &[u8])
    requires { (length mem.old ≡ memory_size) × (length table.now ≡ 4402) }
    ensures { (table_in mem.new ≡ table_of table.now) × Whole mem.new }
{
    put_flag(mem, false);
    copy(&mut mem[0..4402], table);
}

// The end of a call that was given the table's bytes: memory's table, written.
pub fn write_back(table: &mut [u8], mem: &[u8])
    requires { (length table.old ≡ 4402) × (length mem.now ≡ memory_size) }
    ensures { table.new ≡ bytes_of_table (table_in mem.now) }
{
    copy(table, &mem[0..4402]);
    settle_marks(table);
}

// No row in use, and no superblock or map read.
pub fn put_empty(mem: &mut [u8])
    requires { length mem.old ≡ memory_size }
    ensures { (table_in mem.new ≡ empty_table) × Whole mem.new }
{
    put_flag(mem, false);
    table_bytes::put_empty(mem);
}

// What format starts from: one group, with the bits of the superblock's and the map's own block clear.
pub fn fresh_meta(mem: &mut [u8])
    requires { length mem.old ≡ memory_size }
    ensures { (meta_in mem.new ≡ done fresh_meta) × (table_in mem.new ≡ table_in mem.old) × Whole mem.new }
{
    put_flag(mem, true);
    put_map(&mut mem[4419..4547], 252);
    put_super_block(
        mem,
        4403,
        SuperBlock {
            magic: SEFS_MAGIC,
            blocks: 1024,
            unused: 1022,
            groups: 1,
        },
    );
}
