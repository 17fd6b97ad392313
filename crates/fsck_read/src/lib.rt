// What the checker reads first: superblock, maps and records (rules 3 and 4); and a slot's name.
#![tactic(auto)]

ghost use Rattle.std.specs.Prelude.{◌≡◌, true, ◌||◌, List, ℕ, ◌*◌, ◌<◌, ◌≤◌, length};
ghost use Rattle.base.specs.Count.{bit, all_to};
ghost use Rattle.base.specs.Decides.{same};
ghost use Rattle.structs.specs.Layout.{record_of, record_bytes, entry_of};
ghost use Rattle.utf8.specs.Names.{name_of};
ghost use Rattle.table.specs.Table.{row_at};
ghost use Rattle.sefs.specs.Meta.{meta_file};
ghost use Rattle.mem.specs.Mem.{table_in, memory_size};
ghost use Rattle.mem.specs.Mem as memory;
ghost use Rattle.rules.specs.Image.{run, stored_super, ids_in, is_node, stored_bytes, rec_of, is_open, node_count};
ghost use Rattle.rules.specs.Tests.{test3, test4, row_allowed};
ghost use Rattle.chains.specs.Led.{Led};
ghost use Rattle.fsck_read.specs.Loaded.{Loaded, Of, super_fine, Put, Mapped, maps_clear};

use base::index;
use chains::{length_of, read_run};
use mem::{MEMORY, bit_at, dirty_at, find_row, id_at, put_flag, rec_at, super_at};
use structs::{DiskINode, SEFS_MAGIC, SuperBlock, disk_inode_at, put_super_block, super_block_at};
use utf8::{equal, first_zero};

fn read_meta(arena: &[u8], first: &[u16], next: &[u16], pos: usize, out: &mut [u8])
    requires led { Led arena.now first.now next.now }
    requires pos_bound { (pos < 2061584301600) × (length out.old ≤ 480) }
    ensures { out.new ≡ run arena.now meta_file pos (length out.old) }
{
    let meta = [0u8; 16];
    read_run(arena, first, next, 0, &meta, pos, out);
}

// ---- rule 3

// Magic, groups 1 to 4, the metadata file's length, blocks.
#[tactic(auto, unfolding(crate::specs::Loaded::super_fine))]
fn super_ok(b: SuperBlock, len: usize) -> bool
    ensures { result ≡ super_fine b len }
{
    b.magic == SEFS_MAGIC
        && (1..=4).contains(&b.groups)
        && len == 131072 * index(b.groups)
        && b.blocks == 1024 * b.groups
}

// The superblock, and the mark that it is there.
fn put_super(mem: &mut [u8], b: SuperBlock)
    requires { (length mem.old ≡ memory_size) × ((0 < b.groups) × (b.groups ≤ 4)) }
    ensures { Put mem.old mem.new b }
{
    put_flag(mem, true);
    put_super_block(mem, 4403, b);
}

fn load_maps(arena: &[u8], first: &[u16], next: &[u16], mem: &mut [u8], groups: usize)
    requires led { Led arena.now first.now next.now }
    requires mem_len { (length mem.old ≡ memory_size) × (groups ≤ 4) }
    ensures { Mapped arena.now mem.old mem.new groups }
{
    for g in 0..groups {
        let o = 4419 + 128 * g;
        read_meta(
            arena,
            first,
            next,
            128 * (1024 * g + 1),
            &mut mem[o..o + 128],
        );
    }
}

fn read_super(arena: &[u8], first: &[u16], next: &[u16]) -> SuperBlock
    requires { Led arena.now first.now next.now }
    ensures { result ≡ stored_super arena.now }
{
    let mut l = [0u8; 16];
    read_meta(arena, first, next, 0, &mut l);
    super_block_at(&l, 0)
}

// Superblock and maps go to `mem`.
pub fn rule3(arena: &[u8], first: &[u16], next: &[u16], mem: &mut [u8]) -> bool
    requires led { Led arena.now first.now next.now }
    requires mem_len { length mem.old ≡ memory_size }
    ensures value { result ≡ test3 arena.now }
    ensures loaded { result ≡ true → (Loaded mem.new × Of arena.now mem.new) × (table_in mem.new ≡ table_in mem.old) }
{
    let meta = [0u8; 16];
    let n = length_of(arena, first, next, 0, &meta);
    if n < 17 {
        return false;
    }
    let b = read_super(arena, first, next);
    if !super_ok(b, n - 1) {
        return false;
    }
    load_maps(arena, first, next, mem, index(b.groups));
    put_super(mem, b);
    maps::count_set(&mem[4419..MEMORY], index(b.groups)) == b.unused
}

// ---- rule 4

// How many ids the maps have.
pub fn ids(mem: &[u8]) -> usize
    requires { Loaded mem.now }
    ensures value { (result ≡ 1024 * (memory.super_in mem.now).groups) × ((1024 ≤ result) × (result ≤ 4096)) }
    ensures by_index { (a : List ℕ) → Of a mem.now → result ≡ ids_in a }
{
    1024 * index(super_at(mem).groups)
}

// Not 0, no map's block, and its bit is clear.
pub fn is_node(mem: &[u8], id: usize) -> bool
    requires { Loaded mem.now }
    ensures id_bound { result ≡ true → id < 4096 }
    ensures by_index { (a : List ℕ) → Of a mem.now → result ≡ is_node a id }
{
    id != 0 && id < ids(mem) && id % 1024 != 1 && !bit_at(mem, id)
}

// A test as a number.
pub fn one(b: bool) -> u32
    ensures { (result ≡ bit b) × (result ≤ 1) }
{
    b as u32
}

pub fn count_nodes(mem: &[u8]) -> u32
    requires { Loaded mem.now }
    ensures { (a : List ℕ) → Of a mem.now → result ≡ node_count a }
{
    let mut c: u32 = 0;
    for id in 0..ids(mem) {
        c += one(is_node(mem, id));
    }
    c
}

// The bits of the maps' own blocks are clear.
fn maps_clear(mem: &[u8]) -> bool
    requires { Loaded mem.now }
    ensures { result ≡ maps_clear mem.now }
{
    (0..ids(mem) / 1024).all(|g| !bit_at(mem, 1024 * g + 1))
}

// A clean row equals its stored record.
fn clean_ok(arena: &[u8], first: &[u16], next: &[u16], mem: &[u8], i: usize) -> bool
    requires led { Led arena.now first.now next.now }
    requires loaded { Loaded mem.now × (i < 34) }
    ensures { result ≡ ((row_at (table_in mem.now) i).dirty || same (record_bytes (row_at (table_in mem.now) i).rec) (stored_bytes arena.now (row_at (table_in mem.now) i).id)) }
{
    if dirty_at(mem, i) {
        return true;
    }
    let mut l = [0u8; 112];
    read_meta(arena, first, next, 128 * index(id_at(mem, i)), &mut l);
    let o = 117 * i + 5;
    equal(&l, &mem[o..o + 112])
}

// A row's id is a node's.
fn row_ok(arena: &[u8], first: &[u16], next: &[u16], mem: &[u8], i: usize) -> bool
    requires led { Led arena.now first.now next.now }
    requires loaded { (Loaded mem.now × Of arena.now mem.now) × (i < 34) }
    ensures { result ≡ row_allowed arena.now (table_in mem.now) i }
{
    let id = index(id_at(mem, i));
    if id == 0 {
        return true;
    }
    if !is_node(mem, id) {
        return false;
    }
    clean_ok(arena, first, next, mem, i)
}

fn rows_ok(arena: &[u8], first: &[u16], next: &[u16], mem: &[u8]) -> bool
    requires led { Led arena.now first.now next.now }
    requires loaded { Loaded mem.now × Of arena.now mem.now }
    ensures { result ≡ all_to (row_allowed arena.now (table_in mem.now)) 34 }
{
    (0..34).all(|i| row_ok(arena, first, next, mem, i))
}

pub fn rule4(arena: &[u8], first: &[u16], next: &[u16], mem: &[u8]) -> bool
    requires led { Led arena.now first.now next.now }
    requires loaded { Loaded mem.now × Of arena.now mem.now }
    ensures { result ≡ test4 arena.now (table_in mem.now) }
{
    !bit_at(mem, 0) && !bit_at(mem, 2) && maps_clear(mem) && rows_ok(arena, first, next, mem)
}

// ---- records

// As it is stored, whatever is open.
pub fn stored_rec(arena: &[u8], first: &[u16], next: &[u16], id: usize) -> DiskINode
    requires led { Led arena.now first.now next.now }
    requires id_bound { id < 4096 }
    ensures { result ≡ record_of (stored_bytes arena.now id) }
{
    let mut l = [0u8; 112];
    read_meta(arena, first, next, 128 * id, &mut l);
    disk_inode_at(&l, 0)
}

// The cached record where a row exists.
pub fn rec_of(arena: &[u8], first: &[u16], next: &[u16], mem: &[u8], id: usize) -> DiskINode
    requires led { Led arena.now first.now next.now }
    requires loaded { Loaded mem.now × (id < 4096) }
    ensures { result ≡ rec_of arena.now (table_in mem.now) id }
{
    let f = find_row(mem, id as u32);
    match f {
        Some(i) => rec_at(mem, i),
        None => stored_rec(arena, first, next, id),
    }
}

pub fn is_open(mem: &[u8], id: usize) -> bool
    requires { Loaded mem.now × (id < 4096) }
    ensures { result ≡ is_open (table_in mem.now) id }
{
    let f = find_row(mem, id as u32);
    match f {
        Some(_) => true,
        None => false,
    }
}

// ---- slots

// The name in a slot's bytes: those before its zero.
pub fn name_of(slot: &[u8]) -> &[u8]
    requires { length slot.now ≡ 264 }
    ensures { result.now ≡ name_of (entry_of slot.now).name }
{
    let n = 4 + first_zero(&slot[4..260]);
    &slot[4..n]
}
