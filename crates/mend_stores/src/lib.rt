// The mender's stores (order 11), once nothing can refuse them, on the arena itself: files go first, then changed records by rising id, then
// superblock and maps. It has the fate of each id and the heads of files in `work`, and where the metadata file's blocks are in `places`.
#![tactic(auto)]

ghost use Rattle.std.specs.Prelude.{◌≡◌, true, List, ℕ, ◌+◌, ◌*◌, ◌<◌, ◌≤◌, length};
ghost use Rattle.base.specs.Out.{done, bind};
ghost use Rattle.structs.specs.Layout.{record_of, record_bytes};
ghost use Rattle.table.specs.declared.Table.{Table};
ghost use Rattle.arena.specs.Blocks.{blk, blocks};
ghost use Rattle.arena.specs.Fields.{File, file, name_of, number_of};
ghost use Rattle.arena.specs.Places.{free_of, free_count};
ghost use Rattle.files.specs.Read.{there};
ghost use Rattle.files.specs.Store.{put_block, clear_all, is_of};
ghost use Rattle.sefs.specs.Meta.{meta_file, store_maps, sync_meta};
ghost use Rattle.sefs.specs.Ask.{start};
ghost use Rattle.chains.specs.Led.{head_at, block_at};
ghost use Rattle.rules.specs.Image.{run, ids_in, stored_bytes};
ghost use Rattle.mem.specs.Mem.{super_in, maps_in, Mapped};
ghost use Rattle.fsck_read.specs.Loaded.{Loaded, Of};
ghost use Rattle.mending.specs.Mendable.{mendable};
ghost use Rattle.mending.specs.Mend.{mend_steps};
ghost use Rattle.mending.specs.Room.{wanted, given_back};
ghost use Rattle.mend_plan.specs.Plan.{Placed, Ready, Fated};
ghost use Rattle.mend_stores.specs.Stores.{state_of, Storable, PutInMeta, freed_in, renewed_by, FreedTo, Begun, StoredTo, MetaHasBlocks};

use base::{copy, index};
use inplace::drop_file;
use le::u32_at;
use mem::{map_bytes, put_bit, super_at, super_bytes};
use mend_plan::GONE;
use nodes::meta::map_at;
use plans::{put_block, read_block, touched};
use structs::{DiskINode, disk_inode_at, put_disk_inode};

// ---- the metadata file, by its places

// The bytes of block q from `off` on, as many as out takes.
fn read_place(arena: &[u8], places: &[u16], q: usize, off: usize, out: &mut [u8])
    requires placed { Placed arena.now places.now × (q < 1093) }
    requires out_bound { off + length out.old ≤ 480 }
    ensures { out.new ≡ run arena.now meta_file (480 * q + off) (length out.old) }
{
    read_block(arena, usize::from(places[q]), off, out);
}

// The id's record, in one block or two.
fn read_record(arena: &[u8], places: &[u16], id: usize, out: &mut [u8])
    requires { Placed arena.now places.now × ((id < 4096) × (length out.old ≡ 112)) }
    ensures { out.new ≡ stored_bytes arena.now id }
{
    let q = 128 * id / 480;
    let off = 128 * id % 480;
    let m = (480 - off).min(112);
    read_place(arena, places, q, off, &mut out[0..m]);
    if m == 112 {
        return;
    }
    read_place(arena, places, q + 1, 0, &mut out[m..112]);
}

// The bytes of src that fall into block q. A new block gets its place. No block below `from` is free, and none below the answer.
fn put_place(
    arena: &mut [u8],
    places: &mut [u16],
    pos: usize,
    src: &[u8],
    q: usize,
    from: usize,
) -> usize
    requires placed { (Placed arena.old places.old × (q < 1093)) × ((there arena.old meta_file ≡ true) × (blocks arena.old ≤ 4096)) }
    requires src_bound { (pos + length src.now ≤ 4294967295) × ((pos ≤ 480 * q + 480) × (480 * q ≤ pos + length src.now)) }
    requires from_bound { (from ≤ free_of arena.old) × (block_at arena.old meta_file q ≡ 0 → free_of arena.old < blocks arena.old) }
    ensures q_value { (put_block arena.old meta_file pos src.now q ≡ done arena.new) × (result ≤ free_of arena.old) }
    ensures placed_2 { Placed arena.new places.new × ((g : File) → head_at arena.new g ≡ head_at arena.old g) }
{
    let meta = [0u8; 16];
    let found = usize::from(places[q]);
    let k = put_block(arena, 0, &meta, pos, src, q, found, from);
    if found > 0 {
        return k;
    }
    places[q] = (k + 1) as u16;
    k
}

// src goes into the file from pos on, below its length: block by block, in rising order.
fn put_meta(arena: &mut [u8], places: &mut [u16], pos: usize, src: &[u8], from: usize) -> usize
    requires { Storable arena.old places.old pos (length src.now) from }
    ensures { PutInMeta arena.old arena.new places.new pos src.now result }
{
    let n = touched(pos, src.len());
    let q = pos / 480;
    let mut at = from;
    for i in 0..n {
        at = put_place(arena, places, pos, src, q + i, at);
    }
    at
}

// ---- files go first

// Node `id`, the head of whose file is block k: its bit is set and unused rises, in memory, and its file goes.
fn free_node(arena: &mut [u8], mem: &mut [u8], id: usize, k: usize)
    requires k_bound { (k < blocks arena.old) × Loaded mem.old }
    requires id_bound { (id < 1024 * (super_in mem.old).groups) × ((super_in mem.old).unused + 1 < 4294967296) }
    ensures arena_after { arena.new ≡ clear_all (is_of (file 1 (name_of (blk arena.old k)))) arena.old }
    ensures mapped { Mapped mem.old mem.new (freed_in mem.old id) }
{
    let mut name = [0u8; 16];
    let o = 512 * k + 4;
    copy(&mut name, &arena[o..o + 16]);
    let unused = super_at(&mem[..]).unused;
    put_bit(mem, id, true, unused + 1);
    drop_file(arena, 1, &name);
}

fn free_nodes(arena: &mut [u8], mem: &mut [u8], work: &[u16], n: usize)
    requires arena_value { (mendable arena.old ≡ true) × ((n ≡ ids_in arena.old) × Fated arena.old work.now n) }
    requires loaded { Loaded mem.old × Of arena.old mem.old }
    ensures { FreedTo arena.old arena.new mem.new n }
{
    for id in 0..n {
        if work[id] == GONE {
            free_node(arena, mem, id, usize::from(work[4096 + id]) - 1);
        }
    }
}

// ---- then changed records

// The record with these links, and with the length of its file, whose head is block k, where it is no folder's.
fn renewed(arena: &[u8], rec: DiskINode, links: u16, k: usize) -> DiskINode
    requires { k < blocks arena.now }
    ensures { result ≡ renewed_by rec links (number_of (blk arena.now k)) }
{
    let mut r = rec;
    r.nlinks = links;
    if rec.kind == 2 {
        return r;
    }
    let o = 512 * k;
    r.size = u32_at(&arena[o..o + 512], 20) as u64;
    r
}

fn store_record(
    arena: &mut [u8],
    places: &mut [u16],
    id: usize,
    links: u16,
    k: usize,
    from: usize,
) -> usize
    requires { Storable arena.old places.old (128 * id) 112 from × ((id < 4096) × (k < blocks arena.old)) }
    ensures { PutInMeta arena.old arena.new places.new (128 * id) (record_bytes (renewed_by (record_of (stored_bytes arena.old id)) links (number_of (blk arena.old k)))) result }
{
    let mut bytes = [0u8; 112];
    read_record(&arena[..], &places[..], id, &mut bytes);
    let rec = renewed(&arena[..], disk_inode_at(&bytes, 0), links, k);
    put_disk_inode(&mut bytes, 0, rec);
    put_meta(arena, places, 128 * id, &bytes, from)
}

// The arena was another before the files were gone: what is asked and what is said of it holds whichever it was.
fn store_records(arena: &mut [u8], work: &[u16], places: &mut [u16], n: usize) -> usize
    requires { (a : List ℕ) × ((m : List ℕ) × Begun a m arena.old work.now places.old n) }
    ensures { (a m : List ℕ) → Begun a m arena.old work.now places.old n → StoredTo a arena.new m places.new n result }
{
    let mut from: usize = 0;
    for id in 0..n {
        if work[id] != 0 && work[id] != GONE {
            from = store_record(
                arena,
                places,
                id,
                work[id],
                usize::from(work[4096 + id]) - 1,
                from,
            );
        }
    }
    from
}

// ---- then superblock and maps

fn store_maps(arena: &mut [u8], mem: &[u8], places: &mut [u16], groups: usize, from: usize)
    requires { MetaHasBlocks arena.old mem.now places.old from × (groups ≡ (super_in mem.now).groups) }
    ensures { store_maps arena.old (maps_in mem.now) groups ≡ done arena.new }
{
    let mut at = from;
    for g in 0..groups {
        at = put_meta(arena, places, map_at(g), map_bytes(mem, g), at);
    }
}

fn store_meta(arena: &mut [u8], mem: &[u8], places: &mut [u16], from: usize)
    requires { MetaHasBlocks arena.old mem.now places.old from }
    ensures { (t : Table) → sync_meta (state_of arena.old t mem.now) ≡ done (state_of arena.new t mem.now) }
{
    let at = put_meta(arena, places, 0, super_bytes(mem), from);
    let groups = super_at(mem).groups;
    store_maps(arena, mem, places, index(groups), at);
}

// ---- all of them

pub fn mend_stores(arena: &mut [u8], mem: &mut [u8], work: &[u16], places: &mut [u16])
    requires arena_value { (mendable arena.old ≡ true) × (wanted arena.old ≤ free_count arena.old + given_back arena.old) }
    requires loaded { (Loaded mem.old × Of arena.old mem.old) × Ready arena.old work.now places.old }
    ensures { (t : Table) → bind (mend_steps arena.old (start arena.old t)) (λ s. done s.arena) ≡ done arena.new }
{
    let n = 1024 * index(super_at(&mem[..]).groups);
    free_nodes(arena, mem, work, n);
    let from = store_records(arena, work, places, n);
    store_meta(arena, &mem[..], places, from);
}
