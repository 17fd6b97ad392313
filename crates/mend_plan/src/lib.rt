// What the mender finds out before its first store (order 11), by the chains: what becomes of each id, where heads and the metadata file's blocks
// are, and whether the blocks are enough.
#![tactic(auto)]

ghost use Rattle.std.specs.Prelude.{◌≡◌, true, false, List, ℕ, ◌+◌, ◌*◌, ◌-◌, ◌<◌, ◌≤◌, leb, length};
ghost use Rattle.base.specs.Told.{code};
ghost use Rattle.base.specs.Search.{pick};
ghost use Rattle.structs.specs.Types.{is_folder};
ghost use Rattle.table.specs.Table.{empty_table};
ghost use Rattle.arena.specs.Blocks.{blk, blocks};
ghost use Rattle.arena.specs.Fields.{file_of};
ghost use Rattle.arena.specs.Places.{free_count};
ghost use Rattle.files.specs.Read.{length_of};
ghost use Rattle.files_laws.specs.Laws.{lacking, own_count};
ghost use Rattle.sefs.specs.Meta.{meta_file};
ghost use Rattle.sefs.specs.Nodes.{node_file};
ghost use Rattle.rules.specs.Image.{ids_in, is_node};
ghost use Rattle.rules.specs.Image as image;
ghost use Rattle.mem.specs.Mem.{table_in, memory_size};
ghost use Rattle.chains.specs.Led.{Led, head_at};
ghost use Rattle.fsck_read.specs.Loaded.{Loaded, Of};
ghost use Rattle.mending.specs.Mendable.{rec_in, times_named, mendable};
ghost use Rattle.mending.specs.Mend.{lost, mended, changed};
ghost use Rattle.mending.specs.Room.{wanted_to, given_back_to, wanted, given_back};
ghost use Rattle.mend_plan.specs.Plan.{Fated, Placed, Ready, Decided};

use arena::free_count;
use base::{Reason, copy};
use chains::head_at;
use fsck_links::subfolders;
use fsck_read::{ids, is_node, rec_of};
use inplace::is_of;
use le::u32_at;
use mend_tests::can_mend;
use plans::{plan_blocks, touched};
use structs::DiskINode;

// The fate of an id that goes: more than any link count.
pub const GONE: u16 = 65535;

// A metadata file of four groups has so many blocks.
pub const META_BLOCKS: usize = 1093;

// ---- fates

// By rule 7, from the slots.
fn due_links(arena: &[u8], first: &[u16], next: &[u16], rec: DiskINode, named: u16) -> u16
    requires led { Led arena.now first.now next.now }
    requires rec_bound { is_folder rec.kind ≡ true → image.subfolders arena.now rec ≤ 8192 }
    ensures { result ≡ pick (is_folder rec.kind) (2 + image.subfolders arena.now rec) named }
{
    if rec.kind == 2 {
        return (2 + subfolders(arena, first, next, rec)) as u16;
    }
    named
}

// A folder's stays as it is; another node's is its file's length, which stands in the head.
fn due_size(arena: &[u8], rec: DiskINode, head: usize) -> u64
    requires { (head ≡ head_at arena.now (node_file rec)) × ((0 < head) × (head ≤ blocks arena.now)) }
    ensures { result ≡ pick (is_folder rec.kind) rec.size (length_of arena.now (node_file rec)) }
{
    if rec.kind == 2 {
        return rec.size;
    }
    let o = 512 * (head - 1);
    u32_at(&arena[o..o + 512], 20) as u64
}

// The fate of a node that stays: the links that its record is stored with, or 0 where links and size are right.
fn fate_of(
    arena: &[u8],
    first: &[u16],
    next: &[u16],
    id: usize,
    rec: DiskINode,
    named: u16,
    head: usize,
) -> u16
    requires led { Led arena.now first.now next.now }
    requires arena_value { (mendable arena.now ≡ true) × ((is_node arena.now id ≡ true) × (rec ≡ rec_in arena.now id)) }
    requires id_value { (lost arena.now id ≡ false) × ((named ≡ times_named arena.now id) × (head ≡ head_at arena.now (node_file rec))) }
    ensures { result ≡ pick (changed arena.now id) (mended arena.now id).nlinks 0 }
{
    let links = due_links(arena, first, next, rec, named);
    if rec.nlinks == links && rec.size == due_size(arena, rec, head) {
        return 0;
    }
    links
}

// `work` has how often the id is named, and then its fate; and in the second half the head of its file.
fn plan_id(arena: &[u8], first: &[u16], next: &[u16], mem: &[u8], work: &mut [u16], id: usize)
    requires led { Led arena.now first.now next.now }
    requires loaded { (Loaded mem.now × Of arena.now mem.now) × ((table_in mem.now ≡ empty_table) × (id < ids_in arena.now)) }
    requires arena_value { (mendable arena.now ≡ true) × Fated arena.now work.old id }
    ensures { Fated arena.now work.new (id + 1) }
{
    if !is_node(mem, id) {
        work[id] = 0;
        return;
    }
    let rec = rec_of(arena, first, next, mem, id);
    let file = rec.file;
    let head = head_at(arena, first, next, 1, &file);
    let named = work[id];
    work[4096 + id] = head as u16;
    if id != 2 && named == 0 {
        work[id] = GONE;
        return;
    }
    work[id] = fate_of(arena, first, next, id, rec, named, head);
}

fn plan_ids(arena: &[u8], first: &[u16], next: &[u16], mem: &[u8], work: &mut [u16])
    requires led { Led arena.now first.now next.now }
    requires loaded { (Loaded mem.now × Of arena.now mem.now) × (table_in mem.now ≡ empty_table) }
    requires arena_value { (mendable arena.now ≡ true) × Fated arena.now work.old 0 }
    ensures { Fated arena.now work.new (ids_in arena.now) }
{
    for id in 0..ids(mem) {
        plan_id(arena, first, next, mem, work, id);
    }
}

// ---- room

// How many blocks of the id's record are absent: it has one or two.
fn lacks(places: &[u16], id: usize) -> usize
    requires id_bound { id < 4096 }
    requires places_len { length places.now ≡ 1093 }
    ensures { (result ≤ 2) × ((a : List ℕ) → Placed a places.now → result ≡ lacking a meta_file (128 * id) 112) }
{
    let q = 128 * id / 480;
    let c = usize::from(places[q] == 0);
    if touched(128 * id, 112) == 1 {
        return c;
    }
    c + usize::from(places[q + 1] == 0)
}

// How many blocks the records lack that are to be stored.
fn wanted_by(work: &[u16], places: &[u16], n: usize) -> usize
    requires { (n ≤ 4096) × ((length work.now ≡ 8192) × (length places.now ≡ 1093)) }
    ensures { (a : List ℕ) → mendable a ≡ true → Fated a work.now n → Placed a places.now → result ≡ wanted_to a n }
{
    let mut c: usize = 0;
    for id in 0..n {
        if work[id] != 0 && work[id] != GONE {
            c += lacks(places, id);
        }
    }
    c
}

// How many blocks the file has whose head is block k.
fn own_count(arena: &[u8], k: usize) -> usize
    requires { k < blocks arena.now }
    ensures { (result ≡ own_count arena.now (file_of (blk arena.now k))) × (result ≤ blocks arena.now) }
{
    let mut name = [0u8; 16];
    let s = 512 * k;
    copy(&mut name, &arena[s + 4..s + 20]);
    let mut c: usize = 0;
    for i in 0..arena.len() / 512 {
        let o = 512 * i;
        c += usize::from(is_of(&arena[o..o + 512], arena[s + 1], &name));
    }
    c
}

// How many blocks the files have that go.
fn given_back(arena: &[u8], work: &[u16], n: usize) -> usize
    requires { (mendable arena.now ≡ true) × ((n ≤ ids_in arena.now) × Fated arena.now work.now n) }
    ensures { result ≡ given_back_to arena.now n }
{
    let mut c: usize = 0;
    for id in 0..n {
        if work[id] == GONE {
            c += own_count(arena, usize::from(work[4096 + id]) - 1);
        }
    }
    c
}

// What the files give back is counted only where the free blocks are not enough.
fn has_room(arena: &[u8], work: &[u16], places: &[u16], n: usize) -> bool
    requires { (mendable arena.now ≡ true) × ((n ≡ ids_in arena.now) × Ready arena.now work.now places.now) }
    ensures { result ≡ leb (wanted arena.now) (free_count arena.now + given_back arena.now) }
{
    let lacking = wanted_by(work, places, n);
    let free = free_count(arena);
    lacking <= free || lacking - free <= given_back(arena, work, n)
}

// ---- all of it

fn find_places(arena: &[u8], first: &[u16], next: &[u16], places: &mut [u16])
    requires led { Led arena.now first.now next.now }
    requires places_len { length places.old ≡ 1093 }
    ensures { Placed arena.now places.new }
{
    let meta = [0u8; 16];
    plan_blocks(arena, first, next, 0, &meta, 0, META_BLOCKS, places);
}

// What follows the tests of arena and table, by the chains that they left; the table in memory is the empty one. Nothing refuses the mender after it.
pub fn plan_mending(
    arena: &[u8],
    first: &[u16],
    next: &[u16],
    mem: &mut [u8],
    work: &mut [u16],
    places: &mut [u16],
) -> Result<(), Reason>
    requires led { Led arena.now first.now next.now }
    requires mem_len { (length mem.old ≡ memory_size) × (table_in mem.old ≡ empty_table) }
    requires work_len { (length work.old ≡ 8192) × (length places.old ≡ 1093) }
    ensures { Decided arena.now ((Loaded mem.new × Of arena.now mem.new) × Ready arena.now work.new places.new) (code result) }
{
    if !can_mend(arena, first, next, mem, work) {
        return Err(Reason::WrongFs);
    }
    plan_ids(arena, first, next, &mem[..], work);
    find_places(arena, first, next, places);
    let n = ids(&mem[..]);
    if has_room(arena, &work[..], &places[..], n) {
        return Ok(());
    }
    Err(Reason::NoDeviceSpace)
}
