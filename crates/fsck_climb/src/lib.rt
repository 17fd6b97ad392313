// Rule 8: each folder that has a place in the tree is named by the folder that its slot 1 names, and climbing by slot 1 reaches node 2. Each
// but the root is named once, so the slots are gone through where they name a folder.
#![tactic(auto)]

ghost use Rattle.std.specs.Prelude.{◌≡◌, ◌&&◌, ◌<◌, length};
ghost use Rattle.base.specs.Count.{all_to};
ghost use Rattle.base.specs.Parts.{part};
ghost use Rattle.mem.specs.Mem.{table_in};
ghost use Rattle.rules.specs.Image.{ids_in};
ghost use Rattle.rules.specs.Image as image;
ghost use Rattle.chains.specs.Led.{Led};
ghost use Rattle.fsck_read.specs.Loaded.{Loaded, Of};
ghost use Rattle.fsck_links.specs.Counts.{Counted};
ghost use Rattle.fsck_climb.specs.Way.{Ids, Named, up_by, up, ups, child_fine, children_fine, reaches_in, tree_fine, all_rooted};

use base::{index, index16};
use chains::slots::read_slot;
use fsck_read::{ids, is_node, rec_of};
use le::u32_at;
use structs::DiskINode;

// The id in slot 1, or 0 where it is none of the maps'.
fn parent_of(arena: &[u8], first: &[u16], next: &[u16], rec: DiskINode) -> u16
    requires { Led arena.now first.now next.now }
    ensures { (result ≡ up_by arena.now rec) × (result < 4096) }
{
    let mut slot = [0u8; 264];
    read_slot(arena, first, next, rec, 1, &mut slot);
    let id = u32_at(&slot, 0);
    if id < 4096 {
        return id as u16;
    }
    0
}

fn parent_at(arena: &[u8], first: &[u16], next: &[u16], mem: &[u8], id: usize) -> u16
    requires led { Led arena.now first.now next.now }
    requires loaded { (Loaded mem.now × Of arena.now mem.now) × (id < 4096) }
    ensures { (result ≡ up arena.now (table_in mem.now) id) × (result < 4096) }
{
    if !is_node(mem, id) {
        return 0;
    }
    let rec = rec_of(arena, first, next, mem, id);
    if rec.kind == 2 {
        return parent_of(arena, first, next, rec);
    }
    0
}

// What slot 1 of each folder names; 0 for other ids.
fn find_parents(arena: &[u8], first: &[u16], next: &[u16], mem: &[u8], parents: &mut [u16])
    requires led { Led arena.now first.now next.now }
    requires loaded { (Loaded mem.now × Of arena.now mem.now) × (length parents.old ≡ 4096) }
    ensures { parents.new ≡ ups arena.now (table_in mem.now) }
{
    for (id, parent) in parents.iter_mut().enumerate() {
        *parent = parent_at(arena, first, next, mem, id);
    }
}

// Slot k of folder `id`, where it names a folder, names one whose slot 1 names `id`.
fn child_ok(
    arena: &[u8],
    first: &[u16],
    next: &[u16],
    rec: DiskINode,
    id: usize,
    k: usize,
    parents: &[u16],
) -> bool
    requires led { Led arena.now first.now next.now }
    requires k_bound { (k < 4294967296) × (length parents.now ≡ 4096) }
    ensures { result ≡ child_fine arena.now parents.now rec id k }
{
    let mut slot = [0u8; 264];
    read_slot(arena, first, next, rec, k, &mut slot);
    if u32_at(&slot, 260) != 2 {
        return true;
    }
    let child = index(u32_at(&slot, 0)) % 4096;
    index16(parents[child]) == id
}

fn children_ok(
    arena: &[u8],
    first: &[u16],
    next: &[u16],
    rec: DiskINode,
    id: usize,
    parents: &[u16],
) -> bool
    requires led { Led arena.now first.now next.now }
    requires parents_len { length parents.now ≡ 4096 }
    ensures { result ≡ children_fine arena.now parents.now rec id }
{
    (2..index(rec.blocks)).all(|k| child_ok(arena, first, next, rec, id, k, parents))
}

// Climbing from `id`: a way up is no longer than the ids are many.
fn reaches_root(parents: &[u16], id: usize) -> bool
    requires { Ids parents.now × (id < 4096) }
    ensures { result ≡ reaches_in parents.now id 4097 }
{
    let mut at = id;
    for _ in 0..4097usize {
        if at == 2 {
            return true;
        }
        at = index16(parents[at]);
    }
    false
}

fn folder_ok(
    arena: &[u8],
    first: &[u16],
    next: &[u16],
    rec: DiskINode,
    id: usize,
    parents: &[u16],
) -> bool
    requires led { Led arena.now first.now next.now }
    requires ids { Ids parents.now × (id < 4096) }
    ensures { result ≡ (children_fine arena.now parents.now rec id && reaches_in parents.now id 4097) }
{
    children_ok(arena, first, next, rec, id, parents) && reaches_root(parents, id)
}

// A folder that no slot names has no place, but for the root.
fn node_ok(
    arena: &[u8],
    first: &[u16],
    next: &[u16],
    mem: &[u8],
    id: usize,
    named: u16,
    parents: &[u16],
) -> bool
    requires led { Led arena.now first.now next.now }
    requires loaded { (Loaded mem.now × Of arena.now mem.now) × (Ids parents.now × (id < 4096)) }
    requires named_value { named ≡ image.named arena.now (table_in mem.now) id }
    ensures { result ≡ tree_fine arena.now (table_in mem.now) parents.now id }
{
    if !is_node(mem, id) {
        return true;
    }
    if id != 2 && named == 0 {
        return true;
    }
    let rec = rec_of(arena, first, next, mem, id);
    if rec.kind == 2 {
        return folder_ok(arena, first, next, rec, id, parents);
    }
    true
}

fn nodes_ok(
    arena: &[u8],
    first: &[u16],
    next: &[u16],
    mem: &[u8],
    counts: &[u16],
    parents: &[u16],
) -> bool
    requires led { Led arena.now first.now next.now }
    requires loaded { (Loaded mem.now × Of arena.now mem.now) × Ids parents.now }
    requires counted { Counted arena.now (table_in mem.now) counts.now }
    ensures { result ≡ all_to (tree_fine arena.now (table_in mem.now) parents.now) (ids_in arena.now) }
{
    (0..ids(mem)).all(|id| node_ok(arena, first, next, mem, id, counts[id], parents))
}

fn tree_by(
    arena: &[u8],
    first: &[u16],
    next: &[u16],
    mem: &[u8],
    counts: &[u16],
    parents: &[u16],
) -> bool
    requires led { Led arena.now first.now next.now }
    requires loaded { Loaded mem.now × Of arena.now mem.now }
    requires named { Named arena.now (table_in mem.now) × Counted arena.now (table_in mem.now) counts.now }
    requires parents_value { parents.now ≡ ups arena.now (table_in mem.now) }
    ensures { result ≡ all_rooted arena.now (table_in mem.now) }
{
    parents[2] == 2 && nodes_ok(arena, first, next, mem, counts, parents)
}

// `work` has the counts in its first half; what slot 1 of each folder names goes to the second.
pub fn tree_ok(arena: &[u8], first: &[u16], next: &[u16], mem: &[u8], work: &mut [u16]) -> bool
    requires led { Led arena.now first.now next.now }
    requires loaded { Loaded mem.now × Of arena.now mem.now }
    requires work_len { (length work.old ≡ 8192) × (Named arena.now (table_in mem.now) × Counted arena.now (table_in mem.now) (part work.old 0 4096)) }
    ensures value { result ≡ all_rooted arena.now (table_in mem.now) }
    ensures work_unchanged { part work.new 0 4096 ≡ part work.old 0 4096 }
{
    find_parents(arena, first, next, mem, &mut work[4096..8192]);
    let w = &work[..];
    tree_by(arena, first, next, mem, &w[..4096], &w[4096..8192])
}
