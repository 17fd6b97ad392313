// How often each id is named by later slots, and rule 7: link counts.
#![tactic(auto)]

ghost use Rattle.std.specs.Prelude.{◌≡◌, true, not, ◌&&◌, ◌||◌, List, ℕ, ◌+◌, ◌<◌, eqb, length};
ghost use Rattle.table.specs.declared.Table.{Table};
ghost use Rattle.mem.specs.Mem.{table_in};
ghost use Rattle.rules.specs.Image.{is_open, names_in};
ghost use Rattle.rules.specs.Image as image;
ghost use Rattle.rules.specs.Tests.{test5, test7, folders_allowed, named_due, loose, linked, removed};
ghost use Rattle.chains.specs.Led.{Led};
ghost use Rattle.fsck_read.specs.Loaded.{Loaded, Of};
ghost use Rattle.fsck_links.specs.Counts.{up_to, Holds, Counted, Below, names_at, links_at, names_fine, folders_named};

use base::{index, index16};
use chains::slots::read_slot;
use fsck_read::{ids, is_node, is_open, one, rec_of};
use le::u32_at;
use structs::DiskINode;

// ---- the counts

// One more, as far as a count goes.
fn more(n: u16) -> u16
    ensures { (x : ℕ) → n ≡ up_to x → result ≡ up_to (x + 1) }
{
    n.saturating_add(1)
}

// The later slots of one folder, by the id that they name.
fn count_folder(arena: &[u8], first: &[u16], next: &[u16], rec: DiskINode, counts: &mut [u16])
    requires led { Led arena.now first.now next.now }
    requires below { Below arena.now rec × (length counts.old ≡ 4096) }
    ensures { (n : ℕ → ℕ) → Holds counts.old n → Holds counts.new (λ i. n i + names_in arena.now rec i) }
{
    let mut slot = [0u8; 264];
    for k in 2..index(rec.blocks) {
        read_slot(arena, first, next, rec, k, &mut slot);
        let id = index(u32_at(&slot, 0)) % 4096;
        counts[id] = more(counts[id]);
    }
}

fn count_node(arena: &[u8], first: &[u16], next: &[u16], mem: &[u8], id: usize, counts: &mut [u16])
    requires led { Led arena.now first.now next.now }
    requires loaded { (Loaded mem.now × Of arena.now mem.now) × ((length counts.old ≡ 4096) × (id < 4096)) }
    requires mem_value { folders_allowed arena.now (table_in mem.now) ≡ true }
    ensures { (n : ℕ → ℕ) → Holds counts.old n → Holds counts.new (λ i. n i + names_at arena.now (table_in mem.now) id i) }
{
    if !is_node(mem, id) {
        return;
    }
    let rec = rec_of(arena, first, next, mem, id);
    if rec.kind == 2 {
        count_folder(arena, first, next, rec, counts);
    }
}

fn count_all(arena: &[u8], first: &[u16], next: &[u16], mem: &[u8], counts: &mut [u16])
    requires led { Led arena.now first.now next.now }
    requires loaded { (Loaded mem.now × Of arena.now mem.now) × Holds counts.old (λ i. 0) }
    requires mem_value { folders_allowed arena.now (table_in mem.now) ≡ true }
    ensures { Holds counts.new (image.named arena.now (table_in mem.now)) }
{
    for id in 0..ids(mem) {
        count_node(arena, first, next, mem, id, counts);
    }
}

fn no_counts(counts: &mut [u16])
    requires { length counts.old ≡ 4096 }
    ensures { Holds counts.new (λ i. 0) }
{
    counts.fill(0);
}

// The counts are lent, whatever they are.
pub fn count_names(arena: &[u8], first: &[u16], next: &[u16], mem: &[u8], counts: &mut [u16])
    requires led { Led arena.now first.now next.now }
    requires loaded { (Loaded mem.now × Of arena.now mem.now) × (length counts.old ≡ 4096) }
    requires mem_value { (test5 arena.now (table_in mem.now) ≡ true) × (folders_allowed arena.now (table_in mem.now) ≡ true) }
    ensures { Counted arena.now (table_in mem.now) counts.new }
{
    no_counts(counts);
    count_all(arena, first, next, mem, counts);
}

// ---- rule 7

// How many of a folder's later slots have type 2.
pub fn subfolders(arena: &[u8], first: &[u16], next: &[u16], rec: DiskINode) -> u32
    requires { Led arena.now first.now next.now }
    ensures { result ≡ image.subfolders arena.now rec }
{
    let mut slot = [0u8; 264];
    let mut c: u32 = 0;
    for k in 2..index(rec.blocks) {
        read_slot(arena, first, next, rec, k, &mut slot);
        c += one(u32_at(&slot, 260) == 2);
    }
    c
}

// Any folder but root, with two slots and no name.
fn is_loose(rec: DiskINode, id: usize, named: u16) -> bool
    ensures { (a : List ℕ) (t : Table) → named ≡ image.named a t id → result ≡ loose a t id rec }
{
    id != 2 && named == 0 && rec.blocks == 2
}

// How often a folder is to be named: root never, any other once.
fn is_due(id: usize, named: u16) -> bool
    ensures { (a : List ℕ) (t : Table) → named ≡ image.named a t id → result ≡ named_due a t id }
{
    if id == 2 {
        return named == 0;
    }
    named == 1
}

fn folder_ok(
    arena: &[u8],
    first: &[u16],
    next: &[u16],
    mem: &[u8],
    rec: DiskINode,
    id: usize,
    named: u16,
) -> bool
    requires led { Led arena.now first.now next.now }
    requires loaded { (Loaded mem.now × (id < 4096)) × (named ≡ image.named arena.now (table_in mem.now) id) }
    ensures { result ≡ (linked arena.now (table_in mem.now) id rec || removed arena.now (table_in mem.now) id rec) }
{
    if rec.nlinks == 0 {
        return is_open(mem, id) && is_loose(rec, id, named);
    }
    is_due(id, named) && index16(rec.nlinks) == 2 + index(subfolders(arena, first, next, rec))
}

fn other_ok(mem: &[u8], rec: DiskINode, id: usize, named: u16) -> bool
    requires { Loaded mem.now × (id < 4096) }
    ensures { result ≡ (eqb rec.nlinks named && (not (eqb rec.nlinks 0) || is_open (table_in mem.now) id)) }
{
    rec.nlinks == named && (named != 0 || is_open(mem, id))
}

fn node_ok(arena: &[u8], first: &[u16], next: &[u16], mem: &[u8], id: usize, named: u16) -> bool
    requires led { Led arena.now first.now next.now }
    requires loaded { (Loaded mem.now × Of arena.now mem.now) × (id < 4096) }
    requires named_value { named ≡ image.named arena.now (table_in mem.now) id }
    ensures { result ≡ links_at arena.now (table_in mem.now) id }
{
    if !is_node(mem, id) {
        return true;
    }
    let rec = rec_of(arena, first, next, mem, id);
    if rec.kind == 2 {
        return folder_ok(arena, first, next, mem, rec, id, named);
    }
    other_ok(mem, rec, id, named)
}

pub fn rule7(arena: &[u8], first: &[u16], next: &[u16], mem: &[u8], counts: &[u16]) -> bool
    requires led { Led arena.now first.now next.now }
    requires loaded { Loaded mem.now × Of arena.now mem.now }
    requires counted { Counted arena.now (table_in mem.now) counts.now }
    ensures { result ≡ test7 arena.now (table_in mem.now) }
{
    (0..ids(mem)).all(|id| node_ok(arena, first, next, mem, id, counts[id]))
}

// ---- the names of folders, links aside

fn names_at(arena: &[u8], first: &[u16], next: &[u16], mem: &[u8], id: usize, named: u16) -> bool
    requires led { Led arena.now first.now next.now }
    requires loaded { (Loaded mem.now × Of arena.now mem.now) × (id < 4096) }
    requires named_value { named ≡ image.named arena.now (table_in mem.now) id }
    ensures { result ≡ names_fine arena.now (table_in mem.now) id }
{
    if !is_node(mem, id) {
        return true;
    }
    let rec = rec_of(arena, first, next, mem, id);
    if rec.kind != 2 {
        return true;
    }
    is_due(id, named) || is_loose(rec, id, named)
}

pub fn names_ok(arena: &[u8], first: &[u16], next: &[u16], mem: &[u8], counts: &[u16]) -> bool
    requires led { Led arena.now first.now next.now }
    requires loaded { Loaded mem.now × Of arena.now mem.now }
    requires counted { Counted arena.now (table_in mem.now) counts.now }
    ensures { result ≡ folders_named arena.now (table_in mem.now) }
{
    (0..ids(mem)).all(|id| names_at(arena, first, next, mem, id, counts[id]))
}
