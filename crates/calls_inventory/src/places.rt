// Where a pass over the folders stands, and how it goes on: past a line, into a folder, and up again. No stack is kept: a folder's slot 1 names
// its parent, and one slot of the parent names the folder.
ghost use Rattle.std.specs.Prelude.{◌≡◌, List, [], ◌≢◌, ℕ, ◌+◌, ◌<◌, ◌≤◌, length};
ghost use Rattle.structs.specs.declared.DiskINode.{DiskINode};
ghost use Rattle.table.specs.Table.{empty_table};
ghost use Rattle.rules.specs.Image.{slot_in};
ghost use Rattle.rules.specs.Tests.{checked};
ghost use Rattle.chains.specs.Led.{Led};
ghost use Rattle.inventory.specs.Inventory.{stored_tree};
ghost use Rattle.inventory.specs.Visits.{Visit, visits};
ghost use Rattle.calls_inventory.specs.Places.{StandsAt, Somewhere, past_line, OnlyIn, Up};

use base::index;
use chains::read_run;
use chains::slots::read_slot;
use fsck_read::{name_of, stored_rec};
use inventory_lines::names::escaped_size;
use le::u32_at;
use structs::DiskINode;

pub const ROOT: usize = 2;

const FOLDER: u32 = 2;

// Before slot `slot` of folder `folder`, whose record is `rec` and whose path has `path` bytes.
#[repr(C)]
#[derive(Clone, Copy)]
pub struct Place {
    pub folder: usize,
    pub slot: usize,
    pub path: usize,
    pub rec: DiskINode,
}

pub fn at_root(arena: &[u8], first: &[u16], next: &[u16]) -> Place
    requires led { Led arena.now first.now next.now }
    requires empty_table_value { checked arena.now empty_table ≡ 0 }
    ensures { StandsAt arena.now result [] (visits (stored_tree arena.now)) }
{
    let rec = stored_rec(arena, first, next, ROOT);
    Place {
        folder: ROOT,
        slot: 2,
        path: 0,
        rec,
    }
}

// Past a line, whose path is `longer` bytes longer than the folder's: the next slot, or the first of the folder that it names.
pub fn past_line(p: Place, id: usize, node: DiskINode, longer: usize) -> Place
    requires { (p.path + longer < 18446744073709551616) × (p.slot < 4294967296) }
    ensures { result ≡ past_line p id node longer }
{
    if node.kind == FOLDER {
        return Place {
            folder: id,
            slot: 2,
            path: p.path + longer,
            rec: node,
        };
    }
    let rec = p.rec;
    Place {
        folder: p.folder,
        slot: p.slot + 1,
        path: p.path,
        rec,
    }
}

// The id in slot k of a folder, by the name of its file.
fn id_in(arena: &[u8], first: &[u16], next: &[u16], file: &[u8; 16], k: usize) -> usize
    requires led { Led arena.now first.now next.now }
    requires k_bound { k < 4294967296 }
    ensures { (rec : DiskINode) → rec.file ≡ file.now → result ≡ (slot_in arena.now rec k).id }
{
    let mut id = [0u8; 4];
    read_run(arena, first, next, 1, file, 264 * k, &mut id);
    index(u32_at(&id, 0))
}

// The slot of a folder that names `id`, from slot 2 on.
fn slot_of(arena: &[u8], first: &[u16], next: &[u16], rec: DiskINode, id: usize) -> usize
    requires { Led arena.now first.now next.now }
    ensures { (k : ℕ) → OnlyIn arena.now rec id k → result ≡ k }
{
    let n = index(rec.blocks);
    let file = rec.file;
    for k in 2..n {
        if id_in(arena, first, next, &file, k) == id {
            return k;
        }
    }
    n
}

// Up from a folder that is not root: behind the slot that names it.
pub fn go_up(arena: &[u8], first: &[u16], next: &[u16], p: Place, slot: &mut [u8]) -> Place
    requires led { Led arena.now first.now next.now }
    requires empty_table_value { (checked arena.now empty_table ≡ 0) × (length slot.old ≡ 264) }
    requires somewhere { Somewhere arena.now p × ((p.rec.blocks ≤ p.slot) × (p.folder ≢ 2)) }
    ensures { (path : List ℕ) (rest : List Visit) → StandsAt arena.now p path rest → Up arena.now p path rest result }
{
    let below = p.rec;
    let file = below.file;
    let above = id_in(arena, first, next, &file, 1);
    let rec = stored_rec(arena, first, next, above);
    let k = slot_of(arena, first, next, rec, p.folder);
    read_slot(arena, first, next, rec, k, slot);
    Place {
        folder: above,
        slot: k + 1,
        path: p.path - 1 - escaped_size(name_of(&slot[..])),
        rec,
    }
}
