// Rule 6: folders and their slots, and the sizes of other nodes.
#![tactic(auto)]

ghost use Rattle.std.specs.Prelude.{◌≡◌, true, ◌||◌, ◌+◌, ◌-◌, ◌<◌, eqb, ltb, leb, length, get_or, set};
ghost use Rattle.base.specs.Count.{all_to};
ghost use Rattle.base.specs.Decides.{same};
ghost use Rattle.base.specs.Search.{lowest};
ghost use Rattle.structs.specs.Layout.{entry_of};
ghost use Rattle.utf8.specs.Names.{name_of};
ghost use Rattle.mem.specs.Mem.{table_in};
ghost use Rattle.rules.specs.Image.{slot_in};
ghost use Rattle.rules.specs.Tests.{dot_allowed, dots_allowed, folder_allowed, size_allowed, folders_allowed, sizes_allowed};
ghost use Rattle.chains.specs.Led.{Led};
ghost use Rattle.fsck_read.specs.Loaded.{Loaded, Of};
ghost use Rattle.fsck_slots.specs.Hash.{hash_name, Hashed};
ghost use Rattle.fsck_slots.specs.Slots.{plain_name, names_node, bears, slot_allowed, start_allowed, folder_fine, size_fine};

use base::index;
use chains::length_of;
use chains::slots::read_slot;
use fsck_read::{ids, is_node, name_of, rec_of};
use le::u32_at;
use structs::DiskINode;
use utf8::{StoredName, equal, is_dot, is_dots, is_special, stored_name};

// Slot 0 is `.` with the folder's own id.
fn dot_ok(slot: &[u8], id: usize) -> bool
    requires { length slot.now ≡ 264 }
    ensures { result ≡ dot_allowed id (entry_of slot.now) }
{
    index(u32_at(slot, 0)) == id && u32_at(slot, 260) == 2 && is_dot(name_of(slot))
}

// Slot 1 is `..`; its id is looked at in rule 8.
fn dots_ok(slot: &[u8]) -> bool
    requires { length slot.now ≡ 264 }
    ensures { result ≡ dots_allowed (entry_of slot.now) }
{
    u32_at(slot, 260) == 2 && is_dots(name_of(slot))
}

// A name that is ended, UTF-8, not empty, not `.` or `..`.
fn plain_name(slot: &[u8]) -> bool
    requires { length slot.now ≡ 264 }
    ensures { result ≡ plain_name (entry_of slot.now) }
{
    let s = stored_name(&slot[4..260]);
    match s {
        StoredName::Ended(_) => !is_special(name_of(slot)),
        StoredName::Broken => false,
    }
}

// It names a node of the slot's type.
fn names_node(arena: &[u8], first: &[u16], next: &[u16], mem: &[u8], slot: &[u8]) -> bool
    requires led { Led arena.now first.now next.now }
    requires loaded { (Loaded mem.now × Of arena.now mem.now) × (length slot.now ≡ 264) }
    ensures { result ≡ names_node arena.now (table_in mem.now) (entry_of slot.now) }
{
    let id = index(u32_at(slot, 0));
    is_node(mem, id) && rec_of(arena, first, next, mem, id).kind == u32_at(slot, 260)
}

// ---- distinct names: a name is compared with those before it that have its hash

fn hash_name(name: &[u8]) -> u16
    ensures { result ≡ hash_name name.now }
{
    let mut h: u32 = 0;
    for b in name {
        h = (h * 257 + u32::from(*b) + 1) % 65521;
    }
    h as u16
}

fn same_name(
    arena: &[u8],
    first: &[u16],
    next: &[u16],
    rec: DiskINode,
    k: usize,
    name: &[u8],
) -> bool
    requires led { Led arena.now first.now next.now }
    requires k_bound { k < 4294967296 }
    ensures { result ≡ same (name_of (slot_in arena.now rec k).name) name.now }
{
    let mut slot = [0u8; 264];
    read_slot(arena, first, next, rec, k, &mut slot);
    equal(name_of(&slot), name)
}

// Whether later slot j can have a name of hash h. 7,680 hashes are kept, more than an arena's blocks have slots.
fn can_be(hashes: &[u16], j: usize, h: u16) -> bool
    requires { length hashes.now ≡ 7680 }
    ensures { result ≡ (leb 7680 j || eqb (get_or hashes.now j 0) h) }
{
    j >= 7680 || hashes[j] == h
}

// Whether later slot j has the name, whose hash is h.
fn has_name(
    arena: &[u8],
    first: &[u16],
    next: &[u16],
    rec: DiskINode,
    j: usize,
    name: &[u8],
    h: u16,
    hashes: &[u16],
) -> bool
    requires led { Led arena.now first.now next.now }
    requires j_bound { (j < 4294967294) × ((h ≡ hash_name name.now) × Hashed arena.now rec hashes.now (j + 1)) }
    ensures { result ≡ bears arena.now rec name.now j }
{
    can_be(hashes, j, h) && same_name(arena, first, next, rec, j + 2, name)
}

// Whether one of the first n later slots has the name, whose hash is h.
fn in_slots(
    arena: &[u8],
    first: &[u16],
    next: &[u16],
    rec: DiskINode,
    n: usize,
    name: &[u8],
    h: u16,
    hashes: &[u16],
) -> bool
    requires led { Led arena.now first.now next.now }
    requires n_bound { (n < 4294967294) × ((h ≡ hash_name name.now) × Hashed arena.now rec hashes.now n) }
    ensures { result ≡ ltb (lowest (bears arena.now rec name.now) n) n }
{
    for j in 0..n {
        if has_name(arena, first, next, rec, j, name, h, hashes) {
            return true;
        }
    }
    false
}

// The hash of later slot j is kept, where there is room for it.
fn keep_hash(hashes: &mut [u16], j: usize, h: u16)
    requires { length hashes.old ≡ 7680 }
    ensures { hashes.new ≡ set hashes.old j h }
{
    if j < 7680 {
        hashes[j] = h;
    }
}

// Later slot j is as it must be, and no lower one has its name.
fn later_ok(
    arena: &[u8],
    first: &[u16],
    next: &[u16],
    mem: &[u8],
    rec: DiskINode,
    j: usize,
    hashes: &mut [u16],
) -> bool
    requires led { Led arena.now first.now next.now }
    requires loaded { Loaded mem.now × Of arena.now mem.now }
    requires j_bound { (j < 4294967294) × Hashed arena.now rec hashes.old j }
    ensures value { result ≡ slot_allowed arena.now (table_in mem.now) rec j }
    ensures hashed { result ≡ true → Hashed arena.now rec hashes.new (j + 1) }
{
    let mut slot = [0u8; 264];
    read_slot(arena, first, next, rec, j + 2, &mut slot);
    if !plain_name(&slot) {
        return false;
    }
    if !names_node(arena, first, next, mem, &slot) {
        return false;
    }
    let h = hash_name(name_of(&slot));
    if in_slots(arena, first, next, rec, j, name_of(&slot), h, &hashes[..]) {
        return false;
    }
    keep_hash(hashes, j, h);
    true
}

fn all_later(
    arena: &[u8],
    first: &[u16],
    next: &[u16],
    mem: &[u8],
    rec: DiskINode,
    n: usize,
    hashes: &mut [u16],
) -> bool
    requires led { Led arena.now first.now next.now }
    requires loaded { Loaded mem.now × Of arena.now mem.now }
    requires n_bound { (n < 4294967294) × (length hashes.old ≡ 7680) }
    ensures { result ≡ all_to (slot_allowed arena.now (table_in mem.now) rec) n }
{
    for j in 0..n {
        if !later_ok(arena, first, next, mem, rec, j, hashes) {
            return false;
        }
    }
    true
}

// ---- a folder

fn first_slots(arena: &[u8], first: &[u16], next: &[u16], rec: DiskINode, id: usize) -> bool
    requires { Led arena.now first.now next.now }
    ensures { result ≡ start_allowed arena.now rec id }
{
    let mut slot = [0u8; 264];
    read_slot(arena, first, next, rec, 0, &mut slot);
    if !dot_ok(&slot, id) {
        return false;
    }
    read_slot(arena, first, next, rec, 1, &mut slot);
    dots_ok(&slot)
}

fn folder_ok(
    arena: &[u8],
    first: &[u16],
    next: &[u16],
    mem: &[u8],
    rec: DiskINode,
    id: usize,
    hashes: &mut [u16],
) -> bool
    requires led { Led arena.now first.now next.now }
    requires loaded { (Loaded mem.now × Of arena.now mem.now) × (length hashes.old ≡ 7680) }
    ensures { result ≡ folder_allowed arena.now (table_in mem.now) id rec }
{
    let file = rec.file;
    rec.blocks >= 2
        && length_of(arena, first, next, 1, &file) == 264 * index(rec.blocks) + 1
        && first_slots(arena, first, next, rec, id)
        && all_later(arena, first, next, mem, rec, index(rec.blocks) - 2, hashes)
}

fn folder_at(
    arena: &[u8],
    first: &[u16],
    next: &[u16],
    mem: &[u8],
    id: usize,
    hashes: &mut [u16],
) -> bool
    requires led { Led arena.now first.now next.now }
    requires loaded { (Loaded mem.now × Of arena.now mem.now) × ((id < 4096) × (length hashes.old ≡ 7680)) }
    ensures { result ≡ folder_fine arena.now (table_in mem.now) id }
{
    if !is_node(mem, id) {
        return true;
    }
    let rec = rec_of(arena, first, next, mem, id);
    if rec.kind != 2 {
        return true;
    }
    folder_ok(arena, first, next, mem, rec, id, hashes)
}

// Each folder. The hashes are lent, whatever they are: no name is compared by the hash of another folder's slot.
pub fn folders_ok(arena: &[u8], first: &[u16], next: &[u16], mem: &[u8], hashes: &mut [u16]) -> bool
    requires led { Led arena.now first.now next.now }
    requires loaded { (Loaded mem.now × Of arena.now mem.now) × (length hashes.old ≡ 7680) }
    ensures { result ≡ folders_allowed arena.now (table_in mem.now) }
{
    for id in 0..ids(mem) {
        if !folder_at(arena, first, next, mem, id, hashes) {
            return false;
        }
    }
    true
}

// ---- another node

// A file's length by its end, which is one more, or 0 where the file is not there.
fn length_by(end: usize) -> u64
    ensures { result ≡ end - 1 }
{
    end.saturating_sub(1) as u64
}

fn size_ok(arena: &[u8], first: &[u16], next: &[u16], rec: DiskINode) -> bool
    requires { Led arena.now first.now next.now }
    ensures { result ≡ size_allowed arena.now rec }
{
    let file = rec.file;
    length_by(length_of(arena, first, next, 1, &file)) == rec.size
}

fn size_at(arena: &[u8], first: &[u16], next: &[u16], mem: &[u8], id: usize) -> bool
    requires led { Led arena.now first.now next.now }
    requires loaded { (Loaded mem.now × Of arena.now mem.now) × (id < 4096) }
    ensures { result ≡ size_fine arena.now (table_in mem.now) id }
{
    if !is_node(mem, id) {
        return true;
    }
    let rec = rec_of(arena, first, next, mem, id);
    if rec.kind == 2 {
        return true;
    }
    size_ok(arena, first, next, rec)
}

// The size of each node that is no folder.
pub fn sizes_ok(arena: &[u8], first: &[u16], next: &[u16], mem: &[u8]) -> bool
    requires led { Led arena.now first.now next.now }
    requires loaded { Loaded mem.now × Of arena.now mem.now }
    ensures { result ≡ sizes_allowed arena.now (table_in mem.now) }
{
    (0..ids(mem)).all(|id| size_at(arena, first, next, mem, id))
}
