// Folders: slots written and removed, and link counts (000's INodeImpl). A folder is a row of the open nodes.
#![tactic(auto)]

pub mod slots;

ghost use Rattle.std.specs.Prelude.{◌≡◌, ℕ, ◌<◌, ◌≤◌, List, [], ◌∷◌, length, eqb};
ghost use Rattle.base.specs.Told.{code};
ghost use Rattle.base.specs.Out.{Went, done, bind};
ghost use Rattle.base.specs.Search.{pick};
ghost use Rattle.structs.specs.Constants.{type_dir};
ghost use Rattle.structs.specs.Layout.{entry_of, entry_bytes};
ghost use Rattle.overlay.specs.View.{left};
ghost use Rattle.table.specs.Table.{row_at};
ghost use Rattle.sefs.specs.Nodes.{id_at};
ghost use Rattle.sefs.specs.Folders.{entry, dots_entry, put_slot, dirent_init, dirent_append, dirent_remove, nlinks_inc, nlinks_dec, unlink_folder, dirent_node_remove};
ghost use Rattle.mem.specs.Mem.{table_in, Whole};
ghost use Rattle.mem.specs.State.{fs_of, Ready, Stepped};
ghost use Rattle.folders.specs.Steps.{shortened, unlink_dots};

use base::{Reason, index, least};
use files::store::{cut, put};
use le::put_u32;
use mem::{blocks_at, file_at, id_at, kind_at, nlinks_at, set_blocks, set_links};
use nodes::release;
use slots::slot_bytes;
use utf8::put_name;

// A slot's bytes: a new one is zero after its name.
pub fn put_entry(slot: &mut [u8], id: u32, name: &[u8], kind: u32)
    requires { (length slot.old ≡ 264) × (length name.now ≤ 255) }
    ensures { slot.new ≡ entry_bytes (entry id name.now kind) }
{
    put_u32(slot, 0, id);
    put_name(&mut slot[4..260], name);
    put_u32(slot, 260, kind);
}

// 264 bytes at slot k of folder i. (The place is held below a bound, so that it does not wrap: no file is so long, and past it every store is refused alike.)
pub fn put_slot(
    arena: &[u8],
    work: &mut [u8],
    mem: &[u8],
    i: usize,
    k: usize,
    slot: &[u8],
) -> Result<(), Reason>
    requires { Ready arena.now work.old mem.now × ((3 ≤ left work.old) × ((i < 34) × (length slot.now ≡ 264))) }
    ensures { Stepped (put_slot (fs_of arena.now work.old mem.now) i k slot.now) arena.now work.old work.new mem.now 3 (code result) }
{
    let file = file_at(mem, i);
    put(arena, work, 1, file, 264 * least(k, 16777216), slot)
}

// ---- 000's dirent_init: two slots, `.` with the folder's own id and `..` with its parent's

fn put_dot(arena: &[u8], work: &mut [u8], mem: &[u8], i: usize) -> Result<(), Reason>
    requires { Ready arena.now work.old mem.now × ((3 ≤ left work.old) × (i < 34)) }
    ensures { Stepped (put_slot (fs_of arena.now work.old mem.now) i 0 (entry_bytes (entry (id_at (fs_of arena.now work.old mem.now) i) (46 ∷ []) type_dir))) arena.now work.old work.new mem.now 3 (code result) }
{
    let mut slot = [0u8; 264];
    put_entry(&mut slot, id_at(mem, i), b".", 2);
    put_slot(arena, work, mem, i, 0, &slot)
}

pub fn put_dots(
    arena: &[u8],
    work: &mut [u8],
    mem: &[u8],
    i: usize,
    parent: u32,
) -> Result<(), Reason>
    requires { Ready arena.now work.old mem.now × ((3 ≤ left work.old) × (i < 34)) }
    ensures { Stepped (put_slot (fs_of arena.now work.old mem.now) i 1 (entry_bytes (dots_entry parent))) arena.now work.old work.new mem.now 3 (code result) }
{
    let mut slot = [0u8; 264];
    put_entry(&mut slot, parent, b"..", 2);
    put_slot(arena, work, mem, i, 1, &slot)
}

pub fn dirent_init(
    arena: &[u8],
    work: &mut [u8],
    mem: &mut [u8],
    i: usize,
    parent: u32,
) -> Result<(), Reason>
    requires { Ready arena.now work.old mem.old × ((6 ≤ left work.old) × (i < 34)) }
    ensures { Stepped (dirent_init (fs_of arena.now work.old mem.old) i parent) arena.now work.old work.new mem.new 6 (code result) }
{
    set_blocks(mem, i, 2);
    put_dot(arena, work, &mem[..], i)?;
    put_dots(arena, work, &mem[..], i, parent)
}

// ---- 000's dirent_append: a slot at the end. (The count can't overflow: the store is too long first.)

pub fn dirent_append(
    arena: &[u8],
    work: &mut [u8],
    mem: &mut [u8],
    i: usize,
    slot: &[u8],
) -> Result<(), Reason>
    requires { Ready arena.now work.old mem.old × ((3 ≤ left work.old) × ((i < 34) × (length slot.now ≡ 264))) }
    ensures { Stepped (dirent_append (fs_of arena.now work.old mem.old) i (entry_of slot.now)) arena.now work.old work.new mem.new 3 (code result) }
{
    let total = blocks_at(&mem[..], i);
    put_slot(arena, work, &mem[..], i, index(total), slot)?;
    set_blocks(mem, i, total + 1);
    Ok(())
}

// ---- 000's dirent_remove: the last slot is copied over slot k, whole, and the file is shortened

fn fill_hole(
    arena: &[u8],
    work: &mut [u8],
    mem: &[u8],
    i: usize,
    k: usize,
    last: usize,
    slot: &[u8],
) -> Result<(), Reason>
    requires { Ready arena.now work.old mem.now × ((3 ≤ left work.old) × ((i < 34) × (length slot.now ≡ 264))) }
    ensures { Stepped (pick (eqb k last) (done (fs_of arena.now work.old mem.now)) (put_slot (fs_of arena.now work.old mem.now) i k slot.now)) arena.now work.old work.new mem.now 3 (code result) }
{
    if k == last {
        return Ok(());
    }
    put_slot(arena, work, mem, i, k, slot)
}

// The file loses its last slot.
fn shorten(arena: &[u8], work: &mut [u8], mem: &mut [u8], i: usize) -> Result<(), Reason>
    requires { Ready arena.now work.old mem.old × ((2 ≤ left work.old) × ((i < 34) × (0 < (row_at (table_in mem.old) i).rec.blocks))) }
    ensures { Stepped (shortened (fs_of arena.now work.old mem.old) i) arena.now work.old work.new mem.new 2 (code result) }
{
    let last = blocks_at(&mem[..], i) - 1;
    cut(arena, work, 1, file_at(&mem[..], i), 264 * index(last))?;
    set_blocks(mem, i, last);
    Ok(())
}

// `slot` is the last one: the hole is filled with it, and the file shortened.
fn close_hole(
    arena: &[u8],
    work: &mut [u8],
    mem: &mut [u8],
    i: usize,
    k: usize,
    last: usize,
    slot: &[u8],
) -> Result<(), Reason>
    requires { Ready arena.now work.old mem.old × ((5 ≤ left work.old) × ((i < 34) × ((0 < (row_at (table_in mem.old) i).rec.blocks) × (length slot.now ≡ 264)))) }
    ensures { Stepped (bind (pick (eqb k last) (done (fs_of arena.now work.old mem.old)) (put_slot (fs_of arena.now work.old mem.old) i k slot.now)) (λ s. shortened s i)) arena.now work.old work.new mem.new 5 (code result) }
{
    fill_hole(arena, work, &mem[..], i, k, last, slot)?;
    shorten(arena, work, mem, i)
}

// The last slot goes through `slot`, which is room for it.
pub fn dirent_remove(
    arena: &[u8],
    work: &mut [u8],
    mem: &mut [u8],
    slot: &mut [u8],
    i: usize,
    k: usize,
) -> Result<(), Reason>
    requires { Ready arena.now work.old mem.old × ((5 ≤ left work.old) × ((i < 34) × (length slot.old ≡ 264))) }
    ensures { Stepped (dirent_remove (fs_of arena.now work.old mem.old) i k) arena.now work.old work.new mem.new 5 (code result) }
{
    let total = blocks_at(&mem[..], i);
    if total == 0 {
        return Err(Reason::Stuck);
    }
    let last = index(total - 1);
    slot_bytes(arena, &work[..], &mem[..], i, last, slot)?;
    close_hole(arena, work, mem, i, k, last, &slot[..])
}

// ---- link counts

pub fn nlinks_inc(mem: &mut [u8], i: usize) -> Result<(), Reason>
    requires { Whole mem.old × (i < 34) }
    ensures { (a w : List ℕ) → Went (nlinks_inc (fs_of a w mem.old) i) (fs_of a w mem.new) (Whole mem.new) (code result) }
{
    let n = nlinks_at(&mem[..], i);
    if n == 65535 {
        return Err(Reason::TooManyLinks);
    }
    set_links(mem, i, n + 1);
    Ok(())
}

pub fn nlinks_dec(mem: &mut [u8], i: usize) -> Result<(), Reason>
    requires { Whole mem.old × (i < 34) }
    ensures { (a w : List ℕ) → Went (nlinks_dec (fs_of a w mem.old) i) (fs_of a w mem.new) (Whole mem.new) (code result) }
{
    let n = nlinks_at(&mem[..], i);
    if n == 0 {
        return Err(Reason::Stuck);
    }
    set_links(mem, i, n - 1);
    Ok(())
}

// A removed folder is named once less, by its own `.` too, and its parent by its `..`.
fn unlink_folder(mem: &mut [u8], i: usize, c: usize) -> Result<(), Reason>
    requires { Whole mem.old × ((i < 34) × (c < 34)) }
    ensures { (a w : List ℕ) → Went (unlink_folder (fs_of a w mem.old) i c) (fs_of a w mem.new) (Whole mem.new) (code result) }
{
    nlinks_dec(mem, c)?;
    nlinks_dec(mem, i)
}

fn unlink_dots(mem: &mut [u8], i: usize, c: usize) -> Result<(), Reason>
    requires { Whole mem.old × ((i < 34) × (c < 34)) }
    ensures { (a w : List ℕ) → Went (unlink_dots (fs_of a w mem.old) i c) (fs_of a w mem.new) (Whole mem.new) (code result) }
{
    if kind_at(&mem[..], c) == 2 {
        return unlink_folder(mem, i, c);
    }
    Ok(())
}

fn unname(mem: &mut [u8], i: usize, c: usize) -> Result<(), Reason>
    requires { Whole mem.old × ((i < 34) × (c < 34)) }
    ensures { (a w : List ℕ) → Went (bind (nlinks_dec (fs_of a w mem.old) c) (λ s. unlink_dots s i c)) (fs_of a w mem.new) (Whole mem.new) (code result) }
{
    nlinks_dec(mem, c)?;
    unlink_dots(mem, i, c)
}

// 000's dirent_inode_remove: slot k, which names node c, is removed from folder i, and c's own opening ends. `slot` is room for one.
pub fn dirent_node_remove(
    arena: &[u8],
    work: &mut [u8],
    mem: &mut [u8],
    slot: &mut [u8],
    i: usize,
    c: usize,
    k: usize,
) -> Result<(), Reason>
    requires { Ready arena.now work.old mem.old × ((18 ≤ left work.old) × ((i < 34) × ((c < 34) × (length slot.old ≡ 264)))) }
    ensures { Stepped (dirent_node_remove (fs_of arena.now work.old mem.old) i c k) arena.now work.old work.new mem.new 18 (code result) }
{
    dirent_remove(arena, work, mem, slot, i, k)?;
    unname(mem, i, c)?;
    release(arena, work, mem, c)
}
