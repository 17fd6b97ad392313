// The steps of move: slots first, then the replaced node, then a moved folder's slot 1, then the folders' records.
#![tactic(auto)]

ghost use Rattle.std.specs.Prelude.{◌≡◌, List, ℕ, ◌<◌, ◌≤◌, length};
ghost use Rattle.base.specs.Told.{code};
ghost use Rattle.base.specs.Out.{Went};
ghost use Rattle.overlay.specs.View.{left};
ghost use Rattle.structs.specs.Layout.{entry_of};
ghost use Rattle.sefs.specs.Move.{renamed, move_dots, move_links, move_parent};
ghost use Rattle.mem.specs.Mem.{Whole};
ghost use Rattle.mem.specs.State.{fs_of, Ready, Stepped};
ghost use Rattle.move_steps.specs.Steps.{InRow, remove_gone, within_folder, end_folders, end_move, open_moved, rest_move, between_folders, move_slot, move_named, move_over};

use base::Reason;
use folders::slots::find_slot;
use folders::{
    dirent_append, dirent_node_remove, dirent_remove, nlinks_dec, nlinks_inc, put_dots, put_entry,
    put_slot,
};
use le::u32_at;
use mem::{id_at, kind_at};
use nodes::{get_node, release, sync_row};
use steps::sync_two;

// The node that is replaced: its row, and the target's slot that names it. Or there is none.
#[derive(Clone, Copy)]
pub enum Gone {
    Free,
    Node(usize, usize),
}

// ---- the steps: slots first, then the replaced node, then the folders' records

// `slot` is room for a slot of the target; so below, too.
fn remove_gone(
    arena: &[u8],
    work: &mut [u8],
    mem: &mut [u8],
    slot: &mut [u8],
    j: usize,
    gone: Gone,
) -> Result<(), Reason>
    requires { Ready arena.now work.old mem.old × ((18 ≤ left work.old) × ((j < 34) × ((length slot.old ≡ 264) × (InRow gone)))) }
    ensures { Stepped (remove_gone (fs_of arena.now work.old mem.old) j gone) arena.now work.old work.new mem.new 18 (code result) }
{
    match gone {
        Gone::Free => Ok(()),
        Gone::Node(row, place) => dirent_node_remove(arena, work, mem, slot, j, row, place),
    }
}

// Within one folder the slot gets another name. `moved` has it with that name, and is room for slots once it is stored; so below, too.
fn move_within(
    arena: &[u8],
    work: &mut [u8],
    mem: &mut [u8],
    moved: &mut [u8],
    i: usize,
    k: usize,
    gone: Gone,
) -> Result<(), Reason>
    requires { Ready arena.now work.old mem.old × ((24 ≤ left work.old) × ((i < 34) × ((length moved.old ≡ 264) × (InRow gone)))) }
    ensures { Stepped (within_folder (fs_of arena.now work.old mem.old) i k (entry_of moved.old) gone) arena.now work.old work.new mem.new 24 (code result) }
{
    put_slot(arena, work, &mem[..], i, k, &moved[..])?;
    remove_gone(arena, work, mem, moved, i, gone)?;
    sync_row(arena, work, mem, i)
}

// A folder that moves takes its `..` along: the source is named once less, the target once more.
fn move_dots(mem: &mut [u8], i: usize, j: usize) -> Result<(), Reason>
    requires { Whole mem.old × ((i < 34) × ((j < 34))) }
    ensures { (a w : List ℕ) → Went (move_dots (fs_of a w mem.old) i j) (fs_of a w mem.new) (Whole mem.new) (code result) }
{
    nlinks_dec(mem, i)?;
    nlinks_inc(mem, j)
}

// The moved node's type is looked at.
fn move_links(mem: &mut [u8], i: usize, j: usize, c: usize) -> Result<(), Reason>
    requires { Whole mem.old × ((i < 34) × ((j < 34) × ((c < 34)))) }
    ensures { (a w : List ℕ) → Went (move_links (fs_of a w mem.old) i j c) (fs_of a w mem.new) (Whole mem.new) (code result) }
{
    let kind = kind_at(&mem[..], c);
    if kind > 4 {
        return Err(Reason::Stuck);
    }
    if kind == 2 {
        return move_dots(mem, i, j);
    }
    Ok(())
}

// Slot 1 of a moved folder names its new parent.
fn move_parent(arena: &[u8], work: &mut [u8], mem: &[u8], j: usize, c: usize) -> Result<(), Reason>
    requires { Ready arena.now work.old mem.now × ((3 ≤ left work.old) × ((j < 34) × (c < 34))) }
    ensures { Stepped (move_parent (fs_of arena.now work.old mem.now) j c) arena.now work.old work.new mem.now 3 (code result) }
{
    if kind_at(mem, c) == 2 {
        return put_dots(arena, work, mem, c, id_at(mem, j));
    }
    Ok(())
}

fn end_folders(
    arena: &[u8],
    work: &mut [u8],
    mem: &mut [u8],
    i: usize,
    j: usize,
    c: usize,
) -> Result<(), Reason>
    requires { Ready arena.now work.old mem.old × ((9 ≤ left work.old) × ((i < 34) × ((j < 34) × (c < 34)))) }
    ensures { Stepped (end_folders (fs_of arena.now work.old mem.old) i j c) arena.now work.old work.new mem.new 9 (code result) }
{
    move_parent(arena, work, &mem[..], j, c)?;
    sync_two(arena, work, mem, j, i)
}

// The moved node, in row c: the links of both folders, its slot 1, their records, and the end of c's opening.
fn move_end(
    arena: &[u8],
    work: &mut [u8],
    mem: &mut [u8],
    i: usize,
    j: usize,
    c: usize,
) -> Result<(), Reason>
    requires { Ready arena.now work.old mem.old × ((22 ≤ left work.old) × ((i < 34) × ((j < 34) × ((c < 34))))) }
    ensures { Stepped (end_move (fs_of arena.now work.old mem.old) i j c) arena.now work.old work.new mem.new 22 (code result) }
{
    move_links(mem, i, j, c)?;
    end_folders(arena, work, mem, i, j, c)?;
    release(arena, work, mem, c)
}

fn move_open(
    arena: &[u8],
    work: &mut [u8],
    mem: &mut [u8],
    i: usize,
    j: usize,
    id: u32,
) -> Result<(), Reason>
    requires { Ready arena.now work.old mem.old × ((22 ≤ left work.old) × ((i < 34) × ((j < 34)))) }
    ensures { Stepped (open_moved (fs_of arena.now work.old mem.old) i j id) arena.now work.old work.new mem.new 22 (code result) }
{
    let row = get_node(arena, &work[..], mem, id)?;
    move_end(arena, work, mem, i, j, row)
}

// The slots are moved.
fn move_rest(
    arena: &[u8],
    work: &mut [u8],
    mem: &mut [u8],
    slot: &mut [u8],
    i: usize,
    j: usize,
    id: u32,
    gone: Gone,
) -> Result<(), Reason>
    requires { Ready arena.now work.old mem.old × ((40 ≤ left work.old) × ((i < 34) × ((j < 34) × ((length slot.old ≡ 264) × (InRow gone))))) }
    ensures { Stepped (rest_move (fs_of arena.now work.old mem.old) i j id gone) arena.now work.old work.new mem.new 40 (code result) }
{
    remove_gone(arena, work, mem, slot, j, gone)?;
    move_open(arena, work, mem, i, j, id)
}

fn move_between(
    arena: &[u8],
    work: &mut [u8],
    mem: &mut [u8],
    moved: &mut [u8],
    i: usize,
    j: usize,
    k: usize,
    gone: Gone,
) -> Result<(), Reason>
    requires { Ready arena.now work.old mem.old × ((48 ≤ left work.old) × ((i < 34) × ((j < 34) × ((length moved.old ≡ 264) × (InRow gone))))) }
    ensures { Stepped (between_folders (fs_of arena.now work.old mem.old) i j k (entry_of moved.old) gone) arena.now work.old work.new mem.new 48 (code result) }
{
    let id = u32_at(&moved[..], 0);
    dirent_append(arena, work, mem, j, &moved[..])?;
    dirent_remove(arena, work, mem, moved, i, k)?;
    move_rest(arena, work, mem, moved, i, j, id, gone)
}

pub fn move_slot(
    arena: &[u8],
    work: &mut [u8],
    mem: &mut [u8],
    moved: &mut [u8],
    i: usize,
    j: usize,
    k: usize,
    gone: Gone,
) -> Result<(), Reason>
    requires { Ready arena.now work.old mem.old × ((48 ≤ left work.old) × ((i < 34) × ((j < 34) × ((length moved.old ≡ 264) × (InRow gone))))) }
    ensures { Stepped (move_slot (fs_of arena.now work.old mem.old) i j k (entry_of moved.old) gone) arena.now work.old work.new mem.new 48 (code result) }
{
    if id_at(&mem[..], i) == id_at(&mem[..], j) {
        return move_within(arena, work, mem, moved, i, k, gone);
    }
    move_between(arena, work, mem, moved, i, j, k, gone)
}

// The moved slot keeps the old slot's id and type.
pub fn rename(slot: &mut [u8], name: &[u8])
    requires { (length slot.old ≡ 264) × ((length name.now ≤ 255)) }
    ensures { entry_of slot.new ≡ renamed (entry_of slot.old) name.now }
{
    let id = u32_at(&slot[..], 0);
    let kind = u32_at(&slot[..], 260);
    put_entry(slot, id, name, kind);
}

fn move_steps(
    arena: &[u8],
    work: &mut [u8],
    mem: &mut [u8],
    slot: &mut [u8],
    i: usize,
    j: usize,
    old: &[u8],
    name: &[u8],
    gone: Gone,
) -> Result<(), Reason>
    requires { Ready arena.now work.old mem.old × ((48 ≤ left work.old) × ((i < 34) × ((j < 34) × ((length name.now ≤ 255) × ((length slot.old ≡ 264) × (InRow gone)))))) }
    ensures { Stepped (move_named (fs_of arena.now work.old mem.old) i j old.now name.now gone) arena.now work.old work.new mem.new 48 (code result) }
{
    let place = find_slot(arena, &work[..], &mem[..], i, old, slot)?;
    rename(slot, name);
    move_slot(arena, work, mem, slot, i, j, place, gone)
}

// ---- the new name exists

// Node c goes in the place of node d, which slot k of the target names; the opening of c ends here.
pub fn move_onto(
    arena: &[u8],
    work: &mut [u8],
    mem: &mut [u8],
    slot: &mut [u8],
    i: usize,
    j: usize,
    old: &[u8],
    name: &[u8],
    c: usize,
    d: usize,
    k: usize,
) -> Result<(), Reason>
    requires { Ready arena.now work.old mem.old × ((61 ≤ left work.old) × ((i < 34) × ((j < 34) × ((c < 34) × ((d < 34) × ((length name.now ≤ 255) × (length slot.old ≡ 264))))))) }
    ensures { Stepped (move_over (fs_of arena.now work.old mem.old) i j old.now name.now c d k) arena.now work.old work.new mem.new 61 (code result) }
{
    release(arena, work, mem, c)?;
    move_steps(arena, work, mem, slot, i, j, old, name, Gone::Node(d, k))
}
