// Nodes: opened, made, stored and dropped (000's SEFS and INodeImpl's Drop). A node in use has a row. The arena is only read: `work` has
// the blocks that would change, `mem` the open nodes, the superblock and the free maps. A step that is refused
// answers its reason, as an `Err`.
#![tactic(auto)]

pub mod meta;

ghost use Rattle.std.specs.Prelude.{◌≡◌, false, not, ◌&&◌, List, ℕ, ◌+◌, ◌*◌, ◌<◌, ◌≤◌, eqb, leb};
ghost use Rattle.std.specs.Result.{result_unwrap_or};
ghost use Rattle.base.specs.Told.{code};
ghost use Rattle.base.specs.Out.{Went, done, guard};
ghost use Rattle.base.specs.Reasons.{stuck};
ghost use Rattle.base.specs.Search.{pick};
ghost use Rattle.table.specs.Table.{row_at, row_of, free_row};
ghost use Rattle.arena.specs.Fields.{file};
ghost use Rattle.overlay.specs.View.{view, left, Fine};
ghost use Rattle.files.specs.Read.{there as there_in};
ghost use Rattle.sefs.specs.Records.{new_record};
ghost use Rattle.sefs.specs.Nodes.{opened as opened_as, node_file, open_in, load_node, get_node, no_row, new_node, store_row, sync_row, free_node, drop_node};
ghost use Rattle.sefs.specs.Nodes.{release as release_node};
ghost use Rattle.mem.specs.Mem.{table_in, Whole};
ghost use Rattle.nodes.specs.Steps.{made_node, remove_node};
ghost use Rattle.mem.specs.State.{fs_of, Ready, Still, Stepped, fs_at};

use base::{Reason, index};
use files::read::{read, there};
use files::store::{drop, make, put};
use mem::{
    clear_row, dirty_at, file_at, find_row, has_meta, id_at, nlinks_at, put_dirty, put_row,
    row_held,
};
use meta::{alloc_block, free_block, is_used, sync_meta};
use structs::{DiskINode, Timespec, disk_inode_at};
use table::Row;

// A node takes the lowest free row. (There is one: an operation's own openings are two at the most.)
pub fn open_in(mem: &mut [u8], id: u32, rec: DiskINode, dirty: bool) -> Result<usize, Reason>
    requires { Whole mem.old }
    ensures { (a : List ℕ) → Went (open_in (fs_at a mem.old) id rec dirty (free_row (table_in mem.old))) (opened_as (fs_at a mem.new) (result_unwrap_or result 0)) (Whole mem.new × (result_unwrap_or result 0 < 34)) (code result) }
{
    let f = find_row(&mem[..], 0);
    match f {
        Some(i) => {
            put_row(
                mem,
                i,
                Row {
                    id: id,
                    dirty: dirty,
                    rec: rec,
                },
            );
            Ok(i)
        }
        None => Err(Reason::Stuck),
    }
}

// ---- 000's get_inode

fn has_file<'a>(arena: &'a [u8], work: &'a [u8], name: [u8; 16]) -> bool
    requires { Fine arena.now work.now }
    ensures { result ≡ there_in (view arena.now work.now) (file 1 name) }
{
    there(arena, work, 1, &name)
}

// A record that was read: its type is looked at, its file looked for.
fn open_read<'a>(
    arena: &'a [u8],
    work: &'a [u8],
    mem: &mut [u8],
    id: u32,
    rec: DiskINode,
) -> Result<usize, Reason>
    requires { Ready arena.now work.now mem.old }
    ensures { Went (guard (leb rec.kind 4) stuck (guard (there_in (view arena.now work.now) (node_file rec)) stuck (open_in (fs_of arena.now work.now mem.old) id rec false (free_row (table_in mem.old))))) (opened_as (fs_of arena.now work.now mem.new) (result_unwrap_or result 0)) (Whole mem.new × (result_unwrap_or result 0 < 34)) (code result) }
{
    if rec.kind > 4 {
        return Err(Reason::Stuck);
    }
    let file = rec.file;
    if !has_file(arena, work, file) {
        return Err(Reason::Stuck);
    }
    open_in(mem, id, rec, false)
}

// The stored record of a node without a row.
fn load_node<'a>(arena: &'a [u8], work: &'a [u8], mem: &mut [u8], id: u32) -> Result<usize, Reason>
    requires { Ready arena.now work.now mem.old }
    ensures { Went (load_node (fs_of arena.now work.now mem.old) id) (opened_as (fs_of arena.now work.now mem.new) (result_unwrap_or result 0)) (Whole mem.new × (result_unwrap_or result 0 < 34)) (code result) }
{
    let meta = [0u8; 16];
    let mut l = [0u8; 112];
    read(arena, work, 0, &meta, 128 * index(id), &mut l)?;
    open_read(arena, work, mem, id, disk_inode_at(&l, 0))
}

pub fn get_node<'a>(
    arena: &'a [u8],
    work: &'a [u8],
    mem: &mut [u8],
    id: u32,
) -> Result<usize, Reason>
    requires { Ready arena.now work.now mem.old }
    ensures { Went (get_node (fs_of arena.now work.now mem.old) id) (opened_as (fs_of arena.now work.now mem.new) (result_unwrap_or result 0)) (Whole mem.new × (result_unwrap_or result 0 < 34)) (code result) }
{
    if !has_meta(&mem[..]) {
        return Err(Reason::Stuck);
    }
    if !is_used(&mem[..], id) {
        return Err(Reason::Stuck);
    }
    let f = find_row(&mem[..], id);
    match f {
        Some(i) => Ok(i),
        None => load_node(arena, work, mem, id),
    }
}

// ---- 000's new_inode

fn new_record(kind: u32, mode: u16, time: Timespec, file: [u8; 16]) -> DiskINode
    ensures { result ≡ new_record kind mode time file }
{
    DiskINode {
        size: 0,
        kind: kind,
        mode: mode,
        nlinks: 0,
        blocks: 0,
        uid: 0,
        gid: 0,
        pad: 0,
        atime: time,
        mtime: time,
        ctime: time,
        file: file,
        mac: [0; 16],
    }
}

// Id 0, and an id that has a row, stick.
fn is_new(mem: &[u8], id: u32) -> bool
    requires { Whole mem.now }
    ensures { result ≡ (not (eqb id 0) && no_row (row_of (table_in mem.now) id)) }
{
    if id == 0 {
        return false;
    }
    let f = find_row(mem, id);
    match f {
        Some(_) => false,
        None => true,
    }
}

fn make_node(
    arena: &[u8],
    work: &mut [u8],
    mem: &mut [u8],
    id: u32,
    kind: u32,
    mode: u16,
    time: Timespec,
    file: [u8; 16],
) -> Result<usize, Reason>
    requires { Ready arena.now work.old mem.old × (1 ≤ left work.old) }
    ensures { Went (made_node (fs_of arena.now work.old mem.old) id kind mode time file) (opened_as (fs_of arena.now work.new mem.new) (result_unwrap_or result 0)) (Still arena.now work.old work.new mem.new 1 × (result_unwrap_or result 0 < 34)) (code result) }
{
    if !is_new(&mem[..], id) {
        return Err(Reason::Stuck);
    }
    make(arena, work, 1, &file)?;
    open_in(mem, id, new_record(kind, mode, time, file), true)
}

pub fn new_node(
    arena: &[u8],
    work: &mut [u8],
    mem: &mut [u8],
    kind: u32,
    mode: u16,
    time: Timespec,
    file: [u8; 16],
) -> Result<usize, Reason>
    requires { Ready arena.now work.old mem.old × (3 ≤ left work.old) }
    ensures { Went (new_node (fs_of arena.now work.old mem.old) kind mode time file) (opened_as (fs_of arena.now work.new mem.new) (result_unwrap_or result 0)) (Still arena.now work.old work.new mem.new 3 × (result_unwrap_or result 0 < 34)) (code result) }
{
    let id = alloc_block(arena, work, mem)?;
    make_node(arena, work, mem, id, kind, mode, time, file)
}

// ---- 000's sync_metadata of a node

// The record, at 128 x id. In memory it has its bytes already.
fn store_row(arena: &[u8], work: &mut [u8], mem: &mut [u8], i: usize) -> Result<(), Reason>
    requires { Ready arena.now work.old mem.old × ((3 ≤ left work.old) × (i < 34)) }
    ensures { Stepped (store_row (fs_of arena.now work.old mem.old) i) arena.now work.old work.new mem.new 3 (code result) }
{
    let meta = [0u8; 16];
    let at = 128 * index(id_at(&mem[..], i));
    let o = 117 * i + 5;
    put(arena, work, 0, &meta, at, &mem[o..o + 112])?;
    put_dirty(mem, i, false);
    Ok(())
}

pub fn sync_row(arena: &[u8], work: &mut [u8], mem: &mut [u8], i: usize) -> Result<(), Reason>
    requires { Ready arena.now work.old mem.old × ((3 ≤ left work.old) × (i < 34)) }
    ensures { Stepped (sync_row (fs_of arena.now work.old mem.old) i) arena.now work.old work.new mem.new 3 (code result) }
{
    if dirty_at(&mem[..], i) {
        return store_row(arena, work, mem, i);
    }
    Ok(())
}

// ---- 000's Drop of a node

// The id is free: superblock and maps are stored, and the file is removed.
fn remove_node(arena: &[u8], work: &mut [u8], mem: &[u8], i: usize) -> Result<(), Reason>
    requires { Ready arena.now work.old mem.now × ((10 ≤ left work.old) × (i < 34)) }
    ensures { Stepped (remove_node (fs_of arena.now work.old mem.now) i) arena.now work.old work.new mem.now 10 (code result) }
{
    sync_meta(arena, work, mem)?;
    drop(arena, work, 1, file_at(mem, i))
}

fn free_node(arena: &[u8], work: &mut [u8], mem: &mut [u8], i: usize) -> Result<(), Reason>
    requires { Ready arena.now work.old mem.old × ((10 ≤ left work.old) × (i < 34)) }
    ensures { Stepped (free_node (fs_of arena.now work.old mem.old) i) arena.now work.old work.new mem.new 10 (code result) }
{
    free_block(mem, id_at(&mem[..], i))?;
    remove_node(arena, work, &mem[..], i)
}

fn free_unlinked(arena: &[u8], work: &mut [u8], mem: &mut [u8], i: usize) -> Result<(), Reason>
    requires { Ready arena.now work.old mem.old × ((10 ≤ left work.old) × (i < 34)) }
    ensures { Stepped (pick (eqb (row_at (table_in mem.old) i).rec.nlinks 0) (free_node (fs_of arena.now work.old mem.old) i) (done (fs_of arena.now work.old mem.old))) arena.now work.old work.new mem.new 10 (code result) }
{
    if nlinks_at(&mem[..], i) == 0 {
        return free_node(arena, work, mem, i);
    }
    Ok(())
}

pub fn drop_node(arena: &[u8], work: &mut [u8], mem: &mut [u8], i: usize) -> Result<(), Reason>
    requires { Ready arena.now work.old mem.old × ((13 ≤ left work.old) × (i < 34)) }
    ensures { Stepped (drop_node (fs_of arena.now work.old mem.old) i) arena.now work.old work.new mem.new 13 (code result) }
{
    sync_row(arena, work, mem, i)?;
    free_unlinked(arena, work, mem, i)?;
    clear_row(mem, i);
    Ok(())
}

// An operation's own opening ends: where nobody holds the node, it is dropped.
pub fn release(arena: &[u8], work: &mut [u8], mem: &mut [u8], i: usize) -> Result<(), Reason>
    requires { Ready arena.now work.old mem.old × ((13 ≤ left work.old) × (i < 34)) }
    ensures { Stepped (release_node (fs_of arena.now work.old mem.old) i) arena.now work.old work.new mem.new 13 (code result) }
{
    if row_held(&mem[..], i) {
        return Ok(());
    }
    drop_node(arena, work, mem, i)
}
