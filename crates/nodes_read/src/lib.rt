// What a call reads before its first store, by the chains of `sound`: superblock and free maps, a node that is opened (000's SEFS), and
// a folder's record where nothing is opened.
// A step that is refused answers its reason, as an `Err`.
#![tactic(auto)]

pub mod meta;

ghost use Rattle.std.specs.Prelude.{◌≡◌, false, ◌*◌, ◌<◌, leb};
ghost use Rattle.std.specs.Result.{result_unwrap_or};
ghost use Rattle.base.specs.Told.{code};
ghost use Rattle.base.specs.Out.{Went, done, bind, guard};
ghost use Rattle.base.specs.Reasons.{stuck};
ghost use Rattle.structs.specs.Layout.{record_of};
ghost use Rattle.table.specs.Table.{free_row};
ghost use Rattle.table.specs.Zero.{zero_record};
ghost use Rattle.arena.specs.Fields.{file};
ghost use Rattle.files.specs.Read.{there, read_file};
ghost use Rattle.sefs.specs.Meta.{meta_file};
ghost use Rattle.sefs.specs.Move.{record_on};
ghost use Rattle.sefs.specs.Nodes.{opened as opened_as, node_file, open_in, load_node, get_node};
ghost use Rattle.chains.specs.Led.{Led};
ghost use Rattle.mem.specs.Mem.{table_in, Whole};
ghost use Rattle.mem.specs.State.{fs_at};

use base::{Reason, index};
use chains::exists;
use mem::{find_row, has_meta, rec_at};
use meta::read_meta;
use nodes::meta::is_used;
use nodes::open_in;
use structs::{DiskINode, disk_inode_at};

fn has_file(arena: &[u8], first: &[u16], next: &[u16], name: [u8; 16]) -> bool
    requires { Led arena.now first.now next.now }
    ensures { result ≡ there arena.now (file 1 name) }
{
    exists(arena, first, next, 1, &name)
}

// A record that was read: its type is looked at, its file looked for.
fn open_read(
    arena: &[u8],
    first: &[u16],
    next: &[u16],
    mem: &mut [u8],
    id: u32,
    rec: DiskINode,
) -> Result<usize, Reason>
    requires led { Led arena.now first.now next.now }
    requires whole { Whole mem.old }
    ensures { Went (guard (leb rec.kind 4) stuck (guard (there arena.now (node_file rec)) stuck (open_in (fs_at arena.now mem.old) id rec false (free_row (table_in mem.old))))) (opened_as (fs_at arena.now mem.new) (result_unwrap_or result 0)) (Whole mem.new × (result_unwrap_or result 0 < 34)) (code result) }
{
    if rec.kind > 4 {
        return Err(Reason::Stuck);
    }
    let file = rec.file;
    if !has_file(arena, first, next, file) {
        return Err(Reason::Stuck);
    }
    open_in(mem, id, rec, false)
}

// The stored record of a node without a row.
fn load_node(
    arena: &[u8],
    first: &[u16],
    next: &[u16],
    mem: &mut [u8],
    id: u32,
) -> Result<usize, Reason>
    requires led { Led arena.now first.now next.now }
    requires whole { Whole mem.old }
    ensures { Went (load_node (fs_at arena.now mem.old) id) (opened_as (fs_at arena.now mem.new) (result_unwrap_or result 0)) (Whole mem.new × (result_unwrap_or result 0 < 34)) (code result) }
{
    let mut l = [0u8; 112];
    read_meta(arena, first, next, 128 * index(id), &mut l)?;
    open_read(arena, first, next, mem, id, disk_inode_at(&l, 0))
}

// 000's get_inode.
pub fn get_node(
    arena: &[u8],
    first: &[u16],
    next: &[u16],
    mem: &mut [u8],
    id: u32,
) -> Result<usize, Reason>
    requires led { Led arena.now first.now next.now }
    requires whole { Whole mem.old }
    ensures { Went (get_node (fs_at arena.now mem.old) id) (opened_as (fs_at arena.now mem.new) (result_unwrap_or result 0)) (Whole mem.new × (result_unwrap_or result 0 < 34)) (code result) }
{
    if !has_meta(&mem[..]) {
        return Err(Reason::Stuck);
    }
    if !is_used(&mem[..], id) {
        return Err(Reason::Stuck);
    }
    let f = find_row(&mem[..], id);
    match f {
        Some(i) => Ok(i),
        None => load_node(arena, first, next, mem, id),
    }
}

// ---- a record alone: no row is taken

// The stored one.
fn record_of(arena: &[u8], first: &[u16], next: &[u16], id: u32) -> Result<DiskINode, Reason>
    requires { Led arena.now first.now next.now }
    ensures { Went (bind (read_file arena.now meta_file (128 * id) 112) (λ l. done (record_of l))) (result_unwrap_or result zero_record) Unit (code result) }
{
    let mut l = [0u8; 112];
    read_meta(arena, first, next, 128 * index(id), &mut l)?;
    Ok(disk_inode_at(&l, 0))
}

// That of the node's row, or the stored one. It sticks where an opening would.
pub fn record_on(
    arena: &[u8],
    first: &[u16],
    next: &[u16],
    mem: &[u8],
    id: u32,
) -> Result<DiskINode, Reason>
    requires led { Led arena.now first.now next.now }
    requires whole { Whole mem.now }
    ensures { Went (record_on (fs_at arena.now mem.now) id) (result_unwrap_or result zero_record) Unit (code result) }
{
    if !has_meta(mem) {
        return Err(Reason::Stuck);
    }
    if !is_used(mem, id) {
        return Err(Reason::Stuck);
    }
    let f = find_row(mem, id);
    match f {
        Some(i) => Ok(rec_at(mem, i)),
        None => record_of(arena, first, next, id),
    }
}
