// What calls that change the arena share: steps that more than one of them takes, and (as definitions and laws) how they begin and end.
#![tactic(auto)]

ghost use Rattle.std.specs.Prelude.{◌<◌, ◌≤◌, length};
ghost use Rattle.std.specs.Result.{result_unwrap_or};
ghost use Rattle.base.specs.Told.{code};
ghost use Rattle.base.specs.Out.{Went};
ghost use Rattle.overlay.specs.View.{left};
ghost use Rattle.sefs.specs.Ask.{by_handle};
ghost use Rattle.sefs.specs.Nodes.{id_at};
ghost use Rattle.sefs.specs.Folders.{entry, dirent_append};
ghost use Rattle.chains.specs.Led.{Led};
ghost use Rattle.mem.specs.Mem.{table_in};
ghost use Rattle.mem.specs.State.{fs_of, Ready, Stepped};
ghost use Rattle.calls.specs.Asked.{Admitted, by_two};
ghost use Rattle.steps.specs.Ends.{Begun};
ghost use Rattle.steps.specs.Steps.{no_slot, sync_two};

use base::{Reason, index};
use calls::{by_handle, by_two};
use chains::slots::lookup;
use folders::{dirent_append, put_entry};
use mem::id_at;
use nodes::sync_row;
use nodes_read::meta::load_meta;
use structs::DiskINode;
use table::Handle;

// ---- before the first store: what a call asks, and reads by the chains of `sound`, once arena and table are tested

// 6, 4, and superblock and maps.
pub fn reach_read(
    arena: &[u8],
    first: &[u16],
    next: &[u16],
    mem: &mut [u8],
    who: u8,
    h: Handle,
) -> Result<usize, Reason>
    requires { Admitted arena.now first.now next.now mem.old }
    ensures { Went (by_handle (table_in mem.old) who h) (result_unwrap_or result 0) (Begun arena.now first.now next.now mem.old mem.new × (result_unwrap_or result 0 < 34)) (code result) }
{
    let row = by_handle(&mem[..], who, h)?;
    load_meta(arena, first, next, mem);
    Ok(row)
}

// The same with two handles.
pub fn reach_two_read(
    arena: &[u8],
    first: &[u16],
    next: &[u16],
    mem: &mut [u8],
    who: u8,
    h: Handle,
    k: Handle,
) -> Result<(usize, usize), Reason>
    requires { Admitted arena.now first.now next.now mem.old }
    ensures { Went (by_two (table_in mem.old) who h k) (result_unwrap_or result (0, 0)) (Begun arena.now first.now next.now mem.old mem.new × (((result_unwrap_or result (0, 0)).0 < 34) × ((result_unwrap_or result (0, 0)).1 < 34))) (code result) }
{
    let rows = by_two(&mem[..], who, h, k)?;
    load_meta(arena, first, next, mem);
    Ok(rows)
}

// 12, where a slot has the name.
pub fn no_slot(
    arena: &[u8],
    first: &[u16],
    next: &[u16],
    rec: DiskINode,
    name: &[u8],
) -> Result<(), Reason>
    requires { Led arena.now first.now next.now }
    ensures { Went (no_slot arena.now rec name.now) tt Unit (code result) }
{
    let mut slot = [0u8; 264];
    let place = lookup(arena, first, next, rec, name, &mut slot)?;
    if place < index(rec.blocks) {
        return Err(Reason::EntryExist);
    }
    Ok(())
}

// ---- steps

// A slot with node c's id, at the end of folder i.
pub fn append_named(
    arena: &[u8],
    work: &mut [u8],
    mem: &mut [u8],
    i: usize,
    c: usize,
    name: &[u8],
    kind: u32,
) -> Result<(), Reason>
    requires { Ready arena.now work.old mem.old × ((3 ≤ left work.old) × ((i < 34) × ((c < 34) × (length name.now ≤ 255)))) }
    ensures { Stepped (dirent_append (fs_of arena.now work.old mem.old) i (entry (id_at (fs_of arena.now work.old mem.old) c) name.now kind)) arena.now work.old work.new mem.new 3 (code result) }
{
    let mut slot = [0u8; 264];
    put_entry(&mut slot, id_at(&mem[..], c), name, kind);
    dirent_append(arena, work, mem, i, &slot)
}

// Row c, then row i.
pub fn sync_two(
    arena: &[u8],
    work: &mut [u8],
    mem: &mut [u8],
    i: usize,
    c: usize,
) -> Result<(), Reason>
    requires { Ready arena.now work.old mem.old × ((6 ≤ left work.old) × ((i < 34) × (c < 34))) }
    ensures { Stepped (sync_two (fs_of arena.now work.old mem.old) i c) arena.now work.old work.new mem.new 6 (code result) }
{
    sync_row(arena, work, mem, c)?;
    sync_row(arena, work, mem, i)
}
