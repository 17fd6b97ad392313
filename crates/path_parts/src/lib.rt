// One folder of a path (order 14): the folder above it, and its name there. Nothing is opened or changed; all is read by the chains of `sound`.
#![tactic(auto)]

ghost use Rattle.std.specs.Prelude.{◌≡◌, ◌+◌, ◌<◌, ◌≤◌, length};
ghost use Rattle.std.specs.Result.{result_unwrap_or};
ghost use Rattle.base.specs.Told.{code};
ghost use Rattle.base.specs.Out.{Went, done};
ghost use Rattle.base.specs.Parts.{part};
ghost use Rattle.rules.specs.Image.{later_slots};
ghost use Rattle.sefs.specs.Slots.{slot_bytes};
ghost use Rattle.walk.specs.Walk.{spot};
ghost use Rattle.table.specs.Zero.{zero_record};
ghost use Rattle.chains.specs.Led.{Led};
ghost use Rattle.mem.specs.Mem.{Whole};
ghost use Rattle.mem.specs.State.{fs_at};
ghost use Rattle.paths.specs.Path.{namer_to, name_in, folder_on};
ghost use Rattle.paths.specs.Spans.{above_of, step_up, reached};
ghost use Rattle.path_parts.specs.Parts.{spelled_name, no_parent, no_step};

use base::{Reason, index};
use chains::slots::{end_of, slot_bytes};
use climbs::dots_of;
use le::u32_at;
use nodes_read::record_on;
use structs::{DIR, DiskINode};
use utf8::{StoredName, stored_name};

// A folder's first two slots are `.` and `..`; what it holds comes after them.
const DOTS: usize = 2;

// ---- the folder above

// The record of a folder by its id. Another type sticks.
fn folder_on(
    arena: &[u8],
    first: &[u16],
    next: &[u16],
    mem: &[u8],
    id: u32,
) -> Result<DiskINode, Reason>
    requires led { Led arena.now first.now next.now }
    requires whole { Whole mem.now }
    ensures { Went (folder_on (fs_at arena.now mem.now) id) (result_unwrap_or result zero_record) Unit (code result) }
{
    let rec = record_on(arena, first, next, mem, id)?;
    if rec.kind == DIR {
        return Ok(rec);
    }
    Err(Reason::Stuck)
}

// The folder above another.
#[derive(Clone, Copy)]
pub struct Parent {
    pub id: u32,
    pub rec: DiskINode,
}

// What slot 1 names.
pub fn above(
    arena: &[u8],
    first: &[u16],
    next: &[u16],
    mem: &[u8],
    rec: DiskINode,
) -> Result<Parent, Reason>
    requires led { Led arena.now first.now next.now }
    requires whole { Whole mem.now }
    ensures { Went (above_of (fs_at arena.now mem.now) rec) (spot (result_unwrap_or result no_parent).id (result_unwrap_or result no_parent).rec) Unit (code result) }
{
    let id = dots_of(arena, first, next, rec)?;
    let rec = folder_on(arena, first, next, mem, id)?;
    Ok(Parent { id, rec })
}

// ---- the name there

// How many slots come after the two dots.
fn later_slots(rec: DiskINode) -> usize
    ensures { (result ≡ later_slots rec) × (result < 4294967294) }
{
    let n = index(rec.blocks);
    if n < DOTS {
        return 0;
    }
    n - DOTS
}

// The first later slot that names node x, which is then in the lent buffer, or the count of later slots. Those after it are not read.
fn find_namer(
    arena: &[u8],
    first: &[u16],
    next: &[u16],
    rec: DiskINode,
    x: u32,
    slot: &mut [u8],
) -> Result<usize, Reason>
    requires led { Led arena.now first.now next.now }
    requires slot_len { length slot.old ≡ 264 }
    ensures { Went (namer_to arena.now rec x (later_slots rec)) (result_unwrap_or result 0) (result_unwrap_or result 0 < later_slots rec → slot_bytes arena.now rec (2 + (result_unwrap_or result 0)) ≡ done slot.new) (code result) }
{
    let end = end_of(arena, first, next, rec);
    let n = later_slots(rec);
    for k in 0..n {
        slot_bytes(arena, first, next, rec, end, DOTS + k, slot)?;
        if u32_at(&slot[..], 0) == x {
            return Ok(k);
        }
    }
    Ok(n)
}

// The length of a stored name. One that is not ended, or not UTF-8, sticks.
fn spell(name: &[u8]) -> Result<usize, Reason>
    ensures { Went (spelled_name name.now) (part name.now 0 (result_unwrap_or result 0)) (result_unwrap_or result 0 < length name.now) (code result) }
{
    let s = stored_name(name);
    match s {
        StoredName::Ended(n) => Ok(n),
        StoredName::Broken => Err(Reason::Stuck),
    }
}

// The length of the name of node x in the folder of rec. It stands in the lent slot, from its fifth byte on.
pub fn name_in(
    arena: &[u8],
    first: &[u16],
    next: &[u16],
    rec: DiskINode,
    x: u32,
    slot: &mut [u8],
) -> Result<usize, Reason>
    requires led { Led arena.now first.now next.now }
    requires slot_len { length slot.old ≡ 264 }
    ensures { Went (name_in arena.now rec x) (part slot.new 4 (4 + (result_unwrap_or result 0))) (result_unwrap_or result 0 ≤ 255) (code result) }
{
    let place = find_namer(arena, first, next, rec, x, slot)?;
    if place >= later_slots(rec) {
        return Err(Reason::Stuck);
    }
    spell(&slot[4..260])
}

// ---- one turn of the way up

// The folder above, and how long the name there is.
#[derive(Clone, Copy)]
pub struct Step {
    pub id: u32,
    pub rec: DiskINode,
    pub long: usize,
}

pub fn step_up(
    arena: &[u8],
    first: &[u16],
    next: &[u16],
    mem: &[u8],
    x: u32,
    rec: DiskINode,
) -> Result<Step, Reason>
    requires led { Led arena.now first.now next.now }
    requires whole { Whole mem.now }
    ensures { Went (step_up (fs_at arena.now mem.now) x rec) (reached (spot (result_unwrap_or result no_step).id (result_unwrap_or result no_step).rec) (result_unwrap_or result no_step).long) ((result_unwrap_or result no_step).long ≤ 255) (code result) }
{
    let up = above(arena, first, next, mem, rec)?;
    let mut slot = [0u8; 264];
    let long = name_in(arena, first, next, up.rec, x, &mut slot)?;
    Ok(Step {
        id: up.id,
        rec: up.rec,
        long,
    })
}
