// What move asks of the nodes before its first store, by the chains of `sound`: type rules where the new name exists, and that a folder does not go
// into itself or below. Nothing is opened or changed. A question answers Ok, or the reason that refuses the move.
#![tactic(auto)]

ghost use Rattle.std.specs.Prelude.{List, ℕ, ◌<◌, ◌≤◌};
ghost use Rattle.std.specs.Result.{result_unwrap_or};
ghost use Rattle.base.specs.Told.{code};
ghost use Rattle.base.specs.Out.{Out, Went, done};
ghost use Rattle.structs.specs.declared.DiskINode.{DiskINode};
ghost use Rattle.table.specs.Table.{row_at};
ghost use Rattle.sefs.specs.State.{Fs};
ghost use Rattle.sefs.specs.Move.{read_slots, dots_of, climb as climb_from, not_below};
ghost use Rattle.chains.specs.Led.{Led};
ghost use Rattle.mem.specs.Mem.{table_in, Whole};
ghost use Rattle.mem.specs.State.{fs_at};
ghost use Rattle.climbs.specs.Types.{Typed, if_empty, judge_rows};

use base::{Reason, index};
use chains::slots::{end_of, named_slot, slot_bytes};
use le::u32_at;
use mem::{id_at, rec_at};
use nodes_read::record_on;
use structs::{DiskINode, MoveVerdict};
use verdicts::move_verdict;

// ---- type rules

// The first n slots can be read.
fn read_slots(
    arena: &[u8],
    first: &[u16],
    next: &[u16],
    mem: &[u8],
    d: usize,
    n: usize,
) -> Result<(), Reason>
    requires led { Led arena.now first.now next.now }
    requires whole { Whole mem.now × ((d < 34) × (n ≤ 4294967295)) }
    ensures { Went (read_slots (fs_at arena.now mem.now) d n) (fs_at arena.now mem.now) Unit (code result) }
{
    let rec = rec_at(mem, d);
    let end = end_of(arena, first, next, rec);
    let mut slot = [0u8; 264];
    for k in 0..n {
        named_slot(arena, first, next, rec, end, k, &mut slot)?;
    }
    Ok(())
}

// 13 for a replaced folder with over 2 slots; those there are, are read.
fn if_empty(arena: &[u8], first: &[u16], next: &[u16], mem: &[u8], d: usize) -> Result<(), Reason>
    requires led { Led arena.now first.now next.now }
    requires whole { Whole mem.now × (d < 34) }
    ensures { Went (if_empty (fs_at arena.now mem.now) d) (fs_at arena.now mem.now) Unit (code result) }
{
    let n = rec_at(mem, d).blocks;
    if n > 2 {
        return Err(Reason::DirNotEmpty);
    }
    read_slots(arena, first, next, mem, d, index(n))
}

// The moved node is in row c, the replaced one in row d.
pub fn judge(
    arena: &[u8],
    first: &[u16],
    next: &[u16],
    mem: &[u8],
    c: usize,
    d: usize,
) -> Result<(), Reason>
    requires led { Led arena.now first.now next.now }
    requires whole { Whole mem.now × ((c < 34) × ((d < 34) × (Typed (row_at (table_in mem.now) c).rec × Typed (row_at (table_in mem.now) d).rec))) }
    ensures { Went (judge_rows (fs_at arena.now mem.now) c d) (fs_at arena.now mem.now) Unit (code result) }
{
    let v = move_verdict(rec_at(mem, c).kind, rec_at(mem, d).kind);
    match v {
        MoveVerdict::Allowed => Ok(()),
        MoveVerdict::NotDir => Err(Reason::NotDir),
        MoveVerdict::IsDir => Err(Reason::IsDir),
        MoveVerdict::IfEmpty => if_empty(arena, first, next, mem, d),
    }
}

// ---- a folder does not go into itself or below

// What slot 1 of a folder names.
pub fn dots_of(arena: &[u8], first: &[u16], next: &[u16], rec: DiskINode) -> Result<u32, Reason>
    requires { Led arena.now first.now next.now }
    ensures { (m : List ℕ) → Went (dots_of (fs_at arena.now m) rec) (result_unwrap_or result 0) Unit (code result) }
{
    if rec.kind != 2 {
        return Err(Reason::Stuck);
    }
    let mut slot = [0u8; 264];
    let end = end_of(arena, first, next, rec);
    slot_bytes(arena, first, next, rec, end, 1, &mut slot)?;
    Ok(u32_at(&slot, 0))
}

// From folder `id` up to node 2: 6 where node c is met, 19 past 4,096 folders. The record of a folder is looked at once it is climbed from.
fn climb(
    arena: &[u8],
    first: &[u16],
    next: &[u16],
    mem: &[u8],
    c: u32,
    id: u32,
    rec: DiskINode,
) -> Result<(), Reason>
    requires led { Led arena.now first.now next.now }
    requires whole { Whole mem.now }
    ensures { Went (climb_from (fs_at arena.now mem.now) c 4096 id (done rec)) tt Unit (code result) }
{
    let mut at = id;
    let mut noted = Ok(rec);
    for k in 0..4096usize {
        if at == c {
            return Err(Reason::InvalidParam);
        }
        if at == 2 {
            return Ok(());
        }
        let folder = noted?;
        at = dots_of(arena, first, next, folder)?;
        noted = record_on(arena, first, next, mem, at);
    }
    climb_end(at, c)
}

// Where no more folders may be climbed from.
fn climb_end(at: u32, c: u32) -> Result<(), Reason>
    ensures { (s : Fs) (o : Out DiskINode) → Went (climb_from s c 0 at o) tt Unit (code result) }
{
    if at == c {
        return Err(Reason::InvalidParam);
    }
    if at == 2 {
        return Ok(());
    }
    Err(Reason::Stuck)
}

// The node in row c goes from folder i to folder j.
pub fn not_below(
    arena: &[u8],
    first: &[u16],
    next: &[u16],
    mem: &[u8],
    i: usize,
    j: usize,
    c: usize,
) -> Result<(), Reason>
    requires led { Led arena.now first.now next.now }
    requires whole { Whole mem.now × ((i < 34) × ((j < 34) × (c < 34))) }
    ensures { Went (not_below (fs_at arena.now mem.now) i j c) tt Unit (code result) }
{
    if id_at(mem, i) == id_at(mem, j) {
        return Ok(());
    }
    if rec_at(mem, c).kind != 2 {
        return Ok(());
    }
    climb(
        arena,
        first,
        next,
        mem,
        id_at(mem, c),
        id_at(mem, j),
        rec_at(mem, j),
    )
}
