// A pass over the folders from root on: it measures the text, and writes it where it is asked to.
ghost use Rattle.std.specs.Prelude.{◌≡◌, List, ℕ, ◌+◌, ◌<◌, ◌≤◌, length, leb};
ghost use Rattle.base.specs.Parts.{part};
ghost use Rattle.structs.specs.Layout.{entry_of};
ghost use Rattle.table.specs.Table.{empty_table};
ghost use Rattle.rules.specs.Tests.{checked};
ghost use Rattle.chains.specs.Led.{Led};
ghost use Rattle.calls_inventory.specs.Passes.{laid_if, Midst, Under, PassOver, OneTurn, stopped_as, moved_to, line_for, line_end, Took};

use crate::places::{Place, ROOT, at_root, go_up, past_line};
use base::index;
use chains::slots::read_slot;
use fsck_read::{name_of, stored_rec};
use inventory_lines::{head_size, put_head, put_path, tail_size};
use le::u32_at;
use structs::DiskINode;

// `at` bytes of the text are done, and the last line's path begins at `from`. Over: the text has ended, or (full) its next line does not fit.
#[repr(C)]
#[derive(Clone, Copy)]
pub struct Progress {
    pub over: bool,
    pub full: bool,
    pub at: usize,
    pub from: usize,
    pub place: Place,
}

fn stopped(s: Progress, full: bool) -> Progress
    ensures { result ≡ stopped_as s full }
{
    let place = s.place;
    Progress {
        over: true,
        full,
        at: s.at,
        from: s.from,
        place,
    }
}

fn moved(s: Progress, place: Place) -> Progress
    ensures { result ≡ moved_to s place }
{
    Progress {
        over: false,
        full: false,
        at: s.at,
        from: s.from,
        place,
    }
}

// Whether a line fits: its folder's path and what it has beside it. (Their sum need not be a number.)
fn fits(room: usize, path: usize, own: usize) -> bool
    ensures { result ≡ leb (path + own) room }
{
    if room < own {
        return false;
    }
    path <= room - own
}

// The line of a node under the name in `slot`, where it is asked for.
fn write_line(write: bool, s: Progress, slot: &[u8], node: DiskINode, out: &mut [u8])
    requires slot_len { (length slot.now ≡ 264) × (s.from + s.place.path ≤ s.at) }
    requires node_in_bounds { line_end s (entry_of slot.now) node ≤ length out.old }
    ensures { out.new ≡ laid_if write out.old s.at (line_for (entry_of slot.now) node (part out.old s.from (s.from + s.place.path))) }
{
    if !write {
        return;
    }
    let id = u32_at(slot, 0);
    let at = put_head(out, s.at, id, node.kind, node.nlinks as u32);
    let path = s.place.path;
    put_path(out, at, s.from, path, name_of(slot));
}

// Past the line of the slot that was read: a folder's contents come next, or the next slot.
fn take_line(write: bool, s: Progress, slot: &[u8], node: DiskINode, out: &mut [u8]) -> Progress
    requires slot_len { (length slot.now ≡ 264) × (s.place.slot < 4294967296) }
    requires path_bound { (s.from + s.place.path ≤ s.at) × (s.at ≤ length out.old) }
    ensures { Took write (entry_of slot.now) node out.old out.new s result }
{
    let id = u32_at(slot, 0);
    let head = head_size(id, node.kind, node.nlinks as u32);
    let tail = tail_size(name_of(slot));
    let p = s.place;
    if !fits(out.len() - s.at, p.path, head + tail) {
        return stopped(s, true);
    }
    write_line(write, s, slot, node, out);
    Progress {
        over: false,
        full: false,
        at: s.at + head + p.path + tail,
        from: s.at + head,
        place: past_line(p, index(id), node, tail - 1),
    }
}

fn line(
    arena: &[u8],
    first: &[u16],
    next: &[u16],
    write: bool,
    s: Progress,
    slot: &mut [u8],
    out: &mut [u8],
) -> Progress
    requires led { Led arena.now first.now next.now }
    requires empty_table_value { (checked arena.now empty_table ≡ 0) × (length slot.old ≡ 264) }
    requires under { Under arena.now write out.old s × (s.place.slot < s.place.rec.blocks) }
    ensures { (o : List ℕ) → Midst arena.now write o out.old s → OneTurn arena.now write o out.new s result }
{
    let p = s.place;
    let rec = p.rec;
    read_slot(arena, first, next, rec, p.slot, slot);
    let node = stored_rec(arena, first, next, index(u32_at(&slot[..], 0)));
    take_line(write, s, &slot[..], node, out)
}

fn turn(
    arena: &[u8],
    first: &[u16],
    next: &[u16],
    write: bool,
    s: Progress,
    slot: &mut [u8],
    out: &mut [u8],
) -> Progress
    requires led { Led arena.now first.now next.now }
    requires empty_table_value { (checked arena.now empty_table ≡ 0) × (length slot.old ≡ 264) }
    requires under { Under arena.now write out.old s }
    ensures { (o : List ℕ) → Midst arena.now write o out.old s → OneTurn arena.now write o out.new s result }
{
    let p = s.place;
    let rec = p.rec;
    if p.slot < index(rec.blocks) {
        return line(arena, first, next, write, s, slot, out);
    }
    if p.folder == ROOT {
        return stopped(s, false);
    }
    moved(s, go_up(arena, first, next, p, slot))
}

fn run(
    arena: &[u8],
    first: &[u16],
    next: &[u16],
    write: bool,
    s: Progress,
    slot: &mut [u8],
    out: &mut [u8],
) -> Progress
    requires led { Led arena.now first.now next.now }
    requires empty_table_value { (checked arena.now empty_table ≡ 0) × (length slot.old ≡ 264) }
    requires under { Under arena.now write out.old s }
    ensures { (o : List ℕ) → Midst arena.now write o out.old s → PassOver arena.now write o out.new result }
{
    let mut now = s;
    // A loop: a turn tells whether the pass is over.
    loop {
        now = turn(arena, first, next, write, now, slot, out);
        if now.over {
            return now;
        }
    }
}

pub fn pass(arena: &[u8], first: &[u16], next: &[u16], write: bool, out: &mut [u8]) -> Progress
    requires led { Led arena.now first.now next.now }
    requires empty_table_value { checked arena.now empty_table ≡ 0 }
    ensures { PassOver arena.now write out.old out.new result }
{
    let mut slot = [0u8; 264];
    let place = at_root(arena, first, next);
    let s = Progress {
        over: false,
        full: false,
        at: 0,
        from: 0,
        place,
    };
    run(arena, first, next, write, s, &mut slot, out)
}
