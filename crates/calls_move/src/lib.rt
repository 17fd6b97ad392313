// The call move: 5; the source 7, 8; 9, 10 for either name; the target 7, 8; where the new name exists 11, the same node, type rules; 11 where it
// does not; 6 for a folder into itself or below; then the steps.
// It asks and reads by the chains of `sound`, decides its steps on a view of the arena, and commits once nothing can refuse it any more.
#![tactic(auto)]

ghost use Rattle.std.specs.Prelude.{◌≡◌, List, ℕ, ◌<◌, ◌≤◌, length, eqb};
ghost use Rattle.std.specs.Result.{result_unwrap_or};
ghost use Rattle.base.specs.Told.{code};
ghost use Rattle.base.specs.Search.{pick};
ghost use Rattle.structs.specs.Layout.{entry_of};
ghost use Rattle.structs.specs.declared.DiskEntry.{DiskEntry};
ghost use Rattle.base.specs.Out.{Went};
ghost use Rattle.overlay.specs.View.{left, Empty};
ghost use Rattle.sefs.specs.Ask.{start};
ghost use Rattle.sefs.specs.State.{Fs};
ghost use Rattle.sefs.specs.Move.{move_onto, move_free, call_move};
ghost use Rattle.table.specs.Table.{row_at};
ghost use Rattle.mem.specs.Mem.{table_in, Whole, memory_size};
ghost use Rattle.mem.specs.State.{fs_of, Stepped, Ready, fs_at};
ghost use Rattle.chains.specs.Led.{Led};
ghost use Rattle.calls.specs.Asked.{Admitted};
ghost use Rattle.steps.specs.Ends.{Rest, ending, Ended, Returned};
ghost use Rattle.move_steps.specs.declared.Gone.TheVariants.{Free};
ghost use Rattle.climbs.specs.Types.{Typed};
ghost use Rattle.move_steps.specs.Steps.{move_named, move_over};
ghost use Rattle.calls_move.specs.Parts.{both, open_two, known_two, replace_known, replace_node, replace_named, move_found, good_two, plain_two, short_two, late_asks, move_asks, move_work, plan_steps, planned, Planned, Agreed};
ghost use Rattle.calls_move.specs.Plans.{no_plan};
ghost use Rattle.calls_move.specs.Courses.{course_as, EndedMove};

use base::{Reason, index};
use calls::led::admit;
use calls::{Reply, done, good_name, known, live_folder, new_name, not_long, not_special, refused};
use chains::slots::{find_slot, lookup};
use climbs::{judge, not_below};
use le::u32_at;
use mem::{MEMORY, id_at, kind_at, put_table, rec_at, table_at};
use move_steps::{Gone, move_onto, move_slot, rename};
use nodes_read::get_node;
use steps::reach_two_read;
use structs::DiskINode;
use table::{Handle, Table};

// What a move that is done comes to. `Same`: both names are one node's, and nothing changes.
#[derive(Clone, Copy)]
pub enum Course {
    Made,
    Same,
}

// ---- before the first store: what is asked, and found by the chains of `sound`

// The rows of the replaced and of the moved node.
fn open_two(
    arena: &[u8],
    first: &[u16],
    next: &[u16],
    mem: &mut [u8],
    new: u32,
    was: u32,
) -> Result<(usize, usize), Reason>
    requires led { Led arena.now first.now next.now }
    requires whole { Whole mem.old }
    ensures { Went (open_two (fs_at arena.now mem.old) new was) (both (fs_at arena.now mem.new) (result_unwrap_or result (0, 0)).0 (result_unwrap_or result (0, 0)).1) (Whole mem.new × (((result_unwrap_or result (0, 0)).0 < 34) × ((result_unwrap_or result (0, 0)).1 < 34))) (code result) }
{
    let gone = get_node(arena, first, next, mem, new)?;
    let moved = get_node(arena, first, next, mem, was)?;
    Ok((gone, moved))
}

// 000 takes the metadata of both.
fn known_two(moved: DiskINode, gone: DiskINode) -> Result<(), Reason>
    ensures { Went (known_two moved gone) tt (Typed moved × Typed gone) (code result) }
{
    known(moved)?;
    known(gone)
}

// How a move goes: both names are one node's, and nothing changes.
pub const SAME: u8 = 0;
// The new name is free, and the slot at `place` is moved.
pub const FREE: u8 = 1;
// The moved node goes in the place of the one that is gone, which slot `place` of the target names.
pub const ONTO: u8 = 2;

// A move that is decided but for its steps. Its way is a number and no enum, since `move_rows` takes any: `plan_steps` has steps for each.
#[derive(Clone, Copy)]
pub struct Plan {
    pub way: u8,
    pub row: usize,
    pub other: usize,
    pub place: usize,
    pub gone: usize,
    pub moved: usize,
}

// Type rules; and a folder does not go into itself or below.
fn ask_onto(
    arena: &[u8],
    first: &[u16],
    next: &[u16],
    mem: &[u8],
    i: usize,
    j: usize,
    c: usize,
    d: usize,
) -> Result<(), Reason>
    requires led { Led arena.now first.now next.now }
    requires whole { Whole mem.now × ((i < 34) × ((j < 34) × ((c < 34) × ((d < 34) × (Typed (row_at (table_in mem.now) c).rec × Typed (row_at (table_in mem.now) d).rec))))) }
    ensures { (old name : List ℕ) (k : ℕ) → Rest (move_onto (fs_at arena.now mem.now) i j old name c d k) (ending (move_over (fs_at arena.now mem.now) i j old name c d k)) Unit (code result) }
{
    judge(arena, first, next, mem, c, d)?;
    not_below(arena, first, next, mem, i, j, c)
}

// The old name is node `was`, in row c, and the new one node `new`, in row d. Where they are two, the one may go in the other's place.
fn ask_two(
    arena: &[u8],
    first: &[u16],
    next: &[u16],
    mem: &[u8],
    i: usize,
    j: usize,
    c: usize,
    d: usize,
    new: u32,
    was: u32,
) -> Result<(), Reason>
    requires led { Led arena.now first.now next.now }
    requires whole { Whole mem.now × ((i < 34) × ((j < 34) × ((c < 34) × (d < 34)))) }
    ensures { (z : Fs) (old name : List ℕ) (e : DiskEntry) (k : ℕ) → Rest (replace_known z (fs_at arena.now mem.now) i j old name k new was d c) (planned z (fs_at arena.now mem.now) (pick (eqb was new) 0 2) i j old name e k d c) Unit (code result) }
{
    known_two(rec_at(mem, c), rec_at(mem, d))?;
    if was == new {
        return Ok(());
    }
    ask_onto(arena, first, next, mem, i, j, c, d)
}

// The way where the new name is node `new` and the old name node `was`.
fn way_onto(was: u32, new: u32) -> u8
    ensures { result ≡ pick (eqb was new) 0 2 }
{
    if was == new {
        return SAME;
    }
    ONTO
}

// Slot k of the target names node `new`, and the old name is node `was`.
fn plan_node(
    arena: &[u8],
    first: &[u16],
    next: &[u16],
    mem: &mut [u8],
    i: usize,
    j: usize,
    k: usize,
    new: u32,
    was: u32,
) -> Result<Plan, Reason>
    requires led { Led arena.now first.now next.now }
    requires whole { Whole mem.old × ((i < 34) × (j < 34)) }
    ensures { (old name : List ℕ) (e : DiskEntry) → Rest (replace_node (fs_at arena.now mem.old) i j old name k new was) (planned (fs_at arena.now mem.old) (fs_at arena.now mem.new) (result_unwrap_or result no_plan).way (result_unwrap_or result no_plan).row (result_unwrap_or result no_plan).other old name e (result_unwrap_or result no_plan).place (result_unwrap_or result no_plan).gone (result_unwrap_or result no_plan).moved) (Planned mem.new (result_unwrap_or result no_plan).row (result_unwrap_or result no_plan).other (result_unwrap_or result no_plan).gone (result_unwrap_or result no_plan).moved) (code result) }
{
    let (gone, moved) = open_two(arena, first, next, mem, new, was)?;
    ask_two(arena, first, next, &mem[..], i, j, moved, gone, new, was)?;
    Ok(Plan {
        way: way_onto(was, new),
        row: i,
        other: j,
        place: k,
        gone,
        moved,
    })
}

// The old name is found first. `slot` is room for a slot; so below, too.
fn plan_named(
    arena: &[u8],
    first: &[u16],
    next: &[u16],
    mem: &mut [u8],
    slot: &mut [u8],
    i: usize,
    j: usize,
    old: &[u8],
    k: usize,
    new: u32,
) -> Result<Plan, Reason>
    requires led { Led arena.now first.now next.now }
    requires whole { Whole mem.old × ((i < 34) × ((j < 34) × (length slot.old ≡ 264))) }
    ensures { (name : List ℕ) (e : DiskEntry) → Rest (replace_named (fs_at arena.now mem.old) i j old.now name k new) (planned (fs_at arena.now mem.old) (fs_at arena.now mem.new) (result_unwrap_or result no_plan).way (result_unwrap_or result no_plan).row (result_unwrap_or result no_plan).other old.now name e (result_unwrap_or result no_plan).place (result_unwrap_or result no_plan).gone (result_unwrap_or result no_plan).moved) (Planned mem.new (result_unwrap_or result no_plan).row (result_unwrap_or result no_plan).other (result_unwrap_or result no_plan).gone (result_unwrap_or result no_plan).moved) (code result) }
{
    find_slot(arena, first, next, rec_at(&mem[..], i), old, slot)?;
    plan_node(arena, first, next, mem, i, j, k, new, u32_at(&slot[..], 0))
}

// The new name is free. Between two folders the moved node is opened and its type looked at, and a folder does not go into itself or below.
fn open_moved(
    arena: &[u8],
    first: &[u16],
    next: &[u16],
    mem: &mut [u8],
    slot: &mut [u8],
    i: usize,
    j: usize,
    old: &[u8],
) -> Result<(), Reason>
    requires led { Led arena.now first.now next.now }
    requires whole { Whole mem.old × ((i < 34) × ((j < 34) × (length slot.old ≡ 264))) }
    ensures { (name : List ℕ) → Rest (move_free (fs_at arena.now mem.old) i j old.now name) (ending (move_named (fs_at arena.now mem.new) i j old.now name Free)) (Whole mem.new) (code result) }
{
    if id_at(&mem[..], i) == id_at(&mem[..], j) {
        return Ok(());
    }
    find_slot(arena, first, next, rec_at(&mem[..], i), old, slot)?;
    let row = get_node(arena, first, next, mem, u32_at(&slot[..], 0))?;
    if kind_at(&mem[..], row) > 4 {
        return Err(Reason::Stuck);
    }
    not_below(arena, first, next, &mem[..], i, j, row)
}

// The moved slot, with its new name, goes to `slot`.
fn plan_slot(
    arena: &[u8],
    first: &[u16],
    next: &[u16],
    mem: &[u8],
    slot: &mut [u8],
    i: usize,
    j: usize,
    old: &[u8],
    name: &[u8],
) -> Result<Plan, Reason>
    requires led { Led arena.now first.now next.now }
    requires whole { Whole mem.now × ((i < 34) × ((j < 34) × ((length name.now ≤ 255) × (length slot.old ≡ 264)))) }
    ensures { (z : Fs) → Rest (ending (move_named (fs_at arena.now mem.now) i j old.now name.now Free)) (planned z (fs_at arena.now mem.now) (result_unwrap_or result no_plan).way (result_unwrap_or result no_plan).row (result_unwrap_or result no_plan).other old.now name.now (entry_of slot.new) (result_unwrap_or result no_plan).place (result_unwrap_or result no_plan).gone (result_unwrap_or result no_plan).moved) (Planned mem.now (result_unwrap_or result no_plan).row (result_unwrap_or result no_plan).other (result_unwrap_or result no_plan).gone (result_unwrap_or result no_plan).moved) (code result) }
{
    let place = find_slot(arena, first, next, rec_at(mem, i), old, slot)?;
    rename(slot, name);
    Ok(Plan {
        way: FREE,
        row: i,
        other: j,
        place,
        gone: 0,
        moved: 0,
    })
}

// The old name is looked for again by the record that its folder has once the moved node is open.
fn plan_free(
    arena: &[u8],
    first: &[u16],
    next: &[u16],
    mem: &mut [u8],
    slot: &mut [u8],
    i: usize,
    j: usize,
    old: &[u8],
    name: &[u8],
) -> Result<Plan, Reason>
    requires led { Led arena.now first.now next.now }
    requires whole { Whole mem.old × ((i < 34) × ((j < 34) × ((length name.now ≤ 255) × (length slot.old ≡ 264)))) }
    ensures { Rest (move_free (fs_at arena.now mem.old) i j old.now name.now) (planned (fs_at arena.now mem.old) (fs_at arena.now mem.new) (result_unwrap_or result no_plan).way (result_unwrap_or result no_plan).row (result_unwrap_or result no_plan).other old.now name.now (entry_of slot.new) (result_unwrap_or result no_plan).place (result_unwrap_or result no_plan).gone (result_unwrap_or result no_plan).moved) (Planned mem.new (result_unwrap_or result no_plan).row (result_unwrap_or result no_plan).other (result_unwrap_or result no_plan).gone (result_unwrap_or result no_plan).moved) (code result) }
{
    open_moved(arena, first, next, mem, slot, i, j, old)?;
    plan_slot(arena, first, next, &mem[..], slot, i, j, old, name)
}

fn plan_found(
    arena: &[u8],
    first: &[u16],
    next: &[u16],
    mem: &mut [u8],
    slot: &mut [u8],
    i: usize,
    j: usize,
    old: &[u8],
    name: &[u8],
) -> Result<Plan, Reason>
    requires led { Led arena.now first.now next.now }
    requires whole { Whole mem.old × ((i < 34) × ((j < 34) × ((length name.now ≤ 255) × (length slot.old ≡ 264)))) }
    ensures { Rest (move_found (fs_at arena.now mem.old) i j old.now name.now) (planned (fs_at arena.now mem.old) (fs_at arena.now mem.new) (result_unwrap_or result no_plan).way (result_unwrap_or result no_plan).row (result_unwrap_or result no_plan).other old.now name.now (entry_of slot.new) (result_unwrap_or result no_plan).place (result_unwrap_or result no_plan).gone (result_unwrap_or result no_plan).moved) (Planned mem.new (result_unwrap_or result no_plan).row (result_unwrap_or result no_plan).other (result_unwrap_or result no_plan).gone (result_unwrap_or result no_plan).moved) (code result) }
{
    let rec = rec_at(&mem[..], j);
    let place = lookup(arena, first, next, rec, name, slot)?;
    if place < index(rec.blocks) {
        let new = u32_at(&slot[..], 0);
        return plan_named(arena, first, next, mem, slot, i, j, old, place, new);
    }
    plan_free(arena, first, next, mem, slot, i, j, old, name)
}

fn good_names(old: &[u8], name: &[u8]) -> Result<(), Reason>
    ensures { Went (good_two old.now name.now) tt Unit (code result) }
{
    good_name(old)?;
    new_name(name)
}

fn not_specials(old: &[u8], name: &[u8]) -> Result<(), Reason>
    ensures { Went (plain_two old.now name.now) tt Unit (code result) }
{
    not_special(old)?;
    not_special(name)
}

fn not_longs(old: &[u8], name: &[u8]) -> Result<(), Reason>
    ensures { Went (short_two old.now name.now) tt (length name.now ≤ 255) (code result) }
{
    not_long(old)?;
    not_long(name)
}

fn ask_late(target: DiskINode, old: &[u8], name: &[u8]) -> Result<(), Reason>
    ensures { Went (late_asks target old.now name.now) tt (length name.now ≤ 255) (code result) }
{
    not_specials(old, name)?;
    not_longs(old, name)?;
    live_folder(target)
}

fn move_ask(source: DiskINode, target: DiskINode, old: &[u8], name: &[u8]) -> Result<(), Reason>
    ensures { Went (move_asks source target old.now name.now) tt (length name.now ≤ 255) (code result) }
{
    good_names(old, name)?;
    live_folder(source)?;
    ask_late(target, old, name)
}

// The questions, and then what the names lead to.
fn plan_work(
    arena: &[u8],
    first: &[u16],
    next: &[u16],
    mem: &mut [u8],
    slot: &mut [u8],
    i: usize,
    j: usize,
    old: &[u8],
    name: &[u8],
) -> Result<Plan, Reason>
    requires led { Led arena.now first.now next.now }
    requires whole { Whole mem.old × ((i < 34) × ((j < 34) × (length slot.old ≡ 264))) }
    ensures { Rest (move_work (fs_at arena.now mem.old) i j old.now name.now) (planned (fs_at arena.now mem.old) (fs_at arena.now mem.new) (result_unwrap_or result no_plan).way (result_unwrap_or result no_plan).row (result_unwrap_or result no_plan).other old.now name.now (entry_of slot.new) (result_unwrap_or result no_plan).place (result_unwrap_or result no_plan).gone (result_unwrap_or result no_plan).moved) ((length name.now ≤ 255) × (Planned mem.new (result_unwrap_or result no_plan).row (result_unwrap_or result no_plan).other (result_unwrap_or result no_plan).gone (result_unwrap_or result no_plan).moved × (length slot.new ≡ 264))) (code result) }
{
    move_ask(rec_at(&mem[..], i), rec_at(&mem[..], j), old, name)?;
    plan_found(arena, first, next, mem, slot, i, j, old, name)
}

// What follows the tests of arena and table, by the chains that they left.
pub fn plan_led(
    arena: &[u8],
    first: &[u16],
    next: &[u16],
    mem: &mut [u8],
    slot: &mut [u8],
    who: u8,
    h: Handle,
    old: &[u8],
    target: Handle,
    name: &[u8],
) -> Result<Plan, Reason>
    requires { Admitted arena.now first.now next.now mem.old × (length slot.old ≡ 264) }
    ensures { Rest (call_move arena.now (table_in mem.old) who h old.now target name.now) (planned (start arena.now (table_in mem.old)) (fs_at arena.now mem.new) (result_unwrap_or result no_plan).way (result_unwrap_or result no_plan).row (result_unwrap_or result no_plan).other old.now name.now (entry_of slot.new) (result_unwrap_or result no_plan).place (result_unwrap_or result no_plan).gone (result_unwrap_or result no_plan).moved) (Agreed arena.now mem.new name.now slot.new (result_unwrap_or result no_plan).row (result_unwrap_or result no_plan).other (result_unwrap_or result no_plan).gone (result_unwrap_or result no_plan).moved) (code result) }
{
    let (i, j) = reach_two_read(arena, first, next, mem, who, h, target)?;
    plan_work(arena, first, next, mem, slot, i, j, old, name)
}

// The frame of the chains is left before a workspace is made.
fn decide(
    arena: &[u8],
    mem: &mut [u8],
    slot: &mut [u8],
    who: u8,
    h: Handle,
    old: &[u8],
    target: Handle,
    name: &[u8],
) -> Result<Plan, Reason>
    requires { Whole mem.old × (length slot.old ≡ 264) }
    ensures { Rest (call_move arena.now (table_in mem.old) who h old.now target name.now) (planned (start arena.now (table_in mem.old)) (fs_at arena.now mem.new) (result_unwrap_or result no_plan).way (result_unwrap_or result no_plan).row (result_unwrap_or result no_plan).other old.now name.now (entry_of slot.new) (result_unwrap_or result no_plan).place (result_unwrap_or result no_plan).gone (result_unwrap_or result no_plan).moved) (Agreed arena.now mem.new name.now slot.new (result_unwrap_or result no_plan).row (result_unwrap_or result no_plan).other (result_unwrap_or result no_plan).gone (result_unwrap_or result no_plan).moved) (code result) }
{
    let mut chains = [0u16; 8192];
    admit(arena, &mut chains, &mem[..])?;
    let c = &chains[..];
    plan_led(
        arena,
        &c[..4096],
        &c[4096..8192],
        mem,
        slot,
        who,
        h,
        old,
        target,
        name,
    )
}

// ---- the steps

// `slot` has the moved slot where the way is `FREE`, and is room for slots then.
fn move_planned(
    arena: &[u8],
    work: &mut [u8],
    mem: &mut [u8],
    slot: &mut [u8],
    p: Plan,
    old: &[u8],
    name: &[u8],
) -> Result<(), Reason>
    requires ready { Ready arena.now work.old mem.old × (61 ≤ left work.old) }
    requires agreed { Agreed arena.now mem.old name.now slot.old p.row p.other p.gone p.moved }
    ensures { Stepped (plan_steps (fs_of arena.now work.old mem.old) p.way p.row p.other old.now name.now (entry_of slot.old) p.place p.gone p.moved) arena.now work.old work.new mem.new 61 (code result) }
{
    if p.way == FREE {
        return move_slot(arena, work, mem, slot, p.row, p.other, p.place, Gone::Free);
    }
    move_onto(
        arena, work, mem, slot, p.row, p.other, old, name, p.moved, p.gone, p.place,
    )
}

// The workspace has no block yet.
fn move_in(
    arena: &mut [u8],
    work: &mut [u8],
    mem: &mut [u8],
    slot: &mut [u8],
    p: Plan,
    old: &[u8],
    name: &[u8],
) -> Result<(), Reason>
    requires { Empty arena.old work.old 71 × Agreed arena.old mem.old name.now slot.old p.row p.other p.gone p.moved }
    ensures { Ended (ending (plan_steps (fs_at arena.old mem.old) p.way p.row p.other old.now name.now (entry_of slot.old) p.place p.gone p.moved)) arena.old arena.new (table_in mem.new) (code result) }
{
    move_planned(&arena[..], work, mem, slot, p, old, name)?;
    overlay::commit(arena, &work[..]);
    Ok(())
}

// The workspace is made.
pub fn move_rows(
    arena: &mut [u8],
    mem: &mut [u8],
    slot: &mut [u8],
    p: Plan,
    old: &[u8],
    name: &[u8],
) -> Result<(), Reason>
    requires { Agreed arena.old mem.old name.now slot.old p.row p.other p.gone p.moved }
    ensures { Ended (ending (plan_steps (fs_at arena.old mem.old) p.way p.row p.other old.now name.now (entry_of slot.old) p.place p.gone p.moved)) arena.old arena.new (table_in mem.new) (code result) }
{
    let mut work = [0u8; 36352];
    overlay::begin(&mut work);
    move_in(arena, &mut work, mem, slot, p, old, name)
}

// With the place where the moved slot goes.
fn move_with(
    arena: &mut [u8],
    mem: &mut [u8],
    slot: &mut [u8],
    who: u8,
    h: Handle,
    old: &[u8],
    target: Handle,
    name: &[u8],
) -> Result<Course, Reason>
    requires { Whole mem.old × (length slot.old ≡ 264) }
    ensures { EndedMove (call_move arena.old (table_in mem.old) who h old.now target name.now) (table_in mem.old) arena.old arena.new (table_in mem.new) result }
{
    let p = decide(&arena[..], mem, slot, who, h, old, target, name)?;
    if p.way == SAME {
        return Ok(Course::Same);
    }
    move_rows(arena, mem, slot, p, old, name)?;
    Ok(Course::Made)
}

// The call on the table in memory.
pub fn move_on(
    arena: &mut [u8],
    mem: &mut [u8],
    who: u8,
    h: Handle,
    old: &[u8],
    target: Handle,
    name: &[u8],
) -> Result<Course, Reason>
    requires { Whole mem.old }
    ensures { EndedMove (call_move arena.old (table_in mem.old) who h old.now target name.now) (table_in mem.old) arena.old arena.new (table_in mem.new) result }
{
    let mut slot = [0u8; 264];
    move_with(arena, mem, &mut slot, who, h, old, target, name)
}

// What the call answers: the table as memory has it where the node was moved, else the one that the call was given.
fn settle_course(t: Table, mem: &[u8], r: Result<Course, Reason>) -> Reply
    requires { length mem.now ≡ memory_size }
    ensures { result ≡ course_as t (table_in mem.now) r }
{
    match r {
        Ok(Course::Made) => done(table_at(mem)),
        Ok(Course::Same) => done(t),
        Err(reason) => refused(t, reason),
    }
}

pub fn move_(
    arena: &mut [u8],
    t: Table,
    who: u8,
    h: Handle,
    old: &[u8],
    target: Handle,
    name: &[u8],
) -> Reply
    ensures { Returned t (call_move arena.old t who h old.now target name.now) arena.old arena.new result }
{
    let mut mem = [0u8; MEMORY];
    put_table(&mut mem, t);
    let r = move_on(arena, &mut mem, who, h, old, target, name);
    settle_course(t, &mem, r)
}
