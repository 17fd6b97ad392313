// The call create. It asks and reads by the chains of `sound`, decides its steps on a view of the arena, and commits once nothing can refuse it any more.
#![tactic(auto)]

ghost use Rattle.std.specs.Prelude.{List, ℕ, ◌<◌, ◌≤◌, length};
ghost use Rattle.std.specs.Result.{result_unwrap_or};
ghost use Rattle.base.specs.Told.{code};
ghost use Rattle.base.specs.Out.{Went};
ghost use Rattle.overlay.specs.View.{left, Empty};
ghost use Rattle.table.specs.Table.{can_hold};
ghost use Rattle.sefs.specs.Nodes.{opened as opened_as};
ghost use Rattle.sefs.specs.Create.{name_folder, named, call_create};
ghost use Rattle.chains.specs.Led.{Led};
ghost use Rattle.mem.specs.Mem.{table_in, Whole};
ghost use Rattle.calls.specs.Asked.{Admitted};
ghost use Rattle.steps.specs.Ends.{Rest};
ghost use Rattle.mem.specs.State.{fs_of, Ready, Still, Stepped, fs_at};
ghost use Rattle.calls.specs.Answers.{added_as, no_handle};
ghost use Rattle.calls_create.specs.Create.{create_ask, create_free, create_sync, create_rest, create_moves, create_work, Asked};
ghost use Rattle.calls_create.specs.Held.{holding, EndedOpen, EndedHeld, ReturnedHeld};

use base::Reason;
use births::birth;
use calls::led::admit;
use calls::{HeldReply, hand, live_folder, new_name, not_long, settle_held};
use chains::exists;
use folders::nlinks_inc;
use holds::can_hold;
use mem::{MEMORY, put_table, rec_at};
use nodes::meta::sync_meta;
use nodes::new_node;
use steps::{append_named, no_slot, reach_read, sync_two};
use structs::{DiskINode, Timespec};
use table::{Handle, Table};
use verdicts::can_make;

// What a new node is to be.
#[repr(C)]
#[derive(Clone, Copy)]
pub struct New {
    pub kind: u32,
    pub mode: u16,
    pub time: Timespec,
    pub file: [u8; 16],
}

// ---- 5, 6, 7, 8, 10, 12, 14, 15, 16

fn create_ask(rec: DiskINode, name: &[u8], kind: u32) -> Result<(), Reason>
    ensures { Went (create_ask rec name.now kind) tt (length name.now ≤ 255) (code result) }
{
    new_name(name)?;
    if !can_make(kind) {
        return Err(Reason::InvalidParam);
    }
    live_folder(rec)?;
    not_long(name)
}

// `room`: whether the table can hold one more.
fn create_free(
    arena: &[u8],
    first: &[u16],
    next: &[u16],
    rec: DiskINode,
    name: &[u8],
    kind: u32,
    file: [u8; 16],
    room: bool,
) -> Result<(), Reason>
    requires { Led arena.now first.now next.now }
    ensures { Went (create_free arena.now rec name.now kind file room) tt Unit (code result) }
{
    no_slot(arena, first, next, rec, name)?;
    if exists(arena, first, next, 1, &file) {
        return Err(Reason::FileTaken);
    }
    if (kind == 2) & (rec.nlinks == 65535) {
        return Err(Reason::TooManyLinks);
    }
    if !room {
        return Err(Reason::TableFull);
    }
    Ok(())
}

// What is asked once the handle is known.
fn create_asks(
    arena: &[u8],
    first: &[u16],
    next: &[u16],
    mem: &[u8],
    who: u8,
    i: usize,
    name: &[u8],
    new: New,
) -> Result<(), Reason>
    requires led { Led arena.now first.now next.now }
    requires whole { Whole mem.now × (i < 34) }
    ensures { Rest (create_work (fs_at arena.now mem.now) i name.now new.kind new.mode new.time new.file (can_hold (table_in mem.now) who)) (create_moves (fs_at arena.now mem.now) i name.now new.kind new.mode new.time new.file) (length name.now ≤ 255) (code result) }
{
    let rec = rec_at(mem, i);
    create_ask(rec, name, new.kind)?;
    let file = new.file;
    let room = can_hold(mem, who);
    create_free(arena, first, next, rec, name, new.kind, file, room)
}

// What follows the tests of arena and table, by the chains that they left.
pub fn create_led(
    arena: &[u8],
    first: &[u16],
    next: &[u16],
    mem: &mut [u8],
    who: u8,
    h: Handle,
    name: &[u8],
    new: New,
) -> Result<usize, Reason>
    requires { Admitted arena.now first.now next.now mem.old }
    ensures { Rest (call_create arena.now (table_in mem.old) who h name.now new.kind new.mode new.time new.file) (holding who (create_moves (fs_at arena.now mem.new) (result_unwrap_or result 0) name.now new.kind new.mode new.time new.file)) (Asked arena.now mem.new name.now (result_unwrap_or result 0)) (code result) }
{
    let row = reach_read(arena, first, next, mem, who, h)?;
    create_asks(arena, first, next, &mem[..], who, row, name, new)?;
    Ok(row)
}

// The frame of the chains is left before a workspace is made.
fn create_asked(
    arena: &[u8],
    mem: &mut [u8],
    who: u8,
    h: Handle,
    name: &[u8],
    new: New,
) -> Result<usize, Reason>
    requires { Whole mem.old }
    ensures { Rest (call_create arena.now (table_in mem.old) who h name.now new.kind new.mode new.time new.file) (holding who (create_moves (fs_at arena.now mem.new) (result_unwrap_or result 0) name.now new.kind new.mode new.time new.file)) (Asked arena.now mem.new name.now (result_unwrap_or result 0)) (code result) }
{
    let mut chains = [0u16; 8192];
    admit(arena, &mut chains, &mem[..])?;
    let c = &chains[..];
    create_led(arena, &c[..4096], &c[4096..8192], mem, who, h, name, new)
}

// ---- the steps

// A new folder is named by its own `.` too, and its parent by its `..`.
fn name_folder(mem: &mut [u8], i: usize, c: usize) -> Result<(), Reason>
    requires { Whole mem.old × ((i < 34) × (c < 34)) }
    ensures { (a w : List ℕ) → Went (name_folder (fs_of a w mem.old) i c) (fs_of a w mem.new) (Whole mem.new) (code result) }
{
    nlinks_inc(mem, c)?;
    nlinks_inc(mem, i)
}

fn name_node(mem: &mut [u8], i: usize, c: usize, kind: u32) -> Result<(), Reason>
    requires { Whole mem.old × ((i < 34) × (c < 34)) }
    ensures { (a w : List ℕ) → Went (named (fs_of a w mem.old) i c kind) (fs_of a w mem.new) (Whole mem.new) (code result) }
{
    nlinks_inc(mem, c)?;
    if kind == 2 {
        return name_folder(mem, i, c);
    }
    Ok(())
}

// Superblock and maps, the node's record, the folder's record.
fn create_sync(
    arena: &[u8],
    work: &mut [u8],
    mem: &mut [u8],
    i: usize,
    c: usize,
) -> Result<(), Reason>
    requires { Ready arena.now work.old mem.old × ((16 ≤ left work.old) × ((i < 34) × (c < 34))) }
    ensures { Stepped (create_sync (fs_of arena.now work.old mem.old) i c) arena.now work.old work.new mem.new 16 (code result) }
{
    sync_meta(arena, work, &mem[..])?;
    sync_two(arena, work, mem, i, c)
}

// What comes after the node is made: slots, link counts, stores.
fn create_rest(
    arena: &[u8],
    work: &mut [u8],
    mem: &mut [u8],
    i: usize,
    c: usize,
    name: &[u8],
    kind: u32,
) -> Result<(), Reason>
    requires { Ready arena.now work.old mem.old × ((25 ≤ left work.old) × ((i < 34) × ((c < 34) × (length name.now ≤ 255)))) }
    ensures { Stepped (create_rest (fs_of arena.now work.old mem.old) i c name.now kind) arena.now work.old work.new mem.new 25 (code result) }
{
    birth(arena, work, mem, i, c, kind)?;
    append_named(arena, work, mem, i, c, name, kind)?;
    name_node(mem, i, c, kind)?;
    create_sync(arena, work, mem, i, c)
}

// A node is made, then named.
fn create_moves(
    arena: &[u8],
    work: &mut [u8],
    mem: &mut [u8],
    i: usize,
    name: &[u8],
    new: New,
) -> Result<usize, Reason>
    requires { Ready arena.now work.old mem.old × ((28 ≤ left work.old) × ((i < 34) × (length name.now ≤ 255))) }
    ensures { Went (create_moves (fs_of arena.now work.old mem.old) i name.now new.kind new.mode new.time new.file) (opened_as (fs_of arena.now work.new mem.new) (result_unwrap_or result 0)) (Still arena.now work.old work.new mem.new 28 × (result_unwrap_or result 0 < 34)) (code result) }
{
    let time = new.time;
    let file = new.file;
    let row = new_node(arena, work, mem, new.kind, new.mode, time, file)?;
    create_rest(arena, work, mem, i, row, name, new.kind)?;
    Ok(row)
}

// The workspace has no block yet.
fn create_in(
    arena: &mut [u8],
    work: &mut [u8],
    mem: &mut [u8],
    i: usize,
    name: &[u8],
    new: New,
) -> Result<usize, Reason>
    requires { Empty arena.old work.old 38 × (Whole mem.old × ((i < 34) × (length name.now ≤ 255))) }
    ensures { EndedOpen (create_moves (fs_at arena.old mem.old) i name.now new.kind new.mode new.time new.file) arena.old arena.new mem.new (result_unwrap_or result 0) (code result) }
{
    let row = create_moves(&arena[..], work, mem, i, name, new)?;
    overlay::commit(arena, &work[..]);
    Ok(row)
}

// The workspace is made, and is gone once the steps are decided.
fn create_begin(
    arena: &mut [u8],
    mem: &mut [u8],
    i: usize,
    name: &[u8],
    new: New,
) -> Result<usize, Reason>
    requires { Asked arena.old mem.old name.now i }
    ensures { EndedOpen (create_moves (fs_at arena.old mem.old) i name.now new.kind new.mode new.time new.file) arena.old arena.new mem.new (result_unwrap_or result 0) (code result) }
{
    let mut work = [0u8; 19456];
    overlay::begin(&mut work);
    create_in(arena, &mut work, mem, i, name, new)
}

// The hold on the node that was made.
pub fn create_rows(
    arena: &mut [u8],
    mem: &mut [u8],
    who: u8,
    i: usize,
    name: &[u8],
    new: New,
) -> Result<Handle, Reason>
    requires { Asked arena.old mem.old name.now i }
    ensures { EndedHeld (holding who (create_moves (fs_at arena.old mem.old) i name.now new.kind new.mode new.time new.file)) arena.old arena.new (added_as (result_unwrap_or result no_handle) (table_in mem.new)) (code result) }
{
    let opened = create_begin(arena, mem, i, name, new);
    hand(mem, who, opened)
}

// The call on the table in memory.
pub fn create_on(
    arena: &mut [u8],
    mem: &mut [u8],
    who: u8,
    h: Handle,
    name: &[u8],
    new: New,
) -> Result<Handle, Reason>
    requires { Whole mem.old }
    ensures { EndedHeld (call_create arena.old (table_in mem.old) who h name.now new.kind new.mode new.time new.file) arena.old arena.new (added_as (result_unwrap_or result no_handle) (table_in mem.new)) (code result) }
{
    let row = create_asked(&arena[..], mem, who, h, name, new)?;
    create_rows(arena, mem, who, row, name, new)
}

pub fn create(arena: &mut [u8], t: Table, who: u8, h: Handle, name: &[u8], new: New) -> HeldReply
    ensures { ReturnedHeld t (call_create arena.old t who h name.now new.kind new.mode new.time new.file) arena.old arena.new result }
{
    let mut mem = [0u8; MEMORY];
    put_table(&mut mem, t);
    let r = create_on(arena, &mut mem, who, h, name, new);
    settle_held(t, &mem, r)
}
