// The call sync: dirty rows are stored by rising id, as 000's map of open nodes is ordered. First the blocks are counted that the records
// would need, without a store; once nothing can refuse the call any more, each record is stored and committed by itself, so that a
// workspace for one record is enough.
#![tactic(auto)]

ghost use Rattle.std.specs.Prelude.{◌≡◌, true, List, ℕ, ◌+◌, ◌*◌, ◌<◌, ◌≤◌, length};
ghost use Rattle.std.specs.Result.{result_unwrap_or};
ghost use Rattle.base.specs.Told.{code};
ghost use Rattle.base.specs.Count.{bit};
ghost use Rattle.base.specs.Out.{done as done_as};
ghost use Rattle.arena.specs.Blocks.{legal};
ghost use Rattle.overlay.specs.View.{Empty};
ghost use Rattle.files.specs.Store.{put_file};
ghost use Rattle.table.specs.Table.{row_at};
ghost use Rattle.sefs.specs.Meta.{meta_file};
ghost use Rattle.sefs.specs.Nodes.{sync_row};
ghost use Rattle.sefs.specs.Close.{sync_from, call_sync};
ghost use Rattle.mem.specs.Mem.{table_in, Whole};
ghost use Rattle.calls.specs.Asked.{Admitted};
ghost use Rattle.steps.specs.Ends.{Rest, ending, Ended, Returned};
ghost use Rattle.calls_sync.specs.Sync.{Judged, Does, is_lacking, needed, Counted, Left, no_room};
ghost use Rattle.mem.specs.State.{fs_at};

use base::{Reason, copy, index};
use calls::led::admit;
use calls::{Reply, settle};
use files::find_data;
use files::read::there;
use mem::{MEMORY, dirty_at, id_at, put_dirty, put_table};
use nodes::sync_row;
use nodes_read::meta::load_meta;
use rows::next_row;
use table::Table;

// ---- whether all can be stored

// What the records so far would leave: no block of the metadata file below `from` has to be made any more, and so many blocks are free.
#[derive(Clone, Copy)]
struct Room {
    from: usize,
    free: usize,
}

// 1 where block q of the metadata file would have to be made.
fn lacks<'a>(arena: &'a [u8], work: &'a [u8], from: usize, q: usize) -> usize
    requires { Empty arena.now work.now 10 × (q < 4294967296) }
    ensures { result ≡ bit (is_lacking arena.now from q) }
{
    if q < from {
        return 0;
    }
    let meta = [0u8; 16];
    if find_data(arena, work, 0, &meta, q as u32) < arena.len() / 512 {
        return 0;
    }
    1
}

// How many blocks would have to be made for a record at `pos`: it touches one or two.
fn needs<'a>(arena: &'a [u8], work: &'a [u8], from: usize, pos: usize) -> usize
    requires { Empty arena.now work.now 10 × (pos + 112 ≤ 4294967295) }
    ensures { result ≡ needed arena.now from pos }
{
    let first = pos / 480;
    let last = (pos + 111) / 480;
    let n = lacks(arena, work, from, first);
    if first == last {
        return n;
    }
    n + lacks(arena, work, from, last)
}

// Whether the record of that id can be stored after the others.
fn room_for<'a>(
    arena: &'a [u8],
    work: &'a [u8],
    id: u32,
    from: usize,
    free: usize,
) -> Result<Room, Reason>
    requires { Empty arena.now work.now 10 }
    ensures { (d src : List ℕ) (low : ℕ) → Counted arena.now d low from free → low < id → length src ≡ 112 → Judged (put_file d meta_file (128 * id) src) (λ e. Counted arena.now e id (result_unwrap_or result no_room).from (result_unwrap_or result no_room).free) (code result) }
{
    let meta = [0u8; 16];
    if !there(arena, work, 0, &meta) {
        return Err(Reason::Stuck);
    }
    let pos = 128 * index(id);
    if pos + 112 > 4294967295 {
        return Err(Reason::NoDeviceSpace);
    }
    let n = needs(arena, work, from, pos);
    if n > free {
        return Err(Reason::NoDeviceSpace);
    }
    Ok(Room {
        from: (pos + 111) / 480 + 1,
        free: free - n,
    })
}

// Row i's turn. Memory is what it would be afterwards.
fn try_row<'a>(
    arena: &'a [u8],
    work: &'a [u8],
    mem: &mut [u8],
    i: usize,
    from: usize,
    free: usize,
) -> Result<Room, Reason>
    requires { Empty arena.now work.now 10 × (Whole mem.old × (i < 34)) }
    ensures { (d : List ℕ) (low : ℕ) → Counted arena.now d low from free → low < (row_at (table_in mem.old) i).id → Judged (sync_row (fs_at d mem.old) i) (Left arena.now mem.new (row_at (table_in mem.old) i).id (result_unwrap_or result no_room).from (result_unwrap_or result no_room).free) (code result) }
{
    if !dirty_at(&mem[..], i) {
        return Ok(Room { from, free });
    }
    let r = room_for(arena, work, id_at(&mem[..], i), from, free);
    put_dirty(mem, i, false);
    r
}

// Every row's turn, by rising id: each is one row less with an id above `low`, so that 34 turns are enough.
fn try_rows<'a>(arena: &'a [u8], work: &'a [u8], mem: &mut [u8]) -> Result<(), Reason>
    requires { Empty arena.now work.now 10 × Whole mem.old }
    ensures { Judged (sync_from (fs_at arena.now mem.old) 0 34) (λ _. Unit) (code result) }
{
    let mut from: usize = 0;
    let mut free = arena::free_count(arena);
    let mut low: u32 = 0;
    for _ in 0..34usize {
        let i = next_row(&mem[..], low);
        if i >= 34 {
            return Ok(());
        }
        low = id_at(&mem[..], i);
        let room = try_row(arena, work, mem, i, from, free)?;
        from = room.from;
        free = room.free;
    }
    Ok(())
}

// Whether every dirty row can be stored, or the reason that refuses the call. The counting marks rows, so it has a memory of its own.
fn decide(arena: &[u8], mem: &[u8]) -> Result<(), Reason>
    requires { (legal arena.now ≡ true) × Whole mem.now }
    ensures { Judged (sync_from (fs_at arena.now mem.now) 0 34) (λ _. Unit) (code result) }
{
    let mut own = [0u8; MEMORY];
    let mut work = [0u8; 5120];
    copy(&mut own, mem);
    overlay::begin(&mut work);
    try_rows(arena, &work, &mut own)
}

// ---- the stores

// Row i is stored, which nothing refuses.
fn store_one(arena: &mut [u8], mem: &mut [u8], i: usize)
    requires arena_value { (legal arena.old ≡ true) × (Whole mem.old × (i < 34)) }
    requires does { Does (sync_row (fs_at arena.old mem.old) i) }
    ensures { (sync_row (fs_at arena.old mem.old) i ≡ done_as (fs_at arena.new mem.new)) × ((legal arena.new ≡ true) × Whole mem.new) }
{
    let mut work = [0u8; 6656];
    overlay::begin(&mut work);
    let _ = sync_row(&arena[..], &mut work, mem, i);
    overlay::commit(arena, &work);
}

// Every row is, by rising id.
fn store_rows(arena: &mut [u8], mem: &mut [u8])
    requires arena_value { (legal arena.old ≡ true) × Whole mem.old }
    requires does { Does (sync_from (fs_at arena.old mem.old) 0 34) }
    ensures { sync_from (fs_at arena.old mem.old) 0 34 ≡ done_as (fs_at arena.new mem.new) }
{
    let mut low: u32 = 0;
    for _ in 0..34usize {
        let i = next_row(&mem[..], low);
        if i >= 34 {
            return;
        }
        low = id_at(&mem[..], i);
        store_one(arena, mem, i);
    }
}

// Once the arena and the table are admitted.
pub fn sync_in(arena: &mut [u8], mem: &mut [u8]) -> Result<(), Reason>
    requires { (legal arena.old ≡ true) × Whole mem.old }
    ensures { Ended (ending (sync_from (fs_at arena.old mem.old) 0 34)) arena.old arena.new (table_in mem.new) (code result) }
{
    decide(&arena[..], &mem[..])?;
    store_rows(arena, mem);
    Ok(())
}

// ---- 1, 2, 3, and superblock and maps

// What follows the tests of arena and table.
pub fn sync_led(arena: &[u8], first: &[u16], next: &[u16], mem: &mut [u8])
    requires { Admitted arena.now first.now next.now mem.old }
    ensures { Rest (call_sync arena.now (table_in mem.old)) (ending (sync_from (fs_at arena.now mem.new) 0 34)) ((legal arena.now ≡ true) × Whole mem.new) 0 }
{
    load_meta(arena, first, next, mem);
}

// The frame of the chains is left before a workspace is made.
fn sync_asked(arena: &[u8], mem: &mut [u8]) -> Result<(), Reason>
    requires { Whole mem.old }
    ensures { Rest (call_sync arena.now (table_in mem.old)) (ending (sync_from (fs_at arena.now mem.new) 0 34)) ((legal arena.now ≡ true) × Whole mem.new) (code result) }
{
    let mut chains = [0u16; 8192];
    admit(arena, &mut chains, &mem[..])?;
    let c = &chains[..];
    sync_led(arena, &c[..4096], &c[4096..8192], mem);
    Ok(())
}

// The call on the table in memory.
pub fn sync_on(arena: &mut [u8], mem: &mut [u8]) -> Result<(), Reason>
    requires { Whole mem.old }
    ensures { Ended (call_sync arena.old (table_in mem.old)) arena.old arena.new (table_in mem.new) (code result) }
{
    sync_asked(&arena[..], mem)?;
    sync_in(arena, mem)
}

pub fn sync(arena: &mut [u8], t: Table) -> Reply
    ensures { Returned t (call_sync arena.old t) arena.old arena.new result }
{
    let mut mem = [0u8; MEMORY];
    put_table(&mut mem, t);
    let r = sync_on(arena, &mut mem);
    settle(t, &mem, r)
}
