// The calls as C functions (include/dzomrelig.h), but for those on what a node holds (`edge_contents`). A slice is its pointer and its length. Each returns 0, or document 01's number; a table
// that is not 4,402 bytes, a file's name that is not 16, or words for a result that are not as many as it has: 255, and nothing is called.
// The table's bytes are copied to the call's memory, and written back on success: no table by value is made.
#![tactic(auto)]

mod ends;

ghost use Rattle.std.specs.Prelude.{◌≡◌, length};
ghost use Rattle.table_bytes.specs.Layout.{table_of, bytes_of_table};
ghost use Rattle.sefs.specs.Close.{call_sync, call_close};
ghost use Rattle.sefs.specs.Create.{call_format, call_create, call_link};
ghost use Rattle.sefs.specs.Move.{call_move};
ghost use Rattle.sefs.specs.Open.{call_open, call_root, call_find};
ghost use Rattle.sefs.specs.Read.{call_metadata, call_set};
ghost use Rattle.sefs.specs.Remove.{call_remove, call_remove_file, call_remove_folder};
ghost use Rattle.walk.specs.Walk.{call_walk};
ghost use Rattle.inventory.specs.Inventory.{call_inventory};
ghost use Rattle.mending.specs.Mend.{call_mend};
ghost use Rattle.calls_format.specs.Format.{formatted};
ghost use Rattle.fsck.specs.Verdicts.{verdict_of};
ghost use Rattle.edge_words.specs.Words.{handle_of, time_of, metadata_words};
ghost use Rattle.edge.specs.Edge.{sized, sized_walk, new_of, Answers, left_of, made_of, held_of, Walks, read_in, counted, counts_of, mended_of};

use calls_close::close_on;
use calls_create::{New, create_on};
use calls_find::{find_on, root_on};
use calls_format::format_on;
use calls_inventory::inventory;
use calls_link::link_on;
use calls_mend::mend_on;
use calls_metadata::{metadata_on, set_on};
use calls_move::move_on;
use calls_open::open_on;
use calls_remove::remove_on;
use calls_sync::sync_on;
use calls_walk::walk_on;
use edge_ends::ends::{end_after, end_fresh, end_held, end_taken, end_told, number};
use edge_words::args::{file_of, handle, time};
use edge_words::{
    COUNTS_WORDS, FILE_NAME, HANDLE_WORDS, LENGTH_WORDS, METADATA_WORDS, TABLE, WRONG_SIZE,
};
use ends::{end_course, end_verdict};
use fsck::check_on;
use mem::{MEMORY, begin};
use structs::Timespec;

// ---- the whole image

#[unsafe(no_mangle)]
pub extern "C" fn dz_format(
    arena: &mut [u8],
    table: &mut [u8],
    sec: i64,
    nsec: i64,
    file: &[u8],
) -> u32
    ensures { Answers (sized 4402 table.old (sized 16 file.now (formatted (call_format arena.old (time_of sec nsec) file.now)))) left_of (arena.old, table.old) (arena.new, table.new) result }
{
    if table.len() != TABLE {
        return WRONG_SIZE;
    }
    if file.len() != FILE_NAME {
        return WRONG_SIZE;
    }
    let r = format_on(arena, time(sec, nsec), file_of(file));
    end_fresh(table, r)
}

#[unsafe(no_mangle)]
pub extern "C" fn dz_open(arena: &[u8], table: &mut [u8]) -> u32
    ensures { Answers (sized 4402 table.old (call_open arena.now)) bytes_of_table table.old table.new result }
{
    if table.len() != TABLE {
        return WRONG_SIZE;
    }
    let r = open_on(arena);
    end_fresh(table, r)
}

#[unsafe(no_mangle)]
pub extern "C" fn dz_sync(arena: &mut [u8], table: &mut [u8]) -> u32
    ensures { Answers (sized 4402 table.old (call_sync arena.old (table_of table.old))) left_of (arena.old, table.old) (arena.new, table.new) result }
{
    if table.len() != TABLE {
        return WRONG_SIZE;
    }
    let mut mem = [0u8; MEMORY];
    begin(&mut mem, &table[..]);
    let r = sync_on(arena, &mut mem);
    end_after(table, &mem, r)
}

// Nodes, unused ids and free blocks where it passes. A number other than 255 is the rule that fails.
#[unsafe(no_mangle)]
pub extern "C" fn dz_check(arena: &[u8], table: &[u8], out: &mut [u64]) -> u32
    ensures { Answers (sized 4402 table.now (sized 3 out.old (counted (verdict_of arena.now (table_of table.now))))) counts_of out.old out.new result }
{
    if table.len() != TABLE {
        return WRONG_SIZE;
    }
    if out.len() != COUNTS_WORDS {
        return WRONG_SIZE;
    }
    let mut mem = [0u8; MEMORY];
    begin(&mut mem, table);
    let v = check_on(arena, &mut mem);
    end_verdict(out, v)
}

// The text over the output's start, and the word is how many bytes it has. No table is given: what is open is not seen.
#[unsafe(no_mangle)]
pub extern "C" fn dz_inventory(arena: &[u8], out: &mut [u8], count: &mut [u64]) -> u32
    ensures { Answers (sized 1 count.old (call_inventory arena.now (length out.old))) (read_in out.old) (out.old, count.old) (out.new, count.new) result }
{
    if count.len() != LENGTH_WORDS {
        return WRONG_SIZE;
    }
    let t = inventory(arena, out);
    end_taken(count, t)
}

// What a host that went down has left. The table is looked at, for no hold may be live, and stays.
#[unsafe(no_mangle)]
pub extern "C" fn dz_mend(arena: &mut [u8], table: &[u8]) -> u32
    ensures { Answers (sized 4402 table.now (call_mend arena.old (table_of table.now))) mended_of arena.old arena.new result }
{
    if table.len() != TABLE {
        return WRONG_SIZE;
    }
    let mut mem = [0u8; MEMORY];
    begin(&mut mem, table);
    let r = mend_on(arena, &mut mem);
    number(r)
}

// ---- holds

#[unsafe(no_mangle)]
pub extern "C" fn dz_root(arena: &[u8], table: &mut [u8], owner: u8, out: &mut [u64]) -> u32
    ensures { Answers (sized 4402 table.old (sized 2 out.old (call_root arena.now (table_of table.old) owner))) held_of (table.old, out.old) (table.new, out.new) result }
{
    if table.len() != TABLE {
        return WRONG_SIZE;
    }
    if out.len() != HANDLE_WORDS {
        return WRONG_SIZE;
    }
    let mut mem = [0u8; MEMORY];
    begin(&mut mem, &table[..]);
    let h = root_on(arena, &mut mem, owner);
    end_held(table, out, &mem, h)
}

#[unsafe(no_mangle)]
pub extern "C" fn dz_find(
    arena: &[u8],
    table: &mut [u8],
    owner: u8,
    hold: u32,
    stamp: u64,
    name: &[u8],
    out: &mut [u64],
) -> u32
    ensures { Answers (sized 4402 table.old (sized 2 out.old (call_find arena.now (table_of table.old) owner (handle_of hold stamp) name.now))) held_of (table.old, out.old) (table.new, out.new) result }
{
    if table.len() != TABLE {
        return WRONG_SIZE;
    }
    if out.len() != HANDLE_WORDS {
        return WRONG_SIZE;
    }
    let mut mem = [0u8; MEMORY];
    begin(&mut mem, &table[..]);
    let h = find_on(arena, &mut mem, owner, handle(hold, stamp), name);
    end_held(table, out, &mem, h)
}

// Targets that were read stand in `links` also where the walk is refused.
#[unsafe(no_mangle)]
pub extern "C" fn dz_walk(
    arena: &[u8],
    table: &mut [u8],
    owner: u8,
    hold: u32,
    stamp: u64,
    path: &[u8],
    links: &mut [u8],
    out: &mut [u64],
) -> u32
    ensures { Walks (sized_walk 4402 table.old (sized_walk 2 out.old (call_walk arena.now (table_of table.old) owner (handle_of hold stamp) path.now (length links.old))))
        links.old links.new (table.old, out.old) (table.new, out.new) result }
{
    if table.len() != TABLE {
        return WRONG_SIZE;
    }
    if out.len() != HANDLE_WORDS {
        return WRONG_SIZE;
    }
    let mut mem = [0u8; MEMORY];
    begin(&mut mem, &table[..]);
    let h = walk_on(arena, &mut mem, owner, handle(hold, stamp), path, links);
    end_held(table, out, &mem, h)
}

#[unsafe(no_mangle)]
pub extern "C" fn dz_close(
    arena: &mut [u8],
    table: &mut [u8],
    owner: u8,
    hold: u32,
    stamp: u64,
) -> u32
    ensures { Answers (sized 4402 table.old (call_close arena.old (table_of table.old) owner (handle_of hold stamp))) left_of (arena.old, table.old) (arena.new, table.new) result }
{
    if table.len() != TABLE {
        return WRONG_SIZE;
    }
    let mut mem = [0u8; MEMORY];
    begin(&mut mem, &table[..]);
    let r = close_on(arena, &mut mem, owner, handle(hold, stamp));
    end_after(table, &mem, r)
}

// ---- names

pub fn new_node(kind: u32, mode: u16, time: Timespec, file: [u8; 16]) -> New
    ensures { result ≡ new_of kind mode time file }
{
    New {
        kind: kind,
        mode: mode,
        time: time,
        file: file,
    }
}

#[unsafe(no_mangle)]
pub extern "C" fn dz_create(
    arena: &mut [u8],
    table: &mut [u8],
    owner: u8,
    hold: u32,
    stamp: u64,
    name: &[u8],
    kind: u32,
    mode: u16,
    sec: i64,
    nsec: i64,
    file: &[u8],
    out: &mut [u64],
) -> u32
    ensures { Answers (sized 4402 table.old (sized 16 file.now (sized 2 out.old (call_create arena.old (table_of table.old) owner (handle_of hold stamp) name.now kind mode (time_of sec nsec) file.now))))
        made_of (arena.old, table.old, out.old) (arena.new, table.new, out.new) result }
{
    if table.len() != TABLE {
        return WRONG_SIZE;
    }
    if file.len() != FILE_NAME {
        return WRONG_SIZE;
    }
    if out.len() != HANDLE_WORDS {
        return WRONG_SIZE;
    }
    let new = new_node(kind, mode, time(sec, nsec), file_of(file));
    let mut mem = [0u8; MEMORY];
    begin(&mut mem, &table[..]);
    let h = create_on(arena, &mut mem, owner, handle(hold, stamp), name, new);
    end_held(table, out, &mem, h)
}

#[unsafe(no_mangle)]
pub extern "C" fn dz_link(
    arena: &mut [u8],
    table: &mut [u8],
    owner: u8,
    hold: u32,
    stamp: u64,
    name: &[u8],
    child_hold: u32,
    child_stamp: u64,
) -> u32
    ensures { Answers (sized 4402 table.old (call_link arena.old (table_of table.old) owner (handle_of hold stamp) name.now (handle_of child_hold child_stamp)))
        left_of (arena.old, table.old) (arena.new, table.new) result }
{
    if table.len() != TABLE {
        return WRONG_SIZE;
    }
    let child = handle(child_hold, child_stamp);
    let mut mem = [0u8; MEMORY];
    begin(&mut mem, &table[..]);
    let r = link_on(arena, &mut mem, owner, handle(hold, stamp), name, child);
    end_after(table, &mem, r)
}

// Remove-folder where `folder`, else remove-file.
fn remove_named(
    arena: &mut [u8],
    table: &mut [u8],
    owner: u8,
    hold: u32,
    stamp: u64,
    name: &[u8],
    folder: bool,
) -> u32
    ensures { Answers (sized 4402 table.old (call_remove folder arena.old (table_of table.old) owner (handle_of hold stamp) name.now)) left_of (arena.old, table.old) (arena.new, table.new) result }
{
    if table.len() != TABLE {
        return WRONG_SIZE;
    }
    let mut mem = [0u8; MEMORY];
    begin(&mut mem, &table[..]);
    let r = remove_on(arena, &mut mem, owner, handle(hold, stamp), name, folder);
    end_after(table, &mem, r)
}

#[unsafe(no_mangle)]
pub extern "C" fn dz_remove_file(
    arena: &mut [u8],
    table: &mut [u8],
    owner: u8,
    hold: u32,
    stamp: u64,
    name: &[u8],
) -> u32
    ensures { Answers (sized 4402 table.old (call_remove_file arena.old (table_of table.old) owner (handle_of hold stamp) name.now)) left_of (arena.old, table.old) (arena.new, table.new) result }
{
    remove_named(arena, table, owner, hold, stamp, name, false)
}

#[unsafe(no_mangle)]
pub extern "C" fn dz_remove_folder(
    arena: &mut [u8],
    table: &mut [u8],
    owner: u8,
    hold: u32,
    stamp: u64,
    name: &[u8],
) -> u32
    ensures { Answers (sized 4402 table.old (call_remove_folder arena.old (table_of table.old) owner (handle_of hold stamp) name.now)) left_of (arena.old, table.old) (arena.new, table.new) result }
{
    remove_named(arena, table, owner, hold, stamp, name, true)
}

#[unsafe(no_mangle)]
pub extern "C" fn dz_move(
    arena: &mut [u8],
    table: &mut [u8],
    owner: u8,
    hold: u32,
    stamp: u64,
    old: &[u8],
    to_hold: u32,
    to_stamp: u64,
    name: &[u8],
) -> u32
    ensures { Answers (sized 4402 table.old (call_move arena.old (table_of table.old) owner (handle_of hold stamp) old.now (handle_of to_hold to_stamp) name.now))
        left_of (arena.old, table.old) (arena.new, table.new) result }
{
    if table.len() != TABLE {
        return WRONG_SIZE;
    }
    let to = handle(to_hold, to_stamp);
    let mut mem = [0u8; MEMORY];
    begin(&mut mem, &table[..]);
    let c = move_on(arena, &mut mem, owner, handle(hold, stamp), old, to, name);
    end_course(table, &mem, c)
}

// ---- metadata

#[unsafe(no_mangle)]
pub extern "C" fn dz_metadata(
    arena: &[u8],
    table: &[u8],
    owner: u8,
    hold: u32,
    stamp: u64,
    out: &mut [u64],
) -> u32
    ensures { Answers (sized 4402 table.now (sized 14 out.old (call_metadata arena.now (table_of table.now) owner (handle_of hold stamp)))) metadata_words out.old out.new result }
{
    if table.len() != TABLE {
        return WRONG_SIZE;
    }
    if out.len() != METADATA_WORDS {
        return WRONG_SIZE;
    }
    let mut mem = [0u8; MEMORY];
    begin(&mut mem, table);
    let t = metadata_on(arena, &mem, owner, handle(hold, stamp));
    end_told(out, t)
}

#[unsafe(no_mangle)]
pub extern "C" fn dz_set_metadata(
    arena: &[u8],
    table: &mut [u8],
    owner: u8,
    hold: u32,
    stamp: u64,
    mode: u16,
    uid: u64,
    gid: u64,
    asec: i64,
    ansec: i64,
    msec: i64,
    mnsec: i64,
    csec: i64,
    cnsec: i64,
) -> u32
    ensures { Answers (sized 4402 table.old (call_set arena.now (table_of table.old) owner (handle_of hold stamp) mode uid gid (time_of asec ansec) (time_of msec mnsec) (time_of csec cnsec))) bytes_of_table table.old table.new result }
{
    if table.len() != TABLE {
        return WRONG_SIZE;
    }
    let h = handle(hold, stamp);
    let at = time(asec, ansec);
    let mt = time(msec, mnsec);
    let ct = time(csec, cnsec);
    let mut mem = [0u8; MEMORY];
    begin(&mut mem, &table[..]);
    let r = set_on(arena, &mut mem, owner, h, mode, uid, gid, at, mt, ct);
    end_after(table, &mem, r)
}
