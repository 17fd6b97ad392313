// The calls of an owner: nobody else writes its arena and its table, and a check of both has passed, or they were just formatted. Then reasons
// 1, 2 and 3 can't come (`owned`, crates/linked), and nothing tests for them. The owner keeps the chains of all blocks beside the arena: a
// call that changes the arena makes them again.
#![tactic(auto)]

ghost use Rattle.std.specs.Prelude.{length};
ghost use Rattle.table_bytes.specs.Layout.{table_of, bytes_of_table};
ghost use Rattle.sefs.specs.Close.{call_sync, call_close};
ghost use Rattle.sefs.specs.Create.{call_create, call_link};
ghost use Rattle.sefs.specs.Move.{call_move};
ghost use Rattle.sefs.specs.Open.{call_root, call_find};
ghost use Rattle.sefs.specs.Read.{call_metadata, call_set};
ghost use Rattle.sefs.specs.Remove.{call_remove, call_remove_file, call_remove_folder};
ghost use Rattle.walk.specs.Walk.{call_walk};
ghost use Rattle.edge_words.specs.Words.{handle_of, time_of, metadata_words};
ghost use Rattle.edge.specs.Edge.{sized, sized_walk, Answers, left_of, made_of, held_of, Walks};
ghost use Rattle.owners_kept.specs.Owned.{Chained, Owned};
ghost use Rattle.owners.specs.Builds.{Builds};

use calls_find::{find_led, root_led};
use calls_metadata::{metadata_in, set_in};
use calls_walk::walk_led;
use edge::new_node;
use edge_ends::ends::{end_after, end_held, end_told};
use edge_words::args::{file_of, handle, time};
use edge_words::{CHAINS, FILE_NAME, HANDLE_WORDS, METADATA_WORDS, WRONG_SIZE};
use mem::{MEMORY, begin};
use owners_kept::{close_on, sync_on};
use owners_names::{create_on, link_on, move_on, remove_on};
use sound::chain_all;

// ---- the whole image

// The chains of all blocks, before the first call. They ask nothing of the arena but its length.
#[unsafe(no_mangle)]
pub extern "C" fn dz_own_chains(arena: &[u8], chains: &mut [u16]) -> u32
    ensures { Builds arena.now chains.old chains.new result }
{
    if chains.len() != CHAINS {
        return WRONG_SIZE;
    }
    if !arena::legal(arena) {
        return 1;
    }
    chain_all(arena, chains);
    0
}

#[unsafe(no_mangle)]
pub extern "C" fn dz_own_sync(arena: &mut [u8], chains: &mut [u16], table: &mut [u8]) -> u32
    requires { Owned arena.old chains.old table.old }
    ensures answers { Answers (call_sync arena.old (table_of table.old)) left_of (arena.old, table.old) (arena.new, table.new) result }
    ensures chained { Chained arena.new chains.new }
{
    let mut mem = [0u8; MEMORY];
    begin(&mut mem, &table[..]);
    let r = sync_on(arena, chains, &mut mem);
    end_after(table, &mem, r)
}

// ---- holds

#[unsafe(no_mangle)]
pub extern "C" fn dz_own_root(
    arena: &[u8],
    chains: &[u16],
    table: &mut [u8],
    owner: u8,
    out: &mut [u64],
) -> u32
    requires { Owned arena.now chains.now table.old }
    ensures { Answers (sized 2 out.old (call_root arena.now (table_of table.old) owner)) held_of (table.old, out.old) (table.new, out.new) result }
{
    if out.len() != HANDLE_WORDS {
        return WRONG_SIZE;
    }
    let mut mem = [0u8; MEMORY];
    begin(&mut mem, &table[..]);
    let h = root_led(arena, &chains[..4096], &chains[4096..8192], &mut mem, owner);
    end_held(table, out, &mem, h)
}

#[unsafe(no_mangle)]
pub extern "C" fn dz_own_find(
    arena: &[u8],
    chains: &[u16],
    table: &mut [u8],
    owner: u8,
    hold: u32,
    stamp: u64,
    name: &[u8],
    out: &mut [u64],
) -> u32
    requires { Owned arena.now chains.now table.old }
    ensures { Answers (sized 2 out.old (call_find arena.now (table_of table.old) owner (handle_of hold stamp) name.now)) held_of (table.old, out.old) (table.new, out.new) result }
{
    if out.len() != HANDLE_WORDS {
        return WRONG_SIZE;
    }
    let mut mem = [0u8; MEMORY];
    begin(&mut mem, &table[..]);
    let h = find_led(
        arena,
        &chains[..4096],
        &chains[4096..8192],
        &mut mem,
        owner,
        handle(hold, stamp),
        name,
    );
    end_held(table, out, &mem, h)
}

#[unsafe(no_mangle)]
pub extern "C" fn dz_own_walk(
    arena: &[u8],
    chains: &[u16],
    table: &mut [u8],
    owner: u8,
    hold: u32,
    stamp: u64,
    path: &[u8],
    links: &mut [u8],
    out: &mut [u64],
) -> u32
    requires { Owned arena.now chains.now table.old }
    ensures { Walks (sized_walk 2 out.old (call_walk arena.now (table_of table.old) owner (handle_of hold stamp) path.now (length links.old)))
        links.old links.new (table.old, out.old) (table.new, out.new) result }
{
    if out.len() != HANDLE_WORDS {
        return WRONG_SIZE;
    }
    let mut mem = [0u8; MEMORY];
    begin(&mut mem, &table[..]);
    let h = walk_led(
        arena,
        &chains[..4096],
        &chains[4096..8192],
        &mut mem,
        owner,
        handle(hold, stamp),
        path,
        links,
    );
    end_held(table, out, &mem, h)
}

#[unsafe(no_mangle)]
pub extern "C" fn dz_own_close(
    arena: &mut [u8],
    chains: &mut [u16],
    table: &mut [u8],
    owner: u8,
    hold: u32,
    stamp: u64,
) -> u32
    requires { Owned arena.old chains.old table.old }
    ensures answers { Answers (call_close arena.old (table_of table.old) owner (handle_of hold stamp)) left_of (arena.old, table.old) (arena.new, table.new) result }
    ensures chained { Chained arena.new chains.new }
{
    let mut mem = [0u8; MEMORY];
    begin(&mut mem, &table[..]);
    let r = close_on(arena, chains, &mut mem, owner, handle(hold, stamp));
    end_after(table, &mem, r)
}

// ---- names

#[unsafe(no_mangle)]
pub extern "C" fn dz_own_create(
    arena: &mut [u8],
    chains: &mut [u16],
    table: &mut [u8],
    owner: u8,
    hold: u32,
    stamp: u64,
    name: &[u8],
    kind: u32,
    mode: u16,
    sec: i64,
    nsec: i64,
    file: &[u8],
    out: &mut [u64],
) -> u32
    requires { Owned arena.old chains.old table.old }
    ensures answers { Answers (sized 16 file.now (sized 2 out.old (call_create arena.old (table_of table.old) owner (handle_of hold stamp) name.now kind mode (time_of sec nsec) file.now)))
        made_of (arena.old, table.old, out.old) (arena.new, table.new, out.new) result }
    ensures chained { Chained arena.new chains.new }
{
    if file.len() != FILE_NAME {
        return WRONG_SIZE;
    }
    if out.len() != HANDLE_WORDS {
        return WRONG_SIZE;
    }
    let new = new_node(kind, mode, time(sec, nsec), file_of(file));
    let mut mem = [0u8; MEMORY];
    begin(&mut mem, &table[..]);
    let h = create_on(
        arena,
        chains,
        &mut mem,
        owner,
        handle(hold, stamp),
        name,
        new,
    );
    end_held(table, out, &mem, h)
}

#[unsafe(no_mangle)]
pub extern "C" fn dz_own_link(
    arena: &mut [u8],
    chains: &mut [u16],
    table: &mut [u8],
    owner: u8,
    hold: u32,
    stamp: u64,
    name: &[u8],
    child_hold: u32,
    child_stamp: u64,
) -> u32
    requires { Owned arena.old chains.old table.old }
    ensures answers { Answers (call_link arena.old (table_of table.old) owner (handle_of hold stamp) name.now (handle_of child_hold child_stamp)) left_of (arena.old, table.old) (arena.new, table.new) result }
    ensures chained { Chained arena.new chains.new }
{
    let child = handle(child_hold, child_stamp);
    let mut mem = [0u8; MEMORY];
    begin(&mut mem, &table[..]);
    let r = link_on(
        arena,
        chains,
        &mut mem,
        owner,
        handle(hold, stamp),
        name,
        child,
    );
    end_after(table, &mem, r)
}

// Remove-folder where `folder`, else remove-file.
fn remove_named(
    arena: &mut [u8],
    chains: &mut [u16],
    table: &mut [u8],
    owner: u8,
    hold: u32,
    stamp: u64,
    name: &[u8],
    folder: bool,
) -> u32
    requires { Owned arena.old chains.old table.old }
    ensures answers { Answers (call_remove folder arena.old (table_of table.old) owner (handle_of hold stamp) name.now) left_of (arena.old, table.old) (arena.new, table.new) result }
    ensures chained { Chained arena.new chains.new }
{
    let mut mem = [0u8; MEMORY];
    begin(&mut mem, &table[..]);
    let r = remove_on(
        arena,
        chains,
        &mut mem,
        owner,
        handle(hold, stamp),
        name,
        folder,
    );
    end_after(table, &mem, r)
}

#[unsafe(no_mangle)]
pub extern "C" fn dz_own_remove_file(
    arena: &mut [u8],
    chains: &mut [u16],
    table: &mut [u8],
    owner: u8,
    hold: u32,
    stamp: u64,
    name: &[u8],
) -> u32
    requires { Owned arena.old chains.old table.old }
    ensures answers { Answers (call_remove_file arena.old (table_of table.old) owner (handle_of hold stamp) name.now) left_of (arena.old, table.old) (arena.new, table.new) result }
    ensures chained { Chained arena.new chains.new }
{
    remove_named(arena, chains, table, owner, hold, stamp, name, false)
}

#[unsafe(no_mangle)]
pub extern "C" fn dz_own_remove_folder(
    arena: &mut [u8],
    chains: &mut [u16],
    table: &mut [u8],
    owner: u8,
    hold: u32,
    stamp: u64,
    name: &[u8],
) -> u32
    requires { Owned arena.old chains.old table.old }
    ensures answers { Answers (call_remove_folder arena.old (table_of table.old) owner (handle_of hold stamp) name.now) left_of (arena.old, table.old) (arena.new, table.new) result }
    ensures chained { Chained arena.new chains.new }
{
    remove_named(arena, chains, table, owner, hold, stamp, name, true)
}

#[unsafe(no_mangle)]
pub extern "C" fn dz_own_move(
    arena: &mut [u8],
    chains: &mut [u16],
    table: &mut [u8],
    owner: u8,
    hold: u32,
    stamp: u64,
    old: &[u8],
    to_hold: u32,
    to_stamp: u64,
    name: &[u8],
) -> u32
    requires { Owned arena.old chains.old table.old }
    ensures answers { Answers (call_move arena.old (table_of table.old) owner (handle_of hold stamp) old.now (handle_of to_hold to_stamp) name.now) left_of (arena.old, table.old) (arena.new, table.new) result }
    ensures chained { Chained arena.new chains.new }
{
    let to = handle(to_hold, to_stamp);
    let mut mem = [0u8; MEMORY];
    begin(&mut mem, &table[..]);
    let h = handle(hold, stamp);
    let r = move_on(arena, chains, &mut mem, &table[..], owner, h, old, to, name);
    end_after(table, &mem, r)
}

// ---- metadata

// Arena and chains are not read. They stand here since the promise speaks of them.
#[unsafe(no_mangle)]
pub extern "C" fn dz_own_metadata(
    arena: &[u8],
    chains: &[u16],
    table: &[u8],
    owner: u8,
    hold: u32,
    stamp: u64,
    out: &mut [u64],
) -> u32
    requires { Owned arena.now chains.now table.now }
    ensures { Answers (sized 14 out.old (call_metadata arena.now (table_of table.now) owner (handle_of hold stamp))) metadata_words out.old out.new result }
{
    if out.len() != METADATA_WORDS {
        return WRONG_SIZE;
    }
    let mut mem = [0u8; MEMORY];
    begin(&mut mem, table);
    let t = metadata_in(&mem, owner, handle(hold, stamp));
    end_told(out, t)
}

#[unsafe(no_mangle)]
pub extern "C" fn dz_own_set_metadata(
    arena: &[u8],
    chains: &[u16],
    table: &mut [u8],
    owner: u8,
    hold: u32,
    stamp: u64,
    mode: u16,
    uid: u64,
    gid: u64,
    asec: i64,
    ansec: i64,
    msec: i64,
    mnsec: i64,
    csec: i64,
    cnsec: i64,
) -> u32
    requires { Owned arena.now chains.now table.old }
    ensures { Answers (call_set arena.now (table_of table.old) owner (handle_of hold stamp) mode uid gid (time_of asec ansec) (time_of msec mnsec) (time_of csec cnsec)) bytes_of_table table.old table.new result }
{
    let h = handle(hold, stamp);
    let atime = time(asec, ansec);
    let mtime = time(msec, mnsec);
    let ctime = time(csec, cnsec);
    let mut mem = [0u8; MEMORY];
    begin(&mut mem, &table[..]);
    let r = set_in(&mut mem, owner, h, mode, uid, gid, atime, mtime, ctime);
    end_after(table, &mem, r)
}
