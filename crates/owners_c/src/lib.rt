// Crate `owners` as a static library for C (include/dzomrelig.h): a function of each name, which calls that one, asks what it asks and promises the same.
#![tactic(auto)]

ghost use Rattle.std.specs.Prelude.{length};
ghost use Rattle.table_bytes.specs.Layout.{table_of, bytes_of_table};
ghost use Rattle.sefs.specs.Close.{call_sync, call_close};
ghost use Rattle.sefs.specs.Create.{call_create, call_link};
ghost use Rattle.sefs.specs.Move.{call_move};
ghost use Rattle.sefs.specs.Open.{call_root, call_find};
ghost use Rattle.sefs.specs.Read.{call_metadata, call_set};
ghost use Rattle.sefs.specs.Remove.{call_remove_file, call_remove_folder};
ghost use Rattle.walk.specs.Walk.{call_walk};
ghost use Rattle.edge_words.specs.Words.{handle_of, time_of, metadata_words};
ghost use Rattle.edge.specs.Edge.{sized, sized_walk, Answers, left_of, made_of, held_of, Walks};
ghost use Rattle.owners_kept.specs.Owned.{Chained, Owned};
ghost use Rattle.owners.specs.Builds.{Builds};

// ---- the whole image

#[unsafe(no_mangle)]
pub extern "C" fn dz_own_chains(arena: &[u8], chains: &mut [u16]) -> u32
    ensures { Builds arena.now chains.old chains.new result }
{
    owners::dz_own_chains(arena, chains)
}

#[unsafe(no_mangle)]
pub extern "C" fn dz_own_sync(arena: &mut [u8], chains: &mut [u16], table: &mut [u8]) -> u32
    requires { Owned arena.old chains.old table.old }
    ensures answers { Answers (call_sync arena.old (table_of table.old)) left_of (arena.old, table.old) (arena.new, table.new) result }
    ensures chained { Chained arena.new chains.new }
{
    owners::dz_own_sync(arena, chains, table)
}

// ---- holds

#[unsafe(no_mangle)]
pub extern "C" fn dz_own_root(
    arena: &[u8],
    chains: &[u16],
    table: &mut [u8],
    owner: u8,
    out: &mut [u64],
) -> u32
    requires { Owned arena.now chains.now table.old }
    ensures { Answers (sized 2 out.old (call_root arena.now (table_of table.old) owner)) held_of (table.old, out.old) (table.new, out.new) result }
{
    owners::dz_own_root(arena, chains, table, owner, out)
}

#[unsafe(no_mangle)]
pub extern "C" fn dz_own_find(
    arena: &[u8],
    chains: &[u16],
    table: &mut [u8],
    owner: u8,
    hold: u32,
    stamp: u64,
    name: &[u8],
    out: &mut [u64],
) -> u32
    requires { Owned arena.now chains.now table.old }
    ensures { Answers (sized 2 out.old (call_find arena.now (table_of table.old) owner (handle_of hold stamp) name.now)) held_of (table.old, out.old) (table.new, out.new) result }
{
    owners::dz_own_find(arena, chains, table, owner, hold, stamp, name, out)
}

#[unsafe(no_mangle)]
pub extern "C" fn dz_own_walk(
    arena: &[u8],
    chains: &[u16],
    table: &mut [u8],
    owner: u8,
    hold: u32,
    stamp: u64,
    path: &[u8],
    links: &mut [u8],
    out: &mut [u64],
) -> u32
    requires { Owned arena.now chains.now table.old }
    ensures { Walks (sized_walk 2 out.old (call_walk arena.now (table_of table.old) owner (handle_of hold stamp) path.now (length links.old)))
        links.old links.new (table.old, out.old) (table.new, out.new) result }
{
    owners::dz_own_walk(arena, chains, table, owner, hold, stamp, path, links, out)
}

#[unsafe(no_mangle)]
pub extern "C" fn dz_own_close(
    arena: &mut [u8],
    chains: &mut [u16],
    table: &mut [u8],
    owner: u8,
    hold: u32,
    stamp: u64,
) -> u32
    requires { Owned arena.old chains.old table.old }
    ensures answers { Answers (call_close arena.old (table_of table.old) owner (handle_of hold stamp)) left_of (arena.old, table.old) (arena.new, table.new) result }
    ensures chained { Chained arena.new chains.new }
{
    owners::dz_own_close(arena, chains, table, owner, hold, stamp)
}

// ---- names

#[unsafe(no_mangle)]
pub extern "C" fn dz_own_create(
    arena: &mut [u8],
    chains: &mut [u16],
    table: &mut [u8],
    owner: u8,
    hold: u32,
    stamp: u64,
    name: &[u8],
    kind: u32,
    mode: u16,
    sec: i64,
    nsec: i64,
    file: &[u8],
    out: &mut [u64],
) -> u32
    requires { Owned arena.old chains.old table.old }
    ensures answers { Answers (sized 16 file.now (sized 2 out.old (call_create arena.old (table_of table.old) owner (handle_of hold stamp) name.now kind mode (time_of sec nsec) file.now)))
        made_of (arena.old, table.old, out.old) (arena.new, table.new, out.new) result }
    ensures chained { Chained arena.new chains.new }
{
    owners::dz_own_create(
        arena, chains, table, owner, hold, stamp, name, kind, mode, sec, nsec, file, out,
    )
}

#[unsafe(no_mangle)]
pub extern "C" fn dz_own_link(
    arena: &mut [u8],
    chains: &mut [u16],
    table: &mut [u8],
    owner: u8,
    hold: u32,
    stamp: u64,
    name: &[u8],
    child_hold: u32,
    child_stamp: u64,
) -> u32
    requires { Owned arena.old chains.old table.old }
    ensures answers { Answers (call_link arena.old (table_of table.old) owner (handle_of hold stamp) name.now (handle_of child_hold child_stamp)) left_of (arena.old, table.old) (arena.new, table.new) result }
    ensures chained { Chained arena.new chains.new }
{
    owners::dz_own_link(
        arena,
        chains,
        table,
        owner,
        hold,
        stamp,
        name,
        child_hold,
        child_stamp,
    )
}

#[unsafe(no_mangle)]
pub extern "C" fn dz_own_remove_file(
    arena: &mut [u8],
    chains: &mut [u16],
    table: &mut [u8],
    owner: u8,
    hold: u32,
    stamp: u64,
    name: &[u8],
) -> u32
    requires { Owned arena.old chains.old table.old }
    ensures answers { Answers (call_remove_file arena.old (table_of table.old) owner (handle_of hold stamp) name.now) left_of (arena.old, table.old) (arena.new, table.new) result }
    ensures chained { Chained arena.new chains.new }
{
    owners::dz_own_remove_file(arena, chains, table, owner, hold, stamp, name)
}

#[unsafe(no_mangle)]
pub extern "C" fn dz_own_remove_folder(
    arena: &mut [u8],
    chains: &mut [u16],
    table: &mut [u8],
    owner: u8,
    hold: u32,
    stamp: u64,
    name: &[u8],
) -> u32
    requires { Owned arena.old chains.old table.old }
    ensures answers { Answers (call_remove_folder arena.old (table_of table.old) owner (handle_of hold stamp) name.now) left_of (arena.old, table.old) (arena.new, table.new) result }
    ensures chained { Chained arena.new chains.new }
{
    owners::dz_own_remove_folder(arena, chains, table, owner, hold, stamp, name)
}

#[unsafe(no_mangle)]
pub extern "C" fn dz_own_move(
    arena: &mut [u8],
    chains: &mut [u16],
    table: &mut [u8],
    owner: u8,
    hold: u32,
    stamp: u64,
    old: &[u8],
    to_hold: u32,
    to_stamp: u64,
    name: &[u8],
) -> u32
    requires { Owned arena.old chains.old table.old }
    ensures answers { Answers (call_move arena.old (table_of table.old) owner (handle_of hold stamp) old.now (handle_of to_hold to_stamp) name.now) left_of (arena.old, table.old) (arena.new, table.new) result }
    ensures chained { Chained arena.new chains.new }
{
    owners::dz_own_move(
        arena, chains, table, owner, hold, stamp, old, to_hold, to_stamp, name,
    )
}

// ---- metadata

#[unsafe(no_mangle)]
pub extern "C" fn dz_own_metadata(
    arena: &[u8],
    chains: &[u16],
    table: &[u8],
    owner: u8,
    hold: u32,
    stamp: u64,
    out: &mut [u64],
) -> u32
    requires { Owned arena.now chains.now table.now }
    ensures { Answers (sized 14 out.old (call_metadata arena.now (table_of table.now) owner (handle_of hold stamp))) metadata_words out.old out.new result }
{
    owners::dz_own_metadata(arena, chains, table, owner, hold, stamp, out)
}

#[unsafe(no_mangle)]
pub extern "C" fn dz_own_set_metadata(
    arena: &[u8],
    chains: &[u16],
    table: &mut [u8],
    owner: u8,
    hold: u32,
    stamp: u64,
    mode: u16,
    uid: u64,
    gid: u64,
    asec: i64,
    ansec: i64,
    msec: i64,
    mnsec: i64,
    csec: i64,
    cnsec: i64,
) -> u32
    requires { Owned arena.now chains.now table.old }
    ensures { Answers (call_set arena.now (table_of table.old) owner (handle_of hold stamp) mode uid gid (time_of asec ansec) (time_of msec mnsec) (time_of csec cnsec)) bytes_of_table table.old table.new result }
{
    owners::dz_own_set_metadata(
        arena, chains, table, owner, hold, stamp, mode, uid, gid, asec, ansec, msec, mnsec, csec,
        cnsec,
    )
}
