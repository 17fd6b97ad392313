// Crate `edge` as a static library for C (include/dzomrelig.h): a function of each name, which calls that one and promises the same.
#![tactic(auto)]

ghost use Rattle.std.specs.Prelude.{length};
ghost use Rattle.table_bytes.specs.Layout.{table_of, bytes_of_table};
ghost use Rattle.sefs.specs.Close.{call_sync, call_close};
ghost use Rattle.sefs.specs.Create.{call_format, call_create, call_link};
ghost use Rattle.sefs.specs.Move.{call_move};
ghost use Rattle.sefs.specs.Open.{call_open, call_root, call_find};
ghost use Rattle.sefs.specs.Read.{call_metadata, call_set};
ghost use Rattle.sefs.specs.Remove.{call_remove_file, call_remove_folder};
ghost use Rattle.walk.specs.Walk.{call_walk};
ghost use Rattle.inventory.specs.Inventory.{call_inventory};
ghost use Rattle.mending.specs.Mend.{call_mend};
ghost use Rattle.calls_format.specs.Format.{formatted};
ghost use Rattle.fsck.specs.Verdicts.{verdict_of};
ghost use Rattle.edge_words.specs.Words.{handle_of, time_of, metadata_words};
ghost use Rattle.edge.specs.Edge.{sized, sized_walk, Answers, left_of, made_of, held_of, Walks, read_in, counted, counts_of, mended_of};

// ---- the whole image

#[unsafe(no_mangle)]
pub extern "C" fn dz_format(
    arena: &mut [u8],
    table: &mut [u8],
    sec: i64,
    nsec: i64,
    file: &[u8],
) -> u32
    ensures { Answers (sized 4402 table.old (sized 16 file.now (formatted (call_format arena.old (time_of sec nsec) file.now)))) left_of (arena.old, table.old) (arena.new, table.new) result }
{
    edge::dz_format(arena, table, sec, nsec, file)
}

#[unsafe(no_mangle)]
pub extern "C" fn dz_open(arena: &[u8], table: &mut [u8]) -> u32
    ensures { Answers (sized 4402 table.old (call_open arena.now)) bytes_of_table table.old table.new result }
{
    edge::dz_open(arena, table)
}

#[unsafe(no_mangle)]
pub extern "C" fn dz_sync(arena: &mut [u8], table: &mut [u8]) -> u32
    ensures { Answers (sized 4402 table.old (call_sync arena.old (table_of table.old))) left_of (arena.old, table.old) (arena.new, table.new) result }
{
    edge::dz_sync(arena, table)
}

#[unsafe(no_mangle)]
pub extern "C" fn dz_check(arena: &[u8], table: &[u8], out: &mut [u64]) -> u32
    ensures { Answers (sized 4402 table.now (sized 3 out.old (counted (verdict_of arena.now (table_of table.now))))) counts_of out.old out.new result }
{
    edge::dz_check(arena, table, out)
}

#[unsafe(no_mangle)]
pub extern "C" fn dz_inventory(arena: &[u8], out: &mut [u8], count: &mut [u64]) -> u32
    ensures { Answers (sized 1 count.old (call_inventory arena.now (length out.old))) (read_in out.old) (out.old, count.old) (out.new, count.new) result }
{
    edge::dz_inventory(arena, out, count)
}

#[unsafe(no_mangle)]
pub extern "C" fn dz_mend(arena: &mut [u8], table: &[u8]) -> u32
    ensures { Answers (sized 4402 table.now (call_mend arena.old (table_of table.now))) mended_of arena.old arena.new result }
{
    edge::dz_mend(arena, table)
}

// ---- holds

#[unsafe(no_mangle)]
pub extern "C" fn dz_root(arena: &[u8], table: &mut [u8], owner: u8, out: &mut [u64]) -> u32
    ensures { Answers (sized 4402 table.old (sized 2 out.old (call_root arena.now (table_of table.old) owner))) held_of (table.old, out.old) (table.new, out.new) result }
{
    edge::dz_root(arena, table, owner, out)
}

#[unsafe(no_mangle)]
pub extern "C" fn dz_find(
    arena: &[u8],
    table: &mut [u8],
    owner: u8,
    hold: u32,
    stamp: u64,
    name: &[u8],
    out: &mut [u64],
) -> u32
    ensures { Answers (sized 4402 table.old (sized 2 out.old (call_find arena.now (table_of table.old) owner (handle_of hold stamp) name.now))) held_of (table.old, out.old) (table.new, out.new) result }
{
    edge::dz_find(arena, table, owner, hold, stamp, name, out)
}

#[unsafe(no_mangle)]
pub extern "C" fn dz_walk(
    arena: &[u8],
    table: &mut [u8],
    owner: u8,
    hold: u32,
    stamp: u64,
    path: &[u8],
    links: &mut [u8],
    out: &mut [u64],
) -> u32
    ensures { Walks (sized_walk 4402 table.old (sized_walk 2 out.old (call_walk arena.now (table_of table.old) owner (handle_of hold stamp) path.now (length links.old))))
        links.old links.new (table.old, out.old) (table.new, out.new) result }
{
    edge::dz_walk(arena, table, owner, hold, stamp, path, links, out)
}

#[unsafe(no_mangle)]
pub extern "C" fn dz_close(
    arena: &mut [u8],
    table: &mut [u8],
    owner: u8,
    hold: u32,
    stamp: u64,
) -> u32
    ensures { Answers (sized 4402 table.old (call_close arena.old (table_of table.old) owner (handle_of hold stamp))) left_of (arena.old, table.old) (arena.new, table.new) result }
{
    edge::dz_close(arena, table, owner, hold, stamp)
}

// ---- names

#[unsafe(no_mangle)]
pub extern "C" fn dz_create(
    arena: &mut [u8],
    table: &mut [u8],
    owner: u8,
    hold: u32,
    stamp: u64,
    name: &[u8],
    kind: u32,
    mode: u16,
    sec: i64,
    nsec: i64,
    file: &[u8],
    out: &mut [u64],
) -> u32
    ensures { Answers (sized 4402 table.old (sized 16 file.now (sized 2 out.old (call_create arena.old (table_of table.old) owner (handle_of hold stamp) name.now kind mode (time_of sec nsec) file.now))))
        made_of (arena.old, table.old, out.old) (arena.new, table.new, out.new) result }
{
    edge::dz_create(
        arena, table, owner, hold, stamp, name, kind, mode, sec, nsec, file, out,
    )
}

#[unsafe(no_mangle)]
pub extern "C" fn dz_link(
    arena: &mut [u8],
    table: &mut [u8],
    owner: u8,
    hold: u32,
    stamp: u64,
    name: &[u8],
    child_hold: u32,
    child_stamp: u64,
) -> u32
    ensures { Answers (sized 4402 table.old (call_link arena.old (table_of table.old) owner (handle_of hold stamp) name.now (handle_of child_hold child_stamp)))
        left_of (arena.old, table.old) (arena.new, table.new) result }
{
    edge::dz_link(
        arena,
        table,
        owner,
        hold,
        stamp,
        name,
        child_hold,
        child_stamp,
    )
}

#[unsafe(no_mangle)]
pub extern "C" fn dz_remove_file(
    arena: &mut [u8],
    table: &mut [u8],
    owner: u8,
    hold: u32,
    stamp: u64,
    name: &[u8],
) -> u32
    ensures { Answers (sized 4402 table.old (call_remove_file arena.old (table_of table.old) owner (handle_of hold stamp) name.now)) left_of (arena.old, table.old) (arena.new, table.new) result }
{
    edge::dz_remove_file(arena, table, owner, hold, stamp, name)
}

#[unsafe(no_mangle)]
pub extern "C" fn dz_remove_folder(
    arena: &mut [u8],
    table: &mut [u8],
    owner: u8,
    hold: u32,
    stamp: u64,
    name: &[u8],
) -> u32
    ensures { Answers (sized 4402 table.old (call_remove_folder arena.old (table_of table.old) owner (handle_of hold stamp) name.now)) left_of (arena.old, table.old) (arena.new, table.new) result }
{
    edge::dz_remove_folder(arena, table, owner, hold, stamp, name)
}

#[unsafe(no_mangle)]
pub extern "C" fn dz_move(
    arena: &mut [u8],
    table: &mut [u8],
    owner: u8,
    hold: u32,
    stamp: u64,
    old: &[u8],
    to_hold: u32,
    to_stamp: u64,
    name: &[u8],
) -> u32
    ensures { Answers (sized 4402 table.old (call_move arena.old (table_of table.old) owner (handle_of hold stamp) old.now (handle_of to_hold to_stamp) name.now))
        left_of (arena.old, table.old) (arena.new, table.new) result }
{
    edge::dz_move(
        arena, table, owner, hold, stamp, old, to_hold, to_stamp, name,
    )
}

// ---- metadata

#[unsafe(no_mangle)]
pub extern "C" fn dz_metadata(
    arena: &[u8],
    table: &[u8],
    owner: u8,
    hold: u32,
    stamp: u64,
    out: &mut [u64],
) -> u32
    ensures { Answers (sized 4402 table.now (sized 14 out.old (call_metadata arena.now (table_of table.now) owner (handle_of hold stamp)))) metadata_words out.old out.new result }
{
    edge::dz_metadata(arena, table, owner, hold, stamp, out)
}

#[unsafe(no_mangle)]
pub extern "C" fn dz_set_metadata(
    arena: &[u8],
    table: &mut [u8],
    owner: u8,
    hold: u32,
    stamp: u64,
    mode: u16,
    uid: u64,
    gid: u64,
    asec: i64,
    ansec: i64,
    msec: i64,
    mnsec: i64,
    csec: i64,
    cnsec: i64,
) -> u32
    ensures { Answers (sized 4402 table.old (call_set arena.now (table_of table.old) owner (handle_of hold stamp) mode uid gid (time_of asec ansec) (time_of msec mnsec) (time_of csec cnsec))) bytes_of_table table.old table.new result }
{
    edge::dz_set_metadata(
        arena, table, owner, hold, stamp, mode, uid, gid, asec, ansec, msec, mnsec, csec, cnsec,
    )
}
