// Crate `owners_contents` as a static library for C (include/dzomrelig.h): a function of each name, which calls that one, asks what it asks and promises the same.
#![tactic(auto)]

ghost use Rattle.std.specs.Prelude.{length};
ghost use Rattle.base.specs.Parts.{paste};
ghost use Rattle.table_bytes.specs.Layout.{table_of};
ghost use Rattle.sefs.specs.Contents.{call_read, call_write, call_resize};
ghost use Rattle.sefs.specs.Read.{call_entry, call_listing};
ghost use Rattle.paths.specs.Path.{call_path};
ghost use Rattle.ranges.specs.Modes.{mode_of};
ghost use Rattle.ranges.specs.Ranges.{call_fallocate};
ghost use Rattle.edge_words.specs.Words.{handle_of};
ghost use Rattle.edge.specs.Edge.{sized, Answers, left_of, start_in, listed_in, read_in};
ghost use Rattle.owners_kept.specs.Owned.{Chained, Owned};

// ---- read

#[unsafe(no_mangle)]
pub extern "C" fn dz_own_read(
    arena: &[u8],
    chains: &[u16],
    table: &[u8],
    owner: u8,
    hold: u32,
    stamp: u64,
    place: u64,
    out: &mut [u8],
    count: &mut [u64],
) -> u32
    requires { Owned arena.now chains.now table.now }
    ensures { Answers (sized 1 count.old (call_read arena.now (table_of table.now) owner (handle_of hold stamp) place (length out.old))) (read_in out.old) (out.old, count.old) (out.new, count.new) result }
{
    owners_contents::dz_own_read(arena, chains, table, owner, hold, stamp, place, out, count)
}

// ---- write

#[unsafe(no_mangle)]
pub extern "C" fn dz_own_write(
    arena: &mut [u8],
    chains: &mut [u16],
    table: &mut [u8],
    owner: u8,
    hold: u32,
    stamp: u64,
    place: u64,
    src: &[u8],
) -> u32
    requires { Owned arena.old chains.old table.old }
    ensures answers { Answers (call_write arena.old (table_of table.old) owner (handle_of hold stamp) place src.now) left_of (arena.old, table.old) (arena.new, table.new) result }
    ensures chained { Chained arena.new chains.new }
{
    owners_contents::dz_own_write(arena, chains, table, owner, hold, stamp, place, src)
}

// ---- resize

#[unsafe(no_mangle)]
pub extern "C" fn dz_own_resize(
    arena: &mut [u8],
    chains: &mut [u16],
    table: &mut [u8],
    owner: u8,
    hold: u32,
    stamp: u64,
    size: u64,
) -> u32
    requires { Owned arena.old chains.old table.old }
    ensures answers { Answers (call_resize arena.old (table_of table.old) owner (handle_of hold stamp) size) left_of (arena.old, table.old) (arena.new, table.new) result }
    ensures chained { Chained arena.new chains.new }
{
    owners_contents::dz_own_resize(arena, chains, table, owner, hold, stamp, size)
}

// ---- fallocate

#[unsafe(no_mangle)]
pub extern "C" fn dz_own_fallocate(
    arena: &mut [u8],
    chains: &mut [u16],
    table: &mut [u8],
    owner: u8,
    hold: u32,
    stamp: u64,
    mode: u8,
    flags: u8,
    from: u64,
    len: u64,
) -> u32
    requires { Owned arena.old chains.old table.old }
    ensures answers { Answers (call_fallocate arena.old (table_of table.old) owner (handle_of hold stamp) (mode_of mode flags) from len) left_of (arena.old, table.old) (arena.new, table.new) result }
    ensures chained { Chained arena.new chains.new }
{
    owners_contents::dz_own_fallocate(
        arena, chains, table, owner, hold, stamp, mode, flags, from, len,
    )
}

// ---- slots

#[unsafe(no_mangle)]
pub extern "C" fn dz_own_get_entry(
    arena: &[u8],
    chains: &[u16],
    table: &[u8],
    owner: u8,
    hold: u32,
    stamp: u64,
    slot: u64,
    out: &mut [u8],
) -> u32
    requires { Owned arena.now chains.now table.now }
    ensures { Answers (call_entry arena.now (table_of table.now) owner (handle_of hold stamp) slot (length out.old)) (paste out.old 0) out.old out.new result }
{
    owners_contents::dz_own_get_entry(arena, chains, table, owner, hold, stamp, slot, out)
}

#[unsafe(no_mangle)]
pub extern "C" fn dz_own_list(
    arena: &[u8],
    chains: &[u16],
    table: &[u8],
    owner: u8,
    hold: u32,
    stamp: u64,
    next: &mut [u64],
    dots: u8,
    out: &mut [u8],
) -> u32
    requires { Owned arena.now chains.now table.now }
    ensures { Answers (sized 1 next.old (call_listing arena.now (table_of table.now) owner (handle_of hold stamp) (start_in dots next.old) (length out.old)))
        (listed_in (start_in dots next.old) out.old) (next.old, out.old) (next.new, out.new) result }
{
    owners_contents::dz_own_list(arena, chains, table, owner, hold, stamp, next, dots, out)
}

// ---- a folder's path

#[unsafe(no_mangle)]
pub extern "C" fn dz_own_path(
    arena: &[u8],
    chains: &[u16],
    table: &[u8],
    owner: u8,
    hold: u32,
    stamp: u64,
    out: &mut [u8],
    count: &mut [u64],
) -> u32
    requires { Owned arena.now chains.now table.now }
    ensures { Answers (sized 1 count.old (call_path arena.now (table_of table.now) owner (handle_of hold stamp) (length out.old))) (read_in out.old) (out.old, count.old) (out.new, count.new) result }
{
    owners_contents::dz_own_path(arena, chains, table, owner, hold, stamp, out, count)
}
