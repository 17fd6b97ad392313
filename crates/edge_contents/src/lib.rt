// The calls on what a node holds, as C functions: a file's own bytes, a folder's slots and its path. How they answer says crate `edge`.
#![tactic(auto)]

ghost use Rattle.std.specs.Prelude.{length};
ghost use Rattle.base.specs.Parts.{paste};
ghost use Rattle.table_bytes.specs.Layout.{table_of};
ghost use Rattle.sefs.specs.Contents.{call_read, call_write, call_resize};
ghost use Rattle.sefs.specs.Read.{call_entry, call_listing};
ghost use Rattle.paths.specs.Path.{call_path};
ghost use Rattle.ranges.specs.Modes.{mode_of};
ghost use Rattle.ranges.specs.Ranges.{call_fallocate};
ghost use Rattle.edge_words.specs.Words.{handle_of};
ghost use Rattle.edge.specs.Edge.{sized, Answers, left_of, start_in, listed_in, read_in};

use calls_entry::entry_on;
use calls_fallocate::fallocate_on;
use calls_list::listing_on;
use calls_path::path_on;
use calls_read::read_on;
use calls_resize::resize_on;
use calls_write::write_on;
use edge_ends::ends::{end_after, end_listed, end_taken, number};
use edge_words::args::handle;
use edge_words::{LENGTH_WORDS, NEXT_WORDS, TABLE, WRONG_SIZE};
use mem::{MEMORY, begin};
use ranges::mode_of;
use verdicts::start_of;

// ---- bytes

// The word is how many bytes were written.
#[unsafe(no_mangle)]
pub extern "C" fn dz_read(
    arena: &[u8],
    table: &[u8],
    owner: u8,
    hold: u32,
    stamp: u64,
    place: u64,
    out: &mut [u8],
    count: &mut [u64],
) -> u32
    ensures { Answers (sized 4402 table.now (sized 1 count.old (call_read arena.now (table_of table.now) owner (handle_of hold stamp) place (length out.old))))
        (read_in out.old) (out.old, count.old) (out.new, count.new) result }
{
    if table.len() != TABLE {
        return WRONG_SIZE;
    }
    if count.len() != LENGTH_WORDS {
        return WRONG_SIZE;
    }
    let mut mem = [0u8; MEMORY];
    begin(&mut mem, table);
    let t = read_on(arena, &mem, owner, handle(hold, stamp), place, out);
    end_taken(count, t)
}

#[unsafe(no_mangle)]
pub extern "C" fn dz_write(
    arena: &mut [u8],
    table: &mut [u8],
    owner: u8,
    hold: u32,
    stamp: u64,
    place: u64,
    src: &[u8],
) -> u32
    ensures { Answers (sized 4402 table.old (call_write arena.old (table_of table.old) owner (handle_of hold stamp) place src.now)) left_of (arena.old, table.old) (arena.new, table.new) result }
{
    if table.len() != TABLE {
        return WRONG_SIZE;
    }
    let mut mem = [0u8; MEMORY];
    begin(&mut mem, &table[..]);
    let r = write_on(arena, &mut mem, owner, handle(hold, stamp), place, src);
    end_after(table, &mem, r)
}

#[unsafe(no_mangle)]
pub extern "C" fn dz_resize(
    arena: &mut [u8],
    table: &mut [u8],
    owner: u8,
    hold: u32,
    stamp: u64,
    n: u64,
) -> u32
    ensures { Answers (sized 4402 table.old (call_resize arena.old (table_of table.old) owner (handle_of hold stamp) n)) left_of (arena.old, table.old) (arena.new, table.new) result }
{
    if table.len() != TABLE {
        return WRONG_SIZE;
    }
    let mut mem = [0u8; MEMORY];
    begin(&mut mem, &table[..]);
    let r = resize_on(arena, &mut mem, owner, handle(hold, stamp), n);
    end_after(table, &mem, r)
}

// Insert, collapse, zeros: `mode` is the mode's number; of `flags` bit 0 asks allocate to keep the size.
#[unsafe(no_mangle)]
pub extern "C" fn dz_fallocate(
    arena: &mut [u8],
    table: &mut [u8],
    owner: u8,
    hold: u32,
    stamp: u64,
    mode: u8,
    flags: u8,
    from: u64,
    len: u64,
) -> u32
    ensures { Answers (sized 4402 table.old (call_fallocate arena.old (table_of table.old) owner (handle_of hold stamp) (mode_of mode flags) from len)) left_of (arena.old, table.old) (arena.new, table.new) result }
{
    if table.len() != TABLE {
        return WRONG_SIZE;
    }
    let mut mem = [0u8; MEMORY];
    begin(&mut mem, &table[..]);
    let r = fallocate_on(
        arena,
        &mut mem,
        owner,
        handle(hold, stamp),
        mode_of(mode, flags),
        from,
        len,
    );
    end_after(table, &mem, r)
}

// ---- slots

#[unsafe(no_mangle)]
pub extern "C" fn dz_get_entry(
    arena: &[u8],
    table: &[u8],
    owner: u8,
    hold: u32,
    stamp: u64,
    slot: u64,
    out: &mut [u8],
) -> u32
    ensures { Answers (sized 4402 table.now (call_entry arena.now (table_of table.now) owner (handle_of hold stamp) slot (length out.old))) (paste out.old 0) out.old out.new result }
{
    if table.len() != TABLE {
        return WRONG_SIZE;
    }
    let mut mem = [0u8; MEMORY];
    begin(&mut mem, table);
    let a = entry_on(arena, &mem, owner, handle(hold, stamp), slot, out);
    number(a)
}

// The word is the place's next slot, and then the one to go on with. `dots` is not 0 where the dots are asked for.
#[unsafe(no_mangle)]
pub extern "C" fn dz_list(
    arena: &[u8],
    table: &[u8],
    owner: u8,
    hold: u32,
    stamp: u64,
    next: &mut [u64],
    dots: u8,
    out: &mut [u8],
) -> u32
    ensures { Answers (sized 4402 table.now (sized 1 next.old (call_listing arena.now (table_of table.now) owner (handle_of hold stamp) (start_in dots next.old) (length out.old))))
        (listed_in (start_in dots next.old) out.old) (next.old, out.old) (next.new, out.new) result }
{
    if table.len() != TABLE {
        return WRONG_SIZE;
    }
    if next.len() != NEXT_WORDS {
        return WRONG_SIZE;
    }
    let at = next[0];
    let from = start_of(dots != 0, at);
    let mut mem = [0u8; MEMORY];
    begin(&mut mem, table);
    let l = listing_on(arena, &mem, owner, handle(hold, stamp), from, out);
    end_listed(next, from, l)
}

// ---- a folder's path

// The word is how many bytes were written.
#[unsafe(no_mangle)]
pub extern "C" fn dz_path(
    arena: &[u8],
    table: &[u8],
    owner: u8,
    hold: u32,
    stamp: u64,
    out: &mut [u8],
    count: &mut [u64],
) -> u32
    ensures { Answers (sized 4402 table.now (sized 1 count.old (call_path arena.now (table_of table.now) owner (handle_of hold stamp) (length out.old))))
        (read_in out.old) (out.old, count.old) (out.new, count.new) result }
{
    if table.len() != TABLE {
        return WRONG_SIZE;
    }
    if count.len() != LENGTH_WORDS {
        return WRONG_SIZE;
    }
    let mut mem = [0u8; MEMORY];
    begin(&mut mem, table);
    let t = path_on(arena, &mut mem, owner, handle(hold, stamp), out);
    end_taken(count, t)
}
