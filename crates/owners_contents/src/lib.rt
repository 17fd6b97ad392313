// The calls of an owner on what a node holds: a file's own bytes, a folder's slots and its path. Who may make them, and what is kept beside the arena, says crate `owners_kept`.
#![tactic(auto)]

ghost use Rattle.std.specs.Prelude.{◌≡◌, length};
ghost use Rattle.base.specs.Told.{code};
ghost use Rattle.base.specs.Parts.{paste};
ghost use Rattle.table_bytes.specs.Layout.{table_of};
ghost use Rattle.sefs.specs.Contents.{call_read, call_write, call_resize};
ghost use Rattle.sefs.specs.Read.{call_entry, call_listing};
ghost use Rattle.paths.specs.Path.{call_path};
ghost use Rattle.ranges.specs.Modes.{mode_of};
ghost use Rattle.ranges.specs.Ranges.{call_fallocate};
ghost use Rattle.mem.specs.Mem.{table_in};
ghost use Rattle.steps.specs.Ends.{Ended};
ghost use Rattle.edge_words.specs.Words.{handle_of};
ghost use Rattle.edge.specs.Edge.{sized, Answers, left_of, start_in, listed_in, read_in};
ghost use Rattle.owners_kept.specs.Owned.{Chained, Owned, Kept};

use base::Reason;
use calls_entry::entry_led;
use calls_fallocate::{PLAN, SOURCE, fallocate_led, fallocate_row};
use calls_list::list_led;
use calls_path::path_led;
use calls_read::read_led;
use calls_resize::resize_led;
use calls_write::{write_led, write_row};
use edge_ends::ends::{end_after, end_listed, end_taken, number};
use edge_words::args::handle;
use edge_words::{LENGTH_WORDS, NEXT_WORDS, WRONG_SIZE};
use mem::{MEMORY, begin};
use ranges::{FallocateMode, mode_of};
use sizes::set_size;
use sound::chain_all;
use table::Handle;
use verdicts::start_of;

// ---- read

// The word is how many bytes were written.
#[unsafe(no_mangle)]
pub extern "C" fn dz_own_read(
    arena: &[u8],
    chains: &[u16],
    table: &[u8],
    owner: u8,
    hold: u32,
    stamp: u64,
    place: u64,
    out: &mut [u8],
    count: &mut [u64],
) -> u32
    requires { Owned arena.now chains.now table.now }
    ensures { Answers (sized 1 count.old (call_read arena.now (table_of table.now) owner (handle_of hold stamp) place (length out.old))) (read_in out.old) (out.old, count.old) (out.new, count.new) result }
{
    if count.len() != LENGTH_WORDS {
        return WRONG_SIZE;
    }
    let mut mem = [0u8; MEMORY];
    begin(&mut mem, table);
    let t = read_led(
        arena,
        &chains[..4096],
        &chains[4096..8192],
        &mem,
        owner,
        handle(hold, stamp),
        place,
        out,
    );
    end_taken(count, t)
}

// ---- write

fn write_in(
    arena: &mut [u8],
    chains: &mut [u16],
    mem: &mut [u8],
    who: u8,
    h: Handle,
    place: u64,
    src: &[u8],
    plan: &mut [u16],
) -> Result<(), Reason>
    requires { Kept arena.old chains.old mem.old × (length plan.old ≡ 4096) }
    ensures ended { Ended (call_write arena.old (table_in mem.old) who h place src.now) arena.old arena.new (table_in mem.new) (code result) }
    ensures chained { Chained arena.new chains.new }
{
    let c = &chains[..];
    let s = write_led(
        &arena[..],
        &c[..4096],
        &c[4096..8192],
        &mem[..],
        who,
        h,
        place,
        src.len(),
        plan,
    )?;
    write_row(arena, mem, s.row, s.head, place as usize, src, &plan[..]);
    chain_all(&arena[..], chains);
    Ok(())
}

fn write_on(
    arena: &mut [u8],
    chains: &mut [u16],
    mem: &mut [u8],
    who: u8,
    h: Handle,
    place: u64,
    src: &[u8],
) -> Result<(), Reason>
    requires { Kept arena.old chains.old mem.old }
    ensures ended { Ended (call_write arena.old (table_in mem.old) who h place src.now) arena.old arena.new (table_in mem.new) (code result) }
    ensures chained { Chained arena.new chains.new }
{
    let mut plan = [0u16; 4096];
    write_in(arena, chains, mem, who, h, place, src, &mut plan)
}

#[unsafe(no_mangle)]
pub extern "C" fn dz_own_write(
    arena: &mut [u8],
    chains: &mut [u16],
    table: &mut [u8],
    owner: u8,
    hold: u32,
    stamp: u64,
    place: u64,
    src: &[u8],
) -> u32
    requires { Owned arena.old chains.old table.old }
    ensures answers { Answers (call_write arena.old (table_of table.old) owner (handle_of hold stamp) place src.now) left_of (arena.old, table.old) (arena.new, table.new) result }
    ensures chained { Chained arena.new chains.new }
{
    let mut mem = [0u8; MEMORY];
    begin(&mut mem, &table[..]);
    let r = write_on(
        arena,
        chains,
        &mut mem,
        owner,
        handle(hold, stamp),
        place,
        src,
    );
    end_after(table, &mem, r)
}

// ---- resize

fn resize_on(
    arena: &mut [u8],
    chains: &mut [u16],
    mem: &mut [u8],
    who: u8,
    h: Handle,
    n: u64,
) -> Result<(), Reason>
    requires { Kept arena.old chains.old mem.old }
    ensures ended { Ended (call_resize arena.old (table_in mem.old) who h n) arena.old arena.new (table_in mem.new) (code result) }
    ensures chained { Chained arena.new chains.new }
{
    let c = &chains[..];
    let s = resize_led(&arena[..], &c[..4096], &c[4096..8192], &mem[..], who, h, n)?;
    set_size(arena, mem, s.row, s.head, n as usize);
    chain_all(&arena[..], chains);
    Ok(())
}

#[unsafe(no_mangle)]
pub extern "C" fn dz_own_resize(
    arena: &mut [u8],
    chains: &mut [u16],
    table: &mut [u8],
    owner: u8,
    hold: u32,
    stamp: u64,
    size: u64,
) -> u32
    requires { Owned arena.old chains.old table.old }
    ensures answers { Answers (call_resize arena.old (table_of table.old) owner (handle_of hold stamp) size) left_of (arena.old, table.old) (arena.new, table.new) result }
    ensures chained { Chained arena.new chains.new }
{
    let mut mem = [0u8; MEMORY];
    begin(&mut mem, &table[..]);
    let r = resize_on(arena, chains, &mut mem, owner, handle(hold, stamp), size);
    end_after(table, &mem, r)
}

// ---- fallocate

// Where nothing is refused and nothing is to do, arena and chains stay.
fn fallocate_in(
    arena: &mut [u8],
    chains: &mut [u16],
    mem: &mut [u8],
    who: u8,
    h: Handle,
    mode: FallocateMode,
    from: u64,
    len: u64,
    plan: &mut [u16],
    source: &mut [u16],
) -> Result<(), Reason>
    requires { Kept arena.old chains.old mem.old × ((length plan.old ≡ 4096) × (length source.old ≡ 4097)) }
    ensures ended { Ended (call_fallocate arena.old (table_in mem.old) who h mode from len) arena.old arena.new (table_in mem.new) (code result) }
    ensures chained { Chained arena.new chains.new }
{
    let c = &chains[..];
    let s = fallocate_led(
        &arena[..],
        &c[..4096],
        &c[4096..8192],
        &mem[..],
        who,
        h,
        mode,
        from,
        len,
        plan,
        source,
    )?;
    if s.idle {
        return Ok(());
    }
    fallocate_row(
        arena,
        mem,
        s.row,
        s.head,
        mode,
        from,
        len,
        plan,
        &source[..],
    );
    chain_all(&arena[..], chains);
    Ok(())
}

fn fallocate_on(
    arena: &mut [u8],
    chains: &mut [u16],
    mem: &mut [u8],
    who: u8,
    h: Handle,
    mode: FallocateMode,
    from: u64,
    len: u64,
) -> Result<(), Reason>
    requires { Kept arena.old chains.old mem.old }
    ensures ended { Ended (call_fallocate arena.old (table_in mem.old) who h mode from len) arena.old arena.new (table_in mem.new) (code result) }
    ensures chained { Chained arena.new chains.new }
{
    let mut plan = [0u16; PLAN];
    let mut source = [0u16; SOURCE];
    fallocate_in(
        arena,
        chains,
        mem,
        who,
        h,
        mode,
        from,
        len,
        &mut plan,
        &mut source,
    )
}

#[unsafe(no_mangle)]
pub extern "C" fn dz_own_fallocate(
    arena: &mut [u8],
    chains: &mut [u16],
    table: &mut [u8],
    owner: u8,
    hold: u32,
    stamp: u64,
    mode: u8,
    flags: u8,
    from: u64,
    len: u64,
) -> u32
    requires { Owned arena.old chains.old table.old }
    ensures answers { Answers (call_fallocate arena.old (table_of table.old) owner (handle_of hold stamp) (mode_of mode flags) from len) left_of (arena.old, table.old) (arena.new, table.new) result }
    ensures chained { Chained arena.new chains.new }
{
    let mut mem = [0u8; MEMORY];
    begin(&mut mem, &table[..]);
    let r = fallocate_on(
        arena,
        chains,
        &mut mem,
        owner,
        handle(hold, stamp),
        mode_of(mode, flags),
        from,
        len,
    );
    end_after(table, &mem, r)
}

// ---- slots

#[unsafe(no_mangle)]
pub extern "C" fn dz_own_get_entry(
    arena: &[u8],
    chains: &[u16],
    table: &[u8],
    owner: u8,
    hold: u32,
    stamp: u64,
    slot: u64,
    out: &mut [u8],
) -> u32
    requires { Owned arena.now chains.now table.now }
    ensures { Answers (call_entry arena.now (table_of table.now) owner (handle_of hold stamp) slot (length out.old)) (paste out.old 0) out.old out.new result }
{
    let mut mem = [0u8; MEMORY];
    begin(&mut mem, table);
    let r = entry_led(
        arena,
        &chains[..4096],
        &chains[4096..8192],
        &mem,
        owner,
        handle(hold, stamp),
        slot,
        out,
    );
    number(r)
}

// The word is the place's next slot, and then the one to go on with. `dots` is not 0 where the dots are asked for.
#[unsafe(no_mangle)]
pub extern "C" fn dz_own_list(
    arena: &[u8],
    chains: &[u16],
    table: &[u8],
    owner: u8,
    hold: u32,
    stamp: u64,
    next: &mut [u64],
    dots: u8,
    out: &mut [u8],
) -> u32
    requires { Owned arena.now chains.now table.now }
    ensures { Answers (sized 1 next.old (call_listing arena.now (table_of table.now) owner (handle_of hold stamp) (start_in dots next.old) (length out.old)))
        (listed_in (start_in dots next.old) out.old) (next.old, out.old) (next.new, out.new) result }
{
    if next.len() != NEXT_WORDS {
        return WRONG_SIZE;
    }
    let at = next[0];
    let from = start_of(dots != 0, at);
    let mut mem = [0u8; MEMORY];
    begin(&mut mem, table);
    let l = list_led(
        arena,
        &chains[..4096],
        &chains[4096..8192],
        &mem,
        owner,
        handle(hold, stamp),
        from,
        out,
    );
    end_listed(next, from, l)
}

// ---- a folder's path

// The word is how many bytes were written.
#[unsafe(no_mangle)]
pub extern "C" fn dz_own_path(
    arena: &[u8],
    chains: &[u16],
    table: &[u8],
    owner: u8,
    hold: u32,
    stamp: u64,
    out: &mut [u8],
    count: &mut [u64],
) -> u32
    requires { Owned arena.now chains.now table.now }
    ensures { Answers (sized 1 count.old (call_path arena.now (table_of table.now) owner (handle_of hold stamp) (length out.old))) (read_in out.old) (out.old, count.old) (out.new, count.new) result }
{
    if count.len() != LENGTH_WORDS {
        return WRONG_SIZE;
    }
    let mut mem = [0u8; MEMORY];
    begin(&mut mem, table);
    let t = path_led(
        arena,
        &chains[..4096],
        &chains[4096..8192],
        &mut mem,
        owner,
        handle(hold, stamp),
        out,
    );
    end_taken(count, t)
}
