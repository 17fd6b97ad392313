// The call path (order 14): a folder's path from root, into a lent buffer. It changes no byte of the arena, and reads it by the chains of `sound`.
// A path may be some 1,250 names deep, and a stack small: so a first pass, which does not call itself, decides what is refused and measures the
// path, and notes every 32nd folder on the way up. The climb that calls itself then writes the names a span of at most 32 at a time, root's first.
#![tactic(auto)]

ghost use Rattle.std.specs.Prelude.{◌≡◌, ◌<◌, length};
ghost use Rattle.std.specs.Result.{result_unwrap_or};
ghost use Rattle.base.specs.Told.{code};
ghost use Rattle.base.specs.Out.{answer};
ghost use Rattle.chains.specs.Led.{Led};
ghost use Rattle.mem.specs.Mem.{table_in, Whole};
ghost use Rattle.mem.specs.State.{fs_at};
ghost use Rattle.calls.specs.Answers.{taken_of, Lays};
ghost use Rattle.calls.specs.Asked.{Admitted};
ghost use Rattle.paths.specs.Path.{call_path};
ghost use Rattle.paths.specs.Spans.{last_to};
ghost use Rattle.calls_path.specs.Path.{path_ask, path_in, root_path, marked, no_measure, Measures, MeasuredAt, one_name, NamesFit, NamesWritten, SpanFits, SpanWritten, PathFits, PathWritten};

use base::{Reason, copy};
use calls::led::admit;
use calls::{by_handle, not_removed, readable};
use mem::{MEMORY, id_at, put_table, rec_at};
use nodes_read::meta::load_meta;
use nodes_read::record_on;
use path_parts::{above, name_in, step_up};
use structs::DiskINode;
use table::{Handle, Table};
use utf8::SLASH;

// The node of the root folder.
const ROOT: u32 = 2;

// From more folders than these nothing is climbed.
const MOST_FOLDERS: usize = 4096;

// So many names are written by a climb that calls itself.
const SPAN: usize = 32;

// ---- the first pass

// How many names the path has, and their bytes with a slash before each.
#[derive(Clone, Copy)]
struct Measured {
    folders: usize,
    bytes: usize,
}

// Folder number n of the way up is noted, where a span begins there.
fn mark(marks: &mut [u32], n: usize, id: u32)
    requires { (length marks.old ≡ 128) × (n < 4096) }
    ensures { marks.new ≡ marked marks.old n id }
{
    if n % SPAN == 0 {
        let k = n / SPAN;
        marks[k] = id;
    }
}

// Where no more folders may be climbed from.
fn measured_end(at: u32, folders: usize, bytes: usize) -> Result<Measured, Reason>
    ensures { MeasuredAt at folders bytes (result_unwrap_or result no_measure).folders (result_unwrap_or result no_measure).bytes (code result) }
{
    if at == ROOT {
        return Ok(Measured { folders, bytes });
    }
    Err(Reason::Stuck)
}

fn measure(
    arena: &[u8],
    first: &[u16],
    next: &[u16],
    mem: &[u8],
    id: u32,
    rec: DiskINode,
    marks: &mut [u32],
) -> Result<Measured, Reason>
    requires led { Led arena.now first.now next.now }
    requires whole { Whole mem.now × (length marks.old ≡ 128) }
    ensures { Measures (fs_at arena.now mem.now) id rec marks.new (result_unwrap_or result no_measure).folders (result_unwrap_or result no_measure).bytes (code result) }
{
    let mut at = id;
    let mut dir = rec;
    let mut bytes: usize = 0;
    for n in 0..MOST_FOLDERS {
        if at == ROOT {
            return measured_end(at, n, bytes);
        }
        mark(marks, n, at);
        let up = step_up(arena, first, next, mem, at, dir)?;
        bytes += 1 + up.long;
        at = up.id;
        dir = up.rec;
    }
    measured_end(at, MOST_FOLDERS, bytes)
}

// ---- the names of a span

// A slash, and the name of node x in the folder of rec; it answers where they end. The slot is lent, so that a level of the climb has none of its own.
fn write_name(
    arena: &[u8],
    first: &[u16],
    next: &[u16],
    slot: &mut [u8],
    rec: DiskINode,
    x: u32,
    at: usize,
    out: &mut [u8],
) -> usize
    requires led { Led arena.now first.now next.now }
    requires slot_len { (length slot.old ≡ 264) × NamesFit (one_name arena.now rec x) at out.old }
    ensures { NamesWritten (one_name arena.now rec x) at out.old out.new result }
{
    let n = name_in(arena, first, next, rec, x, slot).unwrap();
    let end = at + 1 + n;
    out[at] = SLASH;
    copy(&mut out[at + 1..end], &slot[4..4 + n]);
    end
}

// "The climb calls itself on the parent with falling steps, then writes its own name": the names of folder x and of those above it, `steps` in all.
// It answers where they end.
fn write_names(
    arena: &[u8],
    first: &[u16],
    next: &[u16],
    mem: &[u8],
    slot: &mut [u8],
    x: u32,
    rec: DiskINode,
    steps: usize,
    at: usize,
    out: &mut [u8],
) -> usize
    requires led { Led arena.now first.now next.now }
    requires whole { Whole mem.now × (length slot.old ≡ 264) }
    requires names_fit { NamesFit (last_to (fs_at arena.now mem.now) steps x rec) at out.old }
    ensures { NamesWritten (last_to (fs_at arena.now mem.now) steps x rec) at out.old out.new result }
{
    if steps == 0 {
        return at;
    }
    let up = above(arena, first, next, mem, rec).unwrap();
    let end = write_names(
        arena,
        first,
        next,
        mem,
        slot,
        up.id,
        up.rec,
        steps - 1,
        at,
        out,
    );
    write_name(arena, first, next, slot, up.rec, x, end, out)
}

// ---- span by span

// The span that begins at mark k, the first of which is the folder that was asked for.
fn write_span(
    arena: &[u8],
    first: &[u16],
    next: &[u16],
    mem: &[u8],
    slot: &mut [u8],
    x: u32,
    rec: DiskINode,
    marks: &[u32],
    k: usize,
    steps: usize,
    at: usize,
    out: &mut [u8],
) -> usize
    requires led { Led arena.now first.now next.now }
    requires whole { Whole mem.now × (length slot.old ≡ 264) }
    requires span_fits { SpanFits (fs_at arena.now mem.now) x rec marks.now k steps at out.old }
    ensures { SpanWritten (fs_at arena.now mem.now) x rec k steps at out.old out.new result }
{
    if k == 0 {
        return write_names(arena, first, next, mem, slot, x, rec, steps, at, out);
    }
    let id = marks[k];
    let top = record_on(arena, first, next, mem, id).unwrap();
    write_names(arena, first, next, mem, slot, id, top, steps, at, out)
}

// All names, root's span first: those of the `below` folders nearest to the one that was asked for are still to be written.
fn write_path(
    arena: &[u8],
    first: &[u16],
    next: &[u16],
    mem: &[u8],
    slot: &mut [u8],
    x: u32,
    rec: DiskINode,
    marks: &[u32],
    folders: usize,
    out: &mut [u8],
)
    requires led { Led arena.now first.now next.now }
    requires whole { Whole mem.now × (length slot.old ≡ 264) }
    requires path_fits { PathFits (fs_at arena.now mem.now) x rec marks.now folders out.old }
    ensures { PathWritten (fs_at arena.now mem.now) x rec out.old out.new }
{
    let mut below = folders;
    let mut at: usize = 0;
    // A while: each span ends where the one that was written last begins.
    while below > 0 {
        let k = (below - 1) / SPAN;
        let start = SPAN * k;
        at = write_span(
            arena,
            first,
            next,
            mem,
            slot,
            x,
            rec,
            marks,
            k,
            below - start,
            at,
            out,
        );
        below = start;
    }
}

// ---- the call

// Root gives one slash.
fn write_root(out: &mut [u8]) -> Result<usize, Reason>
    ensures { Lays taken_of (root_path (length out.old)) out.old out.new result }
{
    if out.len() == 0 {
        return Err(Reason::OutFull);
    }
    out[0] = SLASH;
    Ok(1)
}

// Of folder x, whose record is rec.
fn path_in(
    arena: &[u8],
    first: &[u16],
    next: &[u16],
    mem: &[u8],
    x: u32,
    rec: DiskINode,
    out: &mut [u8],
) -> Result<usize, Reason>
    requires led { Led arena.now first.now next.now }
    requires whole { Whole mem.now }
    ensures { Lays taken_of (path_in (fs_at arena.now mem.now) x rec (length out.old)) out.old out.new result }
{
    let mut marks = [0u32; 128];
    let m = measure(arena, first, next, mem, x, rec, &mut marks)?;
    if m.folders == 0 {
        return write_root(out);
    }
    if m.bytes > out.len() {
        return Err(Reason::OutFull);
    }
    let mut slot = [0u8; 264];
    write_path(
        arena, first, next, mem, &mut slot, x, rec, &marks, m.folders, out,
    );
    Ok(m.bytes)
}

// 19 for a type that there is not, 7, 8.
fn path_ask(rec: DiskINode) -> Result<(), Reason>
    ensures { code result ≡ answer (path_ask rec) }
{
    readable(rec)?;
    not_removed(rec)
}

// What follows the tests of arena and table, by the chains that they left. The table in memory stays as it is.
pub fn path_led(
    arena: &[u8],
    first: &[u16],
    next: &[u16],
    mem: &mut [u8],
    who: u8,
    h: Handle,
    out: &mut [u8],
) -> Result<usize, Reason>
    requires { Admitted arena.now first.now next.now mem.old }
    ensures lays { Lays taken_of (call_path arena.now (table_in mem.old) who h (length out.old)) out.old out.new result }
    ensures mem_unchanged { (table_in mem.new ≡ table_in mem.old) × Whole mem.new }
{
    let row = by_handle(&mem[..], who, h)?;
    let rec = rec_at(&mem[..], row);
    path_ask(rec)?;
    let x = id_at(&mem[..], row);
    load_meta(arena, first, next, mem);
    path_in(arena, first, next, &mem[..], x, rec, out)
}

// The call on the table in memory.
pub fn path_on(
    arena: &[u8],
    mem: &mut [u8],
    who: u8,
    h: Handle,
    out: &mut [u8],
) -> Result<usize, Reason>
    requires { Whole mem.old }
    ensures lays { Lays taken_of (call_path arena.now (table_in mem.old) who h (length out.old)) out.old out.new result }
    ensures mem_unchanged { (table_in mem.new ≡ table_in mem.old) × Whole mem.new }
{
    let mut chains = [0u16; 8192];
    admit(arena, &mut chains, &mem[..])?;
    let c = &chains[..];
    path_led(arena, &c[..4096], &c[4096..8192], mem, who, h, out)
}

pub fn path(arena: &[u8], t: Table, who: u8, h: Handle, out: &mut [u8]) -> Result<usize, Reason>
    ensures { Lays taken_of (call_path arena.now t who h (length out.old)) out.old out.new result }
{
    let mut mem = [0u8; MEMORY];
    put_table(&mut mem, t);
    path_on(arena, &mut mem, who, h, out)
}
