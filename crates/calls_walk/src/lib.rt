// The call walk (order 7): from a folder along a path, from text to text through symlinks. It changes no byte of the arena, and reads it by the
// chains of `sound`.
#![tactic(auto)]

ghost use Rattle.std.specs.Prelude.{◌≡◌, false, ◌+◌, ◌*◌, ◌<◌, ◌≤◌, length, set};
ghost use Rattle.std.specs.Result.{result_unwrap_or};
ghost use Rattle.base.specs.Told.{code};
ghost use Rattle.base.specs.Out.{Went};
ghost use Rattle.base.specs.Parts.{paste};
ghost use Rattle.sefs.specs.Ask.{start};
ghost use Rattle.table.specs.Table.{row_at};
ghost use Rattle.chains.specs.Led.{Led};
ghost use Rattle.mem.specs.Mem.{table_in, Whole};
ghost use Rattle.mem.specs.State.{fs_at};
ghost use Rattle.calls.specs.Answers.{Laid, added_as, no_handle};
ghost use Rattle.calls.specs.Asked.{Admitted};
ghost use Rattle.calls_find.specs.Finds.{Gives};
ghost use Rattle.walk.specs.Walk.{spot, target_of, walk_in, call_walk};
ghost use Rattle.calls_walk.specs.States.{outcome, Stands, Turned, stop, arrive, go_back, Followed, Meets, Walks};

use base::Reason;
use calls::led::admit;
use calls::{HeldReply, by_handle, settle_held};
use calls_find::give_node;
use calls_read::read_bytes;
use mem::{MEMORY, id_at, put_table, rec_at};
use nodes_read::meta::load_meta;
use structs::DiskINode;
use table::{Handle, Table};
use walk_parts::texts::{rest, skip};
use walk_parts::{Going, Passed, along, enter, entry, land};

// ---- a link's target

// As many bytes.
fn read_target(
    arena: &[u8],
    first: &[u16],
    next: &[u16],
    rec: DiskINode,
    out: &mut [u8],
) -> Result<usize, Reason>
    requires { Led arena.now first.now next.now }
    ensures { Laid (target_of arena.now rec (length out.old)) out.old out.new (result_unwrap_or result 0) (code result) × (result_unwrap_or result 0 ≤ length out.old) }
{
    if rec.size > (out.len() as u64) {
        return Err(Reason::OutFull);
    }
    let n = rec.size as usize;
    read_bytes(arena, first, next, rec, 0, n, out)?;
    Ok(n)
}

// ---- the walk

fn stopped(g: Going, reason: Reason) -> Going
    ensures { result ≡ stop g reason }
{
    let rec = g.rec;
    Going {
        over: true,
        ended: Err(reason),
        id: g.id,
        rec,
        left: g.left,
        used: g.used,
        depth: g.depth,
        from: g.from,
        to: g.to,
    }
}

// The rest is remembered by its places.
fn remember(marks: &mut [usize], d: usize, from: usize, to: usize)
    requires { (length marks.old ≡ 16) × (d < 8) }
    ensures { marks.new ≡ set (set marks.old (2 * d) from) (2 * d + 1) to }
{
    let k = 2 * d;
    marks[k] = from;
    marks[k + 1] = to;
}

// A text has run out at the node of p: the rest that was remembered last goes on, or the walk is over.
fn resume(marks: &[usize], g: Going, p: Passed) -> Going
    requires { (length marks.now ≡ 16) × (g.depth ≤ 8) }
    ensures { (g.depth ≡ 0 → result ≡ arrive g p) × ((g.depth ≡ 0 → ⊥) → result ≡ go_back marks.now g p) }
{
    let rec = p.rec;
    if g.depth == 0 {
        return Going {
            over: true,
            ended: Ok(()),
            id: p.id,
            rec,
            left: g.left,
            used: g.used,
            depth: g.depth,
            from: g.from,
            to: g.to,
        };
    }
    let d = g.depth - 1;
    let k = 2 * d;
    Going {
        over: false,
        ended: Ok(()),
        id: p.id,
        rec,
        left: g.left,
        used: g.used,
        depth: d,
        from: marks[k],
        to: marks[k + 1],
    }
}

// The link that p met.
fn follow_link(
    arena: &[u8],
    first: &[u16],
    next: &[u16],
    mem: &[u8],
    links: &mut [u8],
    g: Going,
    p: Passed,
) -> Going
    requires admitted { Admitted arena.now first.now next.now mem.now }
    requires used_in_bounds { (g.used ≤ length links.old) × ((0 < g.left) × (g.depth < 8)) }
    ensures { Followed (fs_at arena.now mem.now) links.old links.new g p result }
{
    let used = g.used;
    let size = match read_target(arena, first, next, p.node, &mut links[used..]) {
        Ok(size) => size,
        Err(reason) => return stopped(g, reason),
    };
    let end = used + size;
    land(arena, first, next, mem, &links[used..end], g, p)
}

fn follow(
    arena: &[u8],
    first: &[u16],
    next: &[u16],
    mem: &[u8],
    path: &[u8],
    links: &mut [u8],
    marks: &mut [usize],
    g: Going,
    p: Passed,
) -> Going
    requires admitted { Admitted arena.now first.now next.now mem.now }
    requires stands { Stands path.now links.old marks.old g × Meets (fs_at arena.now mem.now) path.now links.old g p }
    ensures { Turned (fs_at arena.now mem.now) path.now links.old links.new marks.old marks.new g result }
{
    if g.left == 0 {
        return stopped(g, Reason::SymLoop);
    }
    remember(marks, g.depth, g.from + p.place, g.to);
    follow_link(arena, first, next, mem, links, g, p)
}

// What is left of the text at hand is walked, to its end or to a link.
fn turn(
    arena: &[u8],
    first: &[u16],
    next: &[u16],
    mem: &[u8],
    path: &[u8],
    links: &mut [u8],
    marks: &mut [usize],
    g: Going,
) -> Going
    requires admitted { Admitted arena.now first.now next.now mem.now }
    requires stands { Stands path.now links.old marks.old g × (g.over ≡ false) }
    ensures { Turned (fs_at arena.now mem.now) path.now links.old links.new marks.old marks.new g result }
{
    let used = g.used;
    let text = rest(path, &links[..used], g.depth, g.from, g.to);
    let p = match along(arena, first, next, mem, g.id, g.rec, text) {
        Ok(p) => p,
        Err(reason) => return stopped(g, reason),
    };
    if p.link {
        return follow(arena, first, next, mem, path, links, marks, g, p);
    }
    resume(&marks[..], g, p)
}

// Turn by turn.
fn run(
    arena: &[u8],
    first: &[u16],
    next: &[u16],
    mem: &[u8],
    path: &[u8],
    links: &mut [u8],
    marks: &mut [usize],
    g: Going,
) -> Going
    requires admitted { Admitted arena.now first.now next.now mem.now }
    requires stands { (g.over ≡ false → Stands path.now links.old marks.old g) × (g.used ≡ 0) }
    ensures { Walks (outcome (fs_at arena.now mem.now) path.now links.old marks.old g) links.old links.new result }
{
    let mut at = g;
    // A while: a turn says whether the walk is over; nothing counts the turns.
    while !at.over {
        at = turn(arena, first, next, mem, path, links, marks, at);
    }
    at
}

// From the folder with that id and record.
fn walk_from(
    arena: &[u8],
    first: &[u16],
    next: &[u16],
    mem: &[u8],
    path: &[u8],
    links: &mut [u8],
    id: u32,
    rec: DiskINode,
) -> Going
    requires { Admitted arena.now first.now next.now mem.now }
    ensures { Walks (walk_in (fs_at arena.now mem.now) (spot id rec) path.now (length links.old)) links.old links.new result }
{
    let e = enter(arena, first, next, mem, id, rec, path);
    let g = entry(e, 8, 0, 0, skip(path), path.len());
    let mut marks = [0usize; 16];
    run(arena, first, next, mem, path, links, &mut marks, g)
}

// From the folder of row i.
fn walk_row(
    arena: &[u8],
    first: &[u16],
    next: &[u16],
    mem: &mut [u8],
    i: usize,
    path: &[u8],
    links: &mut [u8],
) -> Going
    requires admitted { Admitted arena.now first.now next.now mem.old }
    requires i_bound { i < 34 }
    ensures walks { Walks (walk_in (start arena.now (table_in mem.old)) (spot (row_at (table_in mem.old) i).id (row_at (table_in mem.old) i).rec) path.now (length links.old)) links.old links.new result }
    ensures mem_unchanged { (table_in mem.new ≡ table_in mem.old) × Whole mem.new }
{
    load_meta(arena, first, next, mem);
    let id = id_at(&mem[..], i);
    let rec = rec_at(&mem[..], i);
    walk_from(arena, first, next, &mem[..], path, links, id, rec)
}

// What follows the tests of arena and table, by the chains that they left.
pub fn walk_led(
    arena: &[u8],
    first: &[u16],
    next: &[u16],
    mem: &mut [u8],
    who: u8,
    h: Handle,
    path: &[u8],
    links: &mut [u8],
) -> Result<Handle, Reason>
    requires { Admitted arena.now first.now next.now mem.old }
    ensures went { Went (call_walk arena.now (table_in mem.old) who h path.now (length links.old)).end (added_as (result_unwrap_or result no_handle) (table_in mem.new)) Unit (code result) }
    ensures links_after { links.new ≡ paste links.old 0 (call_walk arena.now (table_in mem.old) who h path.now (length links.old)).links }
{
    let row = by_handle(&mem[..], who, h)?;
    let g = walk_row(arena, first, next, mem, row, path, links);
    g.ended?;
    give_node(arena, first, next, mem, who, g.id)
}

// The call on the table in memory.
pub fn walk_on(
    arena: &[u8],
    mem: &mut [u8],
    who: u8,
    h: Handle,
    path: &[u8],
    links: &mut [u8],
) -> Result<Handle, Reason>
    requires { Whole mem.old }
    ensures went { Went (call_walk arena.now (table_in mem.old) who h path.now (length links.old)).end (added_as (result_unwrap_or result no_handle) (table_in mem.new)) Unit (code result) }
    ensures links_after { links.new ≡ paste links.old 0 (call_walk arena.now (table_in mem.old) who h path.now (length links.old)).links }
{
    let mut chains = [0u16; 8192];
    admit(arena, &mut chains, &mem[..])?;
    let c = &chains[..];
    walk_led(arena, &c[..4096], &c[4096..8192], mem, who, h, path, links)
}

pub fn walk(arena: &[u8], t: Table, who: u8, h: Handle, path: &[u8], links: &mut [u8]) -> HeldReply
    ensures gives { Gives t (call_walk arena.now t who h path.now (length links.old)).end result }
    ensures links_after { links.new ≡ paste links.old 0 (call_walk arena.now t who h path.now (length links.old)).links }
{
    let mut mem = [0u8; MEMORY];
    put_table(&mut mem, t);
    let r = walk_on(arena, &mut mem, who, h, path, links);
    settle_held(t, &mem, r)
}
