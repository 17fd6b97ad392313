// One text of a walk (order 7), the caller's path or a link's target: what a part of it leads to, along it to its end or to a link, and how it is
// entered. It changes no byte of the arena, and reads it by the chains of `sound`.
#![tactic(auto)]

pub mod texts;

ghost use Rattle.std.specs.Prelude.{◌≡◌, ◌+◌, ◌-◌, ◌<◌, ◌≤◌, length, leb};
ghost use Rattle.std.specs.Result.{result_unwrap_or};
ghost use Rattle.base.specs.Told.{code};
ghost use Rattle.base.specs.Count.{bit};
ghost use Rattle.base.specs.Out.{Out, Went, guard, done};
ghost use Rattle.base.specs.Reasons.{stuck};
ghost use Rattle.files.specs.Read.{there};
ghost use Rattle.sefs.specs.Nodes.{node_file};
ghost use Rattle.table.specs.Zero.{zero_record};
ghost use Rattle.chains.specs.Led.{Led};
ghost use Rattle.mem.specs.State.{fs_at};
ghost use Rattle.calls.specs.Asked.{Admitted};
ghost use Rattle.walk.specs.Walk.{from_root, look_at, Spot, spot, at_root, part_in, cut, along as along_parts, enter as enter_text};
ghost use Rattle.walk_parts.specs.States.{no_stand, stand_on, no_passed, way_of, Entered};

use base::Reason;
use chains::exists;
use finds::{find_folder, find_id};
use mem::find_row;
use nodes_read::record_on;
use structs::DiskINode;
use table::zero_record;
use texts::{end_at, from_root, good_text, next_at, skip};

const TYPE_SYMLINK: u32 = 3;

// ---- a node on the way

// A record that was read: an opening looks at its type, and for its file.
fn stored(arena: &[u8], first: &[u16], next: &[u16], rec: DiskINode) -> Result<DiskINode, Reason>
    requires { Led arena.now first.now next.now }
    ensures { Went (guard (leb rec.kind 4) stuck (guard (there arena.now (node_file rec)) stuck (done rec))) (result_unwrap_or result zero_record) Unit (code result) }
{
    if rec.kind > 4 {
        return Err(Reason::Stuck);
    }
    let file = rec.file;
    if !exists(arena, first, next, 1, &file) {
        return Err(Reason::Stuck);
    }
    Ok(rec)
}

// The record of a node, as an opening would have it; nothing is opened.
fn look(arena: &[u8], first: &[u16], next: &[u16], mem: &[u8], id: u32) -> Result<DiskINode, Reason>
    requires { Admitted arena.now first.now next.now mem.now }
    ensures { Went (look_at (fs_at arena.now mem.now) id) (result_unwrap_or result zero_record) Unit (code result) }
{
    let rec = record_on(arena, first, next, mem, id)?;
    let f = find_row(mem, id);
    match f {
        Some(_) => Ok(rec),
        None => stored(arena, first, next, rec),
    }
}

// Where the walk stands.
#[derive(Clone, Copy)]
pub struct Stand {
    pub id: u32,
    pub rec: DiskINode,
}

fn at_root(arena: &[u8], first: &[u16], next: &[u16], mem: &[u8]) -> Result<Stand, Reason>
    requires { Admitted arena.now first.now next.now mem.now }
    ensures { Went (at_root (fs_at arena.now mem.now)) (spot (result_unwrap_or result no_stand).id (result_unwrap_or result no_stand).rec) Unit (code result) }
{
    let rec = look(arena, first, next, mem, 2)?;
    Ok(Stand { id: 2, rec })
}

// The node of a slot; its type is looked at.
fn stand_on(arena: &[u8], first: &[u16], next: &[u16], mem: &[u8], id: u32) -> Result<Stand, Reason>
    requires { Admitted arena.now first.now next.now mem.now }
    ensures { Went (stand_on (fs_at arena.now mem.now) id) (spot (result_unwrap_or result no_stand).id (result_unwrap_or result no_stand).rec) Unit (code result) }
{
    let rec = look(arena, first, next, mem, id)?;
    if rec.kind > 4 {
        return Err(Reason::Stuck);
    }
    Ok(Stand { id, rec })
}

fn part_in(
    arena: &[u8],
    first: &[u16],
    next: &[u16],
    mem: &[u8],
    rec: DiskINode,
    name: &[u8],
) -> Result<Stand, Reason>
    requires { Admitted arena.now first.now next.now mem.now }
    ensures { Went (part_in (fs_at arena.now mem.now) rec name.now) (spot (result_unwrap_or result no_stand).id (result_unwrap_or result no_stand).rec) Unit (code result) }
{
    find_folder(rec, name)?;
    let id = find_id(arena, first, next, rec, name)?;
    stand_on(arena, first, next, mem, id)
}

// ---- along a text, to its end or to the first link

// The node at the end; or the folder in which a link was met, the link's record, and the place after its part.
#[derive(Clone, Copy)]
pub struct Passed {
    pub link: bool,
    pub id: u32,
    pub rec: DiskINode,
    pub node: DiskINode,
    pub place: usize,
}

pub fn along(
    arena: &[u8],
    first: &[u16],
    next: &[u16],
    mem: &[u8],
    id: u32,
    rec: DiskINode,
    text: &[u8],
) -> Result<Passed, Reason>
    requires { Admitted arena.now first.now next.now mem.now }
    ensures { (along_parts (fs_at arena.now mem.now) (spot id rec) (cut text.now) ≡ way_of text.now result) × ((result_unwrap_or result no_passed).place ≤ length text.now) }
{
    let mut at = id;
    let mut dir = rec;
    let mut i: usize = 0;
    // A while: the next place comes from the slash that is found, not from a counter.
    while i < text.len() {
        let e = end_at(text, i);
        let n = part_in(arena, first, next, mem, dir, &text[i..e])?;
        i = next_at(text, e);
        let rec = n.rec;
        if rec.kind == TYPE_SYMLINK {
            return Ok(Passed {
                link: true,
                id: at,
                rec: dir,
                node: rec,
                place: i,
            });
        }
        at = n.id;
        dir = rec;
    }
    Ok(Passed {
        link: false,
        id: at,
        rec: dir,
        node: dir,
        place: i,
    })
}

// ---- a text is entered

// A text begins: from root, or where the walk stands.
pub fn enter(
    arena: &[u8],
    first: &[u16],
    next: &[u16],
    mem: &[u8],
    id: u32,
    rec: DiskINode,
    text: &[u8],
) -> Result<Stand, Reason>
    requires { Admitted arena.now first.now next.now mem.now }
    ensures { Went (enter_text (fs_at arena.now mem.now) (spot id rec) text.now) (spot (result_unwrap_or result no_stand).id (result_unwrap_or result no_stand).rec) Unit (code result) }
{
    good_text(text)?;
    if from_root(text) {
        return at_root(arena, first, next, mem);
    }
    Ok(Stand { id, rec })
}

// Between two texts. What is left of the one at hand is `from..to` of the path, or of the link buffer where a link was followed; `depth` rests
// are remembered, `left` links may still be met, and `used` bytes of the buffer have targets. It is over with a reason, or at the last node.
#[derive(Clone, Copy)]
pub struct Going {
    pub over: bool,
    pub ended: Result<(), Reason>,
    pub id: u32,
    pub rec: DiskINode,
    pub left: usize,
    pub used: usize,
    pub depth: usize,
    pub from: usize,
    pub to: usize,
}

// A text was entered at e, or not.
pub fn entry(
    e: Result<Stand, Reason>,
    left: usize,
    used: usize,
    depth: usize,
    from: usize,
    to: usize,
) -> Going
    ensures { (o : Out Spot) → Went o (spot (result_unwrap_or e no_stand).id (result_unwrap_or e no_stand).rec) Unit (code e) → Entered result o left used depth from to }
{
    match e {
        Ok(at) => Going {
            over: false,
            ended: Ok(()),
            id: at.id,
            rec: at.rec,
            left,
            used,
            depth,
            from,
            to,
        },
        Err(reason) => Going {
            over: true,
            ended: Err(reason),
            id: 0,
            rec: zero_record(),
            left,
            used,
            depth,
            from,
            to,
        },
    }
}

// The target of the link that p met is entered; it stands behind the others.
pub fn land(
    arena: &[u8],
    first: &[u16],
    next: &[u16],
    mem: &[u8],
    text: &[u8],
    g: Going,
    p: Passed,
) -> Going
    requires admitted { Admitted arena.now first.now next.now mem.now }
    requires text_bound { (g.used + length text.now ≤ 18446744073709551615) × ((0 < g.left) × (g.depth < 8)) }
    ensures { Entered result (enter_text (fs_at arena.now mem.now) (spot p.id p.rec) text.now) (g.left - 1) (g.used + length text.now) (g.depth + 1) (g.used + bit (from_root text.now)) (g.used + length text.now) }
{
    let e = enter(arena, first, next, mem, p.id, p.rec, text);
    let used = g.used;
    let end = used + text.len();
    entry(e, g.left - 1, end, g.depth + 1, used + skip(text), end)
}
