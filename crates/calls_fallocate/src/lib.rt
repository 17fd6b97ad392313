// The call fallocate (order 13): a range of a file is made zero, taken out, put in, or allocated. It is decided by counting before any store, as write
// is; then the bytes are moved and made zero on the arena itself, and length and size are set.
#![tactic(auto)]

ghost use Rattle.std.specs.Prelude.{◌≡◌, true, false, ◌&&◌, ◌+◌, ◌*◌, ◌-◌, ◌/◌, ◌≤◌, ◌<◌, min, length, eqb, leb};
ghost use Rattle.std.specs.Result.{result_unwrap_or};
ghost use Rattle.base.specs.Told.{code};
ghost use Rattle.base.specs.Out.{answer, done, bind};
ghost use Rattle.base.specs.Reasons.{stuck, no_device_space};
ghost use Rattle.base.specs.Search.{pick};
ghost use Rattle.table.specs.Table.{row_at};
ghost use Rattle.arena.specs.Fields.{file};
ghost use Rattle.arena.specs.Places.{free_count};
ghost use Rattle.files.specs.Read.{there};
ghost use Rattle.files_laws.specs.Laws.{lacking};
ghost use Rattle.sefs.specs.Nodes.{node_file};
ghost use Rattle.sefs.specs.Ask.{start};
ghost use Rattle.pieces.specs.Pieces.{write_zeros, copy_down, copy_up};
ghost use Rattle.ranges.specs.Ranges.{plain_file, grow_steps, punch_steps, zero_range_steps, collapse_steps, insert_steps, mode_steps, call_fallocate};
ghost use Rattle.ranges.specs.Ranges.{aligned as aligned_to, fits_mode as fits_mode_of};
ghost use Rattle.ranges.specs.Says.{looks as looks_at};
ghost use Rattle.ranges.specs.declared.FallocateMode.TheVariants.{CollapseRange, InsertRange};
ghost use Rattle.chains.specs.Led.{Led};
ghost use Rattle.plans.specs.Plan.{Decided, Planned, Sourced};
ghost use Rattle.mem.specs.Mem.{table_in, Whole};
ghost use Rattle.calls.specs.Asked.{Admitted};
ghost use Rattle.steps.specs.Ends.{ending, Ended, Returned};
ghost use Rattle.sizes.specs.Sizes.{Reached};
ghost use Rattle.calls_fallocate.specs.Fallocate.{ask_range, Provided, Resolved, HeadKnown, Supplied, no_ranging, Ranged};

use base::{Reason, least};
use calls::led::admit;
use calls::{Reply, by_handle, settle};
use chains::{head_at, length_of};
use mem::{MEMORY, put_table, rec_at};
use plans::{decide, plan_blocks, touched};
use range_stores::{move_down, open_hole, put_zeros};
use ranges::FallocateMode;
use sizes::{not_too_big, set_size};
use structs::DiskINode;
use table::{Handle, Table};

// "blocks of 128 as in 000"
const PIECE: u64 = 128;

// "22 .. where a write's or resize's end passes 4,294,967,295"
const LONGEST: u64 = 4294967295;

// How many places of blocks are lent: of those that are written, one for each block that an arena can have; of those that are read, one more, since as
// many bytes may begin at another place in their first block.
pub const PLAN: usize = 4096;

pub const SOURCE: usize = 4097;

const FILE: u32 = 1;

// ---- the questions

// 21 unless type 1; one above 4 sticks.
fn plain_file(rec: DiskINode) -> Result<(), Reason>
    ensures { code result ≡ answer (plain_file rec) }
{
    if rec.kind > 4 {
        return Err(Reason::Stuck);
    }
    if rec.kind != FILE {
        return Err(Reason::NotFile);
    }
    Ok(())
}

fn aligned(from: u64, len: u64) -> bool
    ensures { result ≡ (aligned_to from && aligned_to len) }
{
    (from % PIECE == 0) & (len % PIECE == 0)
}

// 6 by start, end and alignment, and 22 for a grown size, in a file of that size.
fn fits_collapse(size: u64, from: u64, len: u64) -> Result<(), Reason>
    requires { from + len ≤ 4294967295 }
    ensures { code result ≡ answer (fits_mode_of CollapseRange size from len) }
{
    if (from + len < size) & aligned(from, len) {
        return Ok(());
    }
    Err(Reason::InvalidParam)
}

fn fits_insert(size: u64, from: u64, len: u64) -> Result<(), Reason>
    ensures { code result ≡ answer (fits_mode_of InsertRange size from len) }
{
    if (from < size) & aligned(from, len) {
        return not_too_big(size, len);
    }
    Err(Reason::InvalidParam)
}

fn fits_mode(mode: FallocateMode, size: u64, from: u64, len: u64) -> Result<(), Reason>
    requires { from + len ≤ 4294967295 }
    ensures { code result ≡ answer (fits_mode_of mode size from len) }
{
    match mode {
        FallocateMode::Allocate(_) => Ok(()),
        FallocateMode::PunchHoleKeepSize => Ok(()),
        FallocateMode::ZeroRange => Ok(()),
        FallocateMode::ZeroRangeKeepSize => Ok(()),
        FallocateMode::CollapseRange => fits_collapse(size, from, len),
        FallocateMode::InsertRange => fits_insert(size, from, len),
        FallocateMode::Unknown => Err(Reason::InvalidParam),
    }
}

// Whether the mode looks for the file at all, to store bytes or to set its length. Where it does not, it does nothing.
fn looks(mode: FallocateMode, size: u64, from: u64, len: u64) -> bool
    requires { from + len ≤ 4294967295 }
    ensures { result ≡ looks_at mode size from len }
{
    match mode {
        FallocateMode::Allocate(keep) => !keep & (size < from + len),
        FallocateMode::PunchHoleKeepSize => (from < size) & (len > 0),
        FallocateMode::ZeroRangeKeepSize => (from < size) & (len > 0),
        FallocateMode::ZeroRange => (len > 0) | (size < from + len),
        FallocateMode::CollapseRange => true,
        FallocateMode::InsertRange => true,
        FallocateMode::Unknown => false,
    }
}

// Whether there is nothing to do; if not, the handle's row, and the head of its file.
#[derive(Clone, Copy)]
pub struct Ranging {
    pub idle: bool,
    pub row: usize,
    pub head: usize,
}

fn ask_record(rec: DiskINode, mode: FallocateMode, from: u64, len: u64) -> Result<(), Reason>
    ensures { code result ≡ answer (ask_range rec mode from len) }
{
    plain_file(rec)?;
    not_too_big(from, len)?;
    fits_mode(mode, rec.size, from, len)
}

// ---- the decision, of a file that is there

fn below(size: u64, at: u64) -> usize
    ensures { result ≡ min at size }
{
    if size < at {
        return size as usize;
    }
    at as usize
}

// Of the part of the range that lies below the size.
fn decide_punch(
    arena: &[u8],
    first: &[u16],
    next: &[u16],
    name: &[u8; 16],
    size: u64,
    from: u64,
    len: u64,
    plan: &mut [u16],
) -> Result<(), Reason>
    requires led { Led arena.now first.now next.now }
    requires plan_len { (length plan.old ≡ 4096) × ((from + len ≤ 4294967295) × (there arena.now (file 1 name.now) ≡ true)) }
    ensures { Decided arena.now (file 1 name.now) (min from size) (min (from + len) size - min from size) plan.new (code result) }
{
    let low = below(size, from);
    let high = below(size, from + len);
    decide(arena, first, next, 1, name, low, high - low, plan)
}

// A collapse of a file that is `long` bytes long, and shorter than its size, sticks, unless a piece before finds no block.
fn decide_short(
    arena: &[u8],
    first: &[u16],
    next: &[u16],
    name: &[u8; 16],
    long: usize,
    from: usize,
    len: usize,
    plan: &mut [u16],
) -> Result<(), Reason>
    requires led { Led arena.now first.now next.now }
    requires plan_len { (length plan.old ≡ 4096) × ((from + len ≤ 4294967295) × ((long ≤ 4294967295) × (there arena.now (file 1 name.now) ≡ true))) }
    ensures { code result ≡ pick (leb (lacking arena.now (file 1 name.now) from (128 * ((long - (from + len)) / 128))) (free_count arena.now)) stuck no_device_space }
{
    let end = least(from + len, long);
    let whole = 128 * ((long - end) / 128);
    decide(arena, first, next, 1, name, from, whole, plan)?;
    Err(Reason::Stuck)
}

// m bytes from `at` on are written, and n bytes from `src` on are read, no more than those.
fn decide_copy(
    arena: &[u8],
    first: &[u16],
    next: &[u16],
    name: &[u8; 16],
    at: usize,
    m: usize,
    src: usize,
    n: usize,
    plan: &mut [u16],
    source: &mut [u16],
) -> Result<(), Reason>
    requires led { Led arena.now first.now next.now }
    requires plan_len { ((length plan.old ≡ 4096) × (length source.old ≡ 4097)) × (there arena.now (file 1 name.now) ≡ true) }
    requires m_bound { (at + m ≤ 4294967295) × ((src + n ≤ 4294967295) × (n ≤ m)) }
    ensures { Decided arena.now (file 1 name.now) at m plan.new (code result) × (code result ≡ 0 → Sourced arena.now (file 1 name.now) src n source.new) }
{
    decide(arena, first, next, 1, name, at, m, plan)?;
    let k = touched(src, n);
    plan_blocks(arena, first, next, 1, name, src, k, source);
    Ok(())
}

fn decide_collapse(
    arena: &[u8],
    first: &[u16],
    next: &[u16],
    name: &[u8; 16],
    size: u64,
    from: usize,
    len: usize,
    plan: &mut [u16],
    source: &mut [u16],
) -> Result<(), Reason>
    requires led { Led arena.now first.now next.now }
    requires plan_len { ((length plan.old ≡ 4096) × (length source.old ≡ 4097)) × (there arena.now (file 1 name.now) ≡ true) }
    requires len_bound { (from + len ≤ 4294967295) × (from + len < size) }
    ensures { Resolved CollapseRange arena.now (file 1 name.now) size from len plan.new source.new (code result) }
{
    if len == 0 {
        if size > LONGEST {
            return Err(Reason::NoDeviceSpace);
        }
        return Ok(());
    }
    let long = length_of(arena, first, next, 1, name) - 1;
    if size > long as u64 {
        return decide_short(arena, first, next, name, long, from, len, plan);
    }
    let end = from + len;
    let n = size as usize - end;
    decide_copy(arena, first, next, name, from, n, end, n, plan, source)
}

fn decide_insert(
    arena: &[u8],
    first: &[u16],
    next: &[u16],
    name: &[u8; 16],
    size: u64,
    from: usize,
    len: usize,
    plan: &mut [u16],
    source: &mut [u16],
) -> Result<(), Reason>
    requires led { Led arena.now first.now next.now }
    requires plan_len { ((length plan.old ≡ 4096) × (length source.old ≡ 4097)) × (there arena.now (file 1 name.now) ≡ true) }
    requires len_bound { (size + len ≤ 4294967295) × (from < size) }
    ensures { Resolved InsertRange arena.now (file 1 name.now) size from len plan.new source.new (code result) }
{
    if len == 0 {
        return Ok(());
    }
    let long = length_of(arena, first, next, 1, name) - 1;
    if (long as u64) < size {
        return Err(Reason::Stuck);
    }
    let n = size as usize - from;
    decide_copy(
        arena,
        first,
        next,
        name,
        from,
        len + n,
        from,
        n,
        plan,
        source,
    )
}

fn decide_mode(
    arena: &[u8],
    first: &[u16],
    next: &[u16],
    rec: DiskINode,
    mode: FallocateMode,
    from: u64,
    len: u64,
    plan: &mut [u16],
    source: &mut [u16],
) -> Result<(), Reason>
    requires led { Led arena.now first.now next.now }
    requires plan_len { ((length plan.old ≡ 4096) × (length source.old ≡ 4097)) × (there arena.now (node_file rec) ≡ true) }
    requires len_bound { (from + len ≤ 4294967295) × ((fits_mode_of mode rec.size from len ≡ done tt) × (looks_at mode rec.size from len ≡ true)) }
    ensures { Resolved mode arena.now (node_file rec) rec.size from len plan.new source.new (code result) }
{
    let name = rec.file;
    let size = rec.size;
    let at = from as usize;
    let n = len as usize;
    match mode {
        FallocateMode::Allocate(_) => Ok(()),
        FallocateMode::PunchHoleKeepSize => {
            decide_punch(arena, first, next, &name, size, from, len, plan)
        }
        FallocateMode::ZeroRangeKeepSize => {
            decide_punch(arena, first, next, &name, size, from, len, plan)
        }
        FallocateMode::ZeroRange => decide(arena, first, next, 1, &name, at, n, plan),
        FallocateMode::CollapseRange => {
            decide_collapse(arena, first, next, &name, size, at, n, plan, source)
        }
        FallocateMode::InsertRange => {
            decide_insert(arena, first, next, &name, size, at, n, plan, source)
        }
        FallocateMode::Unknown => Err(Reason::InvalidParam),
    }
}

// What follows the tests of arena and table, by the chains that they left: nothing refuses the call after it.
pub fn fallocate_led(
    arena: &[u8],
    first: &[u16],
    next: &[u16],
    mem: &[u8],
    who: u8,
    h: Handle,
    mode: FallocateMode,
    from: u64,
    len: u64,
    plan: &mut [u16],
    source: &mut [u16],
) -> Result<Ranging, Reason>
    requires admitted { Admitted arena.now first.now next.now mem.now }
    requires plan_len { (length plan.old ≡ 4096) × (length source.old ≡ 4097) }
    ensures { Ranged arena.now (table_in mem.now) who h mode from len plan.new source.new (result_unwrap_or result no_ranging) (code result) }
{
    let row = by_handle(mem, who, h)?;
    let rec = rec_at(mem, row);
    ask_record(rec, mode, from, len)?;
    if !looks(mode, rec.size, from, len) {
        return Ok(Ranging {
            idle: true,
            row: 0,
            head: 0,
        });
    }
    let name = rec.file;
    let c = head_at(arena, first, next, 1, &name);
    if c == 0 {
        return Err(Reason::Stuck);
    }
    decide_mode(arena, first, next, rec, mode, from, len, plan, source)?;
    Ok(Ranging {
        idle: false,
        row,
        head: c - 1,
    })
}

// ---- the stores, of the node of row i, whose file's head is block k

// Where the end is not above the size, nothing is another.
fn grow_row(arena: &mut [u8], mem: &mut [u8], i: usize, k: usize, end: usize)
    requires { Whole mem.old × Reached arena.old (table_in mem.old) i k end }
    ensures { Ended (ending (grow_steps (start arena.old (table_in mem.old)) i end)) arena.old arena.new (table_in mem.new) 0 }
{
    let rec = rec_at(&mem[..], i);
    if end as u64 <= rec.size {
        return;
    }
    set_size(arena, mem, i, k, end);
}

fn punch_row(arena: &mut [u8], mem: &[u8], i: usize, k: usize, from: u64, len: u64, plan: &[u16])
    requires { Whole mem.now × (Reached arena.old (table_in mem.now) i k (from + len) × Planned arena.old (node_file (row_at (table_in mem.now) i).rec) (min from (row_at (table_in mem.now) i).rec.size) (min (from + len) (row_at (table_in mem.now) i).rec.size - min from (row_at (table_in mem.now) i).rec.size) plan.now) }
    ensures { Ended (ending (punch_steps (start arena.old (table_in mem.now)) i from len)) arena.old arena.new (table_in mem.now) 0 }
{
    let rec = rec_at(mem, i);
    let low = below(rec.size, from);
    let high = below(rec.size, from + len);
    let name = rec.file;
    put_zeros(arena, k, &name, low, high - low, plan);
}

fn zero_row(
    arena: &mut [u8],
    mem: &mut [u8],
    i: usize,
    k: usize,
    from: usize,
    len: usize,
    plan: &[u16],
)
    requires { Whole mem.old × (Reached arena.old (table_in mem.old) i k (from + len) × Planned arena.old (node_file (row_at (table_in mem.old) i).rec) from len plan.now) }
    ensures { Ended (ending (zero_range_steps (start arena.old (table_in mem.old)) i from len)) arena.old arena.new (table_in mem.new) 0 }
{
    let rec = rec_at(&mem[..], i);
    let name = rec.file;
    put_zeros(arena, k, &name, from, len, plan);
    grow_row(arena, mem, i, k, from + len);
}

// What lies after the range comes to its start. An empty range copies nothing.
fn take_out(
    arena: &mut [u8],
    k: usize,
    name: &[u8; 16],
    size: usize,
    from: usize,
    len: usize,
    plan: &[u16],
    source: &[u16],
)
    requires { HeadKnown arena.old (file 1 name.now) k × Provided CollapseRange arena.old (file 1 name.now) size from len plan.now source.now }
    ensures { pick (eqb len 0) (done arena.old) (copy_down arena.old (file 1 name.now) (from + len) from (size - (from + len))) ≡ done arena.new }
{
    if len == 0 {
        return;
    }
    let end = from + len;
    move_down(arena, k, name, end, from, size - end, plan, source);
}

fn collapse_row(
    arena: &mut [u8],
    mem: &mut [u8],
    i: usize,
    k: usize,
    from: usize,
    len: usize,
    plan: &[u16],
    source: &[u16],
)
    requires { Whole mem.old × Supplied arena.old (table_in mem.old) i k CollapseRange from len plan.now source.now }
    ensures { Ended (ending (collapse_steps (start arena.old (table_in mem.old)) i from len)) arena.old arena.new (table_in mem.new) 0 }
{
    let rec = rec_at(&mem[..], i);
    let name = rec.file;
    let size = rec.size as usize;
    take_out(arena, k, &name, size, from, len, plan, source);
    set_size(arena, mem, i, k, size - len);
}

// What lies from the range's start on moves up, and the hole reads zero.
fn put_in(
    arena: &mut [u8],
    k: usize,
    name: &[u8; 16],
    size: usize,
    from: usize,
    len: usize,
    plan: &mut [u16],
    source: &[u16],
)
    requires { HeadKnown arena.old (file 1 name.now) k × Provided InsertRange arena.old (file 1 name.now) size from len plan.old source.now }
    ensures { bind (pick (eqb len 0) (done arena.old) (copy_up arena.old (file 1 name.now) from (from + len) (size - from))) (λ d. write_zeros d (file 1 name.now) from len) ≡ done arena.new }
{
    if len == 0 {
        return;
    }
    open_hole(arena, k, name, from, len, size - from, plan, source);
}

fn insert_row(
    arena: &mut [u8],
    mem: &mut [u8],
    i: usize,
    k: usize,
    from: usize,
    len: usize,
    plan: &mut [u16],
    source: &[u16],
)
    requires { Whole mem.old × Supplied arena.old (table_in mem.old) i k InsertRange from len plan.old source.now }
    ensures { Ended (ending (insert_steps (start arena.old (table_in mem.old)) i from len)) arena.old arena.new (table_in mem.new) 0 }
{
    let rec = rec_at(&mem[..], i);
    let name = rec.file;
    let size = rec.size as usize;
    put_in(arena, k, &name, size, from, len, plan, source);
    set_size(arena, mem, i, k, size + len);
}

pub fn fallocate_row(
    arena: &mut [u8],
    mem: &mut [u8],
    i: usize,
    k: usize,
    mode: FallocateMode,
    from: u64,
    len: u64,
    plan: &mut [u16],
    source: &[u16],
)
    requires { Whole mem.old × Supplied arena.old (table_in mem.old) i k mode from len plan.old source.now }
    ensures { Ended (ending (mode_steps mode (start arena.old (table_in mem.old)) i from len)) arena.old arena.new (table_in mem.new) 0 }
{
    let at = from as usize;
    let n = len as usize;
    match mode {
        FallocateMode::Allocate(_) => {
            grow_row(arena, mem, i, k, at + n);
        }
        FallocateMode::PunchHoleKeepSize => {
            punch_row(arena, &mem[..], i, k, from, len, &plan[..]);
        }
        FallocateMode::ZeroRangeKeepSize => {
            punch_row(arena, &mem[..], i, k, from, len, &plan[..]);
        }
        FallocateMode::ZeroRange => {
            zero_row(arena, mem, i, k, at, n, &plan[..]);
        }
        FallocateMode::CollapseRange => {
            collapse_row(arena, mem, i, k, at, n, &plan[..], source);
        }
        FallocateMode::InsertRange => {
            insert_row(arena, mem, i, k, at, n, plan, source);
        }
        FallocateMode::Unknown => {}
    }
}

// ---- the call

// The frame of the chains is left before the stores.
fn fallocate_asked(
    arena: &[u8],
    mem: &[u8],
    who: u8,
    h: Handle,
    mode: FallocateMode,
    from: u64,
    len: u64,
    plan: &mut [u16],
    source: &mut [u16],
) -> Result<Ranging, Reason>
    requires whole { Whole mem.now }
    requires plan_len { (length plan.old ≡ 4096) × (length source.old ≡ 4097) }
    ensures { Ranged arena.now (table_in mem.now) who h mode from len plan.new source.new (result_unwrap_or result no_ranging) (code result) }
{
    let mut chains = [0u16; 8192];
    admit(arena, &mut chains, mem)?;
    let c = &chains[..];
    fallocate_led(
        arena,
        &c[..4096],
        &c[4096..8192],
        mem,
        who,
        h,
        mode,
        from,
        len,
        plan,
        source,
    )
}

fn fallocate_in(
    arena: &mut [u8],
    mem: &mut [u8],
    who: u8,
    h: Handle,
    mode: FallocateMode,
    from: u64,
    len: u64,
    plan: &mut [u16],
    source: &mut [u16],
) -> Result<(), Reason>
    requires { Whole mem.old × ((length plan.old ≡ 4096) × (length source.old ≡ 4097)) }
    ensures { Ended (call_fallocate arena.old (table_in mem.old) who h mode from len) arena.old arena.new (table_in mem.new) (code result) }
{
    let s = fallocate_asked(&arena[..], &mem[..], who, h, mode, from, len, plan, source)?;
    if s.idle {
        return Ok(());
    }
    fallocate_row(
        arena,
        mem,
        s.row,
        s.head,
        mode,
        from,
        len,
        plan,
        &source[..],
    );
    Ok(())
}

// The call on the table in memory.
pub fn fallocate_on(
    arena: &mut [u8],
    mem: &mut [u8],
    who: u8,
    h: Handle,
    mode: FallocateMode,
    from: u64,
    len: u64,
) -> Result<(), Reason>
    requires { Whole mem.old }
    ensures { Ended (call_fallocate arena.old (table_in mem.old) who h mode from len) arena.old arena.new (table_in mem.new) (code result) }
{
    let mut plan = [0u16; PLAN];
    let mut source = [0u16; SOURCE];
    fallocate_in(arena, mem, who, h, mode, from, len, &mut plan, &mut source)
}

pub fn fallocate(
    arena: &mut [u8],
    t: Table,
    who: u8,
    h: Handle,
    mode: FallocateMode,
    from: u64,
    len: u64,
) -> Reply
    ensures { Returned t (call_fallocate arena.old t who h mode from len) arena.old arena.new result }
{
    let mut mem = [0u8; MEMORY];
    put_table(&mut mem, t);
    let r = fallocate_on(arena, &mut mem, who, h, mode, from, len);
    settle(t, &mem, r)
}
