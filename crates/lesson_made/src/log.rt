// The scene in which a line goes into the middle of a log, and is taken out again.
use lesson_lib::say::Text;
use lesson_world::lines::{create_line, size};
use lesson_world::world::{ANN, Outcome, fallocate, fresh, read, write};
use ranges::FallocateMode;
use std::io;
use structs::FILE;
use table::Handle;

// How long a line of the log is: one piece, as insert and collapse count. And where its lines begin.
const LINE: u64 = 128;

const FIRST: u64 = 0;

const SECOND: u64 = 128;

const THIRD: u64 = 256;

const FOURTH: u64 = 384;

// How long the missing stroke is.
const STROKE: u64 = 4;

// ---- what the log reads

// A line up to the zeros that fill it.
#[derive(Clone, Copy)]
struct LogLine([u8; 128]);

impl LogLine {
    fn show(&self, rt: &impl Print) -> io::Result<()> {
        if self.0.iter().all(|b| *b == 0) {
            print!(rt; "zeros")
        } else {
            Text(self.0).show(rt)
        }
    }
}

fn line(world: &[u8; 12594], log: Handle, place: u64) -> LogLine {
    let mut out = [0u8; 128];
    read(world, ANN, log, place, &mut out);
    LogLine(out)
}

fn three_lines(rt: &impl Print, world: &[u8; 12594], log: Handle) -> io::Result<()> {
    let bytes = size(world, ANN, log);
    print!(rt; "  It has {bytes} bytes: ")?;
    line(world, log, FIRST).show(rt)?;
    print!(rt; " | ")?;
    line(world, log, SECOND).show(rt)?;
    print!(rt; " | ")?;
    line(world, log, THIRD).show(rt)
}

fn four_lines(rt: &impl Print, world: &[u8; 12594], log: Handle) -> io::Result<()> {
    three_lines(rt, world, log)?;
    print!(rt; " | ")?;
    line(world, log, FOURTH).show(rt)?;
    println!(rt; ".")
}

// Whether the log reads the same in both worlds, byte for byte. There is more room than it has bytes.
fn same_log(world: &[u8; 12594], kept: &[u8; 12594], log: Handle) -> bool {
    let mut out = [0u8; 512];
    let mut before = [0u8; 512];
    read(world, ANN, log, FIRST, &mut out);
    read(kept, ANN, log, FIRST, &mut before);
    out == before
}

// ---- what is done to it

fn insert(world: &mut [u8; 12594], log: Handle, from: u64, len: u64) -> Outcome {
    fallocate(world, ANN, log, FallocateMode::InsertRange, from, len)
}

fn stroke(world: &mut [u8; 12594], log: Handle, place: u64, stroke: &str) -> Outcome {
    write(world, ANN, log, place, stroke.as_bytes())
}

// Zeros fill each line up to the next, and nothing the last.
fn logged(rt: &impl Print, world: &mut [u8; 12594], log: Handle) -> io::Result<()> {
    let last = "L5 2 L4 2 C3 7 2 7 1 2 L1 1 L2 1 L2 0 L0 0 Z";
    let a = stroke(world, log, FIRST, "M0 0");
    let b = stroke(world, log, SECOND, "C1 9 4 9 5 0");
    let c = stroke(world, log, THIRD, last);
    println!(rt;
        "  Ann logs three strokes, each where a line of 128 bytes begins: {a}, {b}, {c}."
    )?;
    three_lines(rt, world, log)?;
    println!(rt; ".")
}

// Room for the stroke and no more; and a whole line, but not where one begins. The world as it was is kept beside it.
fn not_whole(
    rt: &impl Print,
    world: &mut [u8; 12594],
    kept: &mut [u8; 12594],
    log: Handle,
) -> io::Result<()> {
    *kept = *world;
    let place = SECOND + STROKE;
    let small = insert(world, log, SECOND, STROKE);
    let between = insert(world, log, place, LINE);
    print!(rt;
        "  A stroke is missing after the first, and room goes in by whole lines.\n  \
        insert {STROKE} bytes at {SECOND}: {small}.\n  \
        insert {LINE} bytes at {place}: {between}"
    )?;
    if kept == world {
        println!(rt; "; image and table are byte for byte what they were.")
    } else {
        println!(rt; "; image or table changed.")
    }
}

fn inserted(rt: &impl Print, world: &mut [u8; 12594], log: Handle) -> io::Result<()> {
    let a = insert(world, log, SECOND, LINE);
    println!(rt; "  insert {LINE} bytes at {SECOND}: {a}.")?;
    four_lines(rt, world, log)?;
    let b = stroke(world, log, SECOND, "L0 2");
    println!(rt;
        "  In 000 a line is lost here: the last 128 of the 172 bytes move, and for the first 44 it looks 84 bytes too low.\n  \
        So C1 9 4 9 5 0 stays where the zeros go, and the last line is there twice.\n  \
        Ann writes the stroke over the zeros: {b}."
    )?;
    four_lines(rt, world, log)
}

// Taken out again. The log as it was before is in the other world.
fn collapsed(
    rt: &impl Print,
    world: &mut [u8; 12594],
    kept: &[u8; 12594],
    log: Handle,
) -> io::Result<()> {
    let a = fallocate(world, ANN, log, FallocateMode::CollapseRange, SECOND, LINE);
    println!(rt; "  She takes it out again.\n  collapse {LINE} bytes at {SECOND}: {a}.")?;
    three_lines(rt, world, log)?;
    if same_log(world, kept, log) {
        println!(rt; "; every byte is what it was.")
    } else {
        println!(rt; "; that is not what it was.")
    }
}

pub fn log_edited(
    rt: &impl Print,
    world: &mut [u8; 12594],
    kept: &mut [u8; 12594],
) -> io::Result<()> {
    println!(rt; "\nA line in the middle of the log")?;
    let root = fresh(world);
    let log = create_line(rt, world, ANN, root, b"log", FILE, 2)?;
    logged(rt, world, log)?;
    not_whole(rt, world, kept, log)?;
    inserted(rt, world, log)?;
    collapsed(rt, world, kept, log)
}
