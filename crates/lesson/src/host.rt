// The scene in which the host goes down, and what it has left is mended.
use lesson_lib::lines::numbers_line;
use lesson_world::lines::{create_line, judged, node, outline, save};
use lesson_world::world::{ANN, begin, find, fresh, go_down, remove_file};
use std::io;
use structs::FILE;
use table::Handle;

// Ann has two glyphs open: one has no name any more, and the other's size waits in the table.
fn at_work(rt: &impl Print, world: &mut [u8; 12594], root: Handle) -> io::Result<()> {
    let a = create_line(rt, world, ANN, root, b"a", FILE, 2)?;
    let b = create_line(rt, world, ANN, root, b"b", FILE, 3)?;
    let saved = save(world, ANN, b, b"M0 0 C1 9 4 9 5 0");
    let removed = remove_file(world, ANN, root, b"a");
    let it = node(world, ANN, a);
    println!(rt;
        "  Ann saves her curve in b: {saved}.\n  \
        She removes a, which she has open: {removed}; it is {it}."
    )
}

// The table is gone, and with it Ann's hold on a.
fn down(rt: &impl Print, world: &mut [u8; 12594]) -> io::Result<()> {
    let (check, mend) = judged(world);
    println!(rt; "  check: {check}; mend: {mend}.")?;
    go_down(world);
    println!(rt;
        "  The host goes down, and the table is gone: nobody holds a, b's size is not stored."
    )?;
    numbers_line(rt, world)?;
    let (check, mend) = judged(world);
    println!(rt; "  check: {check}; mend: {mend}.")?;
    numbers_line(rt, world)
}

// The world as it was is kept beside it.
fn again(rt: &impl Print, world: &mut [u8; 12594], kept: &mut [u8; 12594]) -> io::Result<()> {
    *kept = *world;
    let (check, mend) = judged(world);
    print!(rt; "  check: {check}; mend again: {mend}")?;
    if kept == world {
        println!(rt; "; image and table are byte for byte what they were.")
    } else {
        println!(rt; "; image or table changed.")
    }
}

// b is what it was, and the number of a is free.
fn opened(rt: &impl Print, world: &mut [u8; 12594]) -> io::Result<()> {
    let root = begin(world);
    let b = find(world, ANN, root, b"b");
    let it = node(world, ANN, b.handle);
    let drawing = outline(world, ANN, b.handle);
    print!(rt; "  find b: {}; it is {it}, and reads ", b.outcome)?;
    drawing.show(rt)?;
    println!(rt; ".")?;
    create_line(rt, world, ANN, root, b"c", FILE, 4)?;
    Ok(())
}

pub fn host_down(
    rt: &impl Print,
    world: &mut [u8; 12594],
    kept: &mut [u8; 12594],
) -> io::Result<()> {
    println!(rt; "\nThe host goes down")?;
    let root = fresh(world);
    at_work(rt, world, root)?;
    down(rt, world)?;
    again(rt, world, kept)?;
    opened(rt, world)
}
