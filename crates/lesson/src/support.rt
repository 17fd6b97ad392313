// The scene in which two have one glyph open: the support call.
use lesson_world::lines::{create_line, node, outline, save};
use lesson_world::world::{ANN, BEN, close, find, fresh, remove_file, root};
use std::io;
use structs::FILE;
use table::Handle;

// Ben opens the root for himself, and the glyph that Ann has made. Her handle does not work for him. A handle is a hold and a stamp, and not a
// node's number.
fn shared(
    rt: &impl Print,
    world: &mut [u8; 12594],
    own: Handle,
    ann: Handle,
) -> io::Result<Handle> {
    let found = find(world, BEN, own, b"a");
    let ben = found.handle;
    let his = node(world, BEN, ben);
    let hers = node(world, BEN, ann);
    println!(rt;
        "  That was Ann. Ben finds a: {}; his a is {his}.",
        found.outcome
    )?;
    println!(rt;
        "  One node, two handles: Ann has hold {} and stamp {}; Ben has hold {} and stamp {}.",
        ann.hold, ann.stamp, ben.hold, ben.stamp
    )?;
    println!(rt; "  Ben asks with Ann's handle, which works for her alone: {hers}.")?;
    Ok(ben)
}

// Ann and Ben have a glyph open; Ben removes it and makes another.
fn removed(
    rt: &impl Print,
    world: &mut [u8; 12594],
    own: Handle,
    ann: Handle,
) -> io::Result<Handle> {
    let a = remove_file(world, BEN, own, b"a");
    println!(rt;
        "  Ben removes a: {a}; Ann's a is {}.",
        node(world, ANN, ann)
    )?;
    create_line(rt, world, BEN, own, b"b", FILE, 3)
}

// Ann saves in the a that she has open, Ben in his new b.
fn saved(rt: &impl Print, world: &mut [u8; 12594], ann: Handle, ben: Handle) -> io::Result<()> {
    let curve = save(world, ANN, ann, b"M0 0 C1 9 4 9 5 0");
    let corner = save(world, BEN, ben, b"M0 0 L5 0 L5 7");
    let hers = outline(world, ANN, ann);
    let his = outline(world, BEN, ben);
    println!(rt;
        "  A number stays taken while a handle is open, so b has another, and a file of its own.\n  \
        Ann saves her curve: {curve}.\n  \
        Ben saves his corner: {corner}."
    )?;
    print!(rt; "  Ann's a reads ")?;
    hers.show(rt)?;
    print!(rt; "; Ben's b reads ")?;
    his.show(rt)?;
    println!(rt; ".")
}

// Ben closes his handle and asks with it once more; then Ann closes hers.
fn closed(rt: &impl Print, world: &mut [u8; 12594], ann: Handle, ben: Handle) -> io::Result<()> {
    let his = close(world, BEN, ben);
    let still = node(world, ANN, ann);
    let gone = node(world, BEN, ben);
    let hers = close(world, ANN, ann);
    println!(rt;
        "  Ben closes his a: {his}; Ann's a is {still}.\n  \
        Ben asks with his closed handle: {gone}.\n  \
        Ann closes hers, the last: {hers}; now the number is free."
    )
}

pub fn support_call(rt: &impl Print, world: &mut [u8; 12594]) -> io::Result<()> {
    println!(rt; "\n\"My curve has my colleague's corner in it\"")?;
    let first = fresh(world);
    let ann = create_line(rt, world, ANN, first, b"a", FILE, 2)?;
    let own = root(world, BEN).handle;
    let ben = shared(rt, world, own, ann)?;
    let other = removed(rt, world, own, ann)?;
    saved(rt, world, ann, other)?;
    closed(rt, world, ann, ben)?;
    create_line(rt, world, BEN, own, b"c", FILE, 4)?;
    Ok(())
}
