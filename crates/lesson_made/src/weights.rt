// The scene in which two weights have an a each: the support call's last answer.
use lesson_world::lines::{create_line, node, outline, save, title};
use lesson_world::world::{ANN, find, fresh, move_, walk};
use std::io;
use structs::{DIR, FILE};
use table::Handle;

// A weight, and in it the folder for the drawings of a; their files' names are made of n and m.
fn weight(
    rt: &impl Print,
    world: &mut [u8; 20786],
    root: Handle,
    name: &[u8],
    n: u8,
    m: u8,
) -> io::Result<Handle> {
    let h = create_line(rt, world, ANN, root, name, DIR, n)?;
    create_line(rt, world, ANN, h, b"a", DIR, m)
}

// Both have an a. Ann draws in one of them.
fn drawn(rt: &impl Print, world: &mut [u8; 20786], light: Handle) -> io::Result<()> {
    let curve = create_line(rt, world, ANN, light, b"curve", FILE, 4)?;
    println!(rt;
        "  Ann saves it: {}.",
        save(world, ANN, curve, b"M0 0 C1 9 4 9 5 0")
    )
}

// She has the other one before her.
fn asked(rt: &impl Print, world: &mut [u8; 20786], light: Handle, bold: Handle) -> io::Result<()> {
    let a = find(world, ANN, bold, b"curve");
    let looked_at = title(world, ANN, bold);
    let other = title(world, ANN, light);
    println!(rt;
        "  Two tabs, and both say a. Ann calls a last time: her curve is not in a.\n  \
        find curve in the tab that she looks at: {}.",
        a.outcome
    )?;
    print!(rt; "  Support asks for the title bars: this one says ")?;
    looked_at.show(rt)?;
    print!(rt; ", the other one ")?;
    other.show(rt)?;
    println!(rt; ".")
}

// By what the other one says she gets there from any folder.
fn answered(rt: &impl Print, world: &mut [u8; 20786], root: Handle) -> io::Result<()> {
    let a = walk(world, ANN, root, b"/light/a", &mut [0u8; 1]);
    let it = node(world, ANN, a.handle);
    let curve = find(world, ANN, a.handle, b"curve");
    let drawing = outline(world, ANN, curve.handle);
    print!(rt;
        "  walk to /light/a: {}; it is {it}. find curve there: {}; it reads ",
        a.outcome, curve.outcome
    )?;
    drawing.show(rt)?;
    println!(rt; ".")
}

// No path is stored: the title bar has what is found when it is asked for.
fn renamed(
    rt: &impl Print,
    world: &mut [u8; 20786],
    root: Handle,
    light: Handle,
) -> io::Result<()> {
    let moved = move_(world, ANN, root, b"light", root, b"thin");
    let open = title(world, ANN, light);
    print!(rt; "  move light to thin: {moved}; the title bar of the open tab says ")?;
    open.show(rt)?;
    println!(rt; ".\n  Nobody had drawn over her curve. It was in the other a.")
}

fn two_weights(rt: &impl Print, world: &mut [u8; 20786]) -> io::Result<()> {
    let root = fresh(world);
    let light = weight(rt, world, root, b"light", 2, 3)?;
    drawn(rt, world, light)?;
    let bold = weight(rt, world, root, b"bold", 5, 6)?;
    asked(rt, world, light, bold)?;
    answered(rt, world, root)?;
    renamed(rt, world, root, light)
}

// It takes more than 16 blocks.
pub fn title_bars(rt: &impl Print) -> io::Result<()> {
    println!(rt; "\nTwo weights with an a each")?;
    let mut world = [0u8; 20786];
    two_weights(rt, &mut world)
}
