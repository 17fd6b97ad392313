// The scene in which a glyph is opened by path, through symlinks.
use lesson_world::lines::{create_line, node, outline, save, symlink_line, walk_line};
use lesson_world::world::{ANN, fresh};
use std::io;
use structs::{DIR, FILE};
use table::Handle;

fn by_path(rt: &impl Print, world: &mut [u8; 20786], root: Handle) -> io::Result<()> {
    let h = walk_line(rt, world, root, b"Sans/a")?;
    println!(rt; "; it is {}.", node(world, ANN, h))?;
    let saved = save(world, ANN, h, b"M0 0 C1 9 4 9 5 0");
    println!(rt; "  Ann saves her curve there: {saved}.")?;
    let h = walk_line(rt, world, root, b"Serif/a")?;
    print!(rt; "; it reads ")?;
    outline(world, ANN, h).show(rt)?;
    println!(rt; ".")?;
    walk_line(rt, world, root, b"Serif/a/b")?;
    println!(rt; ".")
}

fn master(rt: &impl Print, world: &mut [u8; 20786]) -> io::Result<()> {
    let root = fresh(world);
    create_line(rt, world, ANN, root, b"a", FILE, 2)?;
    let sans = create_line(rt, world, ANN, root, b"Sans", DIR, 3)?;
    symlink_line(rt, world, sans, 4, b"../a")?;
    let serif = create_line(rt, world, ANN, root, b"Serif", DIR, 5)?;
    symlink_line(rt, world, serif, 6, b"/a")?;
    by_path(rt, world, root)
}

// It takes more than 16 blocks.
pub fn masters(rt: &impl Print) -> io::Result<()> {
    println!(rt; "\nOne master glyph in two families, by path")?;
    let mut world = [0u8; 20786];
    master(rt, &mut world)
}
