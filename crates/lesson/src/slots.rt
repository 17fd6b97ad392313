// The scenes in which names are linked, moved and removed.
use lesson_lib::raw::root_length;
use lesson_world::lines::{NodeWords, create_line, node, slot};
use lesson_world::world::{
    ANN, close, create, find, fresh, link, move_, remove_file, remove_folder,
};
use std::io;
use structs::{DIR, FILE};
use table::Handle;

// Three files in the root, in slots 2 to 4.
fn three_files(world: &mut [u8; 12594]) -> Handle {
    let root = fresh(world);
    create(world, ANN, root, b"a", FILE, 2);
    create(world, ANN, root, b"b", FILE, 3);
    create(world, ANN, root, b"c", FILE, 4);
    root
}

fn first_removed(rt: &impl Print, world: &mut [u8; 12594], root: Handle) -> io::Result<()> {
    let removed = remove_file(world, ANN, root, b"a");
    let second = slot(world, root, 2);
    let third = slot(world, root, 3);
    let length = root_length(world);
    print!(rt; "  remove-file a: {removed}; slot 2 is ")?;
    second.show(rt)?;
    print!(rt; ", slot 3 is ")?;
    third.show(rt)?;
    print!(rt; "; the root's file has {length} bytes.\n  Who kept 2 as the slot of a now reads ")?;
    second.show(rt)?;
    println!(rt; ".")
}

pub fn slots(rt: &impl Print, world: &mut [u8; 12594]) -> io::Result<()> {
    let root = three_files(world);
    let a = slot(world, root, 2);
    let b = slot(world, root, 3);
    let c = slot(world, root, 4);
    print!(rt; "\nA slot number does not stay put\n  create a, b, c: slot 2 is ")?;
    a.show(rt)?;
    print!(rt; ", slot 3 is ")?;
    b.show(rt)?;
    print!(rt; ", slot 4 is ")?;
    c.show(rt)?;
    println!(rt; ".")?;
    first_removed(rt, world, root)
}

// Moves old to new, which is another name of its node. The world as it was is kept beside it.
fn move_same(
    rt: &impl Print,
    world: &mut [u8; 12594],
    kept: &mut [u8; 12594],
    root: Handle,
) -> io::Result<()> {
    *kept = *world;
    let moved = move_(world, ANN, root, b"old", root, b"new");
    print!(rt; "  move old to new: {moved}")?;
    if kept == world {
        println!(rt; "; image and table are byte for byte what they were.")
    } else {
        println!(rt; "; image or table changed.")
    }
}

// Both names are there, before and after.
pub fn same_node(
    rt: &impl Print,
    world: &mut [u8; 12594],
    kept: &mut [u8; 12594],
) -> io::Result<()> {
    println!(rt; "\nA move onto another name of the same node")?;
    let root = fresh(world);
    let h = create_line(rt, world, ANN, root, b"old", FILE, 2)?;
    let linked = link(world, ANN, root, b"new", h);
    println!(rt;
        "  link it as new: {linked}; it is {}.",
        node(world, ANN, h)
    )?;
    move_same(rt, world, kept, root)?;
    let second = slot(world, root, 2);
    let third = slot(world, root, 3);
    print!(rt; "  Both names are there: slot 2 is ")?;
    second.show(rt)?;
    print!(rt; ", slot 3 is ")?;
    third.show(rt)?;
    println!(rt; ".")
}

// Where `..` of a folder leads.
fn parent(world: &mut [u8; 12594], h: Handle) -> NodeWords {
    let up = find(world, ANN, h, b"..").handle;
    let it = node(world, ANN, up);
    close(world, ANN, up);
    it
}

// A weight's folder goes to another family; then that family can't go below it.
fn reorganised(
    rt: &impl Print,
    world: &mut [u8; 12594],
    root: Handle,
    sans: Handle,
    serif: Handle,
    bold: Handle,
) -> io::Result<()> {
    let before = parent(world, bold);
    let moved = move_(world, ANN, sans, b"Bold", serif, b"Bold");
    let after = parent(world, bold);
    let refused = move_(world, ANN, root, b"Serif", bold, b"Serif");
    println!(rt;
        "  Bold's .. leads to {before}.\n  \
        move Bold to Serif: {moved}; its .. leads to {after}.\n  \
        move Serif into Bold, which is in it: {refused}."
    )
}

pub fn families(rt: &impl Print, world: &mut [u8; 12594]) -> io::Result<()> {
    println!(rt; "\nA weight's folder goes to another family")?;
    let root = fresh(world);
    let sans = create_line(rt, world, ANN, root, b"Sans", DIR, 2)?;
    let serif = create_line(rt, world, ANN, root, b"Serif", DIR, 3)?;
    let bold = create_line(rt, world, ANN, sans, b"Bold", DIR, 4)?;
    reorganised(rt, world, root, sans, serif, bold)
}

// The delete key has remove-file, the folder menu remove-folder.
fn keys_pressed(rt: &impl Print, world: &mut [u8; 12594], root: Handle) -> io::Result<()> {
    let key = remove_file(world, ANN, root, b"Bold");
    let menu = remove_folder(world, ANN, root, b"a");
    let removed = remove_folder(world, ANN, root, b"Bold");
    println!(rt;
        "  The delete key on Bold, which is empty: {key}.\n  \
        The folder menu on a: {menu}.\n  \
        The folder menu on Bold: {removed}."
    )
}

pub fn two_keys(rt: &impl Print, world: &mut [u8; 12594]) -> io::Result<()> {
    println!(rt; "\nThe delete key and the folder menu")?;
    let root = fresh(world);
    create_line(rt, world, ANN, root, b"a", FILE, 2)?;
    create_line(rt, world, ANN, root, b"Bold", DIR, 3)?;
    keys_pressed(rt, world, root)
}
