// The scenes in which nodes are made and nothing else is asked.
use lesson_lib::lines::{blocks_line, numbers_line, second_group_line};
use lesson_lib::raw::{fill_group, same_image};
use lesson_world::lines::{create_line, node};
use lesson_world::world::{ANN, begin, create, format, fresh};
use std::io;
use structs::{DIR, FILE};

pub fn fresh_image(rt: &impl Print, world: &mut [u8; 12594]) -> io::Result<()> {
    println!(rt;
        "A fresh image of 16 blocks (. free, H a file's head, D its data)\n  format: {}.",
        format(world)
    )?;
    blocks_line(rt, world)?;
    numbers_line(rt, world)
}

pub fn file_a(rt: &impl Print, world: &mut [u8; 12594]) -> io::Result<()> {
    println!(rt; "\nThen a file A in the root")?;
    let root = begin(world);
    create_line(rt, world, ANN, root, b"A", FILE, 2)?;
    blocks_line(rt, world)?;
    numbers_line(rt, world)
}

pub fn folder_b(rt: &impl Print, world: &mut [u8; 12594]) -> io::Result<()> {
    println!(rt; "\nInstead a folder B")?;
    let root = fresh(world);
    create_line(rt, world, ANN, root, b"B", DIR, 2)?;
    println!(rt; "  The root is {}.", node(world, ANN, root))?;
    blocks_line(rt, world)
}

pub fn second_group(rt: &impl Print, world: &mut [u8; 12594]) -> io::Result<()> {
    println!(rt; "\nNo number is left in the first group (made so by hand)")?;
    fresh(world);
    fill_group(world);
    numbers_line(rt, world)?;
    let root = begin(world);
    create_line(rt, world, ANN, root, b"A", FILE, 2)?;
    second_group_line(rt, world)
}

pub fn numbers(rt: &impl Print) -> io::Result<()> {
    let mut block = [0u8; 512];
    block[0] = 2;
    let check = arena::block_check(&block);
    let seconds = le::i64_at(&[255u8; 8], 0);
    println!(rt;
        "\nTwo numbers\n  \
        A block with nothing but a 2 in byte 0: its check is {check}.\n  \
        Eight bytes FF, read as the seconds of a time: {seconds}."
    )
}

// Names that create refuses, and the image after them. The world as it was is kept beside it.
pub fn names(rt: &impl Print, world: &mut [u8; 12594], kept: &mut [u8; 12594]) -> io::Result<()> {
    let root = fresh(world);
    let longest = create(world, ANN, root, &[b'n'; 255], FILE, 2);
    println!(rt;
        "\nNames\n  create with a name of 255 bytes: {}.",
        longest.outcome
    )?;
    *kept = *world;
    let longer = create(world, ANN, root, &[b'n'; 256], FILE, 2);
    let empty = create(world, ANN, root, b"", FILE, 2);
    println!(rt;
        "  create with a name of 256 bytes: {}.\n  \
        create with the empty name, which means the folder itself: {}.",
        longer.outcome, empty.outcome
    )?;
    if same_image(kept, world) {
        println!(rt; "  The two refusals left every byte of the image as it was.")
    } else {
        println!(rt; "  The two refusals changed the image.")
    }
}
