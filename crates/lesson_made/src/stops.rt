// The scene in which a create stops between two of 000's stores.
use lesson_lib::raw::{Store, same_image, take_store};
use lesson_world::lines::{create_line, judged, node, outline, save};
use lesson_world::world::{ANN, begin, close, find, fresh, go_down};
use std::io;
use structs::FILE;
use table::Handle;

// The close stores what waited in the table, so all that a create finds is stored.
fn one_saved(rt: &impl Print, world: &mut [u8; 12594], root: Handle) -> io::Result<()> {
    let a = create_line(rt, world, ANN, root, b"a", FILE, 2)?;
    let saved = save(world, ANN, a, b"M0 0 C1 9 4 9 5 0");
    let closed = close(world, ANN, a);
    println!(rt; "  Ann saves her curve in a: {saved}; she closes it: {closed}.")
}

// What the two names lead to. The table is empty again when it is told.
fn found(rt: &impl Print, world: &mut [u8; 12594]) -> io::Result<()> {
    let root = begin(world);
    let b = find(world, ANN, root, b"b");
    let a = find(world, ANN, root, b"a");
    let drawing = outline(world, ANN, a.handle);
    go_down(world);
    print!(rt; "; find b: {}; a reads ", b.outcome)?;
    drawing.show(rt)?;
    println!(rt; ".")
}

// One store more, and it stops. The mender leaves every byte as it is, refused or with nothing to mend, so the next store comes on top.
fn stop(
    rt: &impl Print,
    world: &mut [u8; 12594],
    whole: &[u8; 12594],
    last: Store,
    what: &str,
) -> io::Result<()> {
    take_store(world, whole, last);
    let (check, mend) = judged(world);
    print!(rt; "  {what}: check: {check}; mend: {mend}")?;
    found(rt, world)
}

fn stops(rt: &impl Print, world: &mut [u8; 12594], whole: &[u8; 12594]) -> io::Result<()> {
    stop(rt, world, whole, Store::NewFile, "b's file")?;
    stop(rt, world, whole, Store::Slot, "root's slot")?;
    stop(rt, world, whole, Store::SuperBlock, "the superblock")?;
    stop(rt, world, whole, Store::Map, "the map")?;
    stop(rt, world, whole, Store::NewRecord, "b's record")?;
    stop(
        rt,
        world,
        whole,
        Store::RootRecord,
        "root's record, the last",
    )
}

// Nothing is missing after the last.
fn complete(rt: &impl Print, world: &mut [u8; 12594], whole: &[u8; 12594]) -> io::Result<()> {
    let root = begin(world);
    let b = find(world, ANN, root, b"b");
    let it = node(world, ANN, b.handle);
    if same_image(whole, world) {
        println!(rt; "  Now b is {it}, and every byte of the image is what the whole create left.")
    } else {
        println!(rt; "  Now b is {it}, and the image is not what the whole create left.")
    }
}

// The whole create is done in the second world; the first gets its stores one by one.
pub fn create_stops(
    rt: &impl Print,
    world: &mut [u8; 12594],
    kept: &mut [u8; 12594],
) -> io::Result<()> {
    println!(rt; "\nA create stops half way")?;
    let root = fresh(world);
    one_saved(rt, world, root)?;
    *kept = *world;
    create_line(rt, kept, ANN, root, b"b", FILE, 3)?;
    println!(rt;
        "  That is the whole create. It stops after each of 000's stores in turn, and leaves:"
    )?;
    go_down(world);
    stops(rt, world, kept)?;
    complete(rt, world, kept)
}
