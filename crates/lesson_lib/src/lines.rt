// Lines that tell what an image's bytes say.
ghost use Rattle.std.specs.Prelude.{◌≡◌, length};

use crate::raw;
use crate::raw::{FIRST_MAP, SECOND_MAP};
use std::{fmt, io};

// One letter for a block, by its first byte: free, a file's head, data.
#[derive(Clone, Copy)]
struct Marks<'a>(&'a [u8]);

impl fmt::Display for Marks<'_> {
    fn fmt<W: fmt::Write>(&self, f: &mut fmt::Formatter<W>) -> fmt::Result {
        let arena = self.0;
        let (blocks, _) = arena.as_chunks::<512>();
        for block in blocks {
            f.write_str(match block[0] {
                0 => ".",
                1 => "H",
                _ => "D",
            })?;
        }
        Ok(())
    }
}

// How many blocks are in use, and which.
pub fn blocks_line(rt: &impl Print, world: &[u8]) -> io::Result<()>
    requires { length world.now ≡ 12594 }
{
    let arena = &world[4402..];
    let used = raw::used(arena);
    println!(rt; "  {used} blocks are in use: {}", Marks(arena))
}

pub fn numbers_line(rt: &impl Print, world: &[u8]) -> io::Result<()>
    requires { length world.now ≡ 12594 }
{
    let unused = raw::unused(world);
    let first = raw::meta_byte(world, FIRST_MAP);
    println!(rt; "  {unused} node numbers are free; the first map byte is {first}.")
}

pub fn second_group_line(rt: &impl Print, world: &[u8]) -> io::Result<()>
    requires { length world.now ≡ 12594 }
{
    let unused = raw::unused(world);
    let first = raw::meta_byte(world, SECOND_MAP);
    let length = raw::meta_length(world);
    println!(rt;
        "  A second group came: {unused} node numbers are free; its map's first byte is {first};\n  \
        the metadata file has {length} bytes."
    )
}
