// Byte files on a view of the arena (dev/mod.rs: File, Storage). A file is `which` (0 the metadata file, 1 a node file) and a name of 16 bytes.
// A step that is refused answers its reason, as an `Err`.
#![tactic(auto)]

pub mod read;
pub mod store;

ghost use Rattle.std.specs.Prelude.{◌≡◌, ◌+◌, ◌-◌, ◌<◌, ◌/◌, length};
ghost use Rattle.arena.specs.Fields.{file};
ghost use Rattle.arena.specs.Places.{free_of, head_of, data_of};
ghost use Rattle.overlay.specs.View.{view, Fine};

use arena::{is_data, is_free, is_head};
use overlay::block;

// The lowest free block, or the number of blocks where there is none.
pub fn find_free<'a>(arena: &'a [u8], work: &'a [u8]) -> usize
    requires { Fine arena.now work.now }
    ensures { result ≡ free_of (view arena.now work.now) }
{
    let n = arena.len() / 512;
    for k in 0..n {
        if is_free(block(arena, work, k)) {
            return k;
        }
    }
    n
}

// The head of the file.
pub fn find_head<'a>(arena: &'a [u8], work: &'a [u8], which: u8, name: &[u8]) -> usize
    requires { Fine arena.now work.now × (length name.now ≡ 16) }
    ensures { result ≡ head_of (view arena.now work.now) (file which name.now) }
{
    let n = arena.len() / 512;
    for k in 0..n {
        if is_head(block(arena, work, k), which, name) {
            return k;
        }
    }
    n
}

// Block `number` of the file.
pub fn find_data<'a>(arena: &'a [u8], work: &'a [u8], which: u8, name: &[u8], number: u32) -> usize
    requires { Fine arena.now work.now × (length name.now ≡ 16) }
    ensures { result ≡ data_of (view arena.now work.now) (file which name.now) number }
{
    let n = arena.len() / 512;
    for k in 0..n {
        if is_data(block(arena, work, k), which, name, number) {
            return k;
        }
    }
    n
}
