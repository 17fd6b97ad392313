// Reading an arena that nothing has changed, by the chains that `sound` has built: no block is looked for among all blocks. A file is
// `which` (0 the metadata file, 1 a node file) and a name of 16 bytes.
#![tactic(auto)]

pub mod slots;

ghost use Rattle.std.specs.Prelude.{◌≡◌, ◌+◌, ◌<◌, ◌≤◌, ◌%◌, length};
ghost use Rattle.base.specs.Told.{code};
ghost use Rattle.base.specs.Out.{Went};
ghost use Rattle.base.specs.Parts.{tab};
ghost use Rattle.arena.specs.Fields.{file};
ghost use Rattle.files.specs.Read.{there, byte_at, read_file};
ghost use Rattle.chains.specs.Led.{Led, end_of, head_at, block_at};

use base::{Reason, clear, copy, index, least};
use le::u32_at;
use sound::chain::find;

// One more than the number of the file's head, or 0 where the file is not there.
pub fn head_at(arena: &[u8], first: &[u16], next: &[u16], which: u8, name: &[u8; 16]) -> usize
    requires { Led arena.now first.now next.now }
    ensures { result ≡ head_at arena.now (file which name.now) }
{
    find(arena, first, next, true, which, name, 0)
}

// The same of the file's data block of that number.
pub fn block_at(
    arena: &[u8],
    first: &[u16],
    next: &[u16],
    which: u8,
    name: &[u8; 16],
    number: u32,
) -> usize
    requires { Led arena.now first.now next.now }
    ensures { (result ≡ block_at arena.now (file which name.now) number) × (result ≤ 4096) }
{
    find(arena, first, next, false, which, name, number)
}

// One more than the file's length, or 0 where the file is not there.
pub fn length_of(arena: &[u8], first: &[u16], next: &[u16], which: u8, name: &[u8; 16]) -> usize
    requires { Led arena.now first.now next.now }
    ensures { (result ≡ end_of arena.now (file which name.now)) × (result ≤ 4294967296) }
{
    let c = find(arena, first, next, true, which, name, 0);
    if c == 0 {
        return 0;
    }
    let o = 512 * (c - 1);
    index(u32_at(&arena[o..o + 512], 20)) + 1
}

pub fn exists(arena: &[u8], first: &[u16], next: &[u16], which: u8, name: &[u8; 16]) -> bool
    requires { Led arena.now first.now next.now }
    ensures { result ≡ there arena.now (file which name.now) }
{
    length_of(arena, first, next, which, name) > 0
}

// The bytes of one block of the file from p on, as many as out takes.
fn read_part(
    arena: &[u8],
    first: &[u16],
    next: &[u16],
    which: u8,
    name: &[u8; 16],
    p: usize,
    out: &mut [u8],
)
    requires led { Led arena.now first.now next.now }
    requires p_bound { (p < 2061584302080) × (p % 480 + length out.old ≤ 480) }
    ensures { out.new ≡ tab (byte_at arena.now (file which name.now)) p (length out.old) }
{
    let c = find(arena, first, next, false, which, name, (p / 480) as u32);
    if c == 0 {
        clear(out);
        return;
    }
    let s = 512 * (c - 1) + 24 + p % 480;
    let e = s + out.len();
    copy(out, &arena[s..e]);
}

// A run of bytes, block by block.
pub fn read_run(
    arena: &[u8],
    first: &[u16],
    next: &[u16],
    which: u8,
    name: &[u8; 16],
    pos: usize,
    out: &mut [u8],
)
    requires led { Led arena.now first.now next.now }
    requires out_bound { pos + length out.old ≤ 2061584302080 }
    ensures { out.new ≡ tab (byte_at arena.now (file which name.now)) pos (length out.old) }
{
    let total = out.len();
    let mut got: usize = 0;
    // A while: a turn takes as many bytes as the block has.
    while got < total {
        let p = pos + got;
        let m = least(480 - p % 480, total - got);
        let e = got + m;
        read_part(arena, first, next, which, name, p, &mut out[got..e]);
        got = e;
    }
}

// The bytes of the file from pos on, as many as out takes; 19 where the file is missing or shorter. Its end is known: who
// reads a file more than once asks for it once.
pub fn read_below(
    arena: &[u8],
    first: &[u16],
    next: &[u16],
    which: u8,
    name: &[u8; 16],
    end: usize,
    pos: usize,
    out: &mut [u8],
) -> Result<(), Reason>
    requires led { Led arena.now first.now next.now }
    requires end_value { (end ≡ end_of arena.now (file which name.now)) × (end ≤ 4294967296) }
    ensures { Went (read_file arena.now (file which name.now) pos (length out.old)) out.new (length out.new ≡ length out.old) (code result) }
{
    if end <= pos {
        return Err(Reason::Stuck);
    }
    if end - pos <= out.len() {
        return Err(Reason::Stuck);
    }
    read_run(arena, first, next, which, name, pos, out);
    Ok(())
}

pub fn read(
    arena: &[u8],
    first: &[u16],
    next: &[u16],
    which: u8,
    name: &[u8; 16],
    pos: usize,
    out: &mut [u8],
) -> Result<(), Reason>
    requires { Led arena.now first.now next.now }
    ensures { Went (read_file arena.now (file which name.now) pos (length out.old)) out.new (length out.new ≡ length out.old) (code result) }
{
    let end = length_of(arena, first, next, which, name);
    read_below(arena, first, next, which, name, end, pos, out)
}
