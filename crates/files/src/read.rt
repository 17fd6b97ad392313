// Reading: existence, length, and a run of bytes.
ghost use Rattle.std.specs.Prelude.{◌≡◌, ◌+◌, ◌-◌, ◌<◌, ◌≤◌, ◌/◌, ◌%◌, length};
ghost use Rattle.base.specs.Told.{code};
ghost use Rattle.base.specs.Out.{answer, kept};
ghost use Rattle.base.specs.Parts.{tab};
ghost use Rattle.arena.specs.Fields.{file};
ghost use Rattle.overlay.specs.View.{view, Fine};
ghost use Rattle.files.specs.Read.{there as is_there, length_of, byte_at, read_file};

use crate::{find_data, find_head};
use base::{Reason, clear, copy, index, least};
use le::u32_at;
use overlay::block;

pub fn there<'a>(arena: &'a [u8], work: &'a [u8], which: u8, name: &[u8]) -> bool
    requires { Fine arena.now work.now × (length name.now ≡ 16) }
    ensures { result ≡ is_there (view arena.now work.now) (file which name.now) }
{
    find_head(arena, work, which, name) < arena.len() / 512
}

// The file's length, 0 where it is not there.
pub fn file_length<'a>(arena: &'a [u8], work: &'a [u8], which: u8, name: &[u8]) -> u32
    requires { Fine arena.now work.now × (length name.now ≡ 16) }
    ensures { result ≡ length_of (view arena.now work.now) (file which name.now) }
{
    let k = find_head(arena, work, which, name);
    if k >= arena.len() / 512 {
        return 0;
    }
    u32_at(block(arena, work, k), 20)
}

// The bytes of one block of the file from p on, as many as out takes.
fn read_part<'a>(arena: &'a [u8], work: &'a [u8], which: u8, name: &[u8], p: usize, out: &mut [u8])
    requires fine { Fine arena.now work.now × (length name.now ≡ 16) }
    requires p_bound { (p ≤ 4294967295) × (p % 480 + length out.old ≤ 480) }
    ensures { out.new ≡ tab (byte_at (view arena.now work.now) (file which name.now)) p (length out.old) }
{
    let k = find_data(arena, work, which, name, (p / 480) as u32);
    if k >= arena.len() / 512 {
        clear(out);
        return;
    }
    let s = 24 + p % 480;
    let e = s + out.len();
    let b = block(arena, work, k);
    copy(out, &b[s..e]);
}

// A run that is known to lie below the length, block by block.
fn read_run<'a>(arena: &'a [u8], work: &'a [u8], which: u8, name: &[u8], pos: usize, out: &mut [u8])
    requires fine { Fine arena.now work.now × (length name.now ≡ 16) }
    requires out_bound { pos + length out.old ≤ 4294967295 }
    ensures { out.new ≡ tab (byte_at (view arena.now work.now) (file which name.now)) pos (length out.old) }
{
    let total = out.len();
    let mut got: usize = 0;
    // A while: a turn takes as many bytes as the block has.
    while got < total {
        let p = pos + got;
        let m = least(480 - p % 480, total - got);
        let e = got + m;
        read_part(arena, work, which, name, p, &mut out[got..e]);
        got = e;
    }
}

// The bytes of the file from pos on, as many as out takes; 19 where the file is missing or shorter, and out is as it was.
pub fn read<'a>(
    arena: &'a [u8],
    work: &'a [u8],
    which: u8,
    name: &[u8],
    pos: usize,
    out: &mut [u8],
) -> Result<(), Reason>
    requires { Fine arena.now work.now × (length name.now ≡ 16) }
    ensures value { code result ≡ answer (read_file (view arena.now work.now) (file which name.now) pos (length out.old)) }
    ensures out_after { out.new ≡ kept out.old (read_file (view arena.now work.now) (file which name.now) pos (length out.old)) }
{
    let k = find_head(arena, work, which, name);
    if k >= arena.len() / 512 {
        return Err(Reason::Stuck);
    }
    let len = index(u32_at(block(arena, work, k), 20));
    if len < pos {
        return Err(Reason::Stuck);
    }
    if len - pos < out.len() {
        return Err(Reason::Stuck);
    }
    read_run(arena, work, which, name, pos, out);
    Ok(())
}
