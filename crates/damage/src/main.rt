// Judges arenas of 16 blocks, read one after another, with one byte changed: every byte, three changes of it, as the block then is and
// with its check made right again. What it must print is made by tests/model/damage.py.
#![tactic(auto)]

ghost use Rattle.std.specs.Prelude.{◌≡◌, ◌<◌, length};

use arena::put_check;
use base::copy;
use sound::sound;
use std::io;
use std::io::Read;

// Whether the arena is sound with byte i changed by d.
fn judge(arena: &mut [u8; 8192], i: usize, d: u8) -> bool
    requires { i < 8192 }
{
    let was = arena[i];
    arena[i] = was.wrapping_add(d);
    let r = sound(arena);
    arena[i] = was;
    r
}

// A block with byte r changed, and its check.
fn spoil(block: &mut [u8], r: usize, d: u8)
    requires { (length block.old ≡ 512) × (r < 512) }
{
    block[r] = block[r].wrapping_add(d);
    put_check(block);
}

// The same, with the check of the block made right.
fn judge_mended(arena: &mut [u8; 8192], i: usize, d: u8) -> bool
    requires { i < 8192 }
{
    let start = i / 512 * 512;
    let mut kept = [0u8; 512];
    copy(&mut kept, &arena[start..start + 512]);
    spoil(&mut arena[start..start + 512], i - start, d);
    let r = sound(arena);
    copy(&mut arena[start..start + 512], &kept);
    r
}

fn is_sound(arena: &mut [u8; 8192], i: usize, d: u8, mend: bool) -> bool
    requires { i < 8192 }
{
    if mend {
        judge_mended(arena, i, d)
    } else {
        judge(arena, i, d)
    }
}

// One digit for a byte: the sum of 1, 2 and 4 for the changes that leave the arena sound.
fn digit(arena: &mut [u8; 8192], i: usize, mend: bool) -> u8
    requires { i < 8192 }
{
    let a = is_sound(arena, i, 1, mend);
    let b = is_sound(arena, i, 128, mend);
    let c = is_sound(arena, i, 255, mend);
    b'0' + u8::from(a) + 2 * u8::from(b) + 4 * u8::from(c)
}

// A line of the 512 digits of block k.
fn line(arena: &mut [u8; 8192], k: usize, mend: bool) -> [u8; 513]
    requires { k < 16 }
{
    let mut out = [b'\n'; 513];
    for i in 0..512 {
        out[i] = digit(arena, 512 * k + i, mend);
    }
    out
}

fn print_arena(rt: &impl Print, arena: &mut [u8; 8192]) -> io::Result<()> {
    for k in 0..16 {
        for mend in [false, true] {
            rt.write_all(&line(arena, k, mend))?;
        }
    }
    Ok(())
}

fn next_arena(rt: &impl Print, input: &mut impl Read) -> io::Result<()> {
    let mut arena = [0u8; 8192];
    if cases::read_full(input, &mut arena)? == arena.len() {
        print_arena(rt, &mut arena)?;
    }
    Ok(())
}

fn main(rt: HostRuntime) -> io::Result<()> {
    let mut input = rt.reader();
    for _ in 0..2 {
        next_arena(&rt, &mut input)?;
    }
    Ok(())
}
