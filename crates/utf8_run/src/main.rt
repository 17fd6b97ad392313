// RFC 3629's sequences, run. Standard input has blocks of sequences, 24 bytes each: how long a sequence is; for each of its four places the
// lowest and the highest byte that comes there; and the block's name, up to a zero. A place that a shorter sequence does not have has the
// letter a, as the name around it. For each block comes a line: its name, how many sequences there are, how many of them are UTF-8 alone,
// how many inside a longer name, and a check over all answers in their order. tests/utf8/expected.py makes the blocks and the lines.
#![tactic(auto)]

ghost use Rattle.std.specs.Prelude.{◌<◌, ◌≤◌};

use std::{fmt, io};
use utf8::{first_zero, valid};

// Bytes on both sides of each border of what may come second, third or fourth: what comes where the lowest byte is above the highest.
const EDGES: [u8; 12] = [
    0x00, 0x7F, 0x80, 0x8F, 0x90, 0x9F, 0xA0, 0xBF, 0xC0, 0xC2, 0xF4, 0xFF,
];

#[derive(Clone, Copy)]
struct Tally {
    count: u64,
    alone: u64,
    inside: u64,
    check: u64,
}

impl fmt::Display for Tally {
    fn fmt<W: fmt::Write>(&self, f: &mut fmt::Formatter<W>) -> fmt::Result {
        let Tally {
            count,
            alone,
            inside,
            check,
        } = *self;
        write!(f, "{count} {alone} {inside} {check}")
    }
}

// How many bytes come at a place, and one of them.
fn choices(low: u8, high: u8) -> u64
    ensures { 0 < result }
{
    if low > high {
        EDGES.len() as u64
    } else {
        u64::from(high - low) + 1
    }
}

fn choice(low: u8, high: u8, k: u64) -> u8 {
    if low > high {
        EDGES[(k % 12) as usize]
    } else {
        low.wrapping_add((k % 256) as u8)
    }
}

// Place i of the sequence with number n. What is left of the number is for the place before.
fn place(name: &mut [u8; 11], block: &[u8; 24], i: usize, n: u64) -> u64
    requires { i < 4 }
{
    let low = block[2 * i + 1];
    let high = block[2 * i + 2];
    let c = choices(low, high);
    name[i + 3] = choice(low, high, n % c);
    n / c
}

// The last place goes fastest. Nothing is left of a sequence's number.
fn sequence(name: &mut [u8; 11], block: &[u8; 24], n: u64) -> u64 {
    let mut left = n;
    for i in (0..4).rev() {
        left = place(name, block, i, left);
    }
    left
}

impl Tally {
    fn note(&mut self, alone: bool, inside: bool) {
        let a = u64::from(alone);
        let i = u64::from(inside);
        let c = self.check % 1000003;
        self.count = self.count.wrapping_add(1);
        self.alone = self.alone.wrapping_add(a);
        self.inside = self.inside.wrapping_add(i);
        self.check = (31 * c + 2 * a + i) % 1000003;
    }
}

// The sequence is the last of the four places; the name is all of it.
fn judge(name: &[u8; 11], size: usize, t: &mut Tally)
    requires { size ≤ 4 }
{
    let alone = valid(&name[7 - size..7]);
    let inside = valid(name);
    t.note(alone, inside);
}

fn judge_all(name: &mut [u8; 11], block: &[u8; 24], size: usize) -> Tally
    requires { size ≤ 4 }
{
    let mut t = Tally {
        count: 0,
        alone: 0,
        inside: 0,
        check: 1,
    };
    for n in 0..4294967296 {
        if sequence(name, block, n) > 0 {
            break;
        }
        judge(name, size, &mut t);
    }
    t
}

// Up to its zero.
fn show_name(rt: &impl Print, name: &[u8]) -> io::Result<()> {
    let end = first_zero(name);
    rt.write_all(&name[..end])
}

fn run_block(rt: &impl Print, block: &[u8; 24]) -> io::Result<()> {
    // e with an accent, an a, four places, the euro sign, a z
    let mut name: [u8; 11] = [0xC3, 0xA9, 0x61, 0, 0, 0, 0, 0xE2, 0x82, 0xAC, 0x7A];
    let t = judge_all(&mut name, block, usize::from(block[0] % 5));
    show_name(rt, &block[9..])?;
    println!(rt; " {t}")
}

fn main(rt: HostRuntime) -> io::Result<()> {
    let mut input = [0u8; 1024];
    let n = cases::read_full(&mut rt.reader(), &mut input)?;
    let (blocks, _) = input[..n].as_chunks::<24>();
    for block in blocks {
        run_block(&rt, block)?;
    }
    Ok(())
}
