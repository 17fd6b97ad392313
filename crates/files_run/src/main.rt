// File operations from a script, on arenas of 16 to 128 blocks: for each its answer, and a sum over all bytes of the arena. The script is
// records of 12 bytes: what to do, which kind of file, a byte for its name, a byte for the data, a place and a size (each 32 bits, the lowest
// byte first). tests/model/files_script.py makes it, and the lines that are expected.
#![tactic(auto)]

mod ops;
mod record;

ghost use Rattle.std.specs.Prelude.{◌≡◌, ◌*◌, ◌≤◌, length};
ghost use Rattle.arena.specs.Blocks.{blocks};

use base::code;
use record::{Operation, Record, Store};
use std::io;
use sums::sum;

// Bytes that go up by the same step each.
fn data_of(seed: u8) -> [u8; 480] {
    let mut data = [0u8; 480];
    let mut b = seed;
    for x in data.iter_mut() {
        *x = b;
        b = b.wrapping_add(37);
    }
    data
}

// ---- the operations

fn store(
    rt: &impl Print,
    store: Store,
    record: &Record,
    arena: &mut [u8],
    work: &mut [u8; 9216],
) -> io::Result<()>
    requires { (length arena.old ≡ 512 * blocks arena.old) × (blocks arena.old ≤ 128) }
{
    let n = (record.size as usize).min(480);
    let r = ops::store(store, record, arena, work, &data_of(record.seed)[..n]);
    print!(rt; "{store} {}", code(r))
}

fn read(rt: &impl Print, record: &Record, arena: &[u8], work: &mut [u8; 9216]) -> io::Result<()>
    requires { (length arena.now ≡ 512 * blocks arena.now) × (blocks arena.now ≤ 128) }
{
    let n = (record.size as usize).min(1024);
    let mut buf = [238u8; 1024];
    ops::start(work);
    let pos = record.pos as usize;
    let r = files::read::read(arena, work, record.which, &record.name, pos, &mut buf[..n]);
    print!(rt; "read {} o {}", code(r), sum(&buf))
}

fn ask(rt: &impl Print, record: &Record, arena: &[u8], work: &mut [u8; 9216]) -> io::Result<()>
    requires { (length arena.now ≡ 512 * blocks arena.now) × (blocks arena.now ≤ 128) }
{
    ops::start(work);
    let n = files::read::file_length(arena, work, record.which, &record.name);
    if files::read::there(arena, work, record.which, &record.name) {
        print!(rt; "ask there {n}")
    } else {
        print!(rt; "ask missing {n}")
    }
}

// ---- the script

// How many blocks the arena has after a record.
fn sized(record: &Record, was: usize) -> usize
    requires { (16 ≤ was) × (was ≤ 128) }
    ensures { (16 ≤ result) × (result ≤ 128) }
{
    match record.operation {
        Operation::Arena => (record.size as usize).clamp(16, 128),
        _ => was,
    }
}

fn step(rt: &impl Print, record: &Record, arena: &mut [u8], work: &mut [u8; 9216]) -> io::Result<()>
    requires { (length arena.old ≡ 512 * blocks arena.old) × (blocks arena.old ≤ 128) }
{
    match record.operation {
        Operation::Arena => {
            arena.fill(0);
            return Ok(());
        }
        Operation::Store(s) => store(rt, s, record, arena, work)?,
        Operation::Read => read(rt, record, arena, work)?,
        Operation::Ask => ask(rt, record, arena, work)?,
    }
    println!(rt; " a {}", sum(arena))
}

fn run(
    rt: &impl Print,
    script: &[u8],
    space: &mut [u8; 65536],
    work: &mut [u8; 9216],
) -> io::Result<()> {
    let mut blocks = 16;
    let (records, _) = script.as_chunks::<12>();
    for bytes in records {
        let record = Record::from(bytes);
        blocks = sized(&record, blocks);
        step(rt, &record, &mut space[..512 * blocks], work)?;
    }
    Ok(())
}

fn main(rt: HostRuntime) -> io::Result<()> {
    let mut script = [0u8; 65536];
    let mut space = [0u8; 65536];
    let mut work = [0u8; 9216];
    let n = cases::read_full(&mut rt.reader(), &mut script)?;
    run(&rt, &script[..n], &mut space, &mut work)
}
