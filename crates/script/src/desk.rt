// Commands 1 to 4, which set the arena and the table; how much of the arena is there; and the table on its way to a call and back.
ghost use Rattle.std.specs.Prelude.{◌≡◌, ◌<◌, ◌≤◌, length};
ghost use Rattle.mem.specs.Mem.{Whole, memory_size};

use crate::COMMAND;
use crate::args::lay;
use base::{clear, copy, index, least};
use le::{put_u64, u32_at, u64_at};
use mem::{begin, write_back};
use table_bytes::{read_table, write_table};

// How much of the lent arena the desk says is there: no more than there is.
pub fn arena_len(desk: &[u8], limit: usize) -> usize
    requires { length desk.now ≡ 4419 }
    ensures { result ≤ limit }
{
    let n = u64_at(desk, 4402);
    if n < (limit as u64) {
        return n as usize;
    }
    limit
}

// The bytes behind the length.
fn set_arena(bytes: &[u8], desk: &mut [u8], arena: &mut [u8])
    requires { length desk.old ≡ 4419 }
{
    let s = least(bytes.len(), 5);
    let n = least(bytes.len() - s, arena.len());
    copy(&mut arena[0..n], &bytes[s..s + n]);
    put_u64(desk, 4402, n as u64);
}

fn clear_arena(command: &[u8], desk: &mut [u8], arena: &mut [u8])
    requires { (5 ≤ length command.now) × (length desk.old ≡ 4419) }
{
    let n = least(index(u32_at(command, 1)), arena.len());
    clear(&mut arena[0..n]);
    put_u64(desk, 4402, n as u64);
}

// A place past the arena's end changes nothing.
fn set_byte(command: &[u8], desk: &[u8], arena: &mut [u8])
    requires { (6 ≤ length command.now) × (length desk.now ≡ 4419) }
{
    let p = index(u32_at(command, 1));
    if p < arena_len(desk, arena.len()) {
        arena[p] = command[5];
    }
}

fn set_table(command: &[u8], desk: &mut [u8])
    requires { (4403 ≤ length command.now) × (length desk.old ≡ 4419) }
{
    write_table(desk, read_table(&command[1..4403]));
}

// 2 to 4.
fn set_by(command: &[u8], desk: &mut [u8], arena: &mut [u8])
    requires { (length command.now ≡ 8218) × (length desk.old ≡ 4419) }
{
    match command[0] {
        2 => clear_arena(command, desk, arena),
        3 => set_byte(command, &desk[..], arena),
        _ => set_table(command, desk),
    }
}

// They print nothing.
pub fn do_quiet(bytes: &[u8], desk: &mut [u8], arena: &mut [u8])
    requires { (0 < length bytes.now) × (length desk.old ≡ 4419) }
{
    if bytes[0] == 1 {
        set_arena(bytes, desk, arena);
        return;
    }
    let mut command = [0u8; COMMAND];
    lay(&mut command, bytes);
    set_by(&command, desk, arena);
}

// ---- a call has the table in memory of its own, and no table by value is made

pub fn to_memory(desk: &[u8], mem: &mut [u8])
    requires { (length desk.now ≡ 4419) × (length mem.old ≡ memory_size) }
    ensures { Whole mem.new }
{
    begin(mem, &desk[0..4402]);
}

// Only where the call is done, and its table is another.
pub fn from_memory(desk: &mut [u8], mem: &[u8], reason: u8)
    requires { (length desk.old ≡ 4419) × (length mem.now ≡ memory_size) }
{
    if reason != 0 {
        return;
    }
    write_back(&mut desk[0..4402], mem);
}
