// The arguments of a command, which `shape` has seen to be whole. What a reader needs is the room of a command's place, and no more.
ghost use Rattle.std.specs.Prelude.{◌+◌, ◌≤◌, length};

use base::{copy, index16, least};
use le::{i64_at, u16_at, u32_at, u64_at};
use structs::Timespec;
use table::Handle;

// A command in its place: as much as the place takes.
pub fn lay(place: &mut [u8], bytes: &[u8]) {
    let n = least(bytes.len(), place.len());
    copy(&mut place[0..n], &bytes[0..n]);
}

pub fn handle_at(command: &[u8], at: usize) -> Handle
    requires { at + 12 ≤ length command.now }
{
    Handle {
        hold: u32_at(command, at),
        stamp: u64_at(command, at + 4),
    }
}

pub fn time_at(command: &[u8], at: usize) -> Timespec
    requires { at + 16 ≤ length command.now }
{
    Timespec {
        sec: i64_at(command, at),
        nsec: i64_at(command, at + 8),
    }
}

pub fn file_at(command: &[u8], at: usize) -> [u8; 16]
    requires { at + 16 ≤ length command.now }
{
    let mut file = [0u8; 16];
    copy(&mut file, &command[at..at + 16]);
    file
}

// A length within its limit.
pub fn length_at(command: &[u8], at: usize, longest: usize) -> usize
    requires { at + 2 ≤ length command.now }
    ensures { result ≤ longest }
{
    least(index16(u16_at(command, at)), longest)
}

// A name, a path, or what is written: its length, and as many bytes.
pub fn name_at(command: &[u8], at: usize, longest: usize) -> &[u8]
    requires { at + 2 + longest ≤ length command.now }
    ensures { length result.now ≤ longest }
{
    let s = at + 2;
    let e = s + length_at(command, at, longest);
    &command[s..e]
}
