// What the calls of a script answer, said into the record that a line is written from. A function takes what the call returned, of a
// hold its reason and handle, says the numbers and returns the reason.
#![tactic(auto)]

ghost use Rattle.std.specs.Prelude.{◌≡◌, length};

use calls::refusals::Refusal;
use le::to_bits;
use script::record::{KEPT, say};
use sefs::Metadata;
use table::Handle;

pub fn say_done<E: Refusal>(r: Result<(), E>) -> u8 {
    match r {
        Ok(()) => KEPT,
        Err(e) => e.told(),
    }
}

pub fn say_handed(answer: &mut [u8], reason: u8, handle: Handle) -> u8
    requires { length answer.old ≡ 8320 }
{
    say(answer, 0, u64::from(handle.hold));
    say(answer, 1, handle.stamp);
    reason
}

// How many slots or bytes were written.
pub fn say_count<E: Refusal>(answer: &mut [u8], r: Result<usize, E>) -> u8
    requires { length answer.old ≡ 8320 }
{
    match r {
        Ok(n) => {
            say(answer, 0, n as u64);
            KEPT
        }
        Err(e) => e.told(),
    }
}

pub fn say_pass(answer: &mut [u8], nodes: u32, unused: u32, free: u32) -> u8
    requires { length answer.old ≡ 8320 }
{
    say(answer, 0, u64::from(nodes));
    say(answer, 1, u64::from(unused));
    say(answer, 2, u64::from(free));
    KEPT
}

// ---- metadata

fn say_metadata(answer: &mut [u8], m: Metadata) -> u8
    requires { length answer.old ≡ 8320 }
{
    let numbers: [u64; 14] = [
        u64::from(m.inode),
        m.size,
        u64::from(m.mode),
        u64::from(m.kind),
        u64::from(m.blocks),
        to_bits(m.atime.sec),
        to_bits(m.atime.nsec),
        to_bits(m.mtime.sec),
        to_bits(m.mtime.nsec),
        to_bits(m.ctime.sec),
        to_bits(m.ctime.nsec),
        u64::from(m.nlinks),
        u64::from(m.uid),
        u64::from(m.gid),
    ];
    for (k, n) in numbers.iter().enumerate() {
        say(answer, k, *n);
    }
    KEPT
}

pub fn say_told<E: Refusal>(answer: &mut [u8], r: Result<Metadata, E>) -> u8
    requires { length answer.old ≡ 8320 }
{
    match r {
        Ok(m) => say_metadata(answer, m),
        Err(e) => e.told(),
    }
}
