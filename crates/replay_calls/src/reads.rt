// The calls of a script that leave the arena as it is, on the table in memory, but for open. Each takes its arguments from the command, whose
// second byte is who asks, and answers a reason, with output and numbers beside it (`answers`).
ghost use Rattle.std.specs.Prelude.{◌≡◌, length};
ghost use Rattle.mem.specs.Mem.{Whole};

use answers::{say_count, say_done, say_handed, say_pass, say_told};
use base::Reason;
use calls::refusals::told;
use calls_list::Moved;
use fsck::Verdict;
use le::{u16_at, u64_at};
use mem::table_at;
use script::args::{handle_at, length_at, name_at, time_at};
use script::record::say;
use table::Handle;

// ---- those that change nothing but the answer: metadata, get entry, listing, read

fn metadata(command: &[u8], arena: &[u8], mem: &[u8], answer: &mut [u8]) -> u8
    requires command_len { (length command.now ≡ 8218) × (length answer.old ≡ 8320) }
    requires whole { Whole mem.now }
{
    let h = handle_at(command, 2);
    let t = calls_metadata::metadata_on(arena, mem, command[1], h);
    say_told(answer, t)
}

fn entry(command: &[u8], arena: &[u8], mem: &[u8], answer: &mut [u8]) -> u8
    requires command_len { (length command.now ≡ 8218) × (length answer.old ≡ 8320) }
    requires whole { Whole mem.now }
{
    let h = handle_at(command, 2);
    let k = u64_at(command, 14);
    let n = length_at(command, 22, 8192);
    let a = calls_entry::entry_on(arena, mem, command[1], h, k, &mut answer[0..n]);
    say_done(a)
}

fn read(command: &[u8], arena: &[u8], mem: &[u8], answer: &mut [u8]) -> u8
    requires command_len { (length command.now ≡ 8218) × (length answer.old ≡ 8320) }
    requires whole { Whole mem.now }
{
    let h = handle_at(command, 2);
    let place = u64_at(command, 14);
    let n = length_at(command, 22, 8192);
    let t = calls_read::read_on(arena, mem, command[1], h, place, &mut answer[0..n]);
    say_count(answer, t)
}

// The call as Rattle has it, with the table by value: it says the next slot too.
fn list(command: &[u8], arena: &[u8], mem: &[u8], out: &mut [u8]) -> Moved
    requires command_len { length command.now ≡ 8218 }
    requires whole { Whole mem.now }
{
    let h = handle_at(command, 2);
    let next = u64_at(command, 14);
    let dots = command[22] != 0;
    calls_list::list_on(arena, table_at(mem), command[1], h, dots, next, out)
}

fn listing(command: &[u8], arena: &[u8], mem: &[u8], answer: &mut [u8]) -> u8
    requires command_len { (length command.now ≡ 8218) × (length answer.old ≡ 8320) }
    requires whole { Whole mem.now }
{
    let n = length_at(command, 23, 8192);
    let m = list(command, arena, mem, &mut answer[0..n]);
    let l = m.answer;
    say(answer, 1, m.next);
    say_count(answer, l)
}

pub fn look(command: &[u8], arena: &[u8], mem: &[u8], answer: &mut [u8]) -> u8
    requires command_len { (length command.now ≡ 8218) × (length answer.old ≡ 8320) }
    requires whole { Whole mem.now }
{
    match command[0] {
        24 => metadata(command, arena, mem, answer),
        26 => entry(command, arena, mem, answer),
        27 => listing(command, arena, mem, answer),
        _ => read(command, arena, mem, answer),
    }
}

// ---- those that answer a handle: root, find, walk

fn find(command: &[u8], arena: &[u8], mem: &mut [u8]) -> Result<Handle, Reason>
    requires command_len { length command.now ≡ 8218 }
    requires whole { Whole mem.old }
{
    let h = handle_at(command, 2);
    let name = name_at(command, 14, 1024);
    calls_find::find_on(arena, mem, command[1], h, name)
}

// The output is the links'.
fn walk(command: &[u8], arena: &[u8], mem: &mut [u8], answer: &mut [u8]) -> Result<Handle, Reason>
    requires command_len { (length command.now ≡ 8218) × (length answer.old ≡ 8320) }
    requires whole { Whole mem.old }
{
    let h = handle_at(command, 2);
    let path = name_at(command, 14, 8192);
    let n = length_at(command, 16 + path.len(), 8192);
    calls_walk::walk_on(arena, mem, command[1], h, path, &mut answer[0..n])
}

fn hold(command: &[u8], arena: &[u8], mem: &mut [u8], answer: &mut [u8]) -> Result<Handle, Reason>
    requires command_len { (length command.now ≡ 8218) × (length answer.old ≡ 8320) }
    requires whole { Whole mem.old }
{
    match command[0] {
        18 => calls_find::root_on(arena, mem, command[1]),
        19 => find(command, arena, mem),
        _ => walk(command, arena, mem, answer),
    }
}

// A refused call hands out no handle: hold and stamp 0.
pub(crate) fn say_hold(answer: &mut [u8], r: Result<Handle, Reason>) -> u8
    requires { length answer.old ≡ 8320 }
{
    say_handed(answer, told(r), r.unwrap_or(Handle { hold: 0, stamp: 0 }))
}

pub fn reach(command: &[u8], arena: &[u8], mem: &mut [u8], answer: &mut [u8]) -> u8
    requires command_len { (length command.now ≡ 8218) × (length answer.old ≡ 8320) }
    requires whole { Whole mem.old }
{
    let h = hold(command, arena, mem, answer);
    say_hold(answer, h)
}

// ---- path

pub fn path(command: &[u8], arena: &[u8], mem: &mut [u8], answer: &mut [u8]) -> u8
    requires command_len { (length command.now ≡ 8218) × (length answer.old ≡ 8320) }
    requires whole { Whole mem.old }
{
    let h = handle_at(command, 2);
    let n = length_at(command, 14, 8192);
    let t = calls_path::path_on(arena, mem, command[1], h, &mut answer[0..n]);
    say_count(answer, t)
}

// ---- set metadata

pub fn set(command: &[u8], arena: &[u8], mem: &mut [u8]) -> Result<(), Reason>
    requires command_len { length command.now ≡ 8218 }
    requires whole { Whole mem.old }
{
    calls_metadata::set_on(
        arena,
        mem,
        command[1],
        handle_at(command, 2),
        u16_at(command, 14),
        u64_at(command, 16),
        u64_at(command, 24),
        time_at(command, 32),
        time_at(command, 48),
        time_at(command, 64),
    )
}

// ---- check

pub fn check(arena: &[u8], mem: &mut [u8], answer: &mut [u8]) -> u8
    requires answer_len { length answer.old ≡ 8320 }
    requires whole { Whole mem.old }
{
    let v = fsck::check_on(arena, mem);
    match v {
        Verdict::Pass {
            nodes,
            unused,
            free,
        } => say_pass(answer, nodes, unused, free),
        Verdict::Fail(rule) => rule,
    }
}

// ---- inventory

pub fn inventory(command: &[u8], arena: &[u8], answer: &mut [u8]) -> u8
    requires { (length command.now ≡ 8218) × (length answer.old ≡ 8320) }
{
    let n = length_at(command, 1, 8192);
    let t = calls_inventory::inventory(arena, &mut answer[0..n]);
    say_count(answer, t)
}
