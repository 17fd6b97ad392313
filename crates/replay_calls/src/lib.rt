// The calls of a script, on the table in memory: those of `reads`, and here open and those that change the arena. Each takes its
// arguments from the command, whose second byte is who asks, and answers a reason, with output and numbers beside it (`answers`).
#![tactic(auto)]

pub mod reads;

ghost use Rattle.std.specs.Prelude.{◌≡◌, ◌+◌, ◌≤◌, length};
ghost use Rattle.mem.specs.Mem.{Whole};

use answers::say_done;
use base::{Reason, code};
use calls_create::New;
use calls_move::Course;
use le::{u16_at, u32_at, u64_at};
use mem::put_empty;
use ranges::mode_of;
use reads::{say_hold, set};
use script::args::{file_at, handle_at, name_at, time_at};
use script::record::KEPT;

// ---- format, open: the empty table

fn start(command: &[u8], arena: &mut [u8]) -> Result<(), Reason>
    requires { length command.now ≡ 8218 }
{
    if command[0] == 17 {
        return calls_open::open_on(&arena[..]);
    }
    let time = time_at(command, 1);
    let file = file_at(command, 17);
    calls_format::format_on(arena, time, file)
}

fn start_empty(command: &[u8], arena: &mut [u8], mem: &mut [u8]) -> Result<(), Reason>
    requires command_len { length command.now ≡ 8218 }
    requires whole { Whole mem.old }
{
    let r = start(command, arena);
    if r.is_ok() {
        put_empty(mem);
    }
    r
}

// ---- create

// What create makes, 38 bytes.
fn new_at(command: &[u8], at: usize) -> New
    requires { at + 38 ≤ length command.now }
{
    New {
        kind: u32_at(command, at),
        mode: u16_at(command, at + 4),
        time: time_at(command, at + 6),
        file: file_at(command, at + 22),
    }
}

fn create(command: &[u8], arena: &mut [u8], mem: &mut [u8], answer: &mut [u8]) -> u8
    requires command_len { (length command.now ≡ 8218) × (length answer.old ≡ 8320) }
    requires whole { Whole mem.old }
{
    let h = handle_at(command, 2);
    let name = name_at(command, 14, 1024);
    let new = new_at(command, 16 + name.len());
    let made = calls_create::create_on(arena, mem, command[1], h, name, new);
    say_hold(answer, made)
}

pub fn make(command: &[u8], arena: &mut [u8], mem: &mut [u8], answer: &mut [u8]) -> u8
    requires command_len { (length command.now ≡ 8218) × (length answer.old ≡ 8320) }
    requires whole { Whole mem.old }
{
    if command[0] == 20 {
        return create(command, arena, mem, answer);
    }
    code(start_empty(command, arena, mem))
}

// ---- those that answer a reason alone: link, move, remove-file and remove-folder

fn link(command: &[u8], arena: &mut [u8], mem: &mut [u8]) -> Result<(), Reason>
    requires command_len { length command.now ≡ 8218 }
    requires whole { Whole mem.old }
{
    let h = handle_at(command, 2);
    let name = name_at(command, 14, 1024);
    let child = handle_at(command, 16 + name.len());
    calls_link::link_on(arena, mem, command[1], h, name, child)
}

// Where both names are one node's, memory's table says nothing.
fn say_course(r: Result<Course, Reason>) -> u8 {
    match r {
        Ok(Course::Made) => 0,
        Ok(Course::Same) => KEPT,
        Err(reason) => reason.number(),
    }
}

fn move_node(command: &[u8], arena: &mut [u8], mem: &mut [u8]) -> u8
    requires command_len { length command.now ≡ 8218 }
    requires whole { Whole mem.old }
{
    let h = handle_at(command, 2);
    let old = name_at(command, 14, 1024);
    let at = 16 + old.len();
    let target = handle_at(command, at);
    let name = name_at(command, at + 12, 1024);
    say_course(calls_move::move_on(arena, mem, command[1], h, old, target, name))
}

fn remove(command: &[u8], arena: &mut [u8], mem: &mut [u8]) -> Result<(), Reason>
    requires command_len { length command.now ≡ 8218 }
    requires whole { Whole mem.old }
{
    let h = handle_at(command, 2);
    let name = name_at(command, 14, 1024);
    let folder = command[0] == 37;
    calls_remove::remove_on(arena, mem, command[1], h, name, folder)
}

fn rename(command: &[u8], arena: &mut [u8], mem: &mut [u8]) -> u8
    requires command_len { length command.now ≡ 8218 }
    requires whole { Whole mem.old }
{
    match command[0] {
        21 => code(link(command, arena, mem)),
        23 => move_node(command, arena, mem),
        _ => code(remove(command, arena, mem)),
    }
}

// ---- and close, write, resize, fallocate, sync, set metadata

fn close(command: &[u8], arena: &mut [u8], mem: &mut [u8]) -> Result<(), Reason>
    requires command_len { length command.now ≡ 8218 }
    requires whole { Whole mem.old }
{
    let h = handle_at(command, 2);
    calls_close::close_on(arena, mem, command[1], h)
}

fn write(command: &[u8], arena: &mut [u8], mem: &mut [u8]) -> Result<(), Reason>
    requires command_len { length command.now ≡ 8218 }
    requires whole { Whole mem.old }
{
    let h = handle_at(command, 2);
    let place = u64_at(command, 14);
    let bytes = name_at(command, 22, 8192);
    calls_write::write_on(arena, mem, command[1], h, place, bytes)
}

fn resize(command: &[u8], arena: &mut [u8], mem: &mut [u8]) -> Result<(), Reason>
    requires command_len { length command.now ≡ 8218 }
    requires whole { Whole mem.old }
{
    let h = handle_at(command, 2);
    let n = u64_at(command, 14);
    calls_resize::resize_on(arena, mem, command[1], h, n)
}

fn fallocate(command: &[u8], arena: &mut [u8], mem: &mut [u8]) -> Result<(), Reason>
    requires command_len { length command.now ≡ 8218 }
    requires whole { Whole mem.old }
{
    let h = handle_at(command, 2);
    let mode = mode_of(command[14], command[15]);
    let start = u64_at(command, 16);
    let n = u64_at(command, 24);
    calls_fallocate::fallocate_on(arena, mem, command[1], h, mode, start, n)
}

pub fn change(command: &[u8], arena: &mut [u8], mem: &mut [u8]) -> u8
    requires command_len { length command.now ≡ 8218 }
    requires whole { Whole mem.old }
{
    match command[0] {
        25 => code(set(command, &arena[..], mem)),
        28 => code(calls_sync::sync_on(arena, mem)),
        29 => code(close(command, arena, mem)),
        33 => code(write(command, arena, mem)),
        34 => code(resize(command, arena, mem)),
        40 => code(fallocate(command, arena, mem)),
        _ => rename(command, arena, mem),
    }
}

// ---- mend: the table stays

pub fn mend(arena: &mut [u8], mem: &mut [u8]) -> u8
    requires { Whole mem.old }
{
    say_done(calls_mend::mend_on(arena, mem))
}
