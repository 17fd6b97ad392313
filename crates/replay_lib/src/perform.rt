// What a command does and prints. Its bytes are whole.
ghost use Rattle.std.specs.Prelude.{◌≡◌, ◌+◌, ◌<◌, ◌≤◌, length};
ghost use Rattle.mem.specs.Mem.{Whole};

use mem::MEMORY;
use replay_calls::reads::{check, inventory, look, path, reach};
use replay_calls::{change, make, mend};
use script::COMMAND;
use script::args::lay;
use script::desk::{arena_len, do_quiet, from_memory, to_memory};
use script::lines::{put_call, put_sums};
use script::record::{ANSWER, end};

// A call by its byte.
fn do_call(command: &[u8], arena: &mut [u8], mem: &mut [u8], answer: &mut [u8]) -> u8
    requires command_len { (length command.now ≡ 8218) × (length answer.old ≡ 8320) }
    requires whole { Whole mem.old }
{
    match command[0] {
        16 | 17 | 20 => make(command, arena, mem, answer),
        18 | 19 | 35 => reach(command, &arena[..], mem, answer),
        24 | 26 | 27 | 32 => look(command, &arena[..], &mem[..], answer),
        30 => check(&arena[..], mem, answer),
        38 => inventory(command, &arena[..], answer),
        39 => mend(arena, mem),
        41 => path(command, &arena[..], mem, answer),
        _ => change(command, arena, mem),
    }
}

// With a place for the command and memory of its own.
fn do_fresh(bytes: &[u8], desk: &mut [u8], arena: &mut [u8], answer: &mut [u8])
    requires { (length desk.old ≡ 4419) × (length answer.old ≡ 8320) }
{
    let mut command = [0u8; COMMAND];
    let mut mem = [0u8; MEMORY];
    lay(&mut command, bytes);
    to_memory(&desk[..], &mut mem);
    let r = do_call(&command, arena, &mut mem, answer);
    from_memory(desk, &mem, r);
    end(answer, command[0], r);
}

// A call and its line.
fn do_line(bytes: &[u8], desk: &mut [u8], arena: &mut [u8], text: &mut [u8], w: usize) -> usize
    requires { (length desk.old ≡ 4419) × (w + 512 ≤ length text.old) }
    ensures { result ≤ w + 512 }
{
    let mut answer = [238u8; ANSWER];
    do_fresh(bytes, desk, arena, &mut answer);
    let v = put_call(text, w, &answer);
    put_sums(text, v, &desk[..], &arena[..])
}

// Calls are lent as much of the arena as is there.
pub fn perform(bytes: &[u8], desk: &mut [u8], arena: &mut [u8], text: &mut [u8], w: usize) -> usize
    requires { (0 < length bytes.now) × ((length desk.old ≡ 4419) × (w + 512 ≤ length text.old)) }
    ensures { result ≤ w + 512 }
{
    if bytes[0] <= 4 {
        do_quiet(bytes, desk, arena);
        return w;
    }
    let n = arena_len(&desk[..], arena.len());
    do_line(bytes, desk, &mut arena[0..n], text, w)
}
