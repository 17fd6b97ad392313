// Runs a call script from standard input: scripts of at most 262,144 bytes, arenas of at most 65,536.
#![tactic(auto)]

ghost use Rattle.std.specs.Prelude.{◌≤◌, length};

use std::io;

fn play(
    rt: &impl Print,
    script: &[u8],
    desk: &mut [u8],
    arena: &mut [u8],
    text: &mut [u8],
) -> io::Result<()>
    requires { 512 ≤ length text.old }
{
    replay_lib::begin(desk, arena);
    // A while: the desk says when the script has ended.
    while !replay_lib::ended(&desk[..]) {
        let n = replay_lib::run(script, desk, arena, text);
        rt.write_all(&text[..n])?;
    }
    Ok(())
}

// With buffers of its own.
fn play_fresh(rt: &impl Print, script: &[u8]) -> io::Result<()> {
    let mut desk = [0u8; 4419];
    let mut arena = [0u8; 65536];
    let mut text = [0u8; 4096];
    play(rt, script, &mut desk, &mut arena, &mut text)
}

fn main(rt: HostRuntime) -> io::Result<()> {
    let mut script = [0u8; 262145];
    let n = cases::read_full(&mut rt.reader(), &mut script)?;
    if n > 262144 {
        return rt.write_all(b"bad script\n");
    }
    play_fresh(&rt, &script[..n])
}
