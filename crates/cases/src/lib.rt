// What a program is run on: its input; or its cases, for a gate that runs it once: files of its folder data/, each named by an argument.
#![tactic(auto)]

ghost use Rattle.std.specs.Io.{ReadsAtMost};

use std::env::FillError;
use std::io::{Cursor, ErrorKind, Read, Write};
use std::rt::{Env, Files};
use std::{fs, io};

// Reads until buf is full or the input ends: how many bytes came.
pub fn read_full(input: &mut impl Read, buf: &mut [u8]) -> io::Result<usize>
    ensures { ReadsAtMost result buf.new }
{
    let mut done = 0;
    // A while: how far a turn goes is what the read says, not a counter.
    while done < buf.len() {
        let n = input.read(&mut buf[done..])?;
        if n == 0 {
            break;
        }
        done += n;
    }
    Ok(done)
}

// How many arguments there are, the program's name among them.
pub fn arg_count(rt: &impl Env) -> usize {
    for i in 0..usize::MAX {
        if let Err(FillError::NotPresent) = rt.arg(i, &mut []) {
            return i;
        }
    }
    usize::MAX
}

// The reason as C words it, without the number that std writes behind it.
fn reason(text: &str) -> &str {
    text.split_once(" (os error ")
        .map_or(text, |(words, _)| words)
}

// std names files by text, so other bytes are an error.
fn text_of(bytes: &[u8]) -> io::Result<&str> {
    std::str::from_utf8(bytes).map_err(|_| io::Error::from(ErrorKind::InvalidData))
}

// A line on standard error: what failed, and why.
fn fail(rt: &impl Eprint, what: &str, error: io::Error) -> io::Result<()> {
    let mut room = [0u8; 512];
    let mut text = Cursor::new(&mut room[..]);
    write!(text, "{error}")?;
    let n = text.position() as usize;
    let bytes = room.get(..n).ok_or(ErrorKind::InvalidData)?;
    let why = reason(text_of(bytes)?);
    eprintln!(rt; "{what}: {why}")
}

// Argument i is printed, and the file that it names is opened; or there is none, and the reason on standard error.
pub fn open<R: Env + Files + Print + Eprint>(rt: &R, i: usize) -> io::Result<Option<R::File>> {
    let mut buf = [0u8; 4096];
    let n = rt.arg(i, &mut buf).unwrap_or(0);
    rt.write_all(&buf[..n])?;
    rt.write_all(b": ")?;
    let name = text_of(&buf[..n])?;
    match fs::open(rt, name) {
        Ok(file) => Ok(Some(file)),
        Err(e) => {
            fail(rt, name, e)?;
            Ok(None)
        }
    }
}
