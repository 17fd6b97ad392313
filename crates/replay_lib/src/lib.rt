// The call script (docs/REPLAY.md): a script, a lent arena and a lent text buffer; one line for each call.
// What is kept between two runs stands in a lent desk (script/src/lib.rt).
#![tactic(auto)]

mod perform;

ghost use Rattle.std.specs.Prelude.{◌≡◌, false, ◌+◌, ◌<◌, ◌≤◌, length, get_or};
ghost use Rattle.le.specs.Le.{le_at};
ghost use Rattle.replay_lib.specs.Steps.{ended_in, to_go};

use le::{put_u64, u64_at};
use perform::perform;
use script::shape::size_of;
use script::text::put_word;
use table_bytes::put_empty;

pub const DESK: usize = 4419;

// Room for the longest line.
pub const LINE: usize = 512;

// How far a run has come in the script, and where its text ends.
#[derive(Clone, Copy)]
pub struct Step {
    pub at: usize,
    pub w: usize,
}

// 1 at the script's end.
fn mark(at: usize, end: usize) -> u8
    ensures { result ≡ 0 → at < end }
{
    if at < end { 0 } else { 1 }
}

// The desk takes the place, and whether it is the end.
fn stand(desk: &mut [u8], at: usize, end: usize)
    requires { length desk.old ≡ 4419 }
    ensures { (le_at desk.new 4410 8 ≡ at) × (get_or desk.new 4418 0 ≡ 0 → at < end) }
{
    desk[4418] = mark(at, end);
    put_u64(desk, 4410, at as u64);
}

// At the start: 16 blocks of zeros and the empty table. Buffers that are too small stay as they are.
pub fn begin(desk: &mut [u8], arena: &mut [u8]) {
    if desk.len() != DESK {
        return;
    }
    if arena.len() < 8192 {
        return;
    }
    put_empty(desk);
    base::clear(&mut arena[0..8192]);
    put_u64(desk, 4402, 8192);
    stand(desk, 0, 1);
}

// The command that `rest` begins with. The byte 0 ends the run, and so does a broken format, with a line of its own.
fn advance(rest: &[u8], desk: &mut [u8], arena: &mut [u8], text: &mut [u8], w: usize) -> Step
    requires { (0 < length rest.now) × ((length desk.old ≡ 4419) × (w + 512 ≤ length text.old)) }
    ensures { (0 < result.at) × ((result.at ≤ length rest.now) × (result.w ≤ w + 512)) }
{
    let end = rest.len();
    if rest[0] == 0 {
        return Step { at: end, w: w };
    }
    let n = size_of(rest, arena.len());
    if n == 0 {
        return Step {
            at: end,
            w: put_word(text, w, b"bad script\n"),
        };
    }
    Step {
        at: n,
        w: perform(&rest[0..n], desk, arena, text, w),
    }
}

// On from a place until the script ends or the text may not take another line.
fn run_from(script: &[u8], from: usize, desk: &mut [u8], arena: &mut [u8], text: &mut [u8]) -> Step
    requires { length desk.old ≡ 4419 }
    ensures from_le_at { (from ≤ result.at) × (result.w ≤ length text.old) }
    ensures from_lt_at { 512 ≤ length text.old → from < length script.now → from < result.at }
{
    let mut at = from;
    let mut w: usize = 0;
    // A while: how long a command is says where the next begins.
    while at < script.len() {
        if text.len() - w < LINE {
            return Step { at: at, w: w };
        }
        let s = advance(&script[at..], desk, arena, text, w);
        at = at + s.at;
        w = s.w;
    }
    Step { at: at, w: w }
}

pub fn ended(desk: &[u8]) -> bool
    ensures { result ≡ ended_in desk.now }
{
    if desk.len() != DESK {
        return true;
    }
    desk[4418] != 0
}

// Runs the script on and answers how much text there is. With room for a line each run goes on, so that a loop over it ends.
pub fn run(script: &[u8], desk: &mut [u8], arena: &mut [u8], text: &mut [u8]) -> usize
    ensures upper_bound { result ≤ length text.old }
    ensures desk_bound { 512 ≤ length text.old → ended_in desk.old ≡ false → to_go (length script.now) desk.new < to_go (length script.now) desk.old }
{
    if ended(&desk[..]) {
        return 0;
    }
    let from = u64_at(&desk[..], 4410) as usize;
    let s = run_from(script, from, desk, arena, text);
    stand(desk, s.at, script.len());
    s.w
}

#[unsafe(no_mangle)]
pub extern "C" fn replay_begin(desk: &mut [u8], arena: &mut [u8]) {
    begin(desk, arena);
}

#[unsafe(no_mangle)]
pub extern "C" fn replay_run(
    script: &[u8],
    desk: &mut [u8],
    arena: &mut [u8],
    text: &mut [u8],
) -> usize {
    run(script, desk, arena, text)
}
