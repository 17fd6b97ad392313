// A call's line, from what it answered (`record`).
ghost use Rattle.std.specs.Prelude.{◌≡◌, ◌+◌, ◌<◌, ◌≤◌, length};

use crate::record::KEPT;
use crate::text::{put_negative, put_value};
use le::u64_at;
use sums::sum;

// ---- the words, by their rows in one table: a call's name in the row of its byte's remainder, as bytes from 16 to 47 have one each

const NO: usize = 32;

const OK: usize = 33;

const FAIL: usize = 34;

const PASS: usize = 35;

const UNUSED: usize = 36;

const FREE: usize = 37;

const OUTPUT: usize = 38;

const NEXT: usize = 39;

const ARENA: usize = 40;

const TABLE: usize = 41;

const END: usize = 42;

// The word in a row of 13 bytes, which ends before a dot.
fn put_row(text: &mut [u8], w: usize, words: &[u8], s: usize) -> usize
    requires { (w + 13 ≤ length text.old) × (s + 13 ≤ length words.now) }
    ensures { result ≤ w + 13 }
{
    let mut i: usize = 0;
    while i < 13 {
        if words[s + i] == b'.' {
            return w + i;
        }
        text[w + i] = words[s + i];
        i = i + 1;
    }
    w + i
}

// (A match with an arm for each takes half a minute to prove.)
fn put_known(text: &mut [u8], w: usize, k: usize) -> usize
    requires { (w + 13 ≤ length text.old) × (k < 43) }
    ensures { result ≤ w + 13 }
{
    put_row(
        text,
        w,
        b"read.........write........resize.......walk.........\
          remove-file..remove-folderinventory....mend.........\
          fallocate....path...................................\
          ....................................................\
          format.......open.........root.........find.........\
          create.......link......................move.........\
          metadata.....set..........entry........list.........\
          sync.........close........check.....................\
          \x20no.......... ok.......... fail rule... pass nodes..\
          \x20unused...... free........ o........... p...........\
          \x20a........... t...........\n............",
        13 * k,
    )
}

// And a number.
fn put_labelled(text: &mut [u8], w: usize, k: usize, n: u64) -> usize
    requires { (w + 34 ≤ length text.old) × (k < 43) }
    ensures { result ≤ w + 34 }
{
    let v = put_known(text, w, k);
    put_value(text, v, n)
}

// ---- the answer

// From the sixth number on it may be below 0: metadata's times.
fn put_said(text: &mut [u8], w: usize, i: usize, n: u64) -> usize
    requires { w + 22 ≤ length text.old }
    ensures { result ≤ w + 22 }
{
    if (i > 4) & (n > 9223372036854775807) {
        return put_negative(text, w, n);
    }
    put_value(text, w, n)
}

// The first n numbers.
fn put_values(text: &mut [u8], w: usize, answer: &[u8], n: usize) -> usize
    requires { (length answer.now ≡ 8320) × ((n ≤ 14) × (w + 308 ≤ length text.old)) }
    ensures { result ≤ w + 308 }
{
    let mut i: usize = 0;
    let mut v = w;
    while i < n {
        v = put_said(text, v, i, u64_at(answer, 8192 + 8 * i));
        i = i + 1;
    }
    v
}

// How many numbers a call gives.
fn values_of(c: u64) -> usize
    ensures { result ≤ 14 }
{
    match c {
        18 | 19 | 20 | 35 => 2,
        24 => 14,
        27 | 32 | 38 | 41 => 1,
        _ => 0,
    }
}

fn put_done(text: &mut [u8], w: usize, answer: &[u8]) -> usize
    requires { (length answer.now ≡ 8320) × (w + 321 ≤ length text.old) }
    ensures { result ≤ w + 321 }
{
    let v = put_known(text, w, OK);
    put_values(text, v, answer, values_of(u64_at(answer, 8312)))
}

fn put_answer(text: &mut [u8], w: usize, answer: &[u8]) -> usize
    requires { (length answer.now ≡ 8320) × (w + 321 ≤ length text.old) }
    ensures { result ≤ w + 321 }
{
    let r = u64_at(answer, 8304);
    if (r == 0) | (r == (KEPT as u64)) {
        return put_done(text, w, answer);
    }
    put_labelled(text, w, NO, r)
}

fn put_pass(text: &mut [u8], w: usize, answer: &[u8]) -> usize
    requires { (length answer.now ≡ 8320) × (w + 102 ≤ length text.old) }
    ensures { result ≤ w + 102 }
{
    let a = put_labelled(text, w, PASS, u64_at(answer, 8192));
    let b = put_labelled(text, a, UNUSED, u64_at(answer, 8200));
    put_labelled(text, b, FREE, u64_at(answer, 8208))
}

fn put_verdict(text: &mut [u8], w: usize, answer: &[u8]) -> usize
    requires { (length answer.now ≡ 8320) × (w + 102 ≤ length text.old) }
    ensures { result ≤ w + 102 }
{
    let r = u64_at(answer, 8304);
    if r == (KEPT as u64) {
        return put_pass(text, w, answer);
    }
    put_labelled(text, w, FAIL, r)
}

fn put_words(text: &mut [u8], w: usize, answer: &[u8]) -> usize
    requires { (length answer.now ≡ 8320) × (w + 334 ≤ length text.old) }
    ensures { result ≤ w + 334 }
{
    let c = u64_at(answer, 8312);
    let v = put_known(text, w, (c % 32) as usize);
    if c == 30 {
        return put_verdict(text, v, answer);
    }
    put_answer(text, v, answer)
}

// ---- the output's sum, over all its bytes, also where the call refused

fn put_output(text: &mut [u8], w: usize, answer: &[u8]) -> usize
    requires { (length answer.now ≡ 8320) × (w + 34 ≤ length text.old) }
    ensures { result ≤ w + 34 }
{
    put_labelled(text, w, OUTPUT, sum(&answer[0..8192]))
}

// And the listing's next slot.
fn put_listed(text: &mut [u8], w: usize, answer: &[u8]) -> usize
    requires { (length answer.now ≡ 8320) × (w + 68 ≤ length text.old) }
    ensures { result ≤ w + 68 }
{
    let v = put_output(text, w, answer);
    put_labelled(text, v, NEXT, u64_at(answer, 8200))
}

fn put_shown(text: &mut [u8], w: usize, answer: &[u8]) -> usize
    requires { (length answer.now ≡ 8320) × (w + 68 ≤ length text.old) }
    ensures { result ≤ w + 68 }
{
    match u64_at(answer, 8312) {
        26 | 32 | 35 | 38 | 41 => put_output(text, w, answer),
        27 => put_listed(text, w, answer),
        _ => w,
    }
}

// ---- the line

// But for its end.
pub fn put_call(text: &mut [u8], w: usize, answer: &[u8]) -> usize
    requires { (length answer.now ≡ 8320) × (w + 402 ≤ length text.old) }
    ensures { result ≤ w + 402 }
{
    let v = put_words(text, w, answer);
    put_shown(text, v, answer)
}

// The end: the sums over the arena and over the table's bytes.
pub fn put_sums(text: &mut [u8], w: usize, desk: &[u8], arena: &[u8]) -> usize
    requires { (length desk.now ≡ 4419) × (w + 81 ≤ length text.old) }
    ensures { result ≤ w + 81 }
{
    let a = put_labelled(text, w, ARENA, sum(arena));
    let b = put_labelled(text, a, TABLE, sum(&desk[0..4402]));
    put_known(text, b, END)
}
