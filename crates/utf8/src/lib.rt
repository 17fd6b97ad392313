// UTF-8 by RFC 3629, and names: what a caller may ask for, what a slot holds, and whether the two are one.
#![tactic(auto)]

ghost use Rattle.std.specs.Prelude.{◌≡◌, ◌≤◌, length};
ghost use Rattle.base.specs.Told.{code};
ghost use Rattle.base.specs.Decides.{same};
ghost use Rattle.utf8.specs.Names.{first_at, zero_at, name_verdict, early_reason, new_reason, is_dot, is_dots, is_special, stored_name, is_named, name_bytes};
ghost use Rattle.utf8.specs.Utf8.{lead, step, tail, is_whole, utf8};

use base::{Reason, copy};

// The longest name: a slot has room for it and a zero.
pub const MAX_FNAME_LEN: usize = 255;

// What splits a path, and so no new name may have.
pub const SLASH: u8 = 47;

// Where a reader of UTF-8 stands.
#[derive(Clone, Copy, PartialEq, Eq)]
pub enum State {
    // Between two characters.
    Whole,
    // Inside a character: the lowest and the highest next byte, and how many tails come after it.
    Wants(u8, u8, u8),
    // Past a byte that no character has there.
    Wrong,
}

// What a caller's name is: good, good but with a slash, or bad. One that is not bad may still be too long, which is looked at later.
#[derive(Clone, Copy, PartialEq, Eq)]
pub enum NameVerdict {
    Good { long: bool },
    Slashed { long: bool },
    Bad,
}

// What the name in a slot is: its length, or that it has no zero or is no UTF-8.
#[derive(Clone, Copy, PartialEq, Eq)]
pub enum StoredName {
    Ended(usize),
    Broken,
}

// What a lead byte asks to come after it.
#[tactic(auto, unfolding(crate::specs::Utf8::lead, crate::specs::Utf8::within))]
fn lead(b: u8) -> State
    ensures { result ≡ lead b }
{
    match b {
        0x00..=0x7F => State::Whole,
        0x80..=0xC1 => State::Wrong,
        0xC2..=0xDF => State::Wants(0x80, 0xBF, 0),
        0xE0 => State::Wants(0xA0, 0xBF, 1),
        0xE1..=0xEC => State::Wants(0x80, 0xBF, 1),
        0xED => State::Wants(0x80, 0x9F, 1),
        0xEE..=0xEF => State::Wants(0x80, 0xBF, 1),
        0xF0 => State::Wants(0x90, 0xBF, 2),
        0xF1..=0xF3 => State::Wants(0x80, 0xBF, 2),
        0xF4 => State::Wants(0x80, 0x8F, 2),
        _ => State::Wrong,
    }
}

// One byte more.
#[tactic(auto, unfolding(crate::specs::Utf8::step))]
fn step(s: State, b: u8) -> State
    ensures { result ≡ step s b }
{
    match s {
        State::Whole => lead(b),
        State::Wants(low, high, more) => tail(low, high, more, b),
        State::Wrong => State::Wrong,
    }
}

// One byte more inside a character.
#[tactic(auto, unfolding(crate::specs::Utf8::tail, crate::specs::Utf8::within))]
fn tail(low: u8, high: u8, more: u8, b: u8) -> State
    ensures { result ≡ tail low high more b }
{
    if b < low || b > high {
        State::Wrong
    } else if more == 0 {
        State::Whole
    } else {
        State::Wants(0x80, 0xBF, more - 1)
    }
}

fn is_whole(s: State) -> bool
    ensures { result ≡ is_whole s }
{
    matches!(s, State::Whole)
}

// Whether s is UTF-8.
pub fn valid(s: &[u8]) -> bool
    ensures { result ≡ utf8 s.now }
{
    let mut at = State::Whole;
    for b in s {
        at = step(at, *b);
    }
    is_whole(at)
}

// The place of the first byte b, or the length.
pub fn first_of(s: &[u8], b: u8) -> usize
    ensures { result ≡ first_at b s.now }
{
    s.iter().position(|x| *x == b).unwrap_or(s.len())
}

// The place of the first zero byte, or the length.
#[tactic(auto, unfolding(crate::specs::Names::zero_at))]
pub fn first_zero(s: &[u8]) -> usize
    ensures { result ≡ zero_at s.now }
{
    first_of(s, 0)
}

// Whether two slices have the same bytes.
#[tactic(auto, using(crate::proofs::Names::same_pointwise))]
pub fn equal(a: &[u8], b: &[u8]) -> bool
    ensures { result ≡ same a.now b.now }
{
    a == b
}

#[tactic(auto, unfolding(crate::specs::Names::name_verdict, crate::specs::Names::has_zero, crate::specs::Names::has_slash))]
pub fn name_verdict(name: &[u8]) -> NameVerdict
    ensures { result ≡ name_verdict name.now }
{
    let long = name.len() > MAX_FNAME_LEN;
    if first_zero(name) < name.len() || !valid(name) {
        return NameVerdict::Bad;
    }
    if first_of(name, SLASH) < name.len() {
        return NameVerdict::Slashed { long };
    }
    NameVerdict::Good { long }
}

// Document 01's reason where names are looked at first.
pub fn early_reason(v: NameVerdict) -> Result<(), Reason>
    ensures { code result ≡ early_reason v }
{
    match v {
        NameVerdict::Good { long: _ } => Ok(()),
        NameVerdict::Slashed { long: _ } => Ok(()),
        NameVerdict::Bad => Err(Reason::BadName),
    }
}

// The same where the name is a new one.
pub fn new_reason(v: NameVerdict) -> Result<(), Reason>
    ensures { code result ≡ new_reason v }
{
    match v {
        NameVerdict::Good { long: _ } => Ok(()),
        NameVerdict::Slashed { long: _ } => Err(Reason::BadName),
        NameVerdict::Bad => Err(Reason::BadName),
    }
}

#[tactic(auto, unfolding(crate::specs::Names::is_dot))]
pub fn is_dot(name: &[u8]) -> bool
    ensures { result ≡ is_dot name.now }
{
    equal(name, b".")
}

#[tactic(auto, unfolding(crate::specs::Names::is_dots))]
pub fn is_dots(name: &[u8]) -> bool
    ensures { result ≡ is_dots name.now }
{
    equal(name, b"..")
}

// The names that removals and move refuse.
#[tactic(auto, unfolding(crate::specs::Names::is_special))]
pub fn is_special(name: &[u8]) -> bool
    ensures { result ≡ is_special name.now }
{
    name.is_empty() || is_dot(name) || is_dots(name)
}

#[tactic(auto, unfolding(crate::specs::Names::stored_name, crate::specs::Names::has_zero))]
pub fn stored_name(s: &[u8]) -> StoredName
    ensures { result ≡ stored_name s.now }
{
    let n = first_zero(s);
    if n < s.len() && valid(&s[..n]) {
        StoredName::Ended(n)
    } else {
        StoredName::Broken
    }
}

// Whether the name in a slot is the one that is asked for. The empty name asks for `.`.
pub fn is_named(s: &[u8], name: &[u8]) -> bool
    ensures { result ≡ is_named s.now name.now }
{
    let stored = &s[..first_zero(s)];
    if name.is_empty() {
        return equal(stored, b".");
    }
    equal(stored, name)
}

// The name of a new slot, and zeros after it.
pub fn put_name(out: &mut [u8], name: &[u8])
    requires { (length out.old ≡ 256) × (length name.now ≤ 255) }
    ensures { out.new ≡ name_bytes name.now }
{
    let n = name.len();
    copy(&mut out[..n], name);
    out[n..].fill(0);
}
