// A text that is walked: the caller's path, or a link's target.
ghost use Rattle.std.specs.Prelude.{◌≡◌, ◌≤◌, length};
ghost use Rattle.base.specs.Told.{code};
ghost use Rattle.base.specs.Count.{bit};
ghost use Rattle.base.specs.Out.{answer, ensure};
ghost use Rattle.base.specs.Reasons.{bad_name};
ghost use Rattle.walk.specs.Walk.{from_root, part_at, split as split_text, good_text};
ghost use Rattle.walk_parts.specs.Texts.{end_at, next_at, left_of, bound_of};

use base::Reason;
use calls::good_name;
use utf8::{SLASH, equal, first_of};

pub fn from_root(text: &[u8]) -> bool
    ensures { result ≡ from_root text.now }
{
    if text.len() == 0 {
        return false;
    }
    text[0] == SLASH
}

// Where the first part begins: after a leading slash.
pub fn skip(text: &[u8]) -> usize
    ensures { (result ≡ bit (from_root text.now)) × (result ≤ length text.now) }
{
    if from_root(text) {
        return 1;
    }
    0
}

fn part_at(text: &[u8], i: usize) -> bool
    ensures { result ≡ part_at text.now i }
{
    if i < text.len() {
        return text[i] != SLASH;
    }
    false
}

fn split(text: &[u8]) -> bool
    ensures { result ≡ split_text text.now }
{
    if !part_at(text, 0) {
        return false;
    }
    let n = text.len();
    for i in 0..n {
        if (text[i] == SLASH) & !part_at(text, i + 1) {
            return false;
        }
    }
    true
}

// 5 where it is not good.
pub fn good_text(text: &[u8]) -> Result<(), Reason>
    ensures { code result ≡ answer (ensure (good_text text.now) bad_name) }
{
    good_name(text)?;
    if equal(text, b"/") {
        return Ok(());
    }
    let s = skip(text);
    if split(&text[s..]) {
        return Ok(());
    }
    Err(Reason::BadName)
}

// The part that begins at i ends there.
pub fn end_at(text: &[u8], i: usize) -> usize
    requires { i ≤ length text.now }
    ensures { (result ≡ end_at text.now i) × ((i ≤ result) × (result ≤ length text.now)) }
{
    i + first_of(&text[i..], SLASH)
}

// And the next one begins there.
pub fn next_at(text: &[u8], e: usize) -> usize
    requires { e ≤ length text.now }
    ensures { (result ≡ next_at text.now e) × (result ≤ length text.now) }
{
    if e < text.len() {
        return e + 1;
    }
    e
}

// What is left of the text at hand: a part of the caller's path, or of the link buffer.
pub fn rest<'a>(path: &'a [u8], links: &'a [u8], depth: usize, from: usize, to: usize) -> &'a [u8]
    requires { (from ≤ to) × (to ≤ bound_of path.now links.now depth) }
    ensures { result.now ≡ left_of path.now links.now depth from to }
{
    if depth == 0 {
        return &path[from..to];
    }
    &links[from..to]
}
