// The inventory's lines (order 10) as bytes of a lent output: numbers in decimal, names escaped; and how long each is, before a byte is written.
#![tactic(auto)]

ghost use Rattle.std.specs.Prelude.{◌≡◌, ◌++◌, ◌+◌, ◌≤◌, length};
ghost use Rattle.base.specs.Parts.{part, paste};
ghost use Rattle.inventory.specs.Text.{decimal, space};
ghost use Rattle.inventory_lines.specs.Lines.{line_head, line_tail};

pub mod names;
pub mod numbers;

use names::{copy_on, escaped_size, put_escaped};
use numbers::{number_size, put_number};

const SLASH: u8 = 47;

const SPACE: u8 = 32;

const NEWLINE: u8 = 10;

// ---- a line begins with three numbers, each with a space behind it

pub fn head_size(id: u32, kind: u32, links: u32) -> usize
    ensures { (result ≡ length (line_head id kind links)) × (result ≤ 12884901891) }
{
    number_size(id) + number_size(kind) + number_size(links) + 3
}

fn put_word(out: &mut [u8], at: usize, n: u32) -> usize
    requires { at + length (decimal n ++ space) ≤ length out.old }
    ensures { (result ≡ at + length (decimal n ++ space)) × (out.new ≡ paste out.old at (decimal n ++ space)) }
{
    let end = put_number(out, at, n);
    out[end] = SPACE;
    end + 1
}

// From `at` on; where it ends.
pub fn put_head(out: &mut [u8], at: usize, id: u32, kind: u32, links: u32) -> usize
    requires { at + length (line_head id kind links) ≤ length out.old }
    ensures { (result ≡ at + length (line_head id kind links)) × (out.new ≡ paste out.old at (line_head id kind links)) }
{
    let a = put_word(out, at, id);
    let b = put_word(out, a, kind);
    put_word(out, b, links)
}

// ---- and ends with a slash, the name and a newline

pub fn tail_size(name: &[u8]) -> usize
    requires { length name.now ≤ 256 }
    ensures { (result ≡ length (line_tail name.now)) × (result ≤ 770) }
{
    escaped_size(name) + 2
}

fn put_tail(out: &mut [u8], at: usize, name: &[u8])
    requires { at + length (line_tail name.now) ≤ length out.old }
    ensures { out.new ≡ paste out.old at (line_tail name.now) }
{
    out[at] = SLASH;
    let end = put_escaped(out, at + 1, name);
    out[end] = NEWLINE;
}

// The path from `at` on, and the newline: the folder's path, whose bytes stand from `from` on before `at`, and then the name.
pub fn put_path(out: &mut [u8], at: usize, from: usize, path: usize, name: &[u8])
    requires { (from + path ≤ at) × (at + path + length (line_tail name.now) ≤ length out.old) }
    ensures { out.new ≡ paste out.old at (part out.old from (from + path) ++ line_tail name.now) }
{
    copy_on(out, from, at, path);
    put_tail(out, at + path, name);
}
