// A name as a line has it: bytes below 33, 127 and the backslash become a backslash and two lowercase hex digits.
ghost use Rattle.std.specs.Prelude.{◌≡◌, ◌+◌, ◌<◌, ◌≤◌, length};
ghost use Rattle.base.specs.Parts.{part, paste};
ghost use Rattle.inventory.specs.Text.{is_escaped, hex_digit, escape_byte, escape};

const BACKSLASH: u8 = 92;

const DELETE: u8 = 127;

fn is_escaped(b: u8) -> bool
    ensures { result ≡ is_escaped b }
{
    (b < 33) | ((b == DELETE) | (b == BACKSLASH))
}

fn byte_size(b: u8) -> usize
    ensures { (result ≡ length (escape_byte b)) × (result ≤ 3) }
{
    if is_escaped(b) { 3 } else { 1 }
}

pub fn escaped_size(name: &[u8]) -> usize
    requires { length name.now ≤ 256 }
    ensures { (result ≡ length (escape name.now)) × (result ≤ 768) }
{
    let mut n = 0;
    for b in name {
        n += byte_size(*b);
    }
    n
}

fn hex_digit(d: u8) -> u8
    requires { d < 16 }
    ensures { result ≡ hex_digit d }
{
    if d < 10 { b'0' + d } else { 87 + d }
}

// One byte from `at` on; where it ends.
fn put_byte(out: &mut [u8], at: usize, b: u8) -> usize
    requires { at + length (escape_byte b) ≤ length out.old }
    ensures { (result ≡ at + length (escape_byte b)) × (out.new ≡ paste out.old at (escape_byte b)) }
{
    if !is_escaped(b) {
        out[at] = b;
        return at + 1;
    }
    out[at] = BACKSLASH;
    out[at + 1] = hex_digit(b / 16);
    out[at + 2] = hex_digit(b % 16);
    at + 3
}

// The name from `at` on; where it ends.
pub fn put_escaped(out: &mut [u8], at: usize, name: &[u8]) -> usize
    requires { at + length (escape name.now) ≤ length out.old }
    ensures { (result ≡ at + length (escape name.now)) × (out.new ≡ paste out.old at (escape name.now)) }
{
    let mut e = at;
    for b in name {
        e = put_byte(out, e, *b);
    }
    e
}

// The n bytes from `from` on once more, at `to`, which lies behind them.
pub fn copy_on(out: &mut [u8], from: usize, to: usize, n: usize)
    requires { (from + n ≤ to) × (to + n ≤ length out.old) }
    ensures { out.new ≡ paste out.old to (part out.old from (from + n)) }
{
    for i in 0..n {
        out[to + i] = out[from + i];
    }
}
