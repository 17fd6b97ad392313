// Words and numbers as text. A writer answers where the text now ends; its caller has seen to the room.
ghost use Rattle.std.specs.Prelude.{◌≡◌, ◌+◌, ◌<◌, ◌≤◌, length};

use base::copy;
use std::num::wrapping_sub_u64;

pub fn put_word(text: &mut [u8], w: usize, word: &[u8]) -> usize
    requires { w + length word.now ≤ length text.old }
    ensures { result ≡ w + length word.now }
{
    let e = w + word.len();
    copy(&mut text[w..e], word);
    e
}

// The digits of n, 20 at most, at the end; the byte before them stays as it is.
fn put_digits(digits: &mut [u8], n: u64) -> usize
    requires { length digits.old ≡ 21 }
    ensures { (0 < result) × (result ≤ 21) }
{
    let mut i: usize = 21;
    let mut left = n;
    while i > 1 {
        i = i - 1;
        digits[i] = 48 + ((left % 10) as u8);
        left = left / 10;
        if left == 0 {
            return i;
        }
    }
    i
}

// A space before it.
pub fn put_value(text: &mut [u8], w: usize, n: u64) -> usize
    requires { w + 21 ≤ length text.old }
    ensures { result ≤ w + 21 }
{
    let mut digits = [b' '; 21];
    let from = put_digits(&mut digits, n) - 1;
    put_word(text, w, &digits[from..])
}

// The 64 bits of a number below 0.
pub fn put_negative(text: &mut [u8], w: usize, bits: u64) -> usize
    requires { w + 22 ≤ length text.old }
    ensures { result ≤ w + 22 }
{
    let e = put_value(text, w + 1, wrapping_sub_u64(0, bits));
    put_word(text, w, b" -");
    e
}
