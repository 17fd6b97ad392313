// What a call answers, for its line:
//   0     the output, all 238 before the call
//   8192  its numbers, 14 of u64
//   8304  the reason, u64: 0 where the call is done, KEPT where it is done and leaves the table alone, else the refusal's number (of the
//         check, the rule's)
//   8312  the command's byte, u64
ghost use Rattle.std.specs.Prelude.{◌≡◌, ◌<◌, length};

use le::put_u64;

pub const ANSWER: usize = 8320;

pub const KEPT: u8 = 255;

pub fn say(answer: &mut [u8], k: usize, n: u64)
    requires { (length answer.old ≡ 8320) × (k < 16) }
{
    put_u64(answer, 8192 + 8 * k, n);
}

// What the line is about.
pub fn end(answer: &mut [u8], c: u8, reason: u8)
    requires { length answer.old ≡ 8320 }
{
    say(answer, 14, reason as u64);
    say(answer, 15, c as u64);
}
