// Little-endian numbers at any place of a slice, and signed numbers as their 64 bits.
// Each width is two of the half width, so that one law over the width serves them all.
#![tactic(auto)]

ghost use Rattle.std.specs.Prelude.{◌≡◌, ◌+◌, ◌≤◌, ◌<◌, length};
ghost use Rattle.le.specs.Le.{le_at, le_put};
ghost use Rattle.le.specs.Signed.{signed, bits_of};

fn u8_at(s: &[u8], at: usize) -> u8
    requires { at + 1 ≤ length s.now }
    ensures { result ≡ le_at s.now at 1 }
{
    s[at]
}

pub fn u16_at(s: &[u8], at: usize) -> u16
    requires { at + 2 ≤ length s.now }
    ensures { result ≡ le_at s.now at 2 }
{
    let low = u8_at(s, at) as u16;
    let high = u8_at(s, at + 1) as u16;
    low + high * 256
}

pub fn u32_at(s: &[u8], at: usize) -> u32
    requires { at + 4 ≤ length s.now }
    ensures { result ≡ le_at s.now at 4 }
{
    let low = u16_at(s, at) as u32;
    let high = u16_at(s, at + 2) as u32;
    low + high * 65536
}

pub fn u64_at(s: &[u8], at: usize) -> u64
    requires { at + 8 ≤ length s.now }
    ensures { result ≡ le_at s.now at 8 }
{
    let low = u32_at(s, at) as u64;
    let high = u32_at(s, at + 4) as u64;
    low + high * 4294967296
}

pub fn i64_at(s: &[u8], at: usize) -> i64
    requires { at + 8 ≤ length s.now }
    ensures { result ≡ signed (le_at s.now at 8) }
{
    to_signed(u64_at(s, at))
}

fn put_u8(s: &mut [u8], at: usize, v: u8)
    requires { at + 1 ≤ length s.old }
    ensures { s.new ≡ le_put s.old at 1 v }
{
    s[at] = v;
}

pub fn put_u16(s: &mut [u8], at: usize, v: u16)
    requires { at + 2 ≤ length s.old }
    ensures { s.new ≡ le_put s.old at 2 v }
{
    put_u8(s, at, (v % 256) as u8);
    put_u8(s, at + 1, (v / 256) as u8);
}

pub fn put_u32(s: &mut [u8], at: usize, v: u32)
    requires { at + 4 ≤ length s.old }
    ensures { s.new ≡ le_put s.old at 4 v }
{
    put_u16(s, at, (v % 65536) as u16);
    put_u16(s, at + 2, (v / 65536) as u16);
}

pub fn put_u64(s: &mut [u8], at: usize, v: u64)
    requires { at + 8 ≤ length s.old }
    ensures { s.new ≡ le_put s.old at 8 v }
{
    put_u32(s, at, (v % 4294967296) as u32);
    put_u32(s, at + 4, (v / 4294967296) as u32);
}

pub fn put_i64(s: &mut [u8], at: usize, z: i64)
    requires { at + 8 ≤ length s.old }
    ensures { s.new ≡ le_put s.old at 8 (bits_of z) }
{
    put_u64(s, at, to_bits(z));
}

// The signed number that 64 bits are. A cast that changes the sign is refused, so the upper half counts down from -1.
pub fn to_signed(x: u64) -> i64
    ensures { result ≡ signed x }
{
    if x < 9223372036854775808 {
        return x as i64;
    }
    let below = 18446744073709551615 - x;
    let s = below as i64;
    -1 - s
}

// The 64 bits of a signed number.
pub fn to_bits(z: i64) -> u64
    ensures { result ≡ bits_of z }
{
    if z >= 0 {
        return z as u64;
    }
    let below = -1 - z;
    let u = below as u64;
    18446744073709551615 - u
}
