// A number in decimal.
ghost use Rattle.std.specs.Prelude.{◌≡◌, ◌+◌, ◌<◌, ◌≤◌, length};
ghost use Rattle.base.specs.Parts.{paste};
ghost use Rattle.inventory.specs.Text.{decimal};

// How many digits it has.
pub fn number_size(n: u32) -> usize
    ensures { (result ≡ length (decimal n)) × (result ≤ 4294967296) }
{
    let mut m = n;
    let mut k: usize = 1;
    // A while: it ends with the digits, not at a count.
    while m >= 10 {
        m /= 10;
        k += 1;
    }
    k
}

fn digit(d: u32) -> u8
    requires { d < 10 }
    ensures { result ≡ 48 + d }
{
    48 + (d as u8)
}

// The digits from `at` on, the last first; where they end.
pub fn put_number(out: &mut [u8], at: usize, n: u32) -> usize
    requires { at + length (decimal n) ≤ length out.old }
    ensures { (result ≡ at + length (decimal n)) × (out.new ≡ paste out.old at (decimal n)) }
{
    let end = at + number_size(n);
    let mut m = n;
    let mut e = end - 1;
    // A while: it ends with the digits, not at a count.
    while m >= 10 {
        out[e] = digit(m % 10);
        m /= 10;
        e -= 1;
    }
    out[e] = digit(m);
    end
}
