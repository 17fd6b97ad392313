// The sum over bytes that scripts and their answers are compared by.
#![tactic(auto)]

ghost use Rattle.std.specs.Prelude.{◌≡◌, length};
ghost use Rattle.sums.specs.Sum.{sum_of};

#[tactic(auto, using(crate::proofs::Sums::sum_none, crate::proofs::Sums::sum_more))]
pub fn sum(bytes: &[u8]) -> u64
    ensures { result ≡ sum_of bytes.now (length bytes.now) }
{
    let mut h: u64 = 0;
    for b in bytes {
        h = (h * 257 + u64::from(*b) + 1) % 4294967291;
    }
    h
}
