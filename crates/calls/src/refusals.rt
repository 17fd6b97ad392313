// What a call is refused with, as far as its end is concerned: a reason, or a number alone.
ghost use Rattle.std.specs.Prelude.{◌≡◌, ℕ};
ghost use Rattle.base.specs.Told.{number};
ghost use Rattle.calls.specs.Answers.{told_by};

use base::Reason;

pub trait Refusal: Copy {
    ghost number_of: { Self → ℕ };

    fn told(self) -> u8
        ensures { result ≡ number_of self };
}

impl Refusal for Reason {
    ghost number_of = { number };

    fn told(self) -> u8 {
        self.number()
    }
}

impl Refusal for u8 {
    ghost number_of = { λ n. n };

    fn told(self) -> u8 {
        self
    }
}

// 0 where it was done, or the refusal's number.
pub fn told<A: Copy, E: Refusal>(r: Result<A, E>) -> u8
    ensures { result ≡ told_by E.number_of r }
{
    match r {
        Ok(_) => 0,
        Err(e) => e.told(),
    }
}
