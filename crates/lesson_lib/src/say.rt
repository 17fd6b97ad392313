// Words that the lesson's lines have.
ghost use Rattle.std.specs.Prelude.{◌≡◌, Some};
ghost use Rattle.utf8.specs.Names.{name_of};

use base::Reason;
use std::{fmt, io};
use utf8::first_zero;

// A stored name, or what was read, up to its zero.
#[derive(Clone, Copy)]
pub struct Text<const N: usize>(pub [u8; N]);

fn up_to_zero(bytes: &[u8]) -> &[u8]
    ensures { result.now ≡ name_of bytes.now }
{
    let n = first_zero(bytes);
    &bytes[..n]
}

impl<const N: usize> Text<N> {
    // Byte for byte, and not by Display: what was read need be no UTF-8.
    pub fn show(&self, rt: &impl Print) -> io::Result<()> {
        rt.write_all(up_to_zero(&self.0))
    }
}

// In a format string, for text that is UTF-8: an error where it is not. The lesson's own lines are written by show.
impl<const N: usize> fmt::Display for Text<N> {
    ghost output = { λ text. Some (name_of text.0) };

    fn fmt<W: fmt::Write>(&self, f: &mut fmt::Formatter<W>) -> fmt::Result {
        match std::str::from_utf8(up_to_zero(&self.0)) {
            Ok(text) => f.write_str(text),
            Err(_) => Err(fmt::Error),
        }
    }
}

// Document 01's words for the reasons that the lesson meets.
fn words(reason: Reason) -> &'static str {
    match reason {
        Reason::BadHandle => " (bad handle)",
        Reason::InvalidParam => " (invalid parameter)",
        Reason::NotDir => " (not a folder)",
        Reason::IsDir => " (is a folder)",
        Reason::NameTooLong => " (name too long)",
        Reason::EntryNotFound => " (entry not found)",
        Reason::EntryExist => " (entry exists)",
        Reason::WrongFs => " (wrong file system)",
        Reason::InUse => " (in use)",
        _ => "",
    }
}

#[derive(Clone, Copy)]
pub struct Refusal(pub Reason);

impl fmt::Display for Refusal {
    fn fmt<W: fmt::Write>(&self, f: &mut fmt::Formatter<W>) -> fmt::Result {
        let reason = self.0;
        write!(f, "refused, reason {}{}", reason.number(), words(reason))
    }
}

#[cfg(test)]
mod tests {
    use super::*;
    use std::alloc::AllocError;

    #[test]
    fn formats_up_to_the_zero(rt: HostRuntime) -> Result<(), AllocError> {
        let name = format!(in rt.alloc(); "[{}]", Text(*b"Sans\0\0\0\0"))?;
        assert_eq!(rt; name.as_str(), "[Sans]");
        let full = format!(in rt.alloc(); "[{}]", Text(*b"Serif"))?;
        assert_eq!(rt; full.as_str(), "[Serif]");
        Ok(())
    }

    #[test]
    fn formats_no_text_that_is_not_utf8(rt: HostRuntime) {
        let drawing = Text([0x4d, 0xff, 0x30, 0]);
        assert!(rt; format!(in rt.alloc(); "{drawing}").is_err());
    }
}
