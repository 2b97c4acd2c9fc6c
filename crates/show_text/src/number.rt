//! Numbers of an access, as its data has them.

ghost use Rattle.std.specs.Prelude.{◌≡◌, ◌<◌, ◌^◌};
ghost use Rattle.show_text.specs.Numbers as specified;

use std::fmt::{self, Formatter};

/// How the numbers of an access are read: of how many bytes they are, and whether their data is of a signed integer type.
#[derive(Clone, Copy)]
pub(crate) struct NumberForm {
    pub(crate) width: u8,
    pub(crate) is_signed: bool,
}

/// A power of two.
fn power(exponent: u32) -> u64
    requires { exponent < 64 }
    ensures { result ≡ 2 ^ exponent }
{
    2u64.pow(exponent)
}

impl NumberForm {
    /// The highest bit of its numbers, if that is a sign.
    fn sign(self) -> Option<u64>
        ensures { result ≡ specified.sign_of self }
    {
        if self.is_signed && self.width > 0 && self.width <= 8 {
            Some(power(u32::from(self.width) * 8 - 1))
        } else {
            None
        }
    }

    /// How far a number is below zero, if it is.
    fn below(self, number: u64) -> Option<u64>
        ensures { result ≡ specified.below self number }
    {
        let sign = self.sign()?;
        if number < sign || number - sign >= sign {
            return None;
        }
        Some(sign - (number - sign))
    }

    /// Whether a number is below zero.
    pub(crate) fn is_negative(self, number: u64) -> bool
        ensures { result ≡ specified.is_negative self number }
    {
        self.below(number).is_some()
    }

    /// A number, as it is told.
    pub(crate) fn of(self, number: u64) -> FormedNumber
        ensures { result ≡ record { form = self; number = number } }
    {
        FormedNumber { form: self, number }
    }
}

/// A number of an access, as it is told.
#[derive(Clone, Copy)]
pub(crate) struct FormedNumber {
    form: NumberForm,
    number: u64,
}

impl fmt::Display for FormedNumber {
    ghost use Rattle.std.specs.Prelude.{Some};
    ghost use Rattle.show_text.specs.Numbers.{formed_text};

    ghost output = { λ n. Some (formed_text n.form n.number) };

    fn fmt<W: fmt::Write>(&self, f: &mut Formatter<W>) -> fmt::Result {
        let number = self.number;
        match self.form.below(number) {
            Some(below) => write!(f, "-{below}"),
            None => write!(f, "{number}"),
        }
    }
}
