//! Words of locals and operands, and the values of variables.

ghost use Rattle.std.specs.Prelude.{◌≡◌, ◌<◌, ◌^◌};
ghost use Rattle.show_told.specs.Values as specified;

use show_text::Plain;
use std::fmt::{self, Formatter};
use types::{ValType, Value};

/// A word of a local or an operand, with its type, where that is known.
#[derive(Clone, Copy, PartialEq, Eq)]
pub struct TypedWord {
    pub of: Option<ValType>,
    pub word: u64,
}

impl TypedWord {
    /// The value of its type, where that is known.
    pub fn value(self) -> Option<Value>
        ensures { result ≡ specified.value_of self }
    {
        match self.of {
            Some(ValType::I32) => Some(Value::I32((self.word % (1 << 32)) as u32)),
            Some(ValType::I64) => Some(Value::I64(self.word)),
            None => None,
        }
    }
}

impl fmt::Display for TypedWord {
    ghost use Rattle.std.specs.Prelude.{Some};
    ghost use Rattle.show_told.specs.Values.{word_text};

    ghost output = { λ t. Some (word_text t) };

    /// A value of its type, and where that isn't known a number.
    fn fmt<W: fmt::Write>(&self, f: &mut Formatter<W>) -> fmt::Result {
        let word = self.word;
        match self.value() {
            Some(value) => write!(f, "{value}"),
            None => write!(f, "{word}"),
        }
    }
}

/// A number of so many bits, which may have a sign in two's complement.
#[derive(Clone, Copy, PartialEq, Eq)]
pub struct ToldNumber {
    pub is_signed: bool,
    pub bits: u32,
    pub number: u64,
}

/// A power of two.
fn power(exponent: u32) -> u64
    requires { exponent < 64 }
    ensures { result ≡ 2 ^ exponent }
{
    2u64.pow(exponent)
}

impl ToldNumber {
    /// The highest of its bits, if it has a sign.
    fn sign(self) -> Option<u64>
        ensures { result ≡ specified.sign_of self }
    {
        if self.is_signed && self.bits > 0 && self.bits <= 64 {
            Some(power(self.bits - 1))
        } else {
            None
        }
    }
}

impl fmt::Display for ToldNumber {
    ghost use Rattle.std.specs.Prelude.{Some};
    ghost use Rattle.show_told.specs.Values.{number_text};

    ghost output = { λ t. Some (number_text t) };

    fn fmt<W: fmt::Write>(&self, f: &mut Formatter<W>) -> fmt::Result {
        let number = self.number;
        match self.sign() {
            Some(sign) if sign <= number => {
                let below = sign.saturating_sub(number - sign);
                write!(f, "-{below}")
            }
            _ => write!(f, "{number}"),
        }
    }
}

/// The value of a variable.
#[derive(Drop)]
pub struct ToldValue {
    /// Its type and its name.
    pub label: String,
    /// Its number; none of one that stands for parts that aren't told.
    pub number: Option<ToldNumber>,
    /// What the static data is called to which it points, if it does.
    pub target: Option<String>,
}

/// The name of the data to which a value points, if it does.
#[derive(Clone, Copy)]
struct Target<'a>(&'a Option<String>);

impl fmt::Display for Target<'_> {
    ghost use Rattle.std.specs.Prelude.{Some};
    ghost use Rattle.show_told.specs.Values.{target_text};

    ghost output = { λ t. Some (target_text t.0.now) };

    fn fmt<W: fmt::Write>(&self, f: &mut Formatter<W>) -> fmt::Result {
        match self.0 {
            Some(name) => {
                let name = Plain(name.as_str());
                write!(f, " <{name}>")
            }
            None => Ok(()),
        }
    }
}

impl fmt::Display for ToldValue {
    ghost use Rattle.std.specs.Prelude.{Some};
    ghost use Rattle.show_told.specs.Values.{value_text};

    ghost output = { λ v. Some (value_text v) };

    /// As `        int item = 3` in a line, or `        struct queue queue ..`.
    fn fmt<W: fmt::Write>(&self, f: &mut Formatter<W>) -> fmt::Result {
        let label = Plain(self.label.as_str());
        match self.number {
            None => write!(f, "        {label} ..\n"),
            Some(number) => {
                let target = Target(&self.target);
                write!(f, "        {label} = {number}{target}\n")
            }
        }
    }
}
