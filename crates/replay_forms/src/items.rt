//! Items one after the other.

ghost use Rattle.std.specs.Prelude.{◌≡◌, ◌<◌, ◌≤◌, length, IfOk, IfSome};
ghost use Rattle.replay_forms.specs.Reading.{several, hex_value};

use crate::front::hex_digit;
use crate::print::Printed;
use std::alloc::{AllocError, Global};
use std::io::{self, Write};

/// A kind of item: a value that says how the item at a place is read. So a crate above may say it of types of another
/// crate, and of numbers that it has read before.
pub trait Item {
    ghost use Rattle.std.specs.Prelude.{ℕ, List, Option};
    ghost use Rattle.replay_forms.specs.Reading.{ReadsNext};

    type Value: Drop;

    /// The item of a place at the front of the bytes, and the bytes behind it.
    ghost at: { Self → ℕ → List ℕ → Option (Self.Value × List ℕ) };

    /// Reads the item of a place.
    fn read<'a>(&self, place: usize, bytes: &'a [u8]) -> Option<(Self::Value, &'a [u8])>
        ensures { ReadsNext (at self.now place) bytes.now result };
}

/// As many items as stand there, and at most `most`. Memory is taken as they come.
pub fn several<'a, T: Item>(
    alloc: Global,
    kind: &T,
    most: usize,
    bytes: &'a [u8],
) -> Result<(Vec<T::Value>, &'a [u8]), AllocError>
    ensures reads { IfOk result (λ r. (r.0.items, r.1.now) ≡ several (T.at kind.now) 0 most bytes.now) }
    ensures few { IfOk result (λ r. length r.0.items ≤ most) }
{
    let mut items = Vec::new(alloc);
    let mut rest = bytes;
    for place in 0..most {
        match kind.read(place, rest) {
            None => return Ok((items, rest)),
            Some((item, after)) => {
                items.push(item)?;
                rest = after;
            }
        }
    }
    Ok((items, rest))
}

fn hex_value(c: u8) -> Option<u8>
    ensures value { result ≡ hex_value c }
    ensures digit { IfSome result (λ n. n < 16) }
{
    match c {
        b'0'..=b'9' => Some(c - b'0'),
        b'a'..=b'f' => Some(c - (b'a' - 10)),
        _ => None,
    }
}

/// A byte by two digits of base 16 in lower case.
pub struct HexByte;

impl Item for HexByte {
    ghost use Rattle.replay_forms.specs.Reading.{hex_byte_at};

    type Value = u8;

    ghost at = { λ kind place. hex_byte_at };

    fn read<'a>(&self, _place: usize, bytes: &'a [u8]) -> Option<(u8, &'a [u8])> {
        match bytes {
            [high, low, rest @ ..] => {
                let high = hex_value(*high)?;
                let low = hex_value(*low)?;
                Some((16 * high + low, rest))
            }
            _ => None,
        }
    }
}

impl Printed for HexByte {
    ghost use Rattle.std.specs.Prelude.{[], ◌∷◌, ◌/◌, ◌%◌};
    ghost use Rattle.replay_forms.specs.Texts.{hex_digit};

    type Value = u8;

    ghost piece = { λ place byte. hex_digit (byte / 16) ∷ hex_digit (byte % 16) ∷ [] };

    fn write<W: Write>(writer: &mut W, _place: usize, byte: u8) -> io::Result<()> {
        writer.write_all(&[hex_digit(byte / 16), hex_digit(byte % 16)])
    }
}
