//! Writing items one after the other.

ghost use Rattle.replay_forms.specs.Texts.{Wrote, pieces};

use std::io::{self, Write};

/// A kind of item that is written: a type without values, as [`Item`](crate::Item).
pub trait Printed {
    ghost use Rattle.std.specs.Prelude.{ℕ, List};
    ghost use Rattle.replay_forms.specs.Texts.{Wrote};

    type Value: Copy;

    /// The text of the item of a place.
    ghost piece: { ℕ → Self.Value → List ℕ };

    /// Writes the item of a place.
    fn write<W: Write>(writer: &mut W, place: usize, item: Self::Value) -> io::Result<()>
        ensures { Wrote W.contents writer.old writer.new result (piece place item) };
}

/// Writes all items in order.
pub fn write_items<T: Printed, W: Write>(writer: &mut W, items: &[T::Value]) -> io::Result<()>
    ensures { Wrote W.contents writer.old writer.new result (pieces T.piece 0 items.now) }
{
    for place in 0..items.len() {
        T::write(writer, place, items[place])?;
    }
    Ok(())
}
