//! A place whose function was put in the place of its call, as it is printed.

ghost use Rattle.std.specs.Fmt.{WritesOnOk};
ghost use Rattle.std.specs.Prelude.{◌≡◌};
ghost use Rattle.std.specs.List.{slice_get};
ghost use Rattle.show_spots.specs.Spots.{is_underscore};
ghost use Rattle.show_spots.specs.Inlined.{called_text, placed_text};

use crate::spot::{Spot, write_source};
use show_text::Plain;
use std::fmt::{self, Formatter};

/// A place in a function that was put in the place of its call.
#[derive(Clone, Copy, PartialEq, Eq)]
pub struct InlinedSpot<'a> {
    pub spot: Spot<'a>,
    /// The innermost such function there.
    pub function: &'a str,
    /// The calls that lead to it, as ` < lock lock.h:3 < worker main.c:9`.
    pub calls: &'a str,
}

impl fmt::Display for InlinedSpot<'_> {
    ghost use Rattle.std.specs.Prelude.{Some};
    ghost use Rattle.show_spots.specs.Inlined.{inlined_text};

    ghost output = { λ s. Some (inlined_text s.spot s.function.now s.calls.now) };

    /// As `exchange atomics.h:2 < lock lock.h:3 < worker main.c:9`.
    fn fmt<W: fmt::Write>(&self, f: &mut Formatter<W>) -> fmt::Result {
        write_placed(f, &self.spot, self.function)?;
        let calls = Plain(self.calls);
        write!(f, "{calls}")
    }
}

/// The place of a call in such a function, as it is printed behind the place that it led to.
#[derive(Clone, Copy, PartialEq, Eq)]
pub struct InlinedCall<'a>(pub InlinedSpot<'a>);

impl fmt::Display for InlinedCall<'_> {
    ghost use Rattle.std.specs.Prelude.{Some};
    ghost use Rattle.show_spots.specs.Inlined.{inlined_call_text};

    ghost output = { λ c. Some (inlined_call_text c.0.spot c.0.function.now c.0.calls.now) };

    /// As ` < transfer one.c:8 < main one.c:20`. A function of C's implementation isn't told.
    fn fmt<W: fmt::Write>(&self, f: &mut Formatter<W>) -> fmt::Result {
        write_called(f, &self.0.spot, self.0.function)?;
        let calls = Plain(self.0.calls);
        write!(f, "{calls}")
    }
}

/// Whether C reserves the name for its implementation.
fn is_reserved(name: &str) -> bool
    ensures { result ≡ is_underscore (slice_get name.now 0) }
{
    match name.as_bytes().first() {
        Some(byte) => *byte == b'_',
        None => false,
    }
}

/// The function with the line of source of a place.
fn write_placed<W: fmt::Write>(f: &mut Formatter<W>, spot: &Spot, function: &str) -> fmt::Result
    ensures { WritesOnOk W.write_str_gives f.old result (placed_text spot.now function.now) f.new }
{
    let function = Plain(function);
    write!(f, "{function}")?;
    write_source(f, spot)
}

/// The same of a call, if its function is told.
fn write_called<W: fmt::Write>(f: &mut Formatter<W>, spot: &Spot, function: &str) -> fmt::Result
    ensures { WritesOnOk W.write_str_gives f.old result (called_text spot.now function.now) f.new }
{
    if is_reserved(function) {
        return Ok(());
    }
    write!(f, " < ")?;
    write_placed(f, spot, function)
}
