//! Lines of source around a place.

ghost use Rattle.std.specs.Fmt.{WritesOnOk};
ghost use Rattle.show_spots.specs.Around.{marked_text};

use show_text::Plain;
use std::fmt::{self, Formatter, Write};

/// The line of source of a place, the one before it and the one behind it, as far as they are at hand.
#[derive(Clone, Copy, PartialEq, Eq)]
pub struct Around<'a> {
    /// The number of the line in its file, from 1 on.
    pub line: u64,
    pub before: Option<&'a str>,
    pub here: Option<&'a str>,
    pub behind: Option<&'a str>,
}

fn write_marked<W: Write>(
    f: &mut Formatter<W>,
    mark: &str,
    line: u64,
    text: Option<&str>,
) -> fmt::Result
    ensures { WritesOnOk W.write_str_gives f.old result (marked_text mark.now line text.entry) f.new }
{
    let Some(text) = text else {
        return Ok(());
    };
    let text = Plain(text);
    write!(f, "      {mark} {line} | {text}\n")
}

impl fmt::Display for Around<'_> {
    ghost use Rattle.std.specs.Prelude.{Some};
    ghost use Rattle.show_spots.specs.Around.{around_text};

    ghost output = { λ a. Some (around_text a) };

    /// Each in a line with its number; the place's own is marked.
    fn fmt<W: Write>(&self, f: &mut Formatter<W>) -> fmt::Result {
        write_marked(f, " ", self.line.saturating_sub(1), self.before)?;
        write_marked(f, ">", self.line, self.here)?;
        write_marked(f, " ", self.line.saturating_add(1), self.behind)
    }
}
