//! A place in a module, as it is printed of a trap.

use show_spots::Spot;
use show_text::Plain;
use std::fmt::{self, Formatter, Write};

/// A place, as it is printed of a trap: the function, how far the instruction is behind the start of its body, and in
/// parentheses the line of source.
#[derive(Clone, Copy, PartialEq, Eq)]
pub struct Site<'a>(pub Spot<'a>);

impl fmt::Display for Site<'_> {
    ghost use Rattle.std.specs.Prelude.{Some};
    ghost use Rattle.report_traps.specs.Sites.{site_text};

    ghost output = { λ s. Some (site_text s.0) };

    /// As `enqueue+0x2f (queue.c:20)`.
    fn fmt<W: Write>(&self, f: &mut Formatter<W>) -> fmt::Result {
        let front = Spot {
            source: None,
            text: None,
            ..self.0
        };
        write!(f, "{front}")?;
        if let Some((file, line)) = self.0.source {
            let file = Plain(file);
            write!(f, " ({file}:{line})")?;
        }
        Ok(())
    }
}
