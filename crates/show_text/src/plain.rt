//! Texts of anybody, for a terminal.

ghost use Rattle.std.specs.Prelude.{◌≡◌};
ghost use Rattle.show_text.specs.Plain as specified;

use std::fmt::{self, Formatter, Write};

/// Whether a terminal obeys a character in place of showing it.
fn is_unshown(c: char) -> bool
    ensures { result ≡ specified.is_unshown c }
{
    c.is_control() || matches!(c, '\u{2028}'..='\u{202e}' | '\u{2066}'..='\u{2069}')
}

/// A character as it is written: `?` for one that a terminal obeys in place of showing it, and a space for a tab.
pub fn plain_char(c: char) -> char
    ensures { result ≡ specified.plain_char c }
{
    if c == '\t' {
        ' '
    } else if is_unshown(c) {
        '?'
    } else {
        c
    }
}

/// A text without what a terminal obeys in place of showing it, control characters above all: each such character is
/// written as `?`, and a tab as a space.
#[derive(Clone, Copy, PartialEq, Eq)]
pub struct Plain<'a>(pub &'a str);

impl fmt::Display for Plain<'_> {
    ghost use Rattle.std.specs.Prelude.{Some};
    ghost use Rattle.show_text.specs.Plain.{plain_text};

    ghost output = { λ p. Some (plain_text p.0.now) };

    fn fmt<W: Write>(&self, f: &mut Formatter<W>) -> fmt::Result {
        for c in self.0.chars() {
            f.write_char(plain_char(c))?;
        }
        Ok(())
    }
}
