//! Entries in words, one by one.

ghost use Rattle.std.specs.Prelude.{◌<◌, IfOk, length, string_bytes};
ghost use Rattle.show_rows.specs.Entries.{IsEntryText};

use crate::listing::{Shown, Story};
use std::alloc::{AllocError, Global};
use std::fmt::{self, Formatter};

/// The text of the place behind an entry, where it is known.
#[derive(Clone, Copy)]
pub struct PlaceBehind<'a>(pub &'a str);

impl fmt::Display for PlaceBehind<'_> {
    ghost use Rattle.std.specs.Prelude.{Some};
    ghost use Rattle.show_rows.specs.Entries.{behind};

    ghost output = { λ b. Some (behind b.0.now) };

    fn fmt<W: fmt::Write>(&self, f: &mut Formatter<W>) -> fmt::Result {
        let place = self.0;
        if place.is_empty() {
            return Ok(());
        }
        write!(f, ", {place}")
    }
}

/// An entry: its thread, its words, its line of the record and where it was made, as far as that is known.
///
/// # Errors
/// Where memory is refused.
pub fn entry_text(
    alloc: Global,
    shown: Shown,
    story: &Story,
    at: usize,
) -> Result<String, AllocError>
    requires { at < length shown.record.now.log }
    ensures { IfOk result (λ text. IsEntryText shown.entry story.now at (string_bytes text)) }
{
    let entry = &shown.record.log.as_slice()[at];
    let (thread, line) = (entry.thread, shown.line_of(at));
    let words = shown.words_at(story, at, entry).to_string(alloc)?;
    let place = shown.place_text(alloc, story, at)?;
    let behind = PlaceBehind(place.as_str());
    let text = format!(in alloc; "t{thread} {words}, entry {line}{behind}")?;
    Ok(text)
}
