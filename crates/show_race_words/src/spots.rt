//! Where an entry stands, and where it was made.

ghost use Rattle.std.specs.Prelude.{IfOk, string_bytes};
ghost use Rattle.show_race_words.specs.Spots.{IsSpot};

use show_rows::{PlaceBehind, Shown, Story};
use std::alloc::{AllocError, Global};

/// The line of the record that has the entry at a place, and where in the code it was made, as far as that is known.
pub(crate) fn spot_text(
    alloc: Global,
    shown: Shown,
    story: &Story,
    at: usize,
) -> Result<String, AllocError>
    ensures { IfOk result (λ text. IsSpot shown.entry story.now at (string_bytes text)) }
{
    let line = shown.line_of(at);
    let place = shown.place_text(alloc, story, at)?;
    let behind = PlaceBehind(place.as_str());
    let text = format!(in alloc; "entry {line}{behind}")?;
    Ok(text)
}
