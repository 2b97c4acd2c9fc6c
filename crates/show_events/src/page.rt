//! The page.

ghost use Rattle.std.specs.Prelude.{OnOk};
ghost use Rattle.show_events.specs.Written.{WritesPage};
ghost use Rattle.show_events.specs.Page.{AddsPage};

use crate::around::{around, failure_of};
use crate::run::{MomentText, write_run};
use crate::script::SCRIPT;
use crate::style::{BODY, STYLE};
use crate::write_events;
use race_history::Race;
use selection::Look;
use show_rows::{Shown, chosen_entries};
use show_text::Unwritten;
use std::alloc::Global;
use std::io::Write;

/// Writes the entries that are chosen as a page of HTML.
///
/// Of more than 100,000 it has 40,000 around the failure. It has them as data, in which no `<` is, with the call, the
/// ends and these moments, and a script that draws them: threads as lanes, a wait as a bar up to its answer, arrows from a
/// notify to whom it wakes, from a spawn to the first entry of its thread, and between the two entries of each of these
/// races.
#[tactic(auto, using(crate::proofs::Parted::all_around))]
pub fn write_page<W: Write>(
    alloc: Global,
    shown: Shown,
    look: &Look,
    races: &[Race],
    moments: &[MomentText],
    out: &mut W,
) -> Result<(), Unwritten>
    ensures data { OnOk result (AddsPage (W.contents out.old) (W.contents out.new)) }
    ensures which { OnOk result (WritesPage shown.entry races.now moments.now look.now (W.contents out.old) (W.contents out.new)) }
{
    let chosen = chosen_entries(alloc, shown, look)?;
    let places = around(&chosen, failure_of(shown.record));
    out.write_all(STYLE.as_bytes())?;
    out.write_all(BODY.as_bytes())?;
    out.write_all(b"<script type=\"application/json\" id=\"run\">")?;
    write_run(alloc, shown.record, chosen.len(), moments, out)?;
    out.write_all(b"</script><script type=\"application/json\" id=\"events\">")?;
    write_events(alloc, shown, races, places, out)?;
    out.write_all(b"</script>")?;
    out.write_all(SCRIPT.as_bytes())?;
    out.flush()?;
    Ok(())
}
