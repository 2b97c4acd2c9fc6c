//! The moments that a page has.
ghost use Rattle.std.specs.Prelude.{◌≡◌, ◌∷◌, All, IfOk, OnOk};
ghost use Rattle.show_races.specs.Told.{IsWithin};
ghost use Rattle.report_looks.specs.PageMoments as specified;
ghost use Rattle.report_looks.specs.Looked.{WritesPageOf};
ghost use Rattle.report_looks.specs.PageMoments.{AreLastMoments, AreMomentsOf, IsMomentAt};

use crate::printing::{moment_of, races_in};
use crate::wanted::Here;
use race_history::Race;
use replay_text::Record;
use report_command::Form;
use selection::{Look, touched};
use show_events::{MomentText, failure_of, part_around, write_page};
use show_moments::{Bytes, MomentView, write_moment};
use show_rows::chosen_entries;
use show_text::Unwritten;
use std::alloc::{AllocError, Global};
use std::io::Write;
use types::Event;

/// How many races a page marks at most, so that it stays below 20 MB.
const MOST_OF_PAGE: usize = 40_000;

/// How many moments a page has at most.
const MOST_MOMENTS: usize = 2_000;

/// How many bytes their texts have at most, taken together.
const MOST_MOMENT_BYTES: usize = 32_000_000;

/// How many entries are gone along at most for all of them, since each takes a replay.
const MOST_STEPS: usize = 400_000;

/// How many moments the page of a log has that has so many entries.
fn moment_count(entries: usize) -> usize
    ensures { result ≡ specified.moment_count entries }
{
    (MOST_STEPS / entries.max(1)).min(MOST_MOMENTS)
}

/// The bytes that are shown before an event: two rows of sixteen from where it touches some.
fn bytes_at(event: Event) -> Bytes {
    match touched(event) {
        Some(span) => Bytes {
            addr: span.first / 16 * 16,
            count: 32,
        },
        None => Bytes { addr: 0, count: 0 },
    }
}

/// What threads and memory are like before the entry at a place.
fn moment_text(
    alloc: Global,
    seen: MomentView,
    record: &Record,
    races: &[Race],
    at: usize,
) -> Result<MomentText, Unwritten>
    requires of_record { «record».now ≡ seen.shown.record.now }
    requires races { All (IsWithin seen.shown.record.now.log) races.now }
    ensures { IfOk result (IsMomentAt seen.entry races.now at) }
{
    let bytes = match seen.shown.record.log.as_slice().get(at) {
        Some(entry) => bytes_at(entry.event),
        None => Bytes { addr: 0, count: 0 },
    };
    let here = Here {
        place: at,
        is_end: false,
        bytes,
        is_raw: seen.is_raw,
        text: false,
        form: Form::Lines,
    };
    let moment = moment_of(alloc, seen.valid, record, here)?;
    let mut written = Vec::new(alloc);
    write_moment(alloc, seen, &moment, races, &mut written)?;
    match String::from_utf8(written) {
        Ok(text) => Ok(MomentText { at, text }),
        Err(_) => Err(Unwritten::Output),
    }
}

/// Puts a moment in front of the others.
fn put_first(moments: &mut Vec<MomentText>, moment: MomentText) -> Result<(), AllocError>
    ensures { OnOk result (moments.new.items ≡ moment ∷ moments.old.items) }
{
    moments.insert(0, moment)?;
    Ok(())
}

/// The moments before the entries at the last ones of these places, as many as a page has room for.
fn moments_at(
    alloc: Global,
    seen: MomentView,
    record: &Record,
    races: &[Race],
    places: &[usize],
) -> Result<Vec<MomentText>, Unwritten>
    requires of_record { «record».now ≡ seen.shown.record.now }
    requires races { All (IsWithin seen.shown.record.now.log) races.now }
    ensures { IfOk result (λ ms. AreLastMoments seen.entry races.now places.now ms.items) }
{
    let mut moments = Vec::with_capacity(alloc, places.len())?;
    let mut room = MOST_MOMENT_BYTES;
    for k in (0..places.len()).rev() {
        let moment = moment_text(alloc, seen, record, races, places[k])?;
        match room.checked_sub(moment.text.len()) {
            Some(left) => room = left,
            None => return Ok(moments),
        }
        put_first(&mut moments, moment)?;
    }
    Ok(moments)
}

/// The moments before the entries around the failure that are chosen, as many as a page has.
fn moments_of(
    alloc: Global,
    seen: MomentView,
    record: &Record,
    look: &Look,
    races: &[Race],
) -> Result<Vec<MomentText>, Unwritten>
    requires of_record { «record».now ≡ seen.shown.record.now }
    requires races { All (IsWithin seen.shown.record.now.log) races.now }
    ensures { IfOk result (λ ms. AreMomentsOf seen.entry look.now races.now ms.items) }
{
    let chosen = chosen_entries(alloc, seen.shown, look)?;
    let count = moment_count(seen.shown.record.log.len());
    let last = failure_of(seen.shown.record);
    let places = part_around(&chosen, count, count.saturating_sub(1), last);
    moments_at(alloc, seen, record, races, places)
}

/// Writes a page, with the races that it marks and its moments.
pub(crate) fn print_page<W: Write>(
    alloc: Global,
    seen: MomentView,
    record: &Record,
    look: &Look,
    out: &mut W,
) -> Result<(), Unwritten>
    requires of_module { seen.shown.code.now.parts.now ≡ seen.valid.now.parts }
    requires of_record { «record».now ≡ seen.shown.record.now }
    requires left_out { seen.left_out.now ≡ look.now.choice.left_out }
    ensures { OnOk result (WritesPageOf seen.entry.shown seen.entry.map.now look.now (W.contents out.old) (W.contents out.new)) }
{
    let view = MomentView {
        is_raw: false,
        ..seen
    };
    let races = races_in(alloc, view.shown, MOST_OF_PAGE)?;
    let raced = races.as_slice();
    view.map.begin_page();
    let moments = moments_of(alloc, view, record, look, raced)?;
    view.map.end_page();
    write_page(alloc, view.shown, look, raced, moments.as_slice(), out)
}
