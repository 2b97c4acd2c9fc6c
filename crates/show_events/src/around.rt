//! Where a run failed, and which entries around it a page has.

ghost use Rattle.std.specs.Prelude.{◌≡◌, position};
ghost use Rattle.std.specs.List.{slice_get};
ghost use Rattle.show_rows.specs.Listing.{outcome_by};
ghost use Rattle.show_events.specs.Around as specified;
ghost use Rattle.show_events.specs.Around.{leaves_as, failure, count_before};

use replay_text::RecordParts;
use types::{Entry, Event, Outcome, Question, ThreadReport};

/// How many entries a page has at most that has all that are chosen.
pub const MOST_WHOLE: usize = 100_000;

/// How many it has where more are chosen.
pub const PART: usize = 40_000;

/// How many of these stand before the failure, if so many stand behind it as are left.
pub const BEFORE: usize = 30_000;

/// How the thread of a leave has ended.
fn outcome_of(ends: &[ThreadReport], entry: &Entry) -> Option<Outcome>
    ensures { result ≡ outcome_by entry.now.event (slice_get ends.now entry.now.thread) }
{
    let Event::Ask(Question::Leave) = entry.event else {
        return None;
    };
    match ends.get(entry.thread as usize) {
        Some(report) => Some(report.outcome),
        None => None,
    }
}

fn is_trap(outcome: Option<Outcome>) -> bool
    ensures { result ≡ specified.is_trap outcome }
{
    matches!(outcome, Some(Outcome::Trap(_)))
}

fn is_stop(outcome: Option<Outcome>) -> bool
    ensures { result ≡ specified.is_stop outcome }
{
    matches!(outcome, Some(Outcome::Stop(_)))
}

fn leaves_trapped(ends: &[ThreadReport], entry: &Entry) -> bool
    ensures { result ≡ leaves_as specified.is_trap ends.now entry.now }
{
    is_trap(outcome_of(ends, entry))
}

fn leaves_stopped(ends: &[ThreadReport], entry: &Entry) -> bool
    ensures { result ≡ leaves_as specified.is_stop ends.now entry.now }
{
    is_stop(outcome_of(ends, entry))
}

/// The place of the first entry by which a thread leaves that trapped.
fn first_trap(log: &[Entry], ends: &[ThreadReport]) -> Option<usize>
    ensures { result ≡ position (leaves_as specified.is_trap ends.now) log.now }
{
    log.iter().position(|entry| leaves_trapped(ends, entry))
}

/// The place of the first entry by which a thread leaves that was stopped.
fn first_stop(log: &[Entry], ends: &[ThreadReport]) -> Option<usize>
    ensures { result ≡ position (leaves_as specified.is_stop ends.now) log.now }
{
    log.iter().position(|entry| leaves_stopped(ends, entry))
}

/// The place of the log at which a run failed: where a thread leaves that trapped, else one that was stopped; of a run
/// that didn't fail the last one.
pub fn failure_of(record: &RecordParts) -> usize
    ensures { result ≡ failure «record».now }
{
    let log = record.log.as_slice();
    let ends = record.ends.as_slice();
    if let Some(at) = first_trap(log, ends) {
        return at;
    }
    if let Some(at) = first_stop(log, ends) {
        return at;
    }
    log.len().saturating_sub(1)
}

fn count_before(places: &[usize], at: usize) -> usize
    ensures { result ≡ count_before at places.now }
{
    places.iter().filter(|place| **place < at).count()
}

/// So many of these places around one, of which at most so many stand before it if there are as many as are left.
pub fn part_around(places: &[usize], part: usize, before: usize, at: usize) -> &[usize]
    ensures { result.now ≡ specified.part_around part before at places.now }
{
    let wanted = count_before(places, at).saturating_sub(before);
    let rest = &places[wanted.min(places.len().saturating_sub(part))..];
    if rest.len() <= part {
        return rest;
    }
    &rest[..part]
}

/// Of the places that are chosen those that a page has: all, or those around one.
pub(crate) fn around(places: &[usize], at: usize) -> &[usize]
    ensures { result.now ≡ specified.around at places.now }
{
    if places.len() <= MOST_WHOLE {
        return places;
    }
    part_around(places, PART, BEFORE, at)
}
