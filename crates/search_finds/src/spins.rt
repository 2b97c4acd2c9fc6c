//! Rounds in which a thread sees what it saw in the round before.

use replay_text::Record;
use std::alloc::{AllocError, Global};
use types::{Entry, Event, MOST_THREADS};

/// How many events a round has at most.
const ROUND: usize = 4;

/// Whether the last events, so many, are those before them once more, with the same replies.
fn is_round(log: &[Entry], places: &[usize], count: usize) -> bool {
    if places.len() < count.saturating_mul(2) {
        return false;
    }
    let (before, last) = places.split_at(places.len() - count);
    let before = before.iter().rev();
    last.iter()
        .rev()
        .zip(before)
        .all(|(one, other)| log.get(*one) == log.get(*other))
}

/// Takes the last round away, where it is the one before it once more.
fn drop_round(log: &[Entry], places: &mut Vec<usize>) {
    for count in 1..=ROUND {
        if is_round(log, places, count) {
            places.truncate(places.len().saturating_sub(count));
            return;
        }
    }
}

/// The places of a thread's events in a log, without the rounds in which it saw what it saw in the round before.
fn places_of(alloc: Global, log: &[Entry], thread: u32) -> Result<Vec<usize>, AllocError> {
    let mut places = Vec::new(alloc);
    for (place, entry) in log.iter().enumerate() {
        if entry.thread == thread && !matches!(entry.event, Event::Told(_)) {
            places.push(place)?;
            drop_round(log, &mut places);
        }
    }
    Ok(places)
}

/// The threads of a record's events in order, without the rounds in which a thread saw what it saw in the round before:
/// so waits in loops are short.
pub(crate) fn without_spins(alloc: Global, record: &Record) -> Result<Vec<u32>, AllocError> {
    let log = record.parts().log.as_slice();
    let mut kept = Vec::new(alloc);
    for thread in 0..MOST_THREADS as u32 {
        let mut places = places_of(alloc, log, thread)?;
        kept.append(&mut places)?;
    }
    kept.sort()?;
    let mut schedule = Vec::with_capacity(alloc, kept.len())?;
    for place in kept.iter() {
        if let Some(entry) = log.get(*place) {
            schedule.push(entry.thread)?;
        }
    }
    Ok(schedule)
}
