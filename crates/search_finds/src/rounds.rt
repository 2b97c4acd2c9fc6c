//! What of a run lies between two moments in which it is the same.

use crate::moments::{BeforeEvent, Moments};
use replay::{ReplayFault, replay_watched};
use search_scheduled::{MadeRun, SearchFault};
use std::alloc::{AllocError, Global};
use std::collections::HashMap;
use types::MOST_THREADS;
use validate_module::ValidModule;

/// How many units the threads of a run have spent at most that is looked at once more.
const MOST_UNITS: u64 = 100_000_000;

/// The moments of a run before each of its events; none where it takes long to look at them.
pub(crate) fn moments_of(
    alloc: Global,
    module: &ValidModule,
    made: &MadeRun,
) -> Result<Vec<BeforeEvent>, SearchFault> {
    let mut units = 0u64;
    for thread in made.end.threads.iter() {
        units = units.saturating_add(thread.spent);
    }
    if units > MOST_UNITS {
        return Ok(Vec::new(alloc));
    }
    let mut moments = Moments::new(alloc, made.record.parts().log.as_slice());
    match replay_watched(alloc, module, &made.record, &mut moments) {
        Ok(_) => {}
        Err(ReplayFault::NoMemory) => return Err(SearchFault::NoMemory),
        Err(_) => return Err(SearchFault::NoEnd),
    }
    if moments.is_short {
        return Err(SearchFault::NoMemory);
    }
    Ok(moments.seen)
}

/// A moment with its place among others, and the number by which it is told apart.
#[derive(Clone, Copy)]
struct Numbered {
    place: usize,
    number: u64,
}

/// The moments without those of a round: from one on up to the next one with the same number.
fn without_rounds(alloc: Global, moments: &[Numbered]) -> Result<Vec<Numbered>, AllocError> {
    let mut kept: Vec<Numbered> = Vec::new(alloc);
    let mut counts = HashMap::new(alloc);
    for moment in moments {
        let count = counts.get(&moment.number).copied().unwrap_or(kept.len());
        for _ in count..kept.len() {
            if let Some(dropped) = kept.pop() {
                counts.remove(&dropped.number);
            }
        }
        counts.insert(moment.number, kept.len())?;
        kept.push(*moment)?;
    }
    Ok(kept)
}

/// The threads of the moments at these places, in order.
fn threads_at(
    alloc: Global,
    moments: &[BeforeEvent],
    kept: &[Numbered],
) -> Result<Vec<u32>, AllocError> {
    let mut places = Vec::with_capacity(alloc, kept.len())?;
    for moment in kept {
        places.push(moment.place)?;
    }
    places.sort()?;
    let mut schedule = Vec::with_capacity(alloc, places.len())?;
    for place in places.iter() {
        if let Some(moment) = moments.get(*place) {
            schedule.push(moment.thread)?;
        }
    }
    Ok(schedule)
}

/// The moments by the number of the run; or those of one thread, by its own number.
fn numbers_by(
    alloc: Global,
    moments: &[BeforeEvent],
    by: Option<u32>,
) -> Result<Vec<Numbered>, AllocError> {
    let mut all = Vec::with_capacity(alloc, moments.len())?;
    for (place, moment) in moments.iter().enumerate() {
        let number = match by {
            None => moment.run,
            Some(thread) if thread == moment.thread => moment.own,
            Some(_) => continue,
        };
        all.push(Numbered { place, number })?;
    }
    Ok(all)
}

/// The threads of a run's events in order, without what lies between two moments in which all is the same.
pub(crate) fn without_repeats(
    alloc: Global,
    moments: &[BeforeEvent],
) -> Result<Vec<u32>, AllocError> {
    let kept = without_rounds(alloc, &numbers_by(alloc, moments, None)?)?;
    threads_at(alloc, moments, &kept)
}

/// The threads of a run's events in order, without those of one thread that lie between two moments in which it is the
/// same and has changed the same.
pub(crate) fn without_own_repeats(
    alloc: Global,
    moments: &[BeforeEvent],
) -> Result<Vec<u32>, AllocError> {
    let mut kept = Vec::new(alloc);
    for thread in 0..MOST_THREADS as u32 {
        let mut own = without_rounds(alloc, &numbers_by(alloc, moments, Some(thread))?)?;
        kept.append(&mut own)?;
    }
    threads_at(alloc, moments, &kept)
}
