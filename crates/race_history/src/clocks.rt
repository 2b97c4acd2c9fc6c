//! Vector clocks of places.
ghost use Rattle.std.specs.Prelude.{◌≡◌, ◌<◌, ◌≤◌, ℕ, [], All, IfOk, IfSome, length, max, slice_index, slice_index_or};
ghost use Rattle.types.specs.declared.event.Entry.{Entry};
ghost use Rattle.race_history.specs.Calls.{AreCalls};
ghost use Rattle.race_history.specs.Sources.{rows};
ghost use Rattle.race_history.specs.Clocks.{AreClocks, IsJoined};
ghost use Rattle.race_history.specs.Writers.{AreWriters};

use crate::access::Site;
use crate::calls::Calls;
use crate::sources::{gather, start_before};
use std::alloc::{AllocError, Global};
use types::Entry;

/// One more than the greatest number of a thread.
pub(crate) fn count_threads(log: &[Entry]) -> usize
    ensures { All (λ (e : Entry). e.thread < result) log.now }
{
    let mut count = 0;
    for entry in log {
        let thread = entry.thread as usize;
        if count <= thread {
            count = thread + 1;
        }
    }
    count
}

/// Each number becomes the greater one of the two.
fn join(row: &mut [usize], other: &[usize])
    requires { length row.old ≡ length other.now }
    ensures { (n : ℕ) → slice_index row.new n ≡ max (slice_index row.old n) (slice_index other.now n) }
{
    for n in 0..row.len() {
        row[n] = row[n].max(other[n]);
    }
}

/// The greatest numbers of the rows of these sources.
fn joined(
    alloc: Global,
    clocks: &[Vec<usize>],
    sources: &[usize],
    threads: usize,
) -> Result<Vec<usize>, AllocError>
    requires within { All (λ s. s < length clocks.now) sources.now }
    requires wide { All (λ v. length v.items ≡ threads) clocks.now }
    ensures wide { IfOk result (λ v. length v.items ≡ threads) }
    ensures joined { IfOk result (λ v. IsJoined (rows clocks.now) sources.now v.items) }
{
    let mut row = vec![in alloc; 0usize; threads]?;
    for source in sources {
        join(row.as_mut_slice(), clocks[*source].as_slice());
    }
    Ok(row)
}

/// Of each entry its clock, with a number for each thread: the thread's entries before that place are this one, or
/// happen before it.
pub(crate) fn make_clocks(
    alloc: Global,
    log: &[Entry],
    sites: &[Site],
    opening: u64,
    writers: &[Vec<usize>],
    calls: &Calls,
    threads: usize,
) -> Result<Vec<Vec<usize>>, AllocError>
    requires threads { All (λ (e : Entry). e.thread < threads) log.now }
    requires writers { AreWriters log.now sites.now opening (length log.now) (rows writers.now) }
    requires calls { AreCalls log.now (length log.now) calls.now }
    ensures { IfOk result (λ v. AreClocks log.now sites.now opening threads (length log.now) (rows v.items)) }
{
    let _ = sites;
    let _ = opening;
    let mut previous = vec![in alloc; None; threads]?;
    let mut here = Vec::new(alloc);
    let mut clocks = Vec::with_capacity(alloc, log.len())?;
    for (place, entry) in log.iter().enumerate() {
        let thread = entry.thread as usize;
        let start = start_before(calls.starts.as_slice(), thread, place);
        let wakers = calls.wakers[place].as_slice();
        let reads = writers[place].as_slice();
        gather(&mut here, wakers, start, reads, previous[thread])?;
        let mut row = joined(alloc, clocks.as_slice(), here.as_slice(), threads)?;
        row[thread] = place + 1;
        clocks.push(row)?;
        previous[thread] = Some(place);
    }
    Ok(clocks)
}
