//! The races of a history.
ghost use Rattle.std.specs.Prelude.{◌≡◌, ◌≤◌, IfOk, length, true, false};
ghost use Rattle.shared_memory.specs.History.{AreEntries};
ghost use Rattle.shared_memory.specs.Legal.{IsQueueLegal};
ghost use Rattle.race_history.specs.Races.{AreInOrder, AreRaces, HasEach, IsCut};

use crate::access::Site;
use crate::calls::find_calls;
use crate::clocks::{count_threads, make_clocks};
use crate::found::find_races;
use crate::writers::find_writers;
use std::alloc::{AllocError, Global};
use types::Entry;

/// Two entries that race, by their places in the history. The first comes before the second.
#[derive(Clone, Copy, PartialEq, Eq, Debug)]
pub struct Race {
    pub first: usize,
    pub second: usize,
}

/// Races of a history, by the second entry, and those of one second entry by the first.
#[derive(Drop)]
pub struct Races {
    pub pairs: Vec<Race>,
    /// There is at least one more.
    pub is_cut: bool,
}

/// The races of a history whose entries were made by these instructions, over a memory that opens with pages of
/// `opening` bytes in all, `most` at most.
///
/// Not each pair is named: of the earlier entries that race with one and make the same access (one thread, the same
/// bytes, reads or writes, of one kind, at one place in the code) the last. The history is one of a run (`is_history`):
/// its calls are those that the wait queue allows.
///
/// # Errors
/// Where memory is refused.
pub fn races_of(
    alloc: Global,
    log: &[Entry],
    sites: &[Site],
    opening: u64,
    most: usize,
) -> Result<Races, AllocError>
    requires sites { length sites.now ≡ length log.now }
    requires entries { AreEntries log.now }
    requires legal { IsQueueLegal log.now }
    ensures races { IfOk result (λ r. AreRaces log.now sites.now opening r.pairs.items) }
    ensures in_order { IfOk result (λ r. AreInOrder r.pairs.items) }
    ensures each { IfOk result (λ r. r.is_cut ≡ false → HasEach log.now sites.now opening r.pairs.items) }
    ensures few { IfOk result (λ r. length r.pairs.items ≤ most) }
    ensures cut { IfOk result (λ r. r.is_cut ≡ true → IsCut log.now sites.now opening r.pairs.items most) }
{
    let threads = count_threads(log);
    let writers = find_writers(alloc, log, sites, opening)?;
    let calls = find_calls(alloc, log)?;
    let clocks = make_clocks(
        alloc,
        log,
        sites,
        opening,
        writers.as_slice(),
        &calls,
        threads,
    )?;
    find_races(alloc, log, sites, opening, clocks.as_slice(), threads, most)
}
