//! Races, by the clocks.
ghost use Rattle.std.specs.Prelude.{◌≡◌, ◌≤◌, ◌<◌, ◌++◌, [], All, IfOk, OnOk, length, map, true, false};
ghost use Rattle.types.specs.declared.event.Entry.{Entry};
ghost use Rattle.shared_memory.specs.History.{AreEntries};
ghost use Rattle.race_history.specs.declared.lasts.Last.{Last};
ghost use Rattle.race_history.specs.Clocks.{AreClocks};
ghost use Rattle.race_history.specs.Found.{AreAscending, HaveMore, IsClash, IsClashOf, clashes, race_to};
ghost use Rattle.race_history.specs.Lasts.{table};
ghost use Rattle.race_history.specs.Races.{AreInOrder, AreRaces, HasEach, IsCut};
ghost use Rattle.race_history.specs.Sources.{rows};

use crate::access::{Site, ThreadAccess, accesses_of, conflicts};
use crate::lasts::{Last, Lasts};
use crate::race::{Race, Races};
use std::alloc::{AllocError, Global};
use types::Entry;

/// Whether an access races with an earlier one, by its clock.
fn clashes(last: &Last, access: &ThreadAccess, clock: &[usize]) -> bool
    requires { last.now.access.thread < length clock.now }
    ensures { result ≡ clashes access.now clock.now last.now }
{
    conflicts(&last.access, access) && clock[last.access.thread as usize] <= last.place
}

/// Puts a place where it belongs in the order, if it isn't there yet.
fn insert(places: &mut Vec<usize>, place: usize) -> Result<(), AllocError>
    requires { AreAscending places.old.items }
    ensures { OnOk result (HaveMore places.old.items places.new.items (λ p. p ≡ place)) }
{
    if let Err(at) = places.binary_search(&place) {
        places.insert(at, place)?;
    }
    Ok(())
}

/// Adds the places of those of a list with which an access races.
fn add_clashes(
    places: &mut Vec<usize>,
    list: &[Last],
    access: &ThreadAccess,
    clock: &[usize],
) -> Result<(), AllocError>
    requires threads { All (λ (x : Last). x.access.thread < length clock.now) list.now }
    requires in_order { AreAscending places.old.items }
    ensures { OnOk result (HaveMore places.old.items places.new.items (IsClash access.now clock.now list.now)) }
{
    for last in list {
        if clashes(last, access, clock) {
            insert(places, last.place)?;
        }
    }
    Ok(())
}

/// The places of those with which the accesses of an entry race.
fn find_clashes(
    alloc: Global,
    lasts: &Lasts,
    accesses: &[ThreadAccess],
    clock: &[usize],
) -> Result<Vec<usize>, AllocError>
    requires some { 0 < length (table lasts.now) }
    requires threads { All (All (λ (x : Last). x.access.thread < length clock.now)) (table lasts.now) }
    ensures { IfOk result (λ v. HaveMore [] v.items (IsClashOf accesses.now clock.now (table lasts.now))) }
{
    let mut places = Vec::new(alloc);
    for access in accesses {
        add_clashes(&mut places, lasts.near(access.addr), access, clock)?;
    }
    Ok(places)
}

/// Names the races of the entry at a place with those at other places.
fn add_races(pairs: &mut Vec<Race>, firsts: &[usize], place: usize) -> Result<(), AllocError>
    ensures { OnOk result (pairs.new.items ≡ pairs.old.items ++ map (race_to place) firsts.now) }
{
    for first in firsts {
        pairs.push(Race {
            first: *first,
            second: place,
        })?;
    }
    Ok(())
}

/// The races of a history whose entries have these clocks, `most` at most.
pub(crate) fn find_races(
    alloc: Global,
    log: &[Entry],
    sites: &[Site],
    opening: u64,
    clocks: &[Vec<usize>],
    threads: usize,
    most: usize,
) -> Result<Races, AllocError>
    requires sites { length sites.now ≡ length log.now }
    requires entries { AreEntries log.now }
    requires threads { All (λ (e : Entry). e.thread < threads) log.now }
    requires clocks { AreClocks log.now sites.now opening threads (length log.now) (rows clocks.now) }
    ensures races { IfOk result (λ r. AreRaces log.now sites.now opening r.pairs.items) }
    ensures in_order { IfOk result (λ r. AreInOrder r.pairs.items) }
    ensures each { IfOk result (λ r. r.is_cut ≡ false → HasEach log.now sites.now opening r.pairs.items) }
    ensures few { IfOk result (λ r. length r.pairs.items ≤ most) }
    ensures cut { IfOk result (λ r. r.is_cut ≡ true → IsCut log.now sites.now opening r.pairs.items most) }
{
    let _ = threads;
    let mut lasts = Lasts::new(alloc, log.len() + 1)?;
    let mut pairs = Vec::new(alloc);
    for (place, entry) in log.iter().enumerate() {
        let accesses = accesses_of(alloc, entry, &sites[place], opening)?;
        let made = accesses.as_slice();
        let firsts = find_clashes(alloc, &lasts, made, clocks[place].as_slice())?;
        add_races(&mut pairs, firsts.as_slice(), place)?;
        if pairs.len() > most {
            pairs.truncate(most);
            return Ok(Races {
                pairs,
                is_cut: true,
            });
        }
        lasts.keep_all(place, made)?;
    }
    Ok(Races {
        pairs,
        is_cut: false,
    })
}
