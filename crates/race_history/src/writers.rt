//! The atomic writes that atomic reads read from.
ghost use Rattle.std.specs.Prelude.{◌≡◌, ◌<◌, ◌++◌, IfOk, OnOk, None, fold, length};
ghost use Rattle.std.specs.Option.{option_to_list};
ghost use Rattle.shared_memory.specs.History.{AreEntries};
ghost use Rattle.race_history.specs.Lasts.{list_for, table};
ghost use Rattle.race_history.specs.Sources.{rows};
ghost use Rattle.race_history.specs.Writers.{AreWriters, later, read_from, with_writer, writers_in};

use crate::access::{Site, ThreadAccess, accesses_of, are_matched, touches};
use crate::lasts::{Last, Lasts};
use std::alloc::{AllocError, Global};
use types::Entry;

/// This access, where it writes a byte of the other one and is later than the latest that did.
fn later(latest: Option<Last>, last: &Last, access: &ThreadAccess) -> Option<Last>
    ensures { result ≡ later access.now latest last.now }
{
    if !(last.access.writes && touches(&last.access, access)) {
        return latest;
    }
    match latest {
        Some(other) if last.place < other.place => Some(other),
        _ => Some(*last),
    }
}

/// The latest write of the list that touches a byte of the access.
fn latest(list: &[Last], access: &ThreadAccess) -> Option<Last>
    ensures { result ≡ fold (later access.now) None list.now }
{
    let mut latest = None;
    for last in list {
        latest = later(latest, last, access);
    }
    latest
}

/// The place of the atomic write that the access reads from, if it is an atomic read of what one wrote.
fn read_from(list: &[Last], access: &ThreadAccess) -> Option<usize>
    ensures { result ≡ read_from list.now access.now }
{
    let last = latest(list, access)?;
    if access.reads && are_matched(&last.access, access) {
        return Some(last.place);
    }
    None
}

/// Puts the place of the write that an access reads from behind the others, if it reads from one.
fn add_writer(
    found: &mut Vec<usize>,
    lasts: &Lasts,
    access: &ThreadAccess,
) -> Result<(), AllocError>
    requires { 0 < length (table lasts.now) }
    ensures { OnOk result (found.new.items ≡ with_writer (table lasts.now) found.old.items access.now) }
{
    if let Some(place) = read_from(lasts.near(access.addr), access) {
        found.push(place)?;
    }
    Ok(())
}

/// The places of the writes that the accesses of an entry read from.
fn writers_in(
    alloc: Global,
    lasts: &Lasts,
    accesses: &[ThreadAccess],
) -> Result<Vec<usize>, AllocError>
    requires { 0 < length (table lasts.now) }
    ensures { IfOk result (λ v. v.items ≡ writers_in (table lasts.now) accesses.now) }
{
    let mut found = Vec::new(alloc);
    for access in accesses {
        add_writer(&mut found, lasts, access)?;
    }
    Ok(found)
}

/// Of each entry the places of the atomic writes that it reads from.
pub(crate) fn find_writers(
    alloc: Global,
    log: &[Entry],
    sites: &[Site],
    opening: u64,
) -> Result<Vec<Vec<usize>>, AllocError>
    requires sites { length sites.now ≡ length log.now }
    requires entries { AreEntries log.now }
    ensures { IfOk result (λ v. AreWriters log.now sites.now opening (length log.now) (rows v.items)) }
{
    let mut lasts = Lasts::new(alloc, log.len() + 1)?;
    let mut found = Vec::with_capacity(alloc, log.len())?;
    for (place, entry) in log.iter().enumerate() {
        let accesses = accesses_of(alloc, entry, &sites[place], opening)?;
        let made = accesses.as_slice();
        found.push(writers_in(alloc, &lasts, made)?)?;
        lasts.keep_all(place, made)?;
    }
    Ok(found)
}
