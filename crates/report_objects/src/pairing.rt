//! Races as JSON objects.
ghost use Rattle.std.specs.Prelude.{◌≡◌, ◌<◌, All, IfOk, OnOk, length};
ghost use Rattle.std.specs.List.{AllZip, slice_get};
ghost use Rattle.show_races.specs.Told.{IsWithin};
ghost use Rattle.show_races.specs.Releases.{access_at};
ghost use Rattle.report_objects.specs.RaceObjects as specified;
ghost use Rattle.report_objects.specs.RaceObjects.{IsEntryOf, IsNextOf, IsPairOf, WritesPairs};

use crate::objects::row_of;
use race_history::{AccessKind, Race, Site, ThreadAccess, bytes_of};
use show_json::{NextWrite, RaceEntry, RacePair, RacePairs};
use show_races::{RecordRaces, changes_pages, next_atomic_write};
use show_rows::{Shown, Story};
use show_text::Unwritten;
use std::alloc::{AllocError, Global};
use std::io::Write;
use types::Entry;

/// Whether the entry at a place was made by an atomic instruction.
fn is_atomic_at(sites: &[Site], at: usize) -> bool
    ensures { result ≡ specified.is_atomic_site (slice_get sites.now at) }
{
    match sites.get(at) {
        Some(site) => match site.kind {
            AccessKind::Plain => false,
            AccessKind::Atomic => true,
        },
        None => false,
    }
}

/// What the entry at a place does with bytes of the memory.
fn access_at(log: &[Entry], sites: &[Site], at: usize) -> Option<ThreadAccess>
    ensures { result ≡ access_at log.now sites.now at }
{
    match (log.get(at), sites.get(at)) {
        (Some(entry), Some(site)) => bytes_of(entry, site),
        _ => None,
    }
}

/// The first byte of an access.
fn first_byte(access: Option<ThreadAccess>) -> u64
    ensures { result ≡ specified.first_byte access }
{
    match access {
        Some(access) => access.addr,
        None => 0,
    }
}

/// How many bytes it touches.
fn width_of(access: Option<ThreadAccess>) -> u8
    ensures { result ≡ specified.width_of access }
{
    match access {
        Some(access) => access.width,
        None => 0,
    }
}

/// The entry at a place, with what it touches.
fn entry_of<'a>(shown: &'a Shown, story: &'a Story, sites: &[Site], at: usize) -> RaceEntry<'a>
    requires { at < length shown.now.record.now.log }
    ensures { IsEntryOf shown.now story.now sites.now at result }
{
    let log = shown.record.log.as_slice();
    let access = access_at(log, sites, at);
    RaceEntry {
        row: row_of(shown, story, at, &log[at]),
        is_atomic: is_atomic_at(sites, at),
        addr: first_byte(access),
        width: width_of(access),
    }
}

/// The next atomic write of the thread that makes the first entry of a race.
fn next_write(shown: &Shown, sites: &[Site], race: Race) -> Option<NextWrite>
    requires { race.first < length shown.now.record.now.log }
    ensures { IsNextOf shown.now sites.now race result }
{
    let log = shown.record.log.as_slice();
    let thread = log[race.first].thread;
    match next_atomic_write(log, sites, thread, race.first) {
        Some(write) => Some(NextWrite {
            line: shown.line_of(write),
            is_between: write < race.second,
        }),
        None => None,
    }
}

/// Whether the entry at a place changes the number of pages.
fn is_change(log: &[Entry], at: usize) -> bool
    ensures { result ≡ specified.is_change (slice_get log.now at) }
{
    match log.get(at) {
        Some(entry) => changes_pages(entry),
        None => false,
    }
}

/// Whether one entry of a race looks at the number of pages, which the other changes.
fn is_of_pages(shown: &Shown, race: Race) -> bool
    ensures { result ≡ specified.is_of_pages shown.now.record.now.log race }
{
    let log = shown.record.log.as_slice();
    is_change(log, race.first) || is_change(log, race.second)
}

/// Two entries that race, by which instruction each entry of the log was made.
pub fn pair_of<'a>(shown: &'a Shown, story: &'a Story, sites: &[Site], race: Race) -> RacePair<'a>
    requires { IsWithin shown.now.record.now.log race }
    ensures { IsPairOf shown.now story.now sites.now race result }
{
    RacePair {
        is_of_pages: is_of_pages(shown, race),
        first: entry_of(shown, story, sites, race.first),
        second: entry_of(shown, story, sites, race.second),
        next_write: next_write(shown, sites, race),
    }
}

/// The races of a record's run.
fn pairs_of<'a>(
    alloc: Global,
    shown: &'a Shown,
    story: &'a Story,
    sites: &[Site],
    races: &[Race],
) -> Result<Vec<RacePair<'a>>, AllocError>
    requires { All (IsWithin shown.now.record.now.log) races.now }
    ensures { IfOk result (λ pairs. AllZip (IsPairOf shown.now story.now sites.now) races.now pairs.items) }
{
    let mut pairs = Vec::new(alloc);
    for at in 0..races.len() {
        let pair = pair_of(shown, story, sites, races[at]);
        pairs.push(pair)?;
    }
    Ok(pairs)
}

/// Writes the object of the races of a record's run.
///
/// # Errors
/// Where memory is refused, and where the output fails.
pub fn write_pairs<W: Write>(
    alloc: Global,
    shown: &Shown,
    story: &Story,
    races: &RecordRaces,
    out: &mut W,
) -> Result<(), Unwritten>
    requires { All (IsWithin shown.now.record.now.log) races.now.pairs.items }
    ensures { OnOk result
        (WritesPairs shown.now story.now races.now (W.contents out.old) (W.contents out.new)) }
{
    let sites = races.sites.as_slice();
    let pairs = pairs_of(alloc, shown, story, sites, races.pairs.as_slice())?;
    let object = RacePairs {
        pairs: pairs.as_slice(),
        is_cut: races.is_cut,
    };
    show_json::write_races(alloc, out, &object)
}
