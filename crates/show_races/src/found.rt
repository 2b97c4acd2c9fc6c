//! The races of a record, each pair of places in the code once for the calls that led to both.

ghost use Rattle.std.specs.Prelude.{◌≡◌, ◌≤◌, ◌<◌, ◌⊎◌, ◌||◌, [], All, IfOk, length, true, false};
ghost use Rattle.shared_memory.specs.History.{AreEntries};
ghost use Rattle.shared_memory.specs.Legal.{IsQueueLegal};
ghost use Rattle.race_history.specs.Races.{AreInOrder, AreRaces, HasEach, IsCut};
ghost use Rattle.show_races.specs.Sites.{opening_shown, sites_shown};
ghost use Rattle.show_races.specs.Told as told;
ghost use Rattle.show_races.specs.Told.{AreMany, AreApart, HasNoRace, IsFirstAmong, IsFirstThere, IsLeftOut, IsMore};
ghost use Rattle.show_races.specs.Told.{IsTold, IsWithin, TellsEach};

use crate::sites::{opening_of, sites_of};
use allowed_races::Allowed;
use interp::CodePlace;
use race_history::{Race, Races, Site, races_of};
use show_rows::{Shown, Story};
use std::alloc::{AllocError, Global};

/// How many pairs of entries are looked at. Of more nothing is known.
const MOST_PAIRS: usize = 1_000_000;

/// Races of a record's run.
#[derive(Drop)]
pub struct RecordRaces {
    /// By which instruction each entry was made.
    pub sites: Vec<Site>,
    /// In the order of their second entries. No two were made at the same two places of the code, called from the same
    /// two places.
    pub pairs: Vec<Race>,
    /// There are more, or more than are looked at.
    pub is_cut: bool,
}

/// Of races each one that was made at other places of the code, or called from others, than those before it.
#[derive(Drop)]
struct Firsts {
    pairs: Vec<Race>,
    is_cut: bool,
}

/// Where the two entries of a race were made, and from where the functions were called in which they were.
#[derive(Clone, Copy)]
struct Places {
    first: Option<CodePlace>,
    second: Option<CodePlace>,
    first_call: Option<CodePlace>,
    second_call: Option<CodePlace>,
}

/// Whether two places are the same, or neither is known.
fn is_same(a: Option<CodePlace>, b: Option<CodePlace>) -> bool
    ensures { result ≡ told.is_same a b }
{
    match (a, b) {
        (Some(a), Some(b)) => a.function == b.function && a.instr == b.instr,
        (None, None) => true,
        _ => false,
    }
}

fn is_alike(a: Places, b: Places) -> bool
    ensures { result ≡ told.is_alike a b }
{
    is_same(a.first, b.first)
        && is_same(a.second, b.second)
        && is_same(a.first_call, b.first_call)
        && is_same(a.second_call, b.second_call)
}

fn places_of(shown: Shown, story: &Story, race: Race) -> Places
    ensures { result ≡ told.places_of shown.entry story.now race }
{
    Places {
        first: shown.place_at(story, race.first),
        second: shown.place_at(story, race.second),
        first_call: shown.caller_at(story, race.first),
        second_call: shown.caller_at(story, race.second),
    }
}

/// Whether one of these races was made at the same two places, called from the same two places.
fn is_known(shown: Shown, story: &Story, known: &[Race], race: Race) -> bool
    ensures told { result ≡ true → IsTold shown.entry story.now known.now race }
    ensures untold { result ≡ false → IsTold shown.entry story.now known.now race → ⊥ }
{
    let places = places_of(shown, story, race);
    for at in 0..known.len() {
        if is_alike(places_of(shown, story, known[at]), places) {
            return true;
        }
    }
    false
}

/// Of these races those that were made at other places of the code, or called from others, than each one before, `most`
/// at most.
fn find_firsts(
    alloc: Global,
    shown: Shown,
    story: &Story,
    all: &[Race],
    most: usize,
) -> Result<Firsts, AllocError>
    ensures from { IfOk result (λ r. All (IsFirstAmong shown.entry story.now all.now) r.pairs.items) }
    ensures in_order { IfOk result (λ r. AreInOrder all.now → AreInOrder r.pairs.items) }
    ensures once { IfOk result (λ r. AreApart shown.entry story.now r.pairs.items) }
    ensures each { IfOk result (λ r. r.is_cut ≡ false → All (IsTold shown.entry story.now r.pairs.items) all.now) }
    ensures cut { IfOk result (λ r. r.is_cut ≡ true → IsLeftOut shown.entry story.now all.now r.pairs.items most) }
    ensures few { IfOk result (λ r. length r.pairs.items ≤ most) }
{
    let mut pairs = Vec::new(alloc);
    for at in 0..all.len() {
        if is_known(shown, story, pairs.as_slice(), all[at]) {
            continue;
        }
        if pairs.len() >= most {
            return Ok(Firsts {
                pairs,
                is_cut: true,
            });
        }
        pairs.push(all[at])?;
    }
    Ok(Firsts {
        pairs,
        is_cut: false,
    })
}

/// The pairs of entries of a record's run that race, as `races_of` names them, where the entries were made so, and so much
/// may race; `most` at most.
fn all_races(
    alloc: Global,
    shown: Shown,
    allowed: &Allowed,
    sites: &[Site],
    opening: u64,
    most: usize,
) -> Result<Races, AllocError>
    requires sites { sites.now ≡ sites_shown allowed.now shown }
    requires opening { opening ≡ opening_shown shown }
    requires entries { AreEntries shown.record.now.log }
    requires legal { IsQueueLegal shown.record.now.log }
    ensures races { IfOk result (λ r. AreRaces shown.entry.record.now.log
        (sites_shown allowed.now shown.entry) (opening_shown shown.entry) r.pairs.items) }
    ensures in_order { IfOk result (λ r. AreInOrder r.pairs.items) }
    ensures each { IfOk result (λ r. r.is_cut ≡ false
        → HasEach shown.entry.record.now.log (sites_shown allowed.now shown.entry) (opening_shown shown.entry) r.pairs.items) }
    ensures few { IfOk result (λ r. length r.pairs.items ≤ most) }
    ensures cut { IfOk result (λ r. r.is_cut ≡ true
        → IsCut shown.entry.record.now.log (sites_shown allowed.now shown.entry) (opening_shown shown.entry) r.pairs.items most) }
{
    let _ = allowed;
    races_of(alloc, shown.record.log.as_slice(), sites, opening, most)
}

/// Whether one of two holds.
fn either(a: bool, b: bool) -> bool
    ensures { result ≡ (a || b) }
{
    a || b
}

/// The races of a record's run that aren't allowed, `most` at most: of those that were made at the same two places of
/// the code, called from the same two places, the first.
///
/// # Errors
/// Where memory is refused.
pub fn races_shown(
    alloc: Global,
    shown: Shown,
    story: &Story,
    allowed: &Allowed,
    most: usize,
) -> Result<RecordRaces, AllocError>
    requires entries { AreEntries shown.record.now.log }
    requires legal { IsQueueLegal shown.record.now.log }
    requires some { 1 ≤ most }
    ensures sites { IfOk result (λ r. r.sites.items ≡ sites_shown allowed.now shown.entry) }
    ensures races { IfOk result (λ r. AreRaces shown.entry.record.now.log
        (sites_shown allowed.now shown.entry) (opening_shown shown.entry) r.pairs.items) }
    ensures in_order { IfOk result (λ r. AreInOrder r.pairs.items) }
    ensures once { IfOk result (λ r. AreApart shown.entry story.now r.pairs.items) }
    ensures firsts { IfOk result (λ r. All (IsFirstThere allowed.now shown.entry story.now) r.pairs.items) }
    ensures each { IfOk result (λ r. r.is_cut ≡ false → TellsEach allowed.now shown.entry story.now r.pairs.items) }
    ensures cut { IfOk result (λ r. r.is_cut ≡ true
        → IsMore allowed.now shown.entry story.now r.pairs.items most ⊎ AreMany allowed.now shown.entry) }
    ensures none { IfOk result (λ r. r.pairs.items ≡ []
        → HasNoRace shown.entry.record.now.log (sites_shown allowed.now shown.entry) (opening_shown shown.entry)) }
    ensures few { IfOk result (λ r. length r.pairs.items ≤ most) }
    ensures within { IfOk result (λ r. All (IsWithin shown.entry.record.now.log) r.pairs.items) }
{
    let sites = sites_of(alloc, shown, allowed)?;
    let opening = opening_of(alloc, shown.code.parts())?;
    let all = all_races(alloc, shown, allowed, sites.as_slice(), opening, MOST_PAIRS)?;
    let told = find_firsts(alloc, shown, story, all.pairs.as_slice(), most)?;
    Ok(RecordRaces {
        sites,
        pairs: told.pairs,
        is_cut: either(all.is_cut, told.is_cut),
    })
}

/// The pairs of entries of a record's run that race and aren't allowed, as `races_of` names them, `most` at most; all of
/// them where they are fewer.
///
/// # Errors
/// Where memory is refused.
pub fn racing_pairs(
    alloc: Global,
    shown: Shown,
    allowed: &Allowed,
    most: usize,
) -> Result<Vec<Race>, AllocError>
    requires entries { AreEntries shown.record.now.log }
    requires legal { IsQueueLegal shown.record.now.log }
    ensures races { IfOk result (λ r. AreRaces shown.entry.record.now.log
        (sites_shown allowed.now shown.entry) (opening_shown shown.entry) r.items) }
    ensures each { IfOk result (λ r. length r.items < most
        → HasEach shown.entry.record.now.log (sites_shown allowed.now shown.entry) (opening_shown shown.entry) r.items) }
    ensures within { IfOk result (λ r. All (IsWithin shown.entry.record.now.log) r.items) }
{
    let sites = sites_of(alloc, shown, allowed)?;
    let opening = opening_of(alloc, shown.code.parts())?;
    let all = all_races(alloc, shown, allowed, sites.as_slice(), opening, most)?;
    Ok(all.pairs)
}
