//! The calls that led to the two entries of a race.

ghost use Rattle.std.specs.Prelude.{◌≡◌, ◌<◌, IfOk, OnOk, length, string_bytes};
ghost use Rattle.show_race_words.specs.Stacks.{AddsPlaces, AreStackPlaces, AreStacks, IsStackLine};

use crate::blocks::block_of;
use race_history::Race;
use show_races::RecordRaces;
use show_rows::{Shown, Story, spot_text};
use show_stacks::StacksView;
use std::alloc::{AllocError, Global};

/// Adds the places of the entries of a race whose stacks are told.
fn add_places(places: &mut Vec<usize>, shown: Shown, race: Race) -> Result<(), AllocError>
    ensures { OnOk result (AddsPlaces shown.entry race places.old.items places.new.items) }
{
    places.push(race.first)?;
    places.push(race.second)?;
    let Some(block) = block_of(shown, race) else {
        return Ok(());
    };
    places.push(block.at)?;
    Ok(())
}

/// The places of the entries whose stacks are told: the two of each race, and those by which the blocks were got in
/// which they touch bytes.
///
/// # Errors
/// Where memory is refused.
pub fn stack_places(
    alloc: Global,
    shown: Shown,
    races: &RecordRaces,
) -> Result<Vec<usize>, AllocError>
    ensures { IfOk result (λ places. AreStackPlaces shown.entry races.now.pairs.items places.items) }
{
    let pairs = races.pairs.as_slice();
    let mut places = Vec::new(alloc);
    for at in 0..pairs.len() {
        add_places(&mut places, shown, pairs[at])?;
    }
    Ok(places)
}

/// In which calls a thread was when it made the entry at a place; empty where none of them is told.
fn stack_line(
    alloc: Global,
    shown: Shown,
    story: &Story,
    stacks: StacksView,
    thread: u32,
    at: usize,
) -> Result<String, AllocError>
    ensures { IfOk result (λ text. IsStackLine shown.entry story.now stacks.entry thread at (string_bytes text)) }
{
    let calls = stacks.calls_text(alloc, at)?;
    if calls.as_bytes().is_empty() {
        return Ok(String::new(alloc));
    }
    let spot = spot_text(alloc, stacks.code, shown.place_at(story, at))?;
    let text = format!(in alloc; "  t{thread} was in {spot}{calls}\n")?;
    Ok(text)
}

/// In which calls the threads of a race were when they made its two entries.
pub(crate) fn stacks_text(
    alloc: Global,
    shown: Shown,
    story: &Story,
    stacks: StacksView,
    race: Race,
) -> Result<String, AllocError>
    requires first { race.first < length shown.record.now.log }
    requires second { race.second < length shown.record.now.log }
    ensures { IfOk result (λ text. AreStacks shown.entry story.now stacks.entry race (string_bytes text)) }
{
    let log = shown.record.log.as_slice();
    let (first, second) = (log[race.first].thread, log[race.second].thread);
    let one = stack_line(alloc, shown, story, stacks, first, race.first)?;
    let other = stack_line(alloc, shown, story, stacks, second, race.second)?;
    let text = format!(in alloc; "{one}{other}")?;
    Ok(text)
}
