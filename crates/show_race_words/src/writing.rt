//! Races as text.

ghost use Rattle.std.specs.Prelude.{◌≡◌, ◌<◌, All, IfOk, OnOk, length, string_bytes};
ghost use Rattle.show_races.specs.Told.{IsWithin};
ghost use Rattle.show_race_words.specs.Written.{AreStarts, SaysRace, TellsFound, TellsRaces, WritesEach};
ghost use Rattle.show_race_words.specs.Written.{kind_of, name_text};

use crate::blocks::block_text;
use crate::looks::look_text;
use crate::ordering::order_text;
use crate::stacks::stacks_text;
use crate::starts::start_text;
use race_history::{AccessKind, Race, Site};
use show_named::{DataMap, named_text};
use show_races::RecordRaces;
use show_rows::{Shown, Story};
use show_stacks::StacksView;
use show_text::Unwritten;
use std::alloc::{AllocError, Global};
use std::fmt::{self, Formatter};
use std::io::Write;

/// By which kind of instruction the entry at a place was made.
fn kind_of(sites: &[Site], at: usize) -> Option<AccessKind>
    ensures { result ≡ kind_of sites.now at }
{
    let site = sites.get(at)?;
    Some(site.kind)
}

/// What a race is called: two atomic accesses race where they are of other bytes.
fn name_of(sites: &[Site], race: Race) -> &'static str
    ensures { result.now ≡ name_text sites.now race }
{
    match (kind_of(sites, race.first), kind_of(sites, race.second)) {
        (Some(AccessKind::Atomic), Some(AccessKind::Atomic)) => "mixed",
        _ => "race",
    }
}

/// Which entries started the threads of the two entries of a race.
fn starts_text(alloc: Global, shown: Shown, story: &Story, race: Race) -> Result<String, AllocError>
    requires first { race.first < length shown.record.now.log }
    requires second { race.second < length shown.record.now.log }
    ensures { IfOk result (λ text. AreStarts shown.entry story.now race (string_bytes text)) }
{
    let log = shown.record.log.as_slice();
    let (first, second) = (log[race.first].thread, log[race.second].thread);
    let one = start_text(alloc, shown, story, first)?;
    let other = start_text(alloc, shown, story, second)?;
    let text = format!(in alloc; "{one}{other}")?;
    Ok(text)
}

/// A race: its two entries, what they do with the number of pages, the calls that led to them, the block of the heap in
/// which they touch a byte, what would have ordered them, and which entries started their threads.
fn race_text(
    alloc: Global,
    shown: Shown,
    map: &DataMap,
    story: &Story,
    stacks: StacksView,
    sites: &[Site],
    race: Race,
) -> Result<String, AllocError>
    requires { IsWithin shown.record.now.log race }
    ensures { IfOk result
        (λ text. SaysRace shown.entry map.now story.now stacks.entry sites.now race (string_bytes text)) }
{
    let name = name_of(sites, race);
    let one = named_text(alloc, shown, map, story, race.first)?;
    let other = named_text(alloc, shown, map, story, race.second)?;
    let look = look_text(alloc, shown, race)?;
    let calls = stacks_text(alloc, shown, story, stacks, race)?;
    let block = block_text(alloc, shown, stacks, race)?;
    let order = order_text(alloc, shown, story, sites, race)?;
    let starts = starts_text(alloc, shown, story, race)?;
    let text = format!(in alloc; "{name}: {one}; {other}\n{look}{calls}{block}{order}{starts}")?;
    Ok(text)
}

/// Whether these are all, where that isn't clear.
#[derive(Clone, Copy)]
struct End {
    is_cut: bool,
    count: usize,
}

impl fmt::Display for End {
    ghost use Rattle.std.specs.Prelude.{Some};
    ghost use Rattle.show_race_words.specs.Written.{end_text};

    ghost output = { λ e. Some (end_text e.is_cut e.count) };

    fn fmt<W: fmt::Write>(&self, f: &mut Formatter<W>) -> fmt::Result {
        let count = self.count;
        if self.is_cut {
            write!(f, "not all: more than {count}, by `--most`\n")
        } else if count == 0 {
            f.write_str("no race\n")
        } else {
            Ok(())
        }
    }
}

/// What tells more, where these are not all.
#[derive(Clone, Copy)]
struct More {
    is_cut: bool,
    count: usize,
}

impl fmt::Display for More {
    ghost use Rattle.std.specs.Prelude.{Some};
    ghost use Rattle.show_race_words.specs.Written.{more_text};

    ghost output = { λ m. Some (more_text m.is_cut m.count) };

    fn fmt<W: fmt::Write>(&self, f: &mut Formatter<W>) -> fmt::Result {
        let count = self.count;
        if self.is_cut {
            write!(
                f,
                "not all: more than {count}; `races` tells more of a record\n"
            )
        } else {
            Ok(())
        }
    }
}

/// Writes the races of a record's run, a paragraph each.
fn write_each<W: Write>(
    alloc: Global,
    shown: Shown,
    map: &DataMap,
    story: &Story,
    stacks: StacksView,
    races: &RecordRaces,
    out: &mut W,
) -> Result<(), Unwritten>
    requires { All (IsWithin shown.record.now.log) races.now.pairs.items }
    ensures { OnOk result
        (WritesEach shown.entry map.now story.now stacks.entry races.now (W.contents out.old) (W.contents out.new)) }
{
    let pairs = races.pairs.as_slice();
    let sites = races.sites.as_slice();
    for at in 0..pairs.len() {
        let text = race_text(alloc, shown, map, story, stacks, sites, pairs[at])?;
        write!(out, "{text}")?;
    }
    Ok(())
}

/// Writes the races of a record's run, a paragraph each, or that there is none; and where some are left out, that these
/// are not all.
///
/// # Errors
/// Where memory is refused, or the stream fails.
pub fn write_races<W: Write>(
    alloc: Global,
    shown: Shown,
    map: &DataMap,
    story: &Story,
    stacks: StacksView,
    races: &RecordRaces,
    out: &mut W,
) -> Result<(), Unwritten>
    requires { All (IsWithin shown.record.now.log) races.now.pairs.items }
    ensures { OnOk result
        (TellsRaces shown.entry map.now story.now stacks.entry races.now (W.contents out.old) (W.contents out.new)) }
{
    write_each(alloc, shown, map, story, stacks, races, out)?;
    let pairs = races.pairs.as_slice();
    let end = End {
        is_cut: races.is_cut,
        count: pairs.len(),
    };
    write!(out, "{end}")?;
    out.flush()?;
    Ok(())
}

/// Writes the races of a run that was found for one, a paragraph each; and where some are left out, what tells more.
///
/// # Errors
/// Where memory is refused, or the stream fails.
pub fn write_found<W: Write>(
    alloc: Global,
    shown: Shown,
    map: &DataMap,
    story: &Story,
    stacks: StacksView,
    races: &RecordRaces,
    out: &mut W,
) -> Result<(), Unwritten>
    requires { All (IsWithin shown.record.now.log) races.now.pairs.items }
    ensures { OnOk result
        (TellsFound shown.entry map.now story.now stacks.entry races.now (W.contents out.old) (W.contents out.new)) }
{
    write_each(alloc, shown, map, story, stacks, races, out)?;
    let pairs = races.pairs.as_slice();
    let more = More {
        is_cut: races.is_cut,
        count: pairs.len(),
    };
    write!(out, "{more}")?;
    out.flush()?;
    Ok(())
}
