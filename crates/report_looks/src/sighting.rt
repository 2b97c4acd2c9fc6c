//! The races that a run has, with what they are told by.
ghost use Rattle.std.specs.Prelude.{◌≡◌, ◌≤◌, false, IfOk, IfNone, IfSome};
ghost use Rattle.types.specs.declared.parts.Parts.{Parts};
ghost use Rattle.replay_text.specs.declared.parts.RecordParts.{RecordParts};
ghost use Rattle.show_races.specs.Races.{SaysOfRun};
ghost use Rattle.report_looks.specs.Raced.{SaysObject, WritesFound};
ghost use Rattle.report_looks.specs.Seeing.{AreStacksTold};
ghost use Rattle.report_looks.specs.Sighted.{AreTold, CanBeTold, AreRacesOf, IsShownBy};
ghost use Rattle.report_jobs.specs.Prints.{changed};

use crate::showing::CodeBytes;
use allowed_races::Allowed;
use race_history::is_history;
use replay_text::Record;
use report_objects::pair_of;
use show_json::RacePair;
use show_named::DataMap;
use show_race_words::{stack_places, write_found};
use show_races::{RecordRaces, races_shown, watched};
use show_rows::{CodeMap, Row, Shown, Story};
use show_stacks::{EntryStacks, StacksView, stacks_seen};
use show_text::Unwritten;
use std::alloc::{AllocError, Global};
use std::io::Write;
use types::Entry;
use validate_module::ValidModule;

/// Races of a run, and what its log says.
#[derive(Drop)]
pub(crate) struct ToldRaces {
    pub story: Story,
    pub races: RecordRaces,
}

/// The races of a run as it is shown that aren't allowed, `most` at most. A log of more threads than 64 is none of
/// `races_of`'s.
pub(crate) fn races_in(
    alloc: Global,
    shown: Shown,
    allowed: &Allowed,
    most: usize,
) -> Result<ToldRaces, Unwritten>
    requires { 1 ≤ most }
    ensures { IfOk result (AreTold allowed.now shown.entry most) }
{
    let log = shown.record.log.as_slice();
    if !is_history(log) {
        return Err(Unwritten::NoMemory);
    }
    let story = Story::new(alloc, log)?;
    let races = races_shown(alloc, shown, &story, allowed, most)?;
    Ok(ToldRaces { story, races })
}

/// The stacks that are told with these races of a run.
pub(crate) fn stacks_in(
    alloc: Global,
    module: &ValidModule,
    record: &Record,
    shown: Shown,
    races: &RecordRaces,
) -> Result<EntryStacks, Unwritten>
    ensures { IfOk result (AreStacksTold «module».now.parts «record».now shown.entry races.now) }
{
    let places = stack_places(alloc, shown, races)?;
    match stacks_seen(alloc, module, record, places) {
        Ok(stacks) => Ok(stacks),
        Err(_) => Err(Unwritten::NoMemory),
    }
}

/// The code with the functions that were put in the place of their calls, at the places of these rows and of the calls of
/// these stacks, and with the data of signed types of a log.
pub(crate) fn chained_at<'m, 'n>(
    alloc: Global,
    map: &DataMap,
    known: CodeMap<'m, 'n>,
    log: &[Entry],
    rows: &[Option<Row>],
    stacks: &EntryStacks,
) -> Result<CodeMap<'m, 'n>, AllocError>
    ensures { IfOk result (λ c. c.parts.now ≡ known.entry.parts.now) }
{
    let mut all = Vec::from_slice(alloc, rows)?;
    all.extend_from_slice(stacks.as_rows(alloc)?.as_slice())?;
    let known = map.signed(alloc, known, log)?;
    map.chained(alloc, known, all.as_slice())
}

/// How many races are told at most of a run that was found for one.
pub const MOST_TOLD: usize = 20;

/// The races of a recorded run that has some, with the rows of its entries, the stacks that are told, and the code of its
/// module and the names of its data.
#[derive(Drop)]
pub struct RacesOfRun<'m, 'n> {
    rows: Vec<Option<Row>>,
    code: CodeMap<'m, 'n>,
    map: DataMap<'n>,
    /// What may race.
    allowed: Allowed<'n>,
    told: ToldRaces,
    stacks: EntryStacks,
}

/// The races of a recorded run that aren't allowed, if it has some: `MOST_TOLD` at most, each two places in the code once.
///
/// # Errors
/// Where memory is refused; and where the record is none of a run of the module, or has more threads than 64.
pub fn races_of_run<'m, 'n>(
    alloc: Global,
    module: &'m ValidModule,
    record: &Record,
    code: CodeBytes<'n>,
    allowed: Allowed<'n>,
) -> Result<Option<RacesOfRun<'m, 'n>>, Unwritten>
    ensures race { IfOk result (λ o. IfSome o (AreRacesOf «module».now.parts «record».now)) }
    ensures allowed { IfOk result (λ o. IfSome o (λ f. f.allowed ≡ allowed.entry)) }
    ensures none { IfOk result (λ o. IfNone o (SaysOfRun allowed.entry «module».now.parts «record».now false)) }
{
    let Ok(rows) = watched(alloc, module, record) else {
        return Err(Unwritten::NoMemory);
    };
    let names = code.names;
    let map = DataMap::read(alloc, names)?;
    let known = CodeMap::read(alloc, module.parts(), code.module, names)?;
    let shown = Shown {
        record: record.parts(),
        rows: rows.as_slice(),
        code: &known,
    };
    let told = races_in(alloc, shown, &allowed, MOST_TOLD)?;
    if told.races.pairs.as_slice().is_empty() {
        return Ok(None);
    }
    let stacks = stacks_in(alloc, module, record, shown, &told.races)?;
    let code = chained_at(
        alloc,
        &map,
        known,
        record.parts().log.as_slice(),
        &rows,
        &stacks,
    )?;
    Ok(Some(RacesOfRun {
        rows,
        code,
        map,
        allowed,
        told,
        stacks,
    }))
}

impl<'m, 'n> RacesOfRun<'m, 'n> {
    /// The record of the run as it is shown.
    pub fn shown<'a>(&'a self, record: &'a Record) -> Shown<'a, 'a, 'a, 'm, 'n>
        ensures { IsShownBy «record».now self.now result }
    {
        Shown {
            record: record.parts(),
            rows: self.rows.as_slice(),
            code: &self.code,
        }
    }

    /// Writes the races of the run in words, a paragraph each.
    ///
    /// # Errors
    /// Where memory is refused, or the stream fails.
    pub fn write<W: Write>(
        &self,
        alloc: Global,
        record: &Record,
        out: &mut W,
    ) -> Result<(), Unwritten>
        requires { CanBeTold «record».now self.now }
        ensures { (m : Parts) → AreRacesOf m «record».now self.now
            → IfOk result (λ _. WritesFound self.now.allowed m «record».now (changed W.contents out.old out.new)) }
    {
        let shown = self.shown(record);
        let stacks = StacksView {
            stacks: &self.stacks,
            code: &self.code,
        };
        let ToldRaces { story, races } = &self.told;
        write_found(alloc, shown, &self.map, story, stacks, races, out)?;
        Ok(())
    }

    /// The first race of the run in an object.
    pub fn pair<'a>(&'a self, shown: &'a Shown) -> RacePair<'a>
        requires { CanBeTold shown.now.record.now self.now }
        ensures { (m : Parts) (r : RecordParts) → AreRacesOf m r self.now → IsShownBy r self.now shown.now
            → SaysObject self.now.allowed m r result }
    {
        let races = &self.told.races;
        pair_of(
            shown,
            &self.told.story,
            races.sites.as_slice(),
            races.pairs.as_slice()[0],
        )
    }
}
