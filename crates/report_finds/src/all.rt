//! What is looked for in all runs of a call: the first ending that is, and the run that never ends.
ghost use Rattle.std.specs.Prelude.{◌≡◌, ◌-◌, ◌↔◌, All, Some, None, true, false, IfOk, IfSome, IfNone};
ghost use Rattle.search_finds.specs.Finds.{IsLookedFor};
ghost use Rattle.report_finds.specs.Endless as specified;
ghost use Rattle.report_finds.specs.Endless.{HasNoEndless, IsKnown, HasNoEnd};
ghost use Rattle.report_finds.specs.Sought as specified_sought;
ghost use Rattle.report_finds.specs.Sought.{IsFirstSought};

use crate::call::SearchedCall;
use report_command::Sought;
use report_telling::Complete;
use search_endings::Ending;
use search_finds::is_looked_for;
use search_modules::turn_choices;
use search_reach::{FairRuns, Liveness};
use selection::{Find, SearchTarget};
use std::alloc::{AllocError, Global};

/// An ending of the list that is looked for: its number from 1 on, and the choices by which it was met.
#[derive(Clone, Copy)]
pub(crate) struct SoughtEnding<'a> {
    pub number: usize,
    pub ending: &'a Ending,
    pub choices: &'a [usize],
}

/// In which way a run never ends.
#[derive(Clone, Copy)]
pub enum EndlessWay {
    /// It comes to where no run ends.
    ToNoEnd,
    /// It goes round.
    Round,
}

/// A run that never ends, by choices: those to where it is sure not to, and those of the round that it goes then, if it
/// goes one.
#[derive(Clone, Copy)]
pub struct EndlessRun<'a> {
    pub way: EndlessWay,
    pub path: &'a [usize],
    pub round: &'a [usize],
}

/// The choices that were noted of the ending at a place of the list.
fn choices_at(all: &Complete, place: usize) -> &[usize]
    ensures { result.now ≡ specified_sought.choices_at all.now place }
{
    match all.paths.get(place) {
        Some(choices) => choices.as_slice(),
        None => &[],
    }
}

/// The first ending that is looked for.
pub(crate) fn first_sought<'a>(
    alloc: Global,
    all: &'a Complete,
    sought: &Sought,
) -> Result<Option<SoughtEnding<'a>>, AllocError>
    ensures first { IfOk result (λ o. IfSome o (λ first.
        IsFirstSought sought.now all.now.endings.keys first.number first.ending.now)) }
    ensures choices { IfOk result (λ o. IfSome o (λ first.
        first.choices.now ≡ specified_sought.choices_at all.now (first.number - 1))) }
    ensures none { IfOk result (λ o. o ≡ None → All (λ e. IsLookedFor sought.now e → ⊥) all.now.endings.keys) }
{
    let endings = all.endings.as_slice();
    for (place, ending) in endings.iter().enumerate() {
        if is_looked_for(alloc, sought, ending)? {
            return Ok(Some(SoughtEnding {
                number: place + 1,
                ending,
                choices: choices_at(all, place),
            }));
        }
    }
    Ok(None)
}

/// Whether a run to where none ends is looked for: where nothing is said, where its words are, and where a result is
/// expected, to which it doesn't come.
fn looks_for_no_end(target: SearchTarget) -> bool
    ensures { result ≡ specified.looks_for_no_end target.entry }
{
    target.expect.is_some() || matches!(target.find, Find::Failure | Find::NoEnd)
}

/// Whether one that goes round for ever is.
fn looks_for_ever(target: SearchTarget) -> bool
    ensures { result ≡ specified.looks_for_ever target.entry }
{
    target.expect.is_some() || matches!(target.find, Find::Failure | Find::ForEver)
}

/// Whether runs to where none ends are looked for, and there is one.
fn has_no_end(liveness: &Liveness, target: SearchTarget) -> bool
    ensures { (result ≡ true) ↔ HasNoEnd target.entry liveness.now }
{
    looks_for_no_end(target) && !liveness.endless.is_empty()
}

/// The run that never ends, where one is known and looked for: to the first state from which no run ends, or else round
/// a cycle of a fair run.
pub(crate) fn endless_run<'a>(
    liveness: &'a Option<Liveness>,
    target: SearchTarget,
) -> Option<EndlessRun<'a>>
    ensures none { IfNone result (HasNoEndless target.entry liveness.now) }
    ensures some { IfSome result (IsKnown target.entry liveness.now) }
{
    let Some(liveness) = liveness else {
        return None;
    };
    if has_no_end(liveness, target) {
        return Some(EndlessRun {
            way: EndlessWay::ToNoEnd,
            path: liveness.path.as_slice(),
            round: &[],
        });
    }
    if !looks_for_ever(target) {
        return None;
    }
    match &liveness.fair_runs {
        FairRuns::GoOn(cycle) => Some(EndlessRun {
            way: EndlessWay::Round,
            path: cycle.path.as_slice(),
            round: cycle.walk.as_slice(),
        }),
        FairRuns::AllEnd | FairRuns::Unknown => None,
    }
}

/// The choices of each event along those that were noted, where these leave plain accesses out; and else these.
pub(crate) fn choices_to(
    alloc: Global,
    call: SearchedCall,
    noted: &[usize],
    is_free: bool,
) -> Result<Vec<usize>, AllocError>
    ensures { IfOk result (λ choices. is_free ≡ false → choices.items ≡ noted.now) }
{
    if is_free {
        let dump = call.search.sought.dump as usize;
        return turn_choices(alloc, call.request, &call.allowed, dump, noted);
    }
    let mut choices = Vec::new(alloc);
    choices.extend_from_slice(noted)?;
    Ok(choices)
}

/// The choices of each event to where it is sure that a run never ends, and once round.
#[derive(Drop)]
pub(crate) struct Lasso {
    pub path: Vec<usize>,
    pub round: Vec<usize>,
}

/// Those of a run that never ends, of which choices were noted.
pub(crate) fn course_of(
    alloc: Global,
    call: SearchedCall,
    run: EndlessRun,
    is_free: bool,
) -> Result<Lasso, AllocError>
    ensures { IfOk result (λ lasso. is_free ≡ false → lasso.path.items ≡ run.entry.path.now) }
{
    let path = choices_to(alloc, call, run.path, is_free)?;
    let mut noted = Vec::new(alloc);
    noted.extend_from_slice(run.path)?;
    noted.extend_from_slice(run.round)?;
    let all = choices_to(alloc, call, noted.as_slice(), is_free)?;
    let mut round = Vec::new(alloc);
    for place in path.len()..all.len() {
        round.push(all[place])?;
    }
    Ok(Lasso { path, round })
}
