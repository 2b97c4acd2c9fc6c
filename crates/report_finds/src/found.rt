//! What a search found, before it is told: the run to an ending that is looked for, or one that never ends, and the
//! status; and what is kept of it, with the records.
ghost use Rattle.std.specs.Prelude.{◌≡◌, None, false, is_some, IfOk, IfErr, IfSome};
ghost use Rattle.search_finds.specs.Endings.{HaveOneEnding};
ghost use Rattle.search_finds.specs.Finds.{IsFind};
ghost use Rattle.report_jobs.specs.Prints.{changed};
ghost use Rattle.report_jobs.specs.Silence.{Stays};
ghost use Rattle.report_telling.specs.Troubles.{IsOfSystem};
ghost use Rattle.report_finds.specs.Sought as specified_sought;
ghost use Rattle.report_finds.specs.Sought.{IsStatusOf};
ghost use Rattle.report_finds.specs.Found as specified;
ghost use Rattle.report_finds.specs.Found.{AreKeptOf, CanBeKept, HasFilled, HasFound, HasOne, IsKeptOf, KeepsFound};
ghost use Rattle.report_finds.specs.Found.{KeepsMade};
ghost use Rattle.report_finds.specs.Racing as racing;
ghost use Rattle.report_finds.specs.Racing.{KeepsRaced};

use crate::all::{
    EndlessRun, EndlessWay, SoughtEnding, choices_to, course_of, endless_run, first_sought,
};
use crate::call::SearchedCall;
use report_command::{Search, Sought};
use report_jobs::{Trouble, keep};
use report_json::{FoundAs, RunSize, Shrunk};
use report_telling::{FoundRun, KeptRun, Raced, WholeSearch, are_well};
use search_finds::{Hears, Size, entries_leading, run_round, run_to, shrunk, size_of};
use search_scheduled::MadeRun;
use std::alloc::Global;
use std::io::Write;

/// How large a run was, and is, where it was shrunk.
pub(crate) fn shrunk_if(is_asked: bool, was: Size, is: Size) -> Option<Shrunk>
    ensures { result ≡ specified.shrunk_if is_asked was is }
{
    if is_asked {
        return Some(Shrunk {
            before: RunSize {
                entries: was.entries,
                switches: was.switches,
            },
            after: RunSize {
                entries: is.entries,
                switches: is.switches,
            },
        });
    }
    None
}

/// Whether a smaller run is looked for in place of one that was found so: one that never ends is as long as budgets and
/// log let it be.
fn can_shrink(found_as: FoundAs) -> bool
    ensures { result ≡ specified.can_shrink found_as }
{
    matches!(found_as, FoundAs::Run(_) | FoundAs::Ending(_))
}

/// The run that was found, or where that is asked for a smaller one that ends alike.
fn smaller<F: Hears>(
    alloc: Global,
    call: SearchedCall,
    found: MadeRun,
    follower: &mut F,
) -> Result<MadeRun, Trouble>
    requires { IsFind call.request.now call.search.now.sought.limit found }
    ensures run { IfOk result (IsFind call.entry.request.now call.entry.search.now.sought.limit) }
    ensures ending { IfOk result (λ made. HaveOneEnding call.entry.search.now.sought.dump found.end made.end) }
    ensures same { IfOk result (λ made. call.entry.search.now.shrink ≡ false → made ≡ found) }
    ensures trouble { IfErr result IsOfSystem }
{
    if !call.search.shrink {
        return Ok(found);
    }
    let Sought { limit, dump, .. } = call.search.sought;
    let Ok(made) = shrunk(alloc, call.request, limit, dump, found, follower) else {
        return Err(Trouble::NoMemory);
    };
    follower.end();
    Ok(made)
}

/// What is kept of what was found: where that is asked for, a smaller run that ends alike.
pub fn kept_of<F: Hears>(
    alloc: Global,
    call: SearchedCall,
    found: FoundRun,
    follower: &mut F,
) -> Result<KeptRun, Trouble>
    requires { CanBeKept call.request.now call.search.now found.made }
    ensures kept { IfOk result (IsKeptOf call.entry.request.now call.entry.search.now found) }
    ensures trouble { IfErr result IsOfSystem }
{
    let FoundRun { found_as, made } = found;
    if !can_shrink(found_as) {
        return Ok(KeptRun {
            found_as,
            shrunk: None,
            made,
        });
    }
    let Some(made) = made else {
        return Ok(KeptRun {
            found_as,
            shrunk: None,
            made: None,
        });
    };
    let was = size_of(&made.record);
    let made = smaller(alloc, call, made, follower)?;
    let is = size_of(&made.record);
    Ok(KeptRun {
        found_as,
        shrunk: shrunk_if(call.search.shrink, was, is),
        made: Some(made),
    })
}

/// The same, if something was found.
pub fn kept_if_found<F: Hears>(
    alloc: Global,
    call: SearchedCall,
    found: Option<FoundRun>,
    follower: &mut F,
) -> Result<Option<KeptRun>, Trouble>
    requires { IfSome found (λ f. CanBeKept call.request.now call.search.now f.made) }
    ensures kept { IfOk result (AreKeptOf call.entry.request.now call.entry.search.now found) }
    ensures trouble { IfErr result IsOfSystem }
{
    match found {
        Some(found) => {
            let kept = kept_of(alloc, call, found, follower)?;
            Ok(Some(kept))
        }
        None => Ok(None),
    }
}

/// The run to an ending of the list, or that its choices lead to another one.
fn ending_found(alloc: Global, call: SearchedCall, first: SoughtEnding) -> Result<FoundRun, Trouble>
    ensures has { IfOk result (HasOne call.entry.request.now call.entry.search.now first.entry.choices.now
        first.entry.number first.entry.ending.now) }
    ensures trouble { IfErr result IsOfSystem }
{
    let SoughtEnding {
        number,
        ending,
        choices,
    } = first;
    let Sought { limit, dump, .. } = call.search.sought;
    match run_to(alloc, call.request, limit, dump, choices, ending) {
        Ok(made) => Ok(FoundRun {
            found_as: FoundAs::Ending(number),
            made,
        }),
        Err(_) => Err(Trouble::NoMemory),
    }
}

/// As what a run that never ends is found, by how many entries lead to where it is sure not to.
fn endless_as(way: EndlessWay, entries: usize) -> FoundAs
    ensures { result ≡ specified.endless_as way entries }
{
    match way {
        EndlessWay::ToNoEnd => FoundAs::NoEndAfter(entries),
        EndlessWay::Round => FoundAs::ForEverAfter(entries),
    }
}

/// A run that never ends, as far as budgets and log reach.
fn endless_found(
    alloc: Global,
    call: SearchedCall,
    run: EndlessRun,
    is_free: bool,
) -> Result<FoundRun, Trouble>
    ensures has { IfOk result (HasFilled call.entry.request.now call.entry.search.now is_free run.entry) }
    ensures trouble { IfErr result IsOfSystem }
{
    let course = course_of(alloc, call, run, is_free)?;
    let (path, round) = (course.path.as_slice(), course.round.as_slice());
    let limit = call.search.sought.limit;
    let made = match run_round(alloc, call.request, limit, path, round) {
        Ok(made) => made,
        Err(_) => return Err(Trouble::NoMemory),
    };
    let entries = entries_leading(&made.record, path.len());
    Ok(FoundRun {
        found_as: endless_as(run.way, entries),
        made: Some(made),
    })
}

/// What comes behind the endings of every order: the status, and what was found.
#[derive(Drop)]
pub struct StatusAndFound {
    pub status: u8,
    pub found: Option<FoundRun>,
}

/// Nothing was found, with this status.
fn nothing(status: u8) -> StatusAndFound
    ensures { result ≡ record { status = status; found = None } }
{
    StatusAndFound {
        status,
        found: None,
    }
}

/// Whether a search stops at an ending that is looked for, or a run that never ends.
fn stops_behind(search: &Search) -> bool
    ensures { result ≡ specified_sought.stops_behind search.now }
{
    search.sought.stops && !search.races
}

/// The first ending that is looked for, by a run that ends so, or where none is a run that never ends; and the status:
/// 1 where such an ending was found, one has a trap or a stop, there is none, they are not all, something never ends,
/// or there are races, which aren't allowed; and else 0.
pub fn behind_of(
    alloc: Global,
    call: SearchedCall,
    whole: &WholeSearch,
) -> Result<StatusAndFound, Trouble>
    ensures has { IfOk result (λ b. HasFound call.entry.request.now call.entry.search.now whole.now b.found) }
    ensures status { IfOk result (λ b. IsStatusOf call.entry.search.now whole.now b.status) }
    ensures one { IfOk result (λ b. IfSome b.found (λ _. b.status ≡ 1)) }
    ensures trouble { IfErr result IsOfSystem }
{
    let search = call.search;
    let first = first_sought(alloc, &whole.all, &search.sought)?;
    let stops = stops_behind(search);
    if let Some(first) = first {
        if !stops {
            return Ok(nothing(1));
        }
        let choices = choices_to(alloc, call, first.choices, whole.is_free)?;
        let sought = SoughtEnding {
            choices: choices.as_slice(),
            ..first
        };
        let found = ending_found(alloc, call, sought)?;
        return Ok(StatusAndFound {
            status: 1,
            found: Some(found),
        });
    }
    if are_well(&whole.all, &search.sought) {
        if !whole.racing.is_allowed(search.allow_races) {
            return Ok(nothing(1));
        }
        return Ok(nothing(0));
    }
    if !stops {
        return Ok(nothing(1));
    }
    match endless_run(&whole.all.liveness, search.sought.target) {
        Some(run) => {
            let found = endless_found(alloc, call, run, whole.is_free)?;
            Ok(StatusAndFound {
                status: 1,
                found: Some(found),
            })
        }
        None => Ok(nothing(1)),
    }
}

/// Whether the record of a run with a race is kept.
pub(crate) fn keeps_race(search: &Search) -> bool
    ensures { result ≡ racing.keeps_race search.now }
{
    search.races && search.save.is_some()
}

/// Keeps the record of the run with the race, where it is looked for.
pub fn keep_raced<S: Write>(search: &Search, raced: &Raced, save: &mut S) -> Result<(), Trouble>
    ensures kept { IfOk result (λ _. KeepsRaced search.now raced.now (changed S.contents save.old save.new)) }
    ensures unwanted { racing.keeps_race search.now ≡ false → Stays save.old save.new }
    ensures trouble { IfErr result IsOfSystem }
{
    match raced {
        Raced::Run(run, _) => keep(&run.made.record, keeps_race(search), save),
        Raced::Threads(_) | Raced::Untold => Ok(()),
    }
}

/// Keeps the record of a run, if one was made and it is wanted.
pub fn keep_made<S: Write>(
    search: &Search,
    made: &Option<MadeRun>,
    save: &mut S,
) -> Result<(), Trouble>
    ensures kept { IfOk result (λ _. KeepsMade search.now made.now (changed S.contents save.old save.new)) }
    ensures unwanted { is_some search.now.save ≡ false → Stays save.old save.new }
    ensures trouble { IfErr result IsOfSystem }
{
    match made {
        Some(made) => keep(&made.record, search.save.is_some(), save),
        None => Ok(()),
    }
}

/// Keeps that of what was found, if something was.
pub fn keep_found<S: Write>(
    search: &Search,
    kept: &Option<KeptRun>,
    save: &mut S,
) -> Result<(), Trouble>
    ensures kept { IfOk result (λ _. KeepsFound search.now kept.now (changed S.contents save.old save.new)) }
    ensures unwanted { is_some search.now.save ≡ false → Stays save.old save.new }
    ensures trouble { IfErr result IsOfSystem }
{
    match kept {
        Some(kept) => keep_made(search, &kept.made, save),
        None => Ok(()),
    }
}
