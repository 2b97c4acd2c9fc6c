//! A race that a search found: the run that comes to it.
ghost use Rattle.std.specs.Prelude.{◌≡◌, false, IfOk, IfErr, IfSome};
ghost use Rattle.search_finds.specs.Judged.{IsFindBy};
ghost use Rattle.report_telling.specs.Troubles.{IsOfSystem};
ghost use Rattle.report_finds.specs.DrawnRaces.{HasRacy, SaysRaceOf};
ghost use Rattle.report_finds.specs.Racing as specified;
ghost use Rattle.report_finds.specs.Racing.{IsRacedOf, IsRacyRunOf};

use crate::call::SearchedCall;
use crate::found::{keeps_race, shrunk_if};
use crate::whole::FirstLook;
use report_command::Sought;
use report_jobs::Trouble;
use report_looks::races_of_run;
use report_telling::{KeptRace, Raced, Racing, RacyRun, trouble_of};
use search_finds::{Hears, NumberedRun, run_round, shrunk_by, size_of};
use search_modules::{MOST_PLAIN, ThreadRace, race_choices};
use search_races::RaceJudge;
use search_scheduled::MadeRun;
use std::alloc::Global;

/// How many plain turns in a row a thread makes at most in the run to a race that is tried first: more than the code
/// between two atomic accesses mostly takes, and few enough that a spin on plain data leaves the log its room.
const FEW_PLAIN: u32 = 100;

/// The run along the way to a race on which a thread makes so many plain turns in a row at most, if two of its accesses
/// race.
fn racy_run<'a>(
    alloc: Global,
    call: SearchedCall<'a>,
    way: &[usize],
    most_plain: u32,
) -> Result<Option<RacyRun<'a, 'a>>, Trouble>
    ensures run { IfOk result
        (λ o. IfSome o (IsRacyRunOf call.entry.request.now call.entry.search.now call.entry.allowed)) }
    ensures trouble { IfErr result IsOfSystem }
{
    let SearchedCall {
        request,
        code,
        search,
        allowed,
    } = call;
    let Sought { limit, dump, .. } = search.sought;
    let choices = race_choices(alloc, request, &allowed, dump as usize, way, most_plain)?;
    let made = match run_round(alloc, request, limit, choices.as_slice(), &[]) {
        Ok(made) => made,
        Err(_) => return Err(Trouble::NoMemory),
    };
    match races_of_run(alloc, request.module(), &made.record, code, allowed) {
        Ok(Some(race)) => Ok(Some(RacyRun { made, race })),
        Ok(None) => Ok(None),
        Err(unwritten) => Err(trouble_of(unwritten)),
    }
}

/// The run that comes to a race of these threads; or the threads, where it has none.
fn run_of_race<'a>(
    alloc: Global,
    call: SearchedCall<'a>,
    race: ThreadRace,
    way: &[usize],
) -> Result<Raced<'a, 'a>, Trouble>
    ensures raced { IfOk result
        (IsRacedOf call.entry.request.now call.entry.search.now call.entry.allowed (specified.found race)) }
    ensures trouble { IfErr result IsOfSystem }
{
    let is_kept = keeps_race(call.search);
    if let Some(run) = racy_run(alloc, call, way, FEW_PLAIN)? {
        return Ok(Raced::Run(run, is_kept));
    }
    match racy_run(alloc, call, way, MOST_PLAIN)? {
        Some(run) => Ok(Raced::Run(run, is_kept)),
        None => Ok(Raced::Threads(race)),
    }
}

/// What is told of the race that a first look at all runs found, if it found one.
pub fn raced_of<'a>(
    alloc: Global,
    call: SearchedCall<'a>,
    look: &FirstLook,
) -> Result<Raced<'a, 'a>, Trouble>
    ensures raced { IfOk result
        (IsRacedOf call.entry.request.now call.entry.search.now call.entry.allowed (specified.racing_in look.now)) }
    ensures trouble { IfErr result IsOfSystem }
{
    match look {
        FirstLook::Done { .. } => Ok(Raced::Untold),
        FirstLook::Open { racing, way } => match racing {
            Racing::Found(race) => run_of_race(alloc, call, *race, way.as_slice()),
            Racing::Unasked | Racing::Never | Racing::OnlyBehindTimeouts | Racing::Unknown => Ok(
                Raced::Untold,
            ),
        },
    }
}

/// The run with a race that was found, or where that is asked for a smaller one that has a race too.
fn smaller_racy<F: Hears>(
    alloc: Global,
    call: SearchedCall,
    found: MadeRun,
    follower: &mut F,
) -> Result<MadeRun, Trouble>
    requires { IsFindBy (SaysRaceOf call.request.now call.allowed) call.request.now call.search.now.sought.limit found }
    ensures run { IfOk result (IsFindBy (SaysRaceOf call.entry.request.now call.entry.allowed) call.entry.request.now
        call.entry.search.now.sought.limit) }
    ensures same { IfOk result (λ made. call.entry.search.now.shrink ≡ false → made ≡ found) }
    ensures trouble { IfErr result IsOfSystem }
{
    if !call.search.shrink {
        return Ok(found);
    }
    let limit = call.search.sought.limit;
    let judge = RaceJudge {
        allowed: call.allowed,
    };
    let Ok(made) = shrunk_by(alloc, call.request, limit, &judge, found, follower) else {
        return Err(Trouble::NoMemory);
    };
    follower.end();
    Ok(made)
}

/// The run with a race that was found, or that smaller one, and its first race.
pub fn kept_race<'a, F: Hears>(
    alloc: Global,
    call: SearchedCall<'a>,
    found: NumberedRun,
    follower: &mut F,
) -> Result<KeptRace<'a, 'a>, Trouble>
    requires { IsFindBy (SaysRaceOf call.request.now call.allowed) call.request.now call.search.now.sought.limit
        found.made }
    ensures has { IfOk result (HasRacy call.entry.request.now call.entry.search.now call.entry.allowed found.run
        found.made) }
    ensures trouble { IfErr result IsOfSystem }
{
    let NumberedRun { run, made } = found;
    let was = size_of(&made.record);
    let made = smaller_racy(alloc, call, made, follower)?;
    let is = size_of(&made.record);
    let module = call.request.module();
    match races_of_run(alloc, module, &made.record, call.code, call.allowed) {
        Ok(Some(race)) => Ok(KeptRace {
            run,
            shrunk: shrunk_if(call.search.shrink, was, is),
            racy: RacyRun { made, race },
        }),
        Ok(None) => Err(Trouble::NoMemory),
        Err(unwritten) => Err(trouble_of(unwritten)),
    }
}
