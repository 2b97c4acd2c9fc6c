//! The races of a recorded run by the program: what is printed, or why there is nothing to print.
ghost use Rattle.std.specs.Prelude.{◌≡◌, ◌≤◌, ◌<◌, ◌⊎◌, true, false, length, All, IfOk, IfErr, OnOk};
ghost use Rattle.report_looks.specs.Sighted.{AreTold};
ghost use Rattle.show_races.specs.Told.{IsWithin};
ghost use Rattle.report_jobs.specs.Jobs.{IsNoRecordOf, IsNoValidModule, IsRecordOf};
ghost use Rattle.report_jobs.specs.Silence.{IsRefusal, Stays};
ghost use Rattle.report_jobs.specs.Undone.{ended_status, undone_status};
ghost use Rattle.report_jobs.specs.Why.{RefusesModule, RefusesRecord};
ghost use Rattle.report_looks.specs.Allowing.{IsAllowedBy, SomeNamed};
ghost use Rattle.report_looks.specs.Silent.{IfUnshown, IsAbsent, IsUnshown};
ghost use Rattle.spawn_host.specs.declared.end.EndState.{EndState};
ghost use Rattle.replay.specs.Runs.{IsRunOf};
ghost use Rattle.show_races.specs.Rows.{AreRowsOf};
ghost use Rattle.report_jobs.specs.Prints.{changed};
ghost use Rattle.show_races.specs.Races.{Says};
ghost use Rattle.show_races.specs.Rows.{sites_of};
ghost use Rattle.show_races.specs.Sites.{opening_of};
ghost use Rattle.report_looks.specs.Raced.{IsRaceFree, IsRacy, OfModule, PrintsRaces, SaysOf, TellsIn, WritesRaces, status_by};

use crate::allowing::allowed_at;
use crate::showing::{CodeBytes, SeenRun, UnseenRecord, seen_of, unfit_of};
use crate::sighting::{ToldRaces, chained_at, races_in, stacks_in};
use crate::wanted::{Unshown, no_memory};
use allowed_races::Allowed;
use race_history::Site;
use report_command::{Allowance, Form, RacesJob};
use report_jobs::{Done, LeftOut, Refused, Streams, Undone, load, of_refusal, of_unfit};
use report_objects::write_pairs;
use show_named::DataMap;
use show_race_words::write_races;
use show_races::RecordRaces;
use show_rows::{CodeMap, Shown};
use show_stacks::StacksView;
use show_text::Unwritten;
use std::alloc::Global;
use std::io::Write;
use validate_module::ValidModule;

/// How many races are counted at most that are left out.
const MOST_LEFT_OUT: usize = 10_000;

/// Tells the races of the run whose record's text `saved` is, as many at most as are asked for, in lines or as an object.
/// `names` are the bytes that have the names of functions and data and the lines of source, as for `show_saved`. No path of
/// what is asked for is read.
///
/// It is done with status 0 only where the record is of a run of the module in which no two accesses race that may not, with
/// 1 only of one in which some do. A refusal is of the module (status 2), of data that it hasn't, at which races are allowed
/// (3), or of bytes that are the text of no record of a run of it (4); then nothing is written.
///
/// # Errors
/// The refusal; or that memory or a stream failed.
pub fn races_saved<'a, W: Write, E: Write, S: Write>(
    alloc: Global,
    module: &[u8],
    names: &[u8],
    saved: &[u8],
    asked: &RacesJob<'a>,
    streams: &mut Streams<W, E, S>,
) -> Result<Done, Undone<'a>>
    requires { 1 ≤ asked.now.most }
    ensures free { ended_status result ≡ 0 → OfModule (IsRaceFree asked.now.allow) «module».now saved.now }
    ensures racy { ended_status result ≡ 1 → OfModule (IsRacy asked.now.allow) «module».now saved.now }
    ensures prints { ended_status result ≤ 1 → OfModule (PrintsRaces asked.now.allow asked.now.most asked.now.form
        (changed W.contents streams.old.out streams.new.out)) «module».now saved.now }
    ensures done { IfOk result (λ done. done.status ≤ 1) }
    ensures refused { ended_status result ≡ 2 → IsNoValidModule «module».now }
    ensures why { IfErr result (λ why. undone_status why ≡ 2 → RefusesModule «module».now why) }
    ensures absent { ended_status result ≡ 3 → IsRecordOf «module».now saved.now }
    ensures named { ended_status result ≡ 3 → SomeNamed asked.now.allow.bytes.items }
    ensures none { ended_status result ≡ 4 → IsNoRecordOf «module».now saved.now }
    ensures wrong { IfErr result (λ why. undone_status why ≡ 4 → RefusesRecord «module».now saved.now why) }
    ensures status { ended_status result ≤ 5 }
    ensures silent { IsRefusal (ended_status result) → Stays streams.old.out streams.new.out }
    ensures unwanted { Stays streams.old.save streams.new.save }
    ensures no_memory { Stays streams.old.memory streams.new.memory }
    ensures unsaid { Stays streams.old.err streams.new.err }
{
    let Streams { out, .. } = streams;
    let valid = match load(alloc, module) {
        Ok(valid) => valid,
        Err(refusal) => return Err(of_refusal(refusal)),
    };
    let code = CodeBytes {
        module,
        names,
        sources: &[],
    };
    match tell_races(alloc, &valid, code, saved, asked, out) {
        Ok(told) => Ok(told.done()),
        Err(Unshown::Unfit { unfit, stood }) => Err(of_unfit(unfit, valid, stood)),
        Err(Unshown::Absent(absent)) => Err(Undone::Refused(Refused::Allowance(absent))),
    }
}

/// What was told of the races of a run.
#[derive(Clone, Copy)]
struct RacesTold {
    /// Whether there are any.
    is_racy: bool,
    left_out: LeftOut,
}

impl RacesTold {
    /// The job is done.
    fn done(self) -> Done
        ensures { result.status ≡ status_by self.is_racy }
    {
        let done = if self.is_racy {
            Done::with(1)
        } else {
            Done::with(0)
        };
        Done {
            left_out: self.left_out,
            ..done
        }
    }
}

/// Tells the races of the run whose record's text `saved` is, and answers whether there are any.
fn tell_races<'a, W: Write>(
    alloc: Global,
    module: &ValidModule,
    code: CodeBytes,
    saved: &[u8],
    asked: &RacesJob<'a>,
    out: &mut W,
) -> Result<RacesTold, Unshown<'a>>
    requires { 1 ≤ asked.now.most }
    ensures races { IfOk result (λ told. SaysOf asked.now.allow «module».now.parts saved.now told.is_racy) }
    ensures prints { IfOk result (λ _. PrintsRaces asked.now.allow asked.now.most asked.now.form
        (changed W.contents out.old out.new) «module».now.parts saved.now) }
    ensures unshown { IfErr result (IsUnshown «module».now.parts saved.now) }
    ensures named { IfErr result (λ why. IsAbsent why → SomeNamed asked.now.allow.bytes.items) }
    ensures silent { IfErr result (λ why. IfUnshown why (Stays out.old out.new)) }
{
    let seen = match seen_of(alloc, module, saved) {
        Ok(seen) => seen,
        Err(UnseenRecord { unfit, stood }) => return Err(Unshown::Unfit { unfit, stood }),
    };
    let Ok(map) = DataMap::read(alloc, code.names) else {
        return Err(no_memory());
    };
    let bytes = match allowed_at(alloc, &map, &asked.allow) {
        Ok(bytes) => bytes,
        Err(why) => return Err(why),
    };
    let seen = SeenCode {
        seen: &seen,
        map: &map,
        code,
        allowed: bytes.allowed(),
    };
    match write_seen(alloc, module, seen, asked, out) {
        Ok(told) => Ok(told),
        Err(unwritten) => Err(Unshown::Unfit {
            unfit: unfit_of(unwritten),
            stood: None,
        }),
    }
}

/// A record of a run, what is known of the module's code and data, and what may race.
#[derive(Clone, Copy)]
struct SeenCode<'a, 'n> {
    seen: &'a SeenRun,
    map: &'a DataMap<'n>,
    code: CodeBytes<'n>,
    allowed: Allowed<'a>,
}

/// Whether the entry at a place may race.
fn may_race(sites: &[Site], at: usize) -> bool {
    match sites.get(at) {
        Some(site) => site.is_allowed,
        None => false,
    }
}

/// How many races aren't among these, since they are allowed: of those that the run has where none is, at most
/// `MOST_LEFT_OUT`, those of two entries that may race.
fn left_out(
    alloc: Global,
    shown: Shown,
    told: &RecordRaces,
    allow: &Allowance,
) -> Result<LeftOut, Unwritten> {
    if !allow.allows() {
        return Ok(LeftOut::Nothing);
    }
    let all = races_in(alloc, shown, &Allowed::nothing(), MOST_LEFT_OUT)?;
    let sites = told.sites.as_slice();
    let mut count = 0usize;
    for race in all.races.pairs.as_slice() {
        if may_race(sites, race.first) && may_race(sites, race.second) {
            count = count.saturating_add(1);
        }
    }
    Ok(LeftOut::Races(count))
}

/// Whether there is a race.
fn is_racy(races: &RecordRaces) -> bool
    ensures some { result ≡ true → 1 ≤ length races.now.pairs.items }
    ensures none { result ≡ false → length races.now.pairs.items < 1 }
{
    races.pairs.as_slice().len() >= 1
}

/// Writes races in the form that is asked for.
fn write_told<W: Write>(
    alloc: Global,
    shown: Shown,
    map: &DataMap,
    told: &ToldRaces,
    stacks: StacksView,
    form: Form,
    out: &mut W,
) -> Result<(), Unwritten>
    requires { All (IsWithin shown.record.now.log) told.now.races.pairs.items }
    ensures { OnOk result (TellsIn form shown.entry map.now told.now.story told.now.races stacks.entry
        (W.contents out.old) (W.contents out.new)) }
{
    let ToldRaces { story, races } = told;
    match form {
        Form::Lines => write_races(alloc, shown, map, story, stacks, races, out),
        Form::Json => write_pairs(alloc, &shown, story, races, out),
    }
}

/// Writes the races of a run, and answers whether there are any.
fn write_seen<W: Write>(
    alloc: Global,
    module: &ValidModule,
    seen: SeenCode,
    asked: &RacesJob,
    out: &mut W,
) -> Result<RacesTold, Unwritten>
    requires most { 1 ≤ asked.now.most }
    requires allowed { IsAllowedBy asked.now.allow seen.allowed }
    requires run { (end : EndState) × IsRunOf «module».now.parts seen.seen.now.«record» end
        × AreRowsOf «module».now.parts seen.seen.now.«record» end seen.seen.now.rows.items }
    ensures says { IfOk result (λ told. Says seen.entry.seen.now.«record».log
        (sites_of seen.entry.allowed «module».now.parts seen.entry.seen.now.«record» seen.entry.seen.now.rows.items)
        (opening_of «module».now.parts) told.is_racy) }
    ensures writes { IfOk result (λ _. WritesRaces asked.now.allow «module».now.parts seen.entry.seen.now.«record»
        seen.entry.seen.now.rows.items asked.now.most asked.now.form (changed W.contents out.old out.new)) }
{
    let SeenCode {
        seen: run,
        map,
        code,
        allowed,
    } = seen;
    let known = CodeMap::read(alloc, module.parts(), code.module, code.names)?;
    let shown = Shown {
        record: run.record.parts(),
        rows: run.rows.as_slice(),
        code: &known,
    };
    let told = races_in(alloc, shown, &allowed, asked.most as usize)?;
    let left_out = left_out(alloc, shown, &told.races, &asked.allow)?;
    let stacks = stacks_in(alloc, module, &run.record, shown, &told.races)?;
    let log = run.record.parts().log.as_slice();
    let code = chained_at(alloc, map, known, log, &run.rows, &stacks)?;
    let shown = Shown {
        record: run.record.parts(),
        rows: run.rows.as_slice(),
        code: &code,
    };
    let view = StacksView {
        stacks: &stacks,
        code: &code,
    };
    write_told(alloc, shown, map, &told, view, asked.form, out)?;
    Ok(RacesTold {
        is_racy: is_racy(&told.races),
        left_out,
    })
}
