//! A search in one JSON object: of every order, or of the table of drawn runs.
ghost use Rattle.std.specs.Prelude.{◌≡◌, ◌≤◌, [], Some, None, IfOk, IfErr};
ghost use Rattle.std.specs.List.{AllZip};
ghost use Rattle.types.specs.declared.parts.Parts.{Parts};
ghost use Rattle.report_jobs.specs.Prints.{IsObjectOf, changed};
ghost use Rattle.report_looks.specs.Sighted.{CanBeTold};
ghost use Rattle.report_telling.specs.Drawn.{cut_in};
ghost use Rattle.report_telling.specs.Racing.{CanTell, IsRacedIn, IsRacyRun};
ghost use Rattle.report_telling.specs.SearchObjects as specified;
ghost use Rattle.report_telling.specs.SearchObjects.{AreKeptIn, IsEndIn, IsMetOf, WritesAll, WritesKept, WritesRacy};
ghost use Rattle.report_telling.specs.SearchObjects.{WritesNone, WritesTable, WritesTold};
ghost use Rattle.report_telling.specs.Troubles.{IsOfSystem};

use crate::found::KeptRun;
use crate::racing::{KeptRace, Raced, Racing, trouble_of};
use crate::table::{DrawnTable, NoneFound, coverage_of, cut_of};
use crate::telling::{Conclusion, News, Teller, ToldSearch};
use report_command::Sought;
use report_jobs::Trouble;
use report_json::{
    CompleteObject, Coverage, DrawnEnd, DrawnObject, DrawnRuns, FoundAs, FoundObject, MetEnding,
    RacingThreads, RunEndObject, RunRaces, write_complete, write_drawn,
};
use search_finds::Met;
use search_race_free::ThreadRace;
use search_scheduled::MadeRun;
use std::alloc::{AllocError, Global};
use std::io::Write;

/// How a run ended that was made.
fn end_of(made: &MadeRun, dump: u32) -> RunEndObject<'_>
    ensures { IsObjectOf made.now.end dump [] result }
{
    RunEndObject {
        threads: &made.end.threads,
        places: &[],
        pages: made.end.pages,
        dump,
        bytes: &made.end.bytes,
        said: &[],
        hints: &[],
    }
}

/// How a run ended, if one was made.
fn end_in(made: &Option<MadeRun>, dump: u32) -> Option<RunEndObject<'_>>
    ensures { IsEndIn dump made.now result }
{
    match made {
        Some(made) => Some(end_of(made, dump)),
        None => None,
    }
}

/// What is kept of what was found.
fn found_of(kept: &KeptRun, dump: u32) -> FoundObject<'_>
    ensures { specified.IsKeptIn dump kept.now result }
{
    FoundObject {
        found_as: kept.found_as,
        shrunk: kept.shrunk,
        run: end_in(&kept.made, dump),
    }
}

/// The same, if something was found.
fn found_in(kept: &Option<KeptRun>, dump: u32) -> Option<FoundObject<'_>>
    ensures { AreKeptIn dump kept.now result }
{
    match kept {
        Some(kept) => Some(found_of(kept, dump)),
        None => None,
    }
}

/// Writes the object of every order, with what is known of races.
fn write_told<W: Write>(
    alloc: Global,
    told: ToldSearch,
    races: Option<RunRaces>,
    out: &mut W,
) -> Result<(), Trouble>
    ensures written { IfOk result (λ _. WritesTold told.entry races.entry (changed W.contents out.old out.new)) }
    ensures trouble { IfErr result IsOfSystem }
{
    let complete = CompleteObject {
        status: told.status,
        most: told.most,
        all: &told.whole.all,
        races,
        found: found_in(told.kept, told.dump),
    };
    match write_complete(alloc, out, &complete) {
        Ok(()) => Ok(()),
        Err(unwritten) => Err(trouble_of(unwritten)),
    }
}

/// What is known of races, where no run with one was made.
fn races_alone(racing: Racing) -> Option<RunRaces<'static>>
    ensures { result ≡ specified.races_alone racing }
{
    match racing {
        Racing::Unasked => None,
        Racing::Never => Some(RunRaces::Never),
        Racing::OnlyBehindTimeouts => Some(RunRaces::OnlyBehindTimeouts),
        Racing::Found(ThreadRace { one, other }) => {
            Some(RunRaces::Between(RacingThreads { one, other }))
        }
        Racing::Unknown => Some(RunRaces::Unknown),
    }
}

/// Writes the object of every order.
fn write_all<W: Write>(alloc: Global, told: ToldSearch, out: &mut W) -> Result<(), Trouble>
    requires { CanTell told.raced.now }
    ensures written { (m : Parts) → IsRacedIn m told.entry.raced.now
        → IfOk result (λ _. WritesAll m told.entry (changed W.contents out.old out.new)) }
    ensures trouble { IfErr result IsOfSystem }
{
    match told.raced {
        Raced::Run(run, _) => {
            let shown = run.race.shown(&run.made.record);
            let pair = run.race.pair(&shown);
            write_told(alloc, told, Some(RunRaces::Found(pair)), out)
        }
        Raced::Threads(race) => write_told(alloc, told, races_alone(Racing::Found(*race)), out),
        Raced::Untold => write_told(alloc, told, races_alone(told.whole.racing), out),
    }
}

/// The endings of a table.
fn all_met<'a>(
    alloc: Global,
    sought: &Sought,
    met: &'a [Met],
) -> Result<Vec<MetEnding<'a>>, AllocError>
    ensures { IfOk result (λ all. AllZip (IsMetOf sought.now) met.now all.items) }
{
    let mut all = Vec::new(alloc);
    for at in 0..met.len() {
        let met = &met[at];
        all.push(MetEnding {
            times: met.times,
            first: met.first,
            way: sought.way.of_run(met.first),
            ending: &met.ending,
        })?;
    }
    Ok(all)
}

/// What is said of drawn runs in their object, beside the table: the status, what is known of races, and how the search
/// ended.
#[derive(Clone, Copy)]
struct DrawnSaid<'a> {
    status: u8,
    races: Option<RunRaces<'a>>,
    halt: DrawnEnd<'a>,
}

/// Writes the object of drawn runs.
fn write_drawn_runs<W: Write>(
    alloc: Global,
    drawn: DrawnTable,
    said: DrawnSaid,
    out: &mut W,
) -> Result<(), Trouble>
    requires { cut_in drawn.table.now ≤ drawn.table.now.runs }
    ensures written { IfOk result (λ _. WritesTable drawn.entry.sought.now drawn.entry.table.now
        said.entry.status said.entry.races said.entry.halt (changed W.contents out.old out.new)) }
    ensures trouble { IfErr result IsOfSystem }
{
    let DrawnTable { sought, table } = drawn;
    let met = all_met(alloc, sought, table.met.as_slice())?;
    let object = DrawnObject {
        status: said.status,
        runs: DrawnRuns {
            made: table.runs,
            asked: sought.runs,
            cut: cut_of(table),
            limit: sought.limit,
        },
        met: met.as_slice(),
        races: said.races,
        halt: said.halt,
    };
    match write_drawn(alloc, out, &object) {
        Ok(()) => Ok(()),
        Err(unwritten) => Err(trouble_of(unwritten)),
    }
}

/// Writes the object of drawn runs whose last one was found.
fn write_kept<W: Write>(
    alloc: Global,
    drawn: DrawnTable,
    kept: &KeptRun,
    out: &mut W,
) -> Result<(), Trouble>
    requires { cut_in drawn.table.now ≤ drawn.table.now.runs }
    ensures written { IfOk result (λ _. WritesKept drawn.entry.sought.now drawn.entry.table.now kept.now
        (changed W.contents out.old out.new)) }
    ensures trouble { IfErr result IsOfSystem }
{
    let said = DrawnSaid {
        status: 1,
        races: None,
        halt: DrawnEnd::Found(found_of(kept, drawn.sought.dump)),
    };
    write_drawn_runs(alloc, drawn, said, out)
}

/// That nothing was found: the search was told to end, or all runs were made.
fn none_of(is_told: bool, coverage: Coverage) -> DrawnEnd<'static>
    ensures { result ≡ specified.none_of is_told coverage }
{
    if is_told {
        return DrawnEnd::Told(coverage);
    }
    DrawnEnd::AllMade(coverage)
}

/// Writes the object of drawn runs of which none was found.
fn write_none<W: Write>(
    alloc: Global,
    drawn: DrawnTable,
    none: NoneFound,
    out: &mut W,
) -> Result<(), Trouble>
    requires { cut_in drawn.table.now ≤ drawn.table.now.runs }
    ensures written { IfOk result
        (λ _. WritesNone drawn.entry none.entry (changed W.contents out.old out.new)) }
    ensures trouble { IfErr result IsOfSystem }
{
    let said = DrawnSaid {
        status: none.status,
        races: none.races,
        halt: none_of(none.is_told, coverage_of(drawn)),
    };
    write_drawn_runs(alloc, drawn, said, out)
}

/// Writes the object of drawn runs whose last one has a race.
fn write_racy<W: Write>(
    alloc: Global,
    drawn: DrawnTable,
    kept: &KeptRace,
    out: &mut W,
) -> Result<(), Trouble>
    requires cut { cut_in drawn.table.now ≤ drawn.table.now.runs }
    requires told { CanBeTold kept.now.racy.made.«record» kept.now.racy.race }
    ensures written { (m : Parts) → IsRacyRun m kept.now.racy
        → IfOk result (λ _. WritesRacy m drawn.entry.sought.now drawn.entry.table.now kept.now
        (changed W.contents out.old out.new)) }
    ensures trouble { IfErr result IsOfSystem }
{
    let racy = &kept.racy;
    let shown = racy.race.shown(&racy.made.record);
    let pair = racy.race.pair(&shown);
    let found = FoundObject {
        found_as: FoundAs::Run(kept.run),
        shrunk: kept.shrunk,
        run: Some(end_of(&racy.made, drawn.sought.dump)),
    };
    let said = DrawnSaid {
        status: 1,
        races: Some(RunRaces::Found(pair)),
        halt: DrawnEnd::Found(found),
    };
    write_drawn_runs(alloc, drawn, said, out)
}

/// Tells it in one object, at the end.
#[derive(Clone, Copy)]
pub struct ObjectTeller;

impl Teller for ObjectTeller {
    ghost use Rattle.report_command.specs.declared.form.Form.TheVariants.{Json};

    ghost form = { Json };

    fn tell<W: Write>(&self, _alloc: Global, _news: News, _out: &mut W) -> Result<(), Trouble> {
        Ok(())
    }

    fn conclude<W: Write>(
        &self,
        alloc: Global,
        conclusion: Conclusion,
        out: &mut W,
    ) -> Result<(), Trouble> {
        match conclusion {
            Conclusion::Orders(told) => write_all(alloc, told, out),
            Conclusion::Last(drawn, kept) => write_kept(alloc, drawn, kept, out),
            Conclusion::Racy(drawn, kept) => write_racy(alloc, drawn, kept, out),
            Conclusion::None(drawn, none) => write_none(alloc, drawn, none, out),
        }
    }
}
