//! A search in lines, and those of what it found.
ghost use Rattle.std.specs.Prelude.{IfErr, IfOk};
ghost use Rattle.types.specs.declared.parts.Parts.{Parts};
ghost use Rattle.replay_forms.specs.Texts.{Wrote};
ghost use Rattle.report_jobs.specs.Prints.{changed};
ghost use Rattle.report_looks.specs.Sighted.{CanBeTold};
ghost use Rattle.report_telling.specs.Found.{found_line, kept_text, shrunk_text};
ghost use Rattle.report_telling.specs.Racing.{CanTell, IsRacedIn, IsRacyRun, SaysRaced, Tells, unkept_text};
ghost use Rattle.report_telling.specs.Telling.{TellsRacy};
ghost use Rattle.report_telling.specs.Troubles.{IsOfSystem};

use crate::complete::write_complete;
use crate::found::KeptRun;
use crate::racing::{KeptRace, Raced, trouble_of};
use crate::table::{cut_of, write_none, write_table};
use crate::telling::{Conclusion, News, Teller};
use report_jobs::{Trouble, print};
use report_json::{FoundAs, Shrunk};
use report_lines::{
    write_cut, write_for_ever, write_found_ending, write_found_run, write_no_end, write_without_run,
};
use search_race_free::ThreadRace;
use std::alloc::Global;
use std::io::{self, Write};

/// The line of what was found; of an ending for which no run was made, that none was.
fn write_found_as<W: Write>(out: &mut W, found_as: FoundAs, is_made: bool) -> io::Result<()>
    ensures { Wrote W.contents out.old out.new result (found_line found_as is_made) }
{
    match found_as {
        FoundAs::Run(run) => write_found_run(out, run),
        FoundAs::Ending(number) => {
            if is_made {
                return write_found_ending(out, number);
            }
            write_without_run(out, number)
        }
        FoundAs::NoEndAfter(entries) => write_no_end(out, entries),
        FoundAs::ForEverAfter(entries) => write_for_ever(out, entries),
    }
}

/// Writes the line of what was found, so that it can be read while a smaller run is looked for.
fn write_found<W: Write>(out: &mut W, found_as: FoundAs, is_made: bool) -> io::Result<()>
    ensures { Wrote W.contents out.old out.new result (found_line found_as is_made) }
{
    write_found_as(out, found_as, is_made)?;
    out.flush()
}

/// Writes what became of the size of a run, where it was shrunk.
fn write_shrunk<W: Write>(out: &mut W, shrunk: Option<Shrunk>) -> io::Result<()>
    ensures { Wrote W.contents out.old out.new result (shrunk_text shrunk) }
{
    let Some(Shrunk { before, after }) = shrunk else {
        return Ok(());
    };
    let (entries, switches) = (before.entries, before.switches);
    write!(out, "{entries} entries, {switches} switches")?;
    let (entries, switches) = (after.entries, after.switches);
    write!(out, " -> {entries} entries, {switches} switches\n")
}

/// Writes the lines of what is kept of what was found, behind its first one.
fn write_kept<W: Write>(out: &mut W, kept: &KeptRun, dump: u32) -> Result<(), Trouble>
    ensures lines { Wrote W.contents out.old out.new result (kept_text dump kept.now) }
    ensures trouble { IfErr result IsOfSystem }
{
    write_shrunk(out, kept.shrunk)?;
    match &kept.made {
        Some(made) => {
            print(out, &made.end, dump)?;
            Ok(())
        }
        None => Ok(()),
    }
}

/// Writes how a run with a race can be kept, where it isn't.
fn write_unkept<W: Write>(out: &mut W, is_kept: bool) -> io::Result<()>
    ensures { Wrote W.contents out.old out.new result (unkept_text is_kept) }
{
    if is_kept {
        return Ok(());
    }
    write!(
        out,
        "  to keep this run: search --all --races --record OUT\n"
    )?;
    out.flush()
}

/// Writes the lines of a race of all runs, where one is told.
fn write_raced<W: Write>(alloc: Global, raced: &Raced, out: &mut W) -> Result<(), Trouble>
    requires { CanTell raced.now }
    ensures tells { (m : Parts) → IsRacedIn m raced.now
        → IfOk result (λ _. Tells (changed W.contents out.old out.new) (SaysRaced m raced.now)) }
    ensures trouble { IfErr result IsOfSystem }
{
    match raced {
        Raced::Run(run, is_kept) => match run.race.write(alloc, &run.made.record, out) {
            Ok(()) => {
                write_unkept(out, *is_kept)?;
                Ok(())
            }
            Err(unwritten) => Err(trouble_of(unwritten)),
        },
        Raced::Threads(race) => {
            let ThreadRace { one, other } = *race;
            write!(out, "race: t{one} and t{other}; no run was made for it\n")?;
            Ok(())
        }
        Raced::Untold => Ok(()),
    }
}

/// Writes the lines of a run with a race, behind its first one.
fn write_racy<W: Write>(
    alloc: Global,
    kept: &KeptRace,
    dump: u32,
    out: &mut W,
) -> Result<(), Trouble>
    requires { CanBeTold kept.now.racy.made.«record» kept.now.racy.race }
    ensures tells { (m : Parts) → IsRacyRun m kept.now.racy
        → IfOk result (λ _. TellsRacy m dump kept.now (changed W.contents out.old out.new)) }
    ensures trouble { IfErr result IsOfSystem }
{
    let racy = &kept.racy;
    write_shrunk(out, kept.shrunk)?;
    match racy.race.write(alloc, &racy.made.record, out) {
        Ok(()) => {
            print(out, &racy.made.end, dump)?;
            Ok(())
        }
        Err(unwritten) => Err(trouble_of(unwritten)),
    }
}

/// Tells it in lines.
#[derive(Clone, Copy)]
pub struct LinesTeller;

impl Teller for LinesTeller {
    ghost use Rattle.report_command.specs.declared.form.Form.TheVariants.{Lines};

    ghost form = { Lines };

    fn tell<W: Write>(&self, alloc: Global, news: News, out: &mut W) -> Result<(), Trouble> {
        match news {
            News::Race(raced) => write_raced(alloc, raced, out),
            News::Orders(whole, most) => {
                write_complete(out, &whole.all, most, whole.racing)?;
                Ok(())
            }
            News::Behind(found) => match found {
                Some(found) => {
                    write_found(out, found.found_as, found.made.is_some())?;
                    Ok(())
                }
                None => Ok(()),
            },
            News::Table(drawn) => {
                write_table(out, drawn)?;
                write_cut(out, cut_of(drawn.table), drawn.sought.limit)?;
                Ok(())
            }
            News::Run(run) => {
                write_found(out, FoundAs::Run(run), true)?;
                Ok(())
            }
        }
    }

    fn conclude<W: Write>(
        &self,
        alloc: Global,
        conclusion: Conclusion,
        out: &mut W,
    ) -> Result<(), Trouble> {
        match conclusion {
            Conclusion::Orders(told) => match told.kept {
                Some(kept) => write_kept(out, kept, told.dump),
                None => Ok(()),
            },
            Conclusion::Last(drawn, kept) => write_kept(out, kept, drawn.sought.dump),
            Conclusion::Racy(drawn, kept) => write_racy(alloc, kept, drawn.sought.dump, out),
            Conclusion::None(drawn, none) => {
                write_none(out, drawn, none)?;
                Ok(())
            }
        }
    }
}
