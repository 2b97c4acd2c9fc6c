//! How the end of a run is printed: as lines, with units or without, or as an object.
ghost use Rattle.std.specs.Prelude.{◌≡◌, ◌++◌, true, false, IfOk, IfErr, OnErr, OnOk};
ghost use Rattle.replay_forms.specs.Texts.{Wrote};
ghost use Rattle.report_lines.specs.Lines.{numbered};
ghost use Rattle.show_json.specs.Unwritten.{LeavesAs};
ghost use Rattle.report_jobs.specs.Prints.{changed, Prints, PrintsEnd, WritesEnd, WritesObject};
ghost use Rattle.report_jobs.specs.Prints.{said_lines, PrintsSaid};
ghost use Rattle.report_jobs.specs.Prints.{end_text, units_line};
ghost use Rattle.report_jobs.specs.Silence.{Stays};
ghost use Rattle.report_jobs.specs.declared.running.Trouble.TheVariants as troubles;

use crate::running::Trouble;
use crate::saying::{said_in, write_said};
use crate::trapped::{Whence, say_traps, traps_of};
use crate::undone::{Advised, Done, LeftOut};
use replay_text::Record;
use report_command::{EndLook, Form};
use report_json::{RunEndObject, status_of};
use report_lines::write_run;
use report_runs::EndState;
use report_traps::Traps;
use show_json::PlaceObject;
use show_said::Said;
use show_text::Unwritten;
use std::alloc::{AllocError, Global};
use std::io::{self, Write};
use types::ThreadReport;

/// Prints how the threads ended and what the memory is, as lines, and answers the status.
pub fn print<W: Write>(out: &mut W, end: &EndState, dump: u32) -> Result<u8, Trouble>
    ensures prints { IfOk result (Prints end.now dump (changed W.contents out.old out.new)) }
    ensures output { IfErr result (λ trouble. trouble ≡ troubles.Output) }
{
    match write_run(out, &end.threads, end.pages, dump, &end.bytes) {
        Ok(status) => Ok(status),
        Err(_) => Err(Trouble::Output),
    }
}

/// Writes the line of a thread, with the units that it spent: `thread T: `, its outcome, and `, units N`.
fn write_units<W: Write>(out: &mut W, thread: usize, report: ThreadReport) -> io::Result<()>
    ensures { Wrote W.contents out.old out.new result (units_line thread report) }
{
    let ThreadReport { outcome, spent } = report;
    write!(out, "thread {thread}: {outcome}, units {spent}\n")
}

/// Writes such a line of each thread, from thread 0 on.
fn write_all_units<W: Write>(out: &mut W, reports: &[ThreadReport]) -> io::Result<()>
    ensures { Wrote W.contents out.old out.new result (numbered units_line 0 reports.now) }
{
    for (thread, report) in reports.iter().enumerate() {
        write_units(out, thread, *report)?;
    }
    Ok(())
}

/// Writes the lines of a run, with units.
fn write_with_units<W: Write>(out: &mut W, end: &EndState, dump: u32) -> io::Result<()>
    ensures { Wrote W.contents out.old out.new result (end_text true end.now dump) }
{
    write_all_units(out, &end.threads)?;
    write_run(out, &[], end.pages, dump, &end.bytes)?;
    Ok(())
}

/// Writes the lines of a run, without units.
fn write_without_units<W: Write>(out: &mut W, end: &EndState, dump: u32) -> io::Result<()>
    ensures { Wrote W.contents out.old out.new result (end_text false end.now dump) }
{
    write_run(out, &end.threads, end.pages, dump, &end.bytes)?;
    Ok(())
}

/// Writes the lines of a run.
fn write_lines<W: Write>(out: &mut W, end: &EndState, dump: u32, units: bool) -> io::Result<()>
    ensures { Wrote W.contents out.old out.new result (end_text units end.now dump) }
{
    if units {
        write_with_units(out, end, dump)
    } else {
        write_without_units(out, end, dump)
    }
}

/// Where each of so many threads trapped, if it did.
fn places_in<'t>(
    alloc: Global,
    traps: &'t Traps,
    count: usize,
) -> Result<Vec<Option<PlaceObject<'t>>>, AllocError> {
    let mut places = Vec::with_capacity(alloc, count)?;
    for thread in 0..count {
        places.push(traps.place(thread))?;
    }
    Ok(places)
}

/// The same, as far as there is memory for it.
fn places_of<'t>(
    alloc: Global,
    traps: Option<&'t Traps>,
    count: usize,
) -> Vec<Option<PlaceObject<'t>>> {
    match traps {
        Some(traps) => places_in(alloc, traps, count).unwrap_or(Vec::new(alloc)),
        None => Vec::new(alloc),
    }
}

/// Writes what its threads say and the lines of a run.
fn write_said_lines<W: Write>(
    out: &mut W,
    end: &EndState,
    said: &[Said],
    dump: u32,
    units: bool,
) -> io::Result<()>
    ensures { Wrote W.contents out.old out.new result (said_lines said.now ++ end_text units end.now dump) }
{
    write_said(out, said)?;
    write_lines(out, end, dump, units)
}

/// Writes the object of a run.
fn write_object<W: Write>(
    alloc: Global,
    out: &mut W,
    end: &EndState,
    said: &[Said],
    dump: u32,
    traps: Option<&Traps>,
) -> Result<(), Unwritten>
    ensures object { OnOk result (WritesObject end.now dump said.now (changed W.contents out.old out.new)) }
    ensures left { IfErr result (LeavesAs out.old out.new) }
{
    let Ok(hints) = Advised::of_reports(&end.threads).lines(alloc) else {
        return Err(Unwritten::NoMemory);
    };
    let places = places_of(alloc, traps, end.threads.len());
    let run = RunEndObject {
        threads: &end.threads,
        places: &places,
        pages: end.pages,
        dump,
        bytes: &end.bytes,
        said,
        hints: &hints,
    };
    match report_json::write_run(alloc, out, &run) {
        Ok(_) => Ok(()),
        Err(unwritten) => Err(unwritten),
    }
}

/// Writes the end of a run in the form that is asked for, and what its threads say.
fn write_end<W: Write>(
    alloc: Global,
    out: &mut W,
    end: &EndState,
    said: &[Said],
    look: EndLook,
    traps: Option<&Traps>,
) -> Result<(), Unwritten>
    ensures written { OnOk result
        (WritesEnd look.form look.units look.dump said.now end.now (changed W.contents out.old out.new)) }
    ensures left { IfErr result (LeavesAs out.old out.new) }
{
    match look.form {
        Form::Json => write_object(alloc, out, end, said, look.dump, traps),
        Form::Lines => match write_said_lines(out, end, said, look.dump, look.units) {
            Ok(()) => Ok(()),
            Err(_) => Err(Unwritten::Output),
        },
    }
}

/// Prints what threads said, and how a run ended as is asked for, says which threads trapped where that is asked for,
/// and answers what came of it: the status is 0 where all threads ended well, 1 for a trap or stop.
pub(crate) fn print_end<W: Write, E: Write>(
    alloc: Global,
    out: &mut W,
    err: &mut E,
    end: &EndState,
    said: &[Said],
    look: EndLook,
    whence: Whence,
) -> Result<Done, Unwritten>
    ensures prints { IfOk result (λ done. PrintsEnd end.now look said.now (changed W.contents out.old out.new)
        (changed E.contents err.old err.new) done.status) }
    ensures left { IfErr result (LeavesAs out.old out.new) }
    ensures unsaid { OnErr result (Stays err.old err.new) }
{
    let traps = traps_of(alloc, whence, &end.threads);
    match write_end(alloc, out, end, said, look, traps.as_ref()) {
        Ok(()) => {
            say_traps(alloc, err, whence, traps.as_ref(), &end.threads, look.traps);
            Ok(Done {
                status: status_of(&end.threads),
                advised: Advised::of_reports(&end.threads),
                is_bare: false,
                left_out: LeftOut::Nothing,
                is_unsettled: false,
            })
        }
        Err(unwritten) => Err(unwritten),
    }
}

/// The same of a run that was recorded, with what its threads say in its record, where that is wanted.
pub(crate) fn print_said<W: Write, E: Write>(
    alloc: Global,
    out: &mut W,
    err: &mut E,
    recorded: &Record,
    end: &EndState,
    look: EndLook,
    whence: Whence,
) -> Result<Done, Unwritten>
    ensures prints { IfOk result (λ done. PrintsSaid whence.entry.bytes.now recorded.now end.now look
        (changed W.contents out.old out.new) (changed E.contents err.old err.new) done.status) }
    ensures left { IfErr result (LeavesAs out.old out.new) }
    ensures unsaid { OnErr result (Stays err.old err.new) }
{
    let Ok(said) = said_in(alloc, whence.bytes, recorded, look.text) else {
        return Err(Unwritten::NoMemory);
    };
    let done = print_end(alloc, out, err, end, &said, look, whence);
    drop(said);
    done
}
