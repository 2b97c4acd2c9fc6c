//! What came of a job, and the lines that explain it.

ghost use Rattle.std.specs.Prelude.{◌≡◌, IfOk, IfErr};
ghost use Rattle.std.specs.String.{string_bytes};
ghost use Rattle.report_reasons.specs.Added.{IsAddedTo};
ghost use Rattle.report_reasons.specs.Lines.{BeginsWithLine};
ghost use Rattle.report_reasons.specs.Reasons.{Explains, NamesLine};

use crate::bytes::add_reading;
use crate::calls::add_call;
use crate::narrow::add_narrow;
use crate::records::{UnfitThread, add_header, add_misfit, add_unreadable};
use crate::validity::{add_in_body, add_rule};
use report_command::{CallWords, Job, RunJob, Search};
use report_jobs::{Advised, Done, JobResult, LeftOut, Misfit, Refused, Undone};
use show_rows::{CodeMap, Stood};
use std::alloc::{AllocError, Global};

/// What a job was given.
#[derive(Clone, Copy)]
pub struct JobInputs<'a> {
    /// The module's bytes.
    pub module: &'a [u8],
    /// Those of the record, or nothing.
    pub saved: &'a [u8],
    /// What is called, where something is.
    pub call: Option<&'a CallWords<'a>>,
    /// Whether the module is checked, and nothing else.
    pub is_check: bool,
}

/// What a job calls, if it calls something.
pub fn call_of<'j, 'a>(job: &'j Job<'a>) -> Option<&'j CallWords<'a>> {
    match job {
        Job::Run(RunJob { call, .. }) | Job::Search(Search { call, .. }) => Some(call),
        Job::Check { .. } | Job::Replay { .. } | Job::Show { .. } | Job::Races(_) => None,
    }
}

/// Adds to a text the lines that explain what came of a job: why it is refused, and what to do; or of one that is done
/// what to do about threads that were stopped, what a search didn't compare, and what of a module that was checked may not
/// do what it seems to. Where the system failed there is nothing to say.
///
/// # Errors
/// Where memory is refused; then the text stays as it was.
pub fn explain(
    alloc: Global,
    out: &mut String,
    ended: &JobResult,
    given: JobInputs,
) -> Result<(), AllocError>
    ensures added { IfOk result (λ _. IsAddedTo (string_bytes out.old) (string_bytes out.new)) }
    ensures line { IfOk result (λ _. Explains ended.now given.entry.saved.now (string_bytes out.old) (string_bytes out.new)) }
    ensures kept { IfErr result (λ _. string_bytes out.new ≡ string_bytes out.old) }
{
    let mut lines = String::new(alloc);
    write_lines(alloc, &mut lines, ended, given)?;
    out.push_str(lines.as_str())
}

fn write_lines(
    alloc: Global,
    out: &mut String,
    ended: &JobResult,
    given: JobInputs,
) -> Result<(), AllocError>
    ensures { IfOk result (λ _. Explains ended.now given.entry.saved.now (string_bytes out.old) (string_bytes out.new)) }
{
    match ended {
        Ok(done) => add_done(alloc, out, *done, given),
        Err(Undone::Refused(refused)) => add_refused(alloc, out, refused, given),
        Err(Undone::Failed(_)) => Ok(()),
    }
}

/// What is said where runs were drawn.
const UNSETTLED: &str =
    "note: runs were drawn, since going through every order first met more than 50000 states, or \
    can't tell; --all goes through up to 1000000\n";

/// Adds what there is to say of a job that is done.
fn add_done(
    alloc: Global,
    out: &mut String,
    done: Done,
    given: JobInputs,
) -> Result<(), AllocError> {
    if let Some(call) = given.call
        && done.is_bare
    {
        let name = call.invoke;
        write!(
            out,
            "note: {name} returns nothing, and without --dump no bytes belong to an ending: only how the threads \
             ended is compared\n"
        )?;
    }
    if done.is_unsettled {
        out.push_str(UNSETTLED)?;
    }
    add_left_out(out, done.left_out)?;
    add_advice(alloc, out, done.advised)?;
    if given.is_check {
        return add_narrow(alloc, out, given.module);
    }
    Ok(())
}

/// Adds that races aren't told which are allowed.
fn add_left_out(out: &mut String, left_out: LeftOut) -> Result<(), AllocError> {
    match left_out {
        LeftOut::Nothing => Ok(()),
        LeftOut::Some => out.push_str(
            "note: races that --allow-race or --allow-mixed allows are left out\n",
        ),
        LeftOut::Races(1) => out.push_str("note: 1 race is left out, which is allowed\n"),
        LeftOut::Races(count) => {
            write!(out, "note: {count} races are left out, which are allowed\n")?;
            Ok(())
        }
    }
}

fn add_advice(alloc: Global, out: &mut String, advised: Advised) -> Result<(), AllocError> {
    for words in &advised.lines(alloc)? {
        write!(out, "{words}\n")?;
    }
    Ok(())
}

fn add_refused(
    alloc: Global,
    out: &mut String,
    refused: &Refused,
    given: JobInputs,
) -> Result<(), AllocError>
    ensures { IfOk result (λ _. NamesLine refused.now given.entry.saved.now (string_bytes out.old) (string_bytes out.new)) }
{
    let JobInputs {
        module: bytes,
        saved,
        call,
        ..
    } = given;
    match refused {
        Refused::Read { kind, offset } => add_reading(alloc, out, bytes, *kind, *offset),
        Refused::Rule(kind) => add_rule(alloc, out, bytes, *kind),
        Refused::RuleInBody {
            kind,
            function,
            instruction,
        } => add_in_body(alloc, out, bytes, *kind, *function, *instruction),
        Refused::Call { module, .. } => match call {
            Some(call) => add_call(out, module.parts(), call.invoke, &call.args),
            None => Ok(()),
        },
        Refused::Header(line) => add_header(out, saved, *line),
        Refused::Unreadable(line) => add_unreadable(out, saved, *line),
        Refused::EndMissing => {
            out.push_str("the text ends before the line finish: it may be cut\n")
        }
        Refused::Line(line, misfit) => add_line(alloc, out, given, *line, misfit),
        Refused::EndLine(line, misfit) => add_line(alloc, out, given, *line, misfit),
        Refused::Unlaid { .. } | Refused::Absent(_) | Refused::Allowance(_) => Ok(()),
    }
}

/// A place in a module as it is printed.
fn spot_of(
    alloc: Global,
    misfit: &Misfit,
    bytes: &[u8],
    stood: Stood,
) -> Result<String, AllocError> {
    let code = CodeMap::read(alloc, misfit.module.parts(), bytes, bytes)?;
    let spot = code.spot(stood.place);
    format!(in alloc; "{spot}")
}

/// Adds why a line of a record doesn't fit.
fn add_line(
    alloc: Global,
    out: &mut String,
    given: JobInputs,
    line: u32,
    misfit: &Misfit,
) -> Result<(), AllocError>
    ensures { IfOk result (λ _. BeginsWithLine given.entry.saved.now line (string_bytes out.old) (string_bytes out.new)) }
{
    let number = line as usize;
    let Some(stood) = misfit.stood else {
        return add_misfit(out, given.saved, number, None);
    };
    let spot = spot_of(alloc, misfit, given.module, stood)?;
    let thread = UnfitThread {
        number: stood.thread,
        turn: stood.turn,
        spot: spot.as_str(),
    };
    add_misfit(out, given.saved, number, Some(thread))
}
