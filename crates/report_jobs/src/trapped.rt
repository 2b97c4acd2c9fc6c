//! What is said on standard error of threads that trapped.
ghost use Rattle.std.specs.Prelude.{IfOk, OnOk, codes, ◌++◌};
ghost use Rattle.std.specs.String.{string_bytes};
ghost use Rattle.std.specs.Io.KnownBytes.{Appends};
ghost use Rattle.types.specs.declared.outcome.Outcome.TheVariants as outcomes;
ghost use Rattle.report_jobs.specs.Trapped.{IsAddedTo, IsTrapLine, TellsEnd, TellsTraps, TellsTrapsIf, trap_front};

use crate::saying::Spoken;
use crate::telling::say;
use arrayvec::ArrayVec;
use replay_text::Record;
use report_traps::{Frames, Traps};
use std::alloc::{AllocError, Global};
use std::io::{self, Write};
use types::{Outcome, Parts, ThreadReport, Trap};

/// What says where threads trapped.
#[derive(Clone, Copy)]
pub(crate) struct Whence<'a, 'r> {
    /// The parts of the module.
    pub parts: &'a Parts,
    /// Its bytes, which have its names and lines.
    pub bytes: &'a [u8],
    /// What was kept while the threads ran.
    pub frames: &'a Frames,
    /// The record of the run, if there is one.
    pub recorded: Option<&'r Record>,
}

/// Where threads trapped, if one did and there is memory to say so.
pub(crate) fn traps_of<'a>(
    alloc: Global,
    whence: Whence<'a, '_>,
    reports: &[ThreadReport],
) -> Option<Traps<'a, 'a>> {
    if !reports
        .iter()
        .any(|report| matches!(report.outcome, Outcome::Trap(_)))
    {
        return None;
    }
    Traps::read(alloc, whence.parts, whence.bytes, whence.frames).ok()
}

/// Adds the calls by which a thread came to where it trapped, a line each, the last one first.
fn add_callers(line: &mut String, traps: &Traps, thread: usize) -> Result<(), AllocError>
    ensures { IfOk result (λ _. IsAddedTo (string_bytes line.old) (string_bytes line.new)) }
{
    for depth in 1..usize::MAX {
        let Some(site) = traps.site(thread, depth) else {
            return Ok(());
        };
        write!(line, "\n  called at {site}")?;
    }
    Ok(())
}

/// Adds where a thread trapped, as far as it is known, and the calls by which it came there.
fn add_places(line: &mut String, traps: Option<&Traps>, thread: usize) -> Result<(), AllocError>
    ensures { IfOk result (λ _. IsAddedTo (string_bytes line.old) (string_bytes line.new)) }
{
    let Some(traps) = traps else {
        return Ok(());
    };
    let Some(site) = traps.site(thread, 0) else {
        return Ok(());
    };
    write!(line, " at {site}")?;
    add_callers(line, traps, thread)
}

/// Adds what a thread said, where that was the last thing that it did, in a line of its own.
fn add_words(line: &mut String, spoken: Option<&Spoken>, thread: usize) -> Result<(), AllocError>
    ensures { IfOk result (λ _. IsAddedTo (string_bytes line.old) (string_bytes line.new)) }
{
    let Some(spoken) = spoken else {
        return Ok(());
    };
    let Some(words) = spoken.last_words(thread) else {
        return Ok(());
    };
    write!(line, "\n  it said: {words}")?;
    Ok(())
}

/// Adds where a thread trapped, and what it said.
fn add_known(
    line: &mut String,
    traps: Option<&Traps>,
    spoken: Option<&Spoken>,
    thread: usize,
) -> Result<(), AllocError>
    ensures { IfOk result (λ _. IsAddedTo (string_bytes line.old) (string_bytes line.new)) }
{
    add_places(line, traps, thread)?;
    add_words(line, spoken, thread)
}

/// The line of a thread that trapped.
fn line_of(
    alloc: Global,
    traps: Option<&Traps>,
    spoken: Option<&Spoken>,
    thread: usize,
    trap: Trap,
) -> Result<String, AllocError>
    ensures { IfOk result (λ line. IsTrapLine thread trap (string_bytes line)) }
{
    let mut line = format!(in alloc; "thread {thread}: trap {trap}")?;
    add_known(&mut line, traps, spoken, thread)?;
    line.push_str("\n")?;
    Ok(line)
}

/// Writes it without a place.
fn write_plain<W: Write>(to: &mut W, thread: usize, trap: Trap) -> io::Result<()>
    ensures { OnOk result (Appends (W.contents to.old) (W.contents to.new) (trap_front thread trap ++ codes "\n")) }
{
    write!(to, "thread {thread}: trap {trap}\n")
}

/// Says it without a place, which takes no memory.
fn say_plain<E: Write>(err: &mut E, thread: usize, trap: Trap)
    ensures { TellsEnd thread (outcomes.Trap trap) (E.contents err.old) (E.contents err.new) }
{
    let mut line: ArrayVec<u8, 64> = ArrayVec::new();
    if write_plain(&mut line, thread, trap).is_ok() {
        say(err, line.as_slice());
    }
}

/// Says of a thread that trapped so and where, and what it said; only that it trapped where there is no memory for more.
fn say_trap<E: Write>(
    alloc: Global,
    err: &mut E,
    traps: Option<&Traps>,
    spoken: Option<&Spoken>,
    thread: usize,
    trap: Trap,
)
    ensures { TellsEnd thread (outcomes.Trap trap) (E.contents err.old) (E.contents err.new) }
{
    match line_of(alloc, traps, spoken, thread, trap) {
        Ok(line) => {
            say(err, line.as_bytes());
        }
        Err(_) => say_plain(err, thread, trap),
    }
}

/// Says of a thread that it trapped, if it did.
fn say_end<E: Write>(
    alloc: Global,
    err: &mut E,
    traps: Option<&Traps>,
    spoken: Option<&Spoken>,
    thread: usize,
    outcome: Outcome,
)
    ensures { TellsEnd thread outcome (E.contents err.old) (E.contents err.new) }
{
    match outcome {
        Outcome::Trap(trap) => say_trap(alloc, err, traps, spoken, thread, trap),
        Outcome::Done(_) | Outcome::Stop(_) => {}
    }
}

/// Says of each thread that trapped so, a line each, in order of their numbers.
fn say_all_traps<E: Write>(
    alloc: Global,
    err: &mut E,
    traps: Option<&Traps>,
    spoken: Option<&Spoken>,
    reports: &[ThreadReport],
)
    ensures { TellsTraps 0 reports.now (E.contents err.old) (E.contents err.new) }
{
    for (thread, report) in reports.iter().enumerate() {
        say_end(alloc, err, traps, spoken, thread, report.outcome);
    }
}

/// What threads said, where one trapped, a record says it, and there is memory for it.
fn spoken_of<'r>(
    alloc: Global,
    whence: Whence<'_, 'r>,
    traps: Option<&Traps>,
) -> Option<Spoken<'r>> {
    if traps.is_none() {
        return None;
    }
    match whence.recorded {
        Some(recorded) => Spoken::read(alloc, whence.bytes, recorded).ok(),
        None => None,
    }
}

/// The same where that is asked for, and else nothing.
pub(crate) fn say_traps<E: Write>(
    alloc: Global,
    err: &mut E,
    whence: Whence,
    traps: Option<&Traps>,
    reports: &[ThreadReport],
    is_asked: bool,
)
    ensures { TellsTrapsIf is_asked reports.now (E.contents err.old) (E.contents err.new) }
{
    if is_asked {
        let spoken = spoken_of(alloc, whence, traps);
        say_all_traps(alloc, err, traps, spoken.as_ref(), reports);
    }
}
