//! How the threads of a run ended, and where those stand that trapped or were stopped, as lines or as an object.

ghost use Rattle.std.specs.Prelude.{◌≡◌, false, IfOk, OnOk, flat_map, option_map, string_bytes};
ghost use Rattle.show_moments.specs.Scenes.{IsStanding, seen};
ghost use Rattle.show_waits.specs.Waits.{IsToldWait};
ghost use Rattle.report_objects.specs.Ends as specified;
ghost use Rattle.report_objects.specs.Ends.{AreEnds, AreEndedThreads, IsEnd, IsEndedThread, IsWaitObject, IsWaitsFor, WritesEnd};
ghost use Rattle.report_objects.specs.Ends.{WritesEndIn, WritesEndLines, WritesEndObject, WritesEndOf};

use crate::objects::named_row;
use crate::scenes::{last_row, memory_of};
use report_command::Form;
use show_json::{EndShown, EndedThread, LastRow, WaitsFor};
use show_moments::{Moment, MomentView, Scene, ThreadSnapshot, dump_text};
use show_rows::Story;
use show_text::Unwritten;
use show_told::{ToldFunction, functions_text};
use show_waits::{ToldWait, cycles_told, wait_told, write_waits};
use std::alloc::{AllocError, Global};
use std::io::Write;
use types::{Outcome, ThreadReport};

/// How a thread ended.
#[derive(Drop)]
pub(crate) struct ToldEnd<'a> {
    pub thread: usize,
    pub outcome: Outcome,
    /// The open functions of one that trapped or was stopped, the one that ran first.
    pub functions: Vec<ToldFunction<'a>>,
}

/// Writes how each thread ended, with the open functions of those that trapped or were stopped, the one that ran first;
/// what each of those waits for that were stopped; and the bytes.
///
/// # Errors
/// Where memory is refused, or some was while the moment was made; and where the output fails.
pub fn write_end<W: Write>(
    alloc: Global,
    view: MomentView,
    moment: &Moment,
    form: Form,
    out: &mut W,
) -> Result<(), Unwritten>
    ensures says { OnOk result (WritesEnd form view.entry moment.now (W.contents out.old) (W.contents out.new)) }
    ensures whole { OnOk result (moment.now.is_short ≡ false) }
{
    if moment.is_short {
        return Err(Unwritten::NoMemory);
    }
    let story = Story::new(alloc, view.shown.record.log.as_slice())?;
    let scene = Scene {
        alloc,
        view,
        story: &story,
        moment,
    };
    let ends = ends_told(&scene, view.shown.record.ends.as_slice())?;
    write_told(&scene, ends.as_slice(), form, out)
}

/// Writes this in lines, or as an object.
fn write_told<W: Write>(
    scene: &Scene,
    ends: &[ToldEnd],
    form: Form,
    out: &mut W,
) -> Result<(), Unwritten>
    ensures { OnOk result (WritesEndIn form (seen scene.now) ends.now (W.contents out.old) (W.contents out.new)) }
{
    match form {
        Form::Lines => write_lines(scene, ends, out),
        Form::Json => write_object(scene, ends, out),
    }
}

/// How these threads ended, from thread 0 on.
fn ends_told<'c>(scene: &'c Scene, reports: &[ThreadReport]) -> Result<Vec<ToldEnd<'c>>, AllocError>
    ensures { IfOk result (λ ends. AreEnds (seen scene.now) reports.now ends.items) }
{
    let mut ends = Vec::with_capacity(scene.alloc, reports.len())?;
    for thread in 0..reports.len() {
        let end = end_of(scene, thread, reports[thread])?;
        ends.push(end)?;
    }
    Ok(ends)
}

/// How a thread ended.
fn end_of<'c>(
    scene: &'c Scene,
    thread: usize,
    report: ThreadReport,
) -> Result<ToldEnd<'c>, AllocError>
    ensures { IfOk result (IsEnd (seen scene.now) (thread, report)) }
{
    Ok(ToldEnd {
        thread,
        outcome: report.outcome,
        functions: functions_of(scene, thread, report.outcome)?,
    })
}

/// The open functions of a thread that didn't come to its end.
fn functions_of<'c>(
    scene: &'c Scene,
    thread: usize,
    outcome: Outcome,
) -> Result<Vec<ToldFunction<'c>>, AllocError>
    ensures { IfOk result (λ told. IsStanding (seen scene.now)
        (specified.standing_by outcome (specified.standing_in scene.now.moment.now thread)) told.items) }
{
    scene.functions_if_any(standing_of(scene.moment, thread, outcome))
}

/// Where a thread stands that didn't come to its end.
fn standing_of<'e>(
    moment: &'e Moment,
    thread: usize,
    outcome: Outcome,
) -> Option<&'e ThreadSnapshot>
    ensures { option_map (λ s. s.now) result
        ≡ specified.standing_by outcome (specified.standing_in moment.now thread) }
{
    match outcome {
        Outcome::Done(_) => None,
        Outcome::Trap(_) => standing_in(moment, thread),
        Outcome::Stop(_) => standing_in(moment, thread),
    }
}

/// Where a thread stands at a moment.
fn standing_in<'e>(moment: &'e Moment, thread: usize) -> Option<&'e ThreadSnapshot>
    ensures { option_map (λ s. s.now) result ≡ specified.standing_in moment.now thread }
{
    moment.here.get(thread)?.as_ref()
}

/// Writes this in lines.
fn write_lines<W: Write>(scene: &Scene, ends: &[ToldEnd], out: &mut W) -> Result<(), Unwritten>
    ensures { OnOk result (WritesEndLines (seen scene.now) ends.now (W.contents out.old) (W.contents out.new)) }
{
    let (view, moment) = (scene.view, scene.moment);
    let text = ends_text(scene.alloc, ends)?;
    write!(out, "{text}")?;
    write_waits(
        scene.alloc,
        view.shown,
        view.map,
        scene.story,
        view.left_out,
        out,
    )?;
    let dump = dump_text(scene.alloc, moment.wanted.addr, &moment.bytes)?;
    write!(out, "{dump}")?;
    out.flush()?;
    Ok(())
}

/// How threads ended, and their open functions, one behind the other.
fn ends_text(alloc: Global, ends: &[ToldEnd]) -> Result<String, AllocError>
    ensures { IfOk result (λ text. string_bytes text ≡ flat_map specified.end_text ends.now) }
{
    let mut text = String::new(alloc);
    for k in 0..ends.len() {
        let end = end_text(alloc, &ends[k])?;
        text.push_str(end.as_str())?;
    }
    Ok(text)
}

/// How a thread ended, and its open functions.
fn end_text(alloc: Global, end: &ToldEnd) -> Result<String, AllocError>
    ensures { IfOk result (λ text. string_bytes text ≡ specified.end_text end.now) }
{
    let (thread, outcome) = (end.thread, end.outcome);
    let functions = functions_text(alloc, end.functions.as_slice())?;
    let text = format!(in alloc; "t{thread} is gone: {outcome}\n{functions}")?;
    Ok(text)
}

/// Writes it as an object.
fn write_object<W: Write>(scene: &Scene, ends: &[ToldEnd], out: &mut W) -> Result<(), Unwritten>
    ensures { OnOk result (WritesEndObject (seen scene.now) ends.now (W.contents out.old) (W.contents out.new)) }
{
    let record = scene.view.shown.record;
    let threads = ended_threads(scene, ends)?;
    let (log, ends_of) = (record.log.as_slice(), record.ends.as_slice());
    let cycles = cycles_told(scene.alloc, log, ends_of, scene.view.left_out)?;
    write_ended(scene, threads.as_slice(), cycles.as_slice(), out)
}

/// Writes these threads and cycles as an object, with the bytes that are wanted.
fn write_ended<'t, W: Write>(
    scene: &'t Scene,
    threads: &'t [EndedThread],
    cycles: &'t [Vec<usize>],
    out: &mut W,
) -> Result<(), Unwritten>
    ensures { OnOk result
        (WritesEndOf (seen scene.now) threads.now cycles.now (W.contents out.old) (W.contents out.new)) }
{
    let object = EndShown {
        threads,
        cycles,
        memory: memory_of(scene.moment),
    };
    show_json::write_end(scene.alloc, out, &object)
}

/// The threads, as the object has them.
fn ended_threads<'a>(
    scene: &'a Scene,
    ends: &'a [ToldEnd],
) -> Result<Vec<EndedThread<'a>>, AllocError>
    ensures { IfOk result (λ threads. AreEndedThreads (seen scene.now) ends.now threads.items) }
{
    let mut threads = Vec::with_capacity(scene.alloc, ends.len())?;
    for k in 0..ends.len() {
        let thread = ended_thread(scene, &ends[k])?;
        threads.push(thread)?;
    }
    Ok(threads)
}

/// A thread, as the object has it.
fn ended_thread<'a>(scene: &'a Scene, end: &'a ToldEnd) -> Result<EndedThread<'a>, AllocError>
    ensures { IfOk result (IsEndedThread (seen scene.now) end.now) }
{
    Ok(EndedThread {
        thread: end.thread,
        outcome: end.outcome,
        functions: end.functions.as_slice(),
        waits: waits_of(scene, end.thread, end.outcome)?,
    })
}

/// What a thread waits for that was stopped.
fn waits_of<'a>(
    scene: &'a Scene,
    thread: usize,
    outcome: Outcome,
) -> Result<Option<WaitsFor<'a>>, AllocError>
    ensures { IfOk result (IsWaitsFor (seen scene.now) thread outcome) }
{
    let Outcome::Stop(_) = outcome else {
        return Ok(None);
    };
    let view = &scene.view;
    match wait_told(view.shown.record.log.as_slice(), thread, view.left_out) {
        Some(wait) => Ok(Some(wait_of(scene, thread, wait)?)),
        None => Ok(None),
    }
}

/// What a thread waits for, as the object has it.
fn wait_of<'a>(scene: &'a Scene, thread: usize, wait: ToldWait) -> Result<WaitsFor<'a>, AllocError>
    requires { IsToldWait thread scene.now.view.shown.record.now.log scene.now.view.left_out.now wait }
    ensures { IfOk result (IsWaitObject (seen scene.now) wait) }
{
    let (alloc, story) = (scene.alloc, scene.story);
    let (shown, map) = (&scene.view.shown, scene.view.map);
    Ok(WaitsFor {
        entry: named_row(alloc, shown, map, story, wait.stand.last)?,
        since: shown.line_of(wait.stand.since),
        times: wait.stand.times,
        last_write: last_row(alloc, shown, map, story, wait.written)?,
        other_write: other_of(scene, wait)?,
        last_notify: last_row(alloc, shown, map, story, wait.notified)?,
    })
}

/// Where the last write there is the thread's own, that of another thread.
fn other_of<'a>(scene: &'a Scene, wait: ToldWait) -> Result<Option<LastRow<'a>>, AllocError>
    ensures { IfOk result (specified.IsOtherRow (seen scene.now) wait) }
{
    if !wait.is_own {
        return Ok(None);
    }
    let view = &scene.view;
    let last = last_row(scene.alloc, &view.shown, view.map, scene.story, wait.other)?;
    Ok(Some(last))
}
