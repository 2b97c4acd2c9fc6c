//! What a page has of its run beside the entries: the call, how it ended, where it failed, and moments.

ghost use Rattle.std.specs.Prelude.{◌≡◌, ◌≤◌, ℕ, List, length, string_bytes, IfOk, OnOk};
ghost use Rattle.show_events.specs.Lines.{AddsLine, AddsLines};
ghost use Rattle.show_events.specs.Events.{InTurn};
ghost use Rattle.show_events.specs.Run.{argument_json, ended_json, head_json, moment_json};
ghost use Rattle.show_events.specs.Run.{Adds, AddsRun};

use crate::around::failure_of;
use crate::event::quoted;
use crate::line::{Front, write_line};
use replay_text::RecordParts;
use show_text::Unwritten;
use std::alloc::{AllocError, Global};
use std::io::Write;
use types::{ThreadReport, Value};

/// What threads and memory are like before the entry at a place of the log.
#[derive(Drop)]
pub struct MomentText {
    pub at: usize,
    pub text: String,
}

/// The call, and where the run failed.
fn head_json(alloc: Global, record: &RecordParts, chosen: usize) -> Result<String, AllocError>
    ensures { IfOk result (λ s. string_bytes s ≡ head_json «record».now chosen) }
{
    let name = quoted(alloc, record.invoke.as_str())?;
    let call = name.as_str();
    let module = record.module_len;
    let failure = failure_of(record);
    format!(in alloc;
        "{{\"call\":{call},\"module\":{module},\"chosen\":{chosen},\"failure\":{failure}}}"
    )
}

/// What a page has a line of.
trait PageLine {
    /// Its JSON.
    ghost json: { Self → List ℕ };

    fn to_json(&self, alloc: Global) -> Result<String, AllocError>
        ensures { IfOk result (λ s. string_bytes s ≡ json self.now) };
}

/// An argument of the call.
impl PageLine for Value {
    ghost json = { argument_json };

    fn to_json(&self, alloc: Global) -> Result<String, AllocError> {
        let value = *self;
        format!(in alloc; "{{\"argument\":\"{value}\"}}")
    }
}

/// How a thread has ended.
impl PageLine for ThreadReport {
    ghost json = { λ report. ended_json report.outcome };

    fn to_json(&self, alloc: Global) -> Result<String, AllocError> {
        let outcome = self.outcome;
        format!(in alloc; "{{\"ended\":\"{outcome}\"}}")
    }
}

impl PageLine for MomentText {
    ghost json = { moment_json };

    fn to_json(&self, alloc: Global) -> Result<String, AllocError> {
        let at = self.at;
        let quoted = quoted(alloc, self.text.as_str())?;
        let text = quoted.as_str();
        format!(in alloc; "{{\"moment\":{at},\"text\":{text}}}")
    }
}

fn write_item<W: Write, T: PageLine>(alloc: Global, item: &T, out: &mut W) -> Result<(), Unwritten>
    ensures line { OnOk result (AddsLine (W.contents out.old) (W.contents out.new)) }
    ensures which { OnOk result (Adds T.json item.now (W.contents out.old) (W.contents out.new)) }
{
    let json = item.to_json(alloc)?;
    write_line(alloc, out, Front::Next, json.as_str())
}

fn write_each<W: Write, T: PageLine>(alloc: Global, all: &[T], out: &mut W) -> Result<(), Unwritten>
    ensures lines { OnOk result (AddsLines (length all.now) (W.contents out.old) (W.contents out.new)) }
    ensures which { OnOk result (InTurn (Adds T.json) all.now (W.contents out.old) (W.contents out.new)) }
{
    for place in 0..all.len() {
        write_item(alloc, &all[place], out)?;
    }
    Ok(())
}

/// Writes what a page has of the run of a record beside so many entries that are chosen of it, as a JSON array: lines in
/// which no `<` is.
pub(crate) fn write_run<W: Write>(
    alloc: Global,
    record: &RecordParts,
    chosen: usize,
    moments: &[MomentText],
    out: &mut W,
) -> Result<(), Unwritten>
    ensures lines { OnOk result ((n : ℕ) × AddsLines n (W.contents out.old) (W.contents out.new)) }
    ensures which { OnOk result (AddsRun «record».now chosen moments.now (W.contents out.old) (W.contents out.new)) }
{
    let head = head_json(alloc, record, chosen)?;
    write_line(alloc, out, Front::Open, head.as_str())?;
    write_each(alloc, record.args.as_slice(), out)?;
    write_each(alloc, record.ends.as_slice(), out)?;
    write_each(alloc, moments, out)?;
    write_line(alloc, out, Front::Close, "")?;
    Ok(())
}
