//! The lines of JSON that calls answer.
ghost use Rattle.std.specs.Prelude.{◌≡◌, ◌↔◌, ◌≤◌, IfOk};
ghost use Rattle.host_calls.specs.Well.{IsWell};
ghost use Rattle.report_json.specs.Complete.{complete_json};
ghost use Rattle.report_json.specs.Ends.{run_json};
ghost use Rattle.show_json.specs.Json.{json_line};
ghost use Rattle.report_json.specs.Refusals.{refusal_json};
ghost use Rattle.search_endings.specs.Ends as specified;
ghost use Rattle.wathread_c.specs.Answers.{no_answer};
ghost use Rattle.wathread_c.specs.Calls.{TellsFault, TellsLine};
ghost use Rattle.wathread_c.specs.Lines.{IsAcceptedText, IsRefusalText, IsRunText, IsSearchText};
ghost use Rattle.wathread_c.specs.Refused.{IsRefusedAs};

use crate::answer::{CallAnswer, put};
use crate::refused::refused_of;
use host_calls::{HostFault, is_well};
use report_json::{
    CompleteObject, RefusalObject, RefusedObject, RunEndObject, write_accepted, write_complete,
    write_refusal, write_run,
};
use search_endings::Ending;
use search_modules::Ended;
use show_text::Unwritten;
use spawn_host::EndState;
use std::alloc::Global;

/// A line, and the status that it says.
#[derive(Drop)]
pub(crate) struct Line {
    pub status: u32,
    pub text: Vec<u8>,
}

/// Of a module that is accepted, with so many functions.
pub(crate) fn accepted_line(alloc: Global, functions: usize) -> Result<Line, Unwritten>
    ensures { IfOk result (λ line. IsAcceptedText functions line.status line.text.items) }
{
    let mut text = Vec::new(alloc);
    write_accepted(alloc, &mut text, functions)?;
    Ok(Line { status: 0, text })
}

fn refusal_text(alloc: Global, refusal: &RefusalObject) -> Result<Vec<u8>, Unwritten>
    ensures { IfOk result (λ text. text.items ≡ json_line (refusal_json refusal.now)) }
{
    let mut text = Vec::new(alloc);
    write_refusal(alloc, &mut text, refusal)?;
    Ok(text)
}

/// Of what is refused by a fault.
pub(crate) fn refusal_line(
    alloc: Global,
    fault: HostFault,
    refused: RefusedObject,
) -> Result<Line, Unwritten>
    requires { IsRefusedAs fault refused }
    ensures { IfOk result (λ line. IsRefusalText fault line.status line.text.items) }
{
    let refusal = RefusalObject {
        refused,
        hints: &[],
    };
    let text = refusal_text(alloc, &refusal)?;
    let status = refused.status() as u32;
    Ok(Line { status, text })
}

fn line_of_run(alloc: Global, run: &RunEndObject) -> Result<Line, Unwritten>
    ensures status { IfOk result (λ line. line.status ≡ specified.status_of run.now.threads.now) }
    ensures text { IfOk result (λ line. line.text.items ≡ json_line (run_json run.now)) }
{
    let mut text = Vec::new(alloc);
    let status = write_run(alloc, &mut text, run)? as u32;
    Ok(Line { status, text })
}

/// Of how a run ended.
pub(crate) fn run_line(alloc: Global, end: &EndState) -> Result<Line, Unwritten>
    ensures { IfOk result (λ line. IsRunText end.now line.status line.text.items) }
{
    let run = RunEndObject {
        threads: &end.threads,
        places: &[],
        pages: end.pages,
        dump: 0,
        bytes: &end.bytes,
        said: &[],
        hints: &[],
    };
    let line = line_of_run(alloc, &run)?;
    Ok(line)
}

/// The status of a search: 0 where all is well, and otherwise 1.
fn status_of(all: &Ended<Ending>) -> u8
    ensures well { (result ≡ 0) ↔ IsWell all.now }
    ensures few { result ≤ 1 }
{
    if is_well(all) {
        return 0;
    }
    1
}

fn complete_text(alloc: Global, complete: &CompleteObject) -> Result<Vec<u8>, Unwritten>
    ensures { IfOk result (λ text. text.items ≡ json_line (complete_json complete.now)) }
{
    let mut text = Vec::new(alloc);
    write_complete(alloc, &mut text, complete)?;
    Ok(text)
}

/// Of all endings, of at most so many states.
pub(crate) fn search_line(alloc: Global, all: &Ended<Ending>, most: u32) -> Result<Line, Unwritten>
    ensures { IfOk result (λ line. IsSearchText all.now most line.status line.text.items) }
{
    let status = status_of(all);
    let complete = CompleteObject {
        status,
        most,
        all,
        races: None,
        found: None,
    };
    let text = complete_text(alloc, &complete)?;
    let status = status as u32;
    Ok(Line { status, text })
}

/// Puts a line into a buffer, and answers its status; 5 where there is no line, since memory was refused.
pub(crate) fn tell(line: Result<Line, Unwritten>, text: &mut [u8], answer: &mut CallAnswer) -> u32
    ensures { TellsLine line answer.old text.old text.new answer.new result }
{
    let Ok(line) = line else {
        return 5;
    };
    put(text, &line.text);
    answer.text = line.text.len();
    line.status
}

/// Tells of a fault, and answers its status.
pub(crate) fn refuse(
    alloc: Global,
    fault: HostFault,
    text: &mut [u8],
    answer: &mut CallAnswer,
) -> u32
    requires { answer.old ≡ no_answer }
    ensures told { TellsFault fault text.old text.new answer.new result }
    ensures bytes { answer.new.bytes ≡ 0 }
{
    match refused_of(fault) {
        Some(refused) => tell(refusal_line(alloc, fault, refused), text, answer),
        None => 5,
    }
}
