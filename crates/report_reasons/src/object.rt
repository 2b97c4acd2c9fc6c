//! The object of a job that isn't done.

ghost use Rattle.std.specs.Prelude.{◌≡◌, OnOk};
ghost use Rattle.report_json.specs.Refusals.{failed_json, refused_json, status_of_refused};
ghost use Rattle.report_jobs.specs.Undone.{refused_status};
ghost use Rattle.report_reasons.specs.Objects as specified;
ghost use Rattle.report_reasons.specs.Objects.{WritesFailed, WritesRefused, WritesUndone, told_json};

use report_jobs::{Failed, Refused, Undone};
use report_json::{Failure, RefusalObject, write_failed, write_refusal};
use report_memory::Unlaid;
use show_text::Unwritten;
use spawn_host::CallFault;
use std::alloc::Global;
use std::io::Write;

/// What is said in an object of a call that the module hasn't.
fn call_words(fault: CallFault) -> &'static str
    ensures { result.now ≡ specified.call_words fault }
{
    match fault {
        CallFault::UnknownExport => "unknown export",
        CallFault::WrongArguments => "wrong arguments",
    }
}

/// What is said in an object of bytes that can't be laid over a memory.
fn unlaid_words(why: Unlaid) -> &'static str
    ensures { result.now ≡ specified.unlaid_words why }
{
    match why {
        Unlaid::Nowhere => "no memory to lay bytes over",
        Unlaid::Outside(_) => "bytes outside the memory",
        Unlaid::Segments => "too many data segments",
    }
}

/// What is refused, as an object has it.
fn told(refused: &Refused) -> report_json::RefusedObject<'static>
    ensures json { refused_json result ≡ told_json refused.now }
    ensures status { status_of_refused result ≡ refused_status refused.now }
{
    match refused {
        Refused::Read { kind, offset } => report_json::RefusedObject::Read {
            kind: *kind,
            offset: *offset,
        },
        Refused::Rule(kind) => report_json::RefusedObject::Rule(*kind),
        Refused::RuleInBody {
            kind,
            function,
            instruction,
        } => report_json::RefusedObject::RuleInBody {
            kind: *kind,
            function: *function,
            instruction: *instruction,
        },
        Refused::Unlaid { why, .. } => report_json::RefusedObject::Call(unlaid_words(*why)),
        Refused::Call { fault, .. } => report_json::RefusedObject::Call(call_words(*fault)),
        Refused::Absent(absent) | Refused::Allowance(absent) => {
            report_json::RefusedObject::Call(absent.words())
        }
        Refused::Header(line) => report_json::RefusedObject::Header(*line),
        Refused::Unreadable(line) => report_json::RefusedObject::Unreadable(*line),
        Refused::EndMissing => report_json::RefusedObject::EndMissing,
        Refused::Line(line, _) => report_json::RefusedObject::Line(*line),
        Refused::EndLine(line, _) => report_json::RefusedObject::EndLine(*line),
    }
}

fn write_refused<W: Write>(
    alloc: Global,
    refused: &Refused,
    hints: &[&str],
    out: &mut W,
) -> Result<(), Unwritten>
    ensures { OnOk result (WritesRefused refused.now hints.now (W.contents out.old) (W.contents out.new)) }
{
    let refusal = RefusalObject {
        refused: told(refused),
        hints,
    };
    write_refusal(alloc, out, &refusal)
}

fn write_failure<W: Write>(alloc: Global, failed: Failed, out: &mut W) -> Result<(), Unwritten>
    ensures { OnOk result (WritesFailed failed.entry (W.contents out.old) (W.contents out.new)) }
{
    match failed {
        Failed::Memory => write_failed(alloc, out, Failure::Memory),
        Failed::Thread => write_failed(alloc, out, Failure::Thread),
        Failed::File(path) => {
            write_failed(alloc, out, Failure::File(path.unwrap_or("the record")))
        }
        Failed::Output => Ok(()),
    }
}

/// Writes the object of a job that isn't done: what is refused, with these hints, or what failed. Where standard output
/// failed it writes nothing.
///
/// # Errors
/// Where memory is refused; that of the writer, and then what was written isn't said.
pub fn write_undone<W: Write>(
    alloc: Global,
    undone: &Undone,
    hints: &[&str],
    out: &mut W,
) -> Result<(), Unwritten>
    ensures { OnOk result (WritesUndone undone.now hints.now (W.contents out.old) (W.contents out.new)) }
{
    match undone {
        Undone::Refused(refused) => write_refused(alloc, refused, hints, out),
        Undone::Failed(failed) => write_failure(alloc, *failed, out),
    }
}
