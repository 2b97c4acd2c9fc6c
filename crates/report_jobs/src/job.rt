//! Checks, runs and replays of a module's bytes: what is printed, and with which status they end.
ghost use Rattle.std.specs.Prelude.{◌≡◌, ◌≤◌, ◌⊎◌, false, length, is_some, IfOk, IfErr, OnErr, OnOk};
ghost use Rattle.std.specs.Io.KnownBytes.{Appends};
ghost use Rattle.types.specs.declared.limits.TheConstants.{MOST_FUEL};
ghost use Rattle.report_jobs.specs.Jobs.{IsAccepted, IsAcceptedAs, HasRun, CannotRun, IsReplayed, IsNoRecordOf};
ghost use Rattle.report_jobs.specs.Jobs.{IsRefused};
ghost use Rattle.report_jobs.specs.Jobs.{IsNoValidModule};
ghost use Rattle.report_jobs.specs.Prints.{accepted_text, changed, written};
ghost use Rattle.report_jobs.specs.Silence.{AllStay, IsRefusal, Stays};
ghost use Rattle.report_jobs.specs.Undone.{ended_status, undone_status};
ghost use Rattle.report_jobs.specs.Why.{RefusesModule, RefusesRecord};

use crate::loading::{ModuleRefusal, load, load_checked, load_over};
use crate::replaying::{LoadedModule, Unreplayed, replay_record};
use crate::running::print_run;
use crate::streams::Streams;
use crate::undone::{Done, Failed, Undone, of_refusal, of_trouble, of_unfit, of_unready};
use report_command::{EndLook, Form, RunJob};
use report_json::write_accepted;
use show_text::Unwritten;
use std::alloc::Global;
use std::io::Write;
use std::sync::Wait;
use std::thread::Threads;
use types::Module;

/// Reads a module and validates it, and prints how many functions of its own it has.
///
/// It is done, with status 0, only where the bytes are the text of a valid module and that was printed. A refusal, with
/// status 2, is of the module.
///
/// # Errors
/// The refusal, before anything is written; or that memory or the stream failed.
pub fn check<W: Write>(
    alloc: Global,
    bytes: &[u8],
    form: Form,
    out: &mut W,
) -> Result<Done, Undone<'static>>
    ensures accepted { ended_status result ≡ 0
        → IsAccepted form bytes.now (W.contents out.old) (W.contents out.new) }
    ensures done { IfOk result (λ done. done.status ≤ 1) }
    ensures refused { ended_status result ≡ 2 → IsNoValidModule bytes.now }
    ensures why { IfErr result (λ why. undone_status why ≡ 2 → RefusesModule bytes.now why) }
    ensures silent { ended_status result ≡ 2 → Stays out.old out.new }
    ensures status { (ended_status result ≡ 0) ⊎ (ended_status result ≡ 2) ⊎ (ended_status result ≡ 5) }
{
    match functions_in(alloc, bytes) {
        Ok(functions) => accept(alloc, functions, form, out),
        Err(refusal) => Err(of_refusal(refusal)),
    }
}

/// How many functions of its own the valid module has which the bytes spell.
fn functions_in(alloc: Global, bytes: &[u8]) -> Result<usize, ModuleRefusal>
    ensures ok { IfOk result (IsAcceptedAs bytes.now) }
    ensures err { IfErr result (λ e. IsRefused bytes.now e) }
{
    match load_checked(alloc, bytes) {
        Ok(found) => {
            let functions = count_functions(&found);
            drop(found);
            Ok(functions)
        }
        Err(refusal) => Err(refusal),
    }
}

/// How many functions of its own a module has.
fn count_functions(of: &Module) -> usize
    ensures { result ≡ length of.now.functions }
{
    of.parts().functions.len()
}

/// What comes of what couldn't be written.
fn of_unwritten(unwritten: Unwritten) -> Undone<'static>
    ensures { undone_status result ≡ 5 }
{
    match unwritten {
        Unwritten::NoMemory => Undone::Failed(Failed::Memory),
        Unwritten::Output => Undone::Failed(Failed::Output),
    }
}

/// Prints that a module is accepted.
fn accept<W: Write>(
    alloc: Global,
    functions: usize,
    form: Form,
    out: &mut W,
) -> Result<Done, Undone<'static>>
    ensures written { IfOk result (λ done. (done.status ≡ 0)
        × Appends (W.contents out.old) (W.contents out.new) (accepted_text form functions)) }
    ensures failed { IfErr result (λ why. undone_status why ≡ 5) }
{
    match write_functions(alloc, out, form, functions) {
        Ok(()) => Ok(Done::with(0)),
        Err(unwritten) => Err(of_unwritten(unwritten)),
    }
}

/// Writes the line of an accepted module, `ok functions N`, or its object.
fn write_functions<W: Write>(
    alloc: Global,
    out: &mut W,
    form: Form,
    count: usize,
) -> Result<(), Unwritten>
    ensures { OnOk result (Appends (W.contents out.old) (W.contents out.new) (accepted_text form count)) }
{
    match form {
        Form::Lines => {
            write!(out, "ok functions {count}\n")?;
            out.flush()?;
            Ok(())
        }
        Form::Json => write_accepted(alloc, out, count),
    }
}

/// Runs a function of a module as is asked for, prints how its threads ended, the pages and the first bytes of the memory,
/// says which threads trapped where that is asked for, and writes its record and the bytes of its memory where they are
/// wanted. `over` has the bytes that are laid over its memory before the first turn, where a file is named for that.
///
/// It is done, with status 0 where all threads ended well and 1 for a trap or stop, only of a run that was made and printed
/// so. A refusal is of the module (status 2), or says that no function can be called so or that the bytes can't be laid
/// over the memory (3). At 2 and 3 nothing is written, and where no record or no memory is wanted nothing to its writer.
///
/// # Errors
/// The refusal; or what failed: memory, a thread, or a stream, of the files the one with this path.
pub fn run<'j, R, W, E, S>(
    rt: &R,
    alloc: Global,
    job: &RunJob<'j>,
    module: &[u8],
    over: &[u8],
    streams: &mut Streams<W, E, S>,
) -> Result<Done, Undone<'j>>
where
    R: Threads + Wait + Sync,
    W: Write,
    E: Write,
    S: Write,
    requires { job.now.call.fuel ≤ MOST_FUEL }
    ensures made { ended_status result ≤ 1 → HasRun «module».now over.now job.now
        (written W.contents E.contents S.contents streams.old streams.new) (ended_status result) }
    ensures done { IfOk result (λ done. done.status ≤ 1) }
    ensures refused { ended_status result ≡ 2 → IsNoValidModule «module».now }
    ensures why { IfErr result (λ why. undone_status why ≡ 2 → RefusesModule «module».now why) }
    ensures cannot { ended_status result ≡ 3 → CannotRun «module».now over.now job.now }
    ensures silent { IsRefusal (ended_status result) → AllStay streams.old streams.new }
    ensures unwanted { is_some job.now.save ≡ false → Stays streams.old.save streams.new.save }
    ensures no_memory { is_some job.now.memory_out ≡ false → Stays streams.old.memory streams.new.memory }
    ensures status { (ended_status result ≤ 3) ⊎ (ended_status result ≡ 5) }
{
    let valid = match load_over(alloc, module, job.memory_in, over) {
        Ok(valid) => valid,
        Err(unready) => return Err(of_unready(unready, job.memory_in, over.len())),
    };
    match print_run(rt, alloc, &valid, module, job, streams) {
        Ok(done) => Ok(done),
        Err(trouble) => Err(of_trouble(trouble, valid, job.save, job.memory_out)),
    }
}

/// Replays the record whose text the bytes are, and prints what its run printed: how the threads ended, the pages and
/// the first bytes of the memory; and says which threads trapped where that is asked for.
///
/// It is done, with status 0 or 1, only where the record is of a run of the module and that was printed. A refusal is of
/// the module (status 2), or of bytes that are the text of no record of a run of it (4): then it has the first line of the
/// text that is wrong, or which doesn't fit. At 2 and 4 nothing is written.
///
/// # Errors
/// The refusal; or that memory or a stream failed.
pub fn replay_saved<W: Write, E: Write>(
    alloc: Global,
    module: &[u8],
    saved: &[u8],
    look: EndLook,
    out: &mut W,
    err: &mut E,
) -> Result<Done, Undone<'static>>
    ensures replayed { ended_status result ≤ 1 → IsReplayed «module».now saved.now look
        (changed W.contents out.old out.new) (changed E.contents err.old err.new) (ended_status result) }
    ensures done { IfOk result (λ done. done.status ≤ 1) }
    ensures refused { ended_status result ≡ 2 → IsNoValidModule «module».now }
    ensures why { IfErr result (λ why. undone_status why ≡ 2 → RefusesModule «module».now why) }
    ensures none { ended_status result ≡ 4 → IsNoRecordOf «module».now saved.now }
    ensures wrong { IfErr result (λ why. undone_status why ≡ 4 → RefusesRecord «module».now saved.now why) }
    ensures silent { IsRefusal (ended_status result) → Stays out.old out.new × Stays err.old err.new }
    ensures unsaid { OnErr result (Stays err.old err.new) }
    ensures status { (ended_status result ≤ 2) ⊎ (ended_status result ≡ 4) ⊎ (ended_status result ≡ 5) }
{
    let valid = match load(alloc, module) {
        Ok(valid) => valid,
        Err(refusal) => return Err(of_refusal(refusal)),
    };
    let loaded = LoadedModule {
        valid: &valid,
        bytes: module,
    };
    match replay_record(alloc, loaded, saved, look, out, err) {
        Ok(done) => Ok(done),
        Err(Unreplayed { unfit, stood }) => Err(of_unfit(unfit, valid, stood)),
    }
}
