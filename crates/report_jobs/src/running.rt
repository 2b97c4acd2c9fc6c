//! Runs of modules by the program: over which memory, and what is printed.
ghost use Rattle.std.specs.Prelude.{◌≡◌, ◌≤◌, ◌⊎◌, true, false, map, is_some, IfOk, IfErr, IsOk, OnOk};
ghost use Rattle.std.specs.Io.KnownBytes.{Appends};
ghost use Rattle.types.specs.declared.limits.TheConstants.{MOST_FUEL};
ghost use Rattle.validate_typing.specs.Validity.{HasDistinctNames};
ghost use Rattle.report_jobs.specs.Asked.{IsAskedBy};
ghost use Rattle.report_jobs.specs.Prints.{changed, written, PrintsRun, PrintsAllIn, PrintsAndKeeps, KeepsRecord, KeepsBytes};
ghost use Rattle.report_jobs.specs.Silence.{Leaves, Stays};
ghost use Rattle.report_jobs.specs.Troubles.{IsTroubleOf, IsUnwritten, AreArgumentsOf, trouble_of};
ghost use Rattle.report_jobs.specs.Troubles.{trouble_of_recording, trouble_of_unwritten};
ghost use Rattle.report_jobs.specs.declared.running.Trouble.TheVariants as troubles;

use crate::args::read_args;
use crate::printing::print_end;
use crate::saying::said_in;
use crate::streams::Streams;
use crate::trapped::Whence;
use crate::undone::Done;
use replay_text::{Record, write_record};
use report_command::{CallWords, RunJob};
use report_runs::{Call, EndState, RecordRunFault, record_request, run_request_on_words};
use report_traps::Frames;
use show_said::Said;
use show_text::Unwritten;
use spawn_host::{CallFault, Request, RunFault, own_function};
use spawn_host_workers::StartFault;
use std::alloc::{AllocError, Global};
use std::io::{self, Write};
use std::sync::Wait;
use std::thread::Threads;
use types::Value;
use validate::ValidModule;

/// Why a run wasn't made, or what came of it couldn't be written.
#[derive(Clone, Copy, PartialEq, Eq)]
pub enum Trouble {
    /// No function of the module itself is exported by the name, or its parameters take no values that the arguments
    /// spell.
    Call(CallFault),
    /// The system refused a thread.
    NoThread,
    /// The system had too little memory left.
    NoMemory,
    /// Standard output failed.
    Output,
    /// The file of the record failed.
    Save,
    /// The file of the memory failed.
    SaveMemory,
}

impl From<AllocError> for Trouble {
    ghost from_gives = { λ _ e. e ≡ troubles.NoMemory };

    fn from(_: AllocError) -> Trouble {
        Trouble::NoMemory
    }
}

impl From<CallFault> for Trouble {
    ghost from_gives = { λ f e. e ≡ troubles.Call f };

    fn from(fault: CallFault) -> Trouble {
        Trouble::Call(fault)
    }
}

impl From<RunFault> for Trouble {
    ghost from_gives = { λ f e. e ≡ trouble_of f };

    fn from(fault: RunFault) -> Trouble {
        match fault {
            RunFault::Call(fault) => Trouble::Call(fault),
            RunFault::Start(StartFault::NoMemory) => Trouble::NoMemory,
            RunFault::Start(StartFault::NoThread) => Trouble::NoThread,
        }
    }
}

impl From<RecordRunFault> for Trouble {
    ghost from_gives = { λ f e. e ≡ trouble_of_recording f };

    fn from(fault: RecordRunFault) -> Trouble {
        match fault {
            RecordRunFault::Run(fault) => Trouble::from(fault),
            RecordRunFault::Open(_) | RecordRunFault::NoMemory => Trouble::NoMemory,
        }
    }
}

impl From<io::Error> for Trouble {
    ghost from_gives = { λ _ e. e ≡ troubles.Output };

    /// That of standard output.
    fn from(_: io::Error) -> Trouble {
        Trouble::Output
    }
}

/// What comes of an end that couldn't be written.
fn unprinted(unwritten: Unwritten) -> Trouble
    ensures { result ≡ trouble_of_unwritten unwritten }
{
    match unwritten {
        Unwritten::NoMemory => Trouble::NoMemory,
        Unwritten::Output => Trouble::Output,
    }
}

// The exports of a valid module have distinct names (Core specification 1.0, section 3.4.10).
fn show_distinct(module: &ValidModule)
    ensures { HasDistinctNames «module».now.parts.exports }
{
    let _parts = module.parts();
}

/// The values of the arguments of an exported function.
///
/// # Errors
/// `Call` only where no function can be called so, and `NoMemory`.
pub fn args_of(alloc: Global, module: &ValidModule, call: &CallWords) -> Result<Vec<Value>, Trouble>
    ensures takes { IfOk result (λ args. AreArgumentsOf «module».now.parts call.now args.items) }
    ensures trouble { IfErr result (IsTroubleOf «module».now.parts call.now) }
{
    let Some(function) = own_function(module, call.invoke) else {
        return Err(Trouble::Call(CallFault::UnknownExport));
    };
    show_distinct(module);
    match read_args(alloc, function.func_type.params.as_slice(), &call.args)? {
        Some(args) => Ok(args),
        None => Err(Trouble::Call(CallFault::WrongArguments)),
    }
}

/// The request for a call in words with the values of its arguments.
pub fn request_of<'m, 'a>(
    module: &'m ValidModule,
    words: &CallWords<'a>,
    args: &'a [Value],
) -> Request<'m, 'a>
    requires { AreArgumentsOf «module».now.parts words.now args.now }
    ensures parts { result.parts ≡ «module».now.parts }
    ensures args { result.args ≡ args.now }
    ensures asked { IsAskedBy words.now result }
{
    show_distinct(module);
    let call = Call {
        name: words.invoke,
        args,
        fuel: words.fuel,
    };
    match Request::new(module, call) {
        Ok(request) => request,
        Err(_) => unreachable!(),
    }
}

/// Runs the function, prints its end, and writes the record and the bytes of the memory where they are wanted. `bytes`
/// have the names and the lines of the module. Answers what came of it: the status is 0 where all threads ended well, 1
/// for a trap or stop.
pub(crate) fn print_run<R, W, E, S>(
    rt: &R,
    alloc: Global,
    module: &ValidModule,
    bytes: &[u8],
    job: &RunJob,
    streams: &mut Streams<W, E, S>,
) -> Result<Done, Trouble>
where
    R: Threads + Wait + Sync,
    W: Write,
    E: Write,
    S: Write,
    requires fuel { job.now.call.fuel ≤ MOST_FUEL }
    ensures made { IfOk result (λ done. PrintsRun «module».now.parts bytes.now job.now
        (written W.contents E.contents S.contents streams.old streams.new) done.status) }
    ensures trouble { IfErr result (IsTroubleOf «module».now.parts job.now.call) }
    ensures silent { IfErr result (λ e. Leaves e
        (Stays streams.old.out streams.new.out × Stays streams.old.err streams.new.err)
        (Stays streams.old.save streams.new.save × Stays streams.old.memory streams.new.memory)) }
    ensures unwanted { is_some job.now.save ≡ false → Stays streams.old.save streams.new.save }
    ensures no_memory { is_some job.now.memory_out ≡ false → Stays streams.old.memory streams.new.memory }
{
    let args = args_of(alloc, module, &job.call)?;
    let request = request_of(module, &job.call, &args);
    let frames = Frames::new(alloc);
    let whence = Whence {
        parts: module.parts(),
        bytes,
        frames: &frames,
        recorded: None,
    };
    if job.on_words {
        print_on_words(rt, alloc, &request, job, whence, streams)
    } else {
        print_recorded(rt, alloc, &request, job, whence, streams)
    }
}

/// The same over the row of words.
fn print_on_words<R, W, E, S>(
    rt: &R,
    alloc: Global,
    request: &Request,
    job: &RunJob,
    whence: Whence,
    streams: &mut Streams<W, E, S>,
) -> Result<Done, Trouble>
where
    R: Threads + Wait + Sync,
    W: Write,
    E: Write,
    S: Write,
    requires memory { job.now.on_words ≡ true }
    requires asked { IsAskedBy job.now.call request.now }
    ensures made { IfOk result (λ done. PrintsRun request.now.parts whence.entry.bytes.now job.now
        (written W.contents E.contents S.contents streams.old streams.new) done.status) }
    ensures trouble { IfErr result (IsTroubleOf request.now.parts job.now.call) }
    ensures silent { IfErr result (λ e. Leaves e
        (Stays streams.old.out streams.new.out × Stays streams.old.err streams.new.err)
        (Stays streams.old.save streams.new.save × Stays streams.old.memory streams.new.memory)) }
    ensures unrecorded { Stays streams.old.save streams.new.save }
    ensures no_memory { is_some job.now.memory_out ≡ false → Stays streams.old.memory streams.new.memory }
{
    let mut gate = whence.frames;
    let end = run_request_on_words(rt, alloc, request, &mut gate)?;
    let done = print_and_write(alloc, &end, &[], job, whence, streams);
    drop(end);
    done
}

/// The same over the memory that records.
fn print_recorded<R, W, E, S>(
    rt: &R,
    alloc: Global,
    request: &Request,
    job: &RunJob,
    whence: Whence,
    streams: &mut Streams<W, E, S>,
) -> Result<Done, Trouble>
where
    R: Threads + Wait + Sync,
    W: Write,
    E: Write,
    S: Write,
    requires fuel { job.now.call.fuel ≤ MOST_FUEL }
    requires memory { job.now.on_words ≡ false }
    requires asked { IsAskedBy job.now.call request.now }
    ensures made { IfOk result (λ done. PrintsRun request.now.parts whence.entry.bytes.now job.now
        (written W.contents E.contents S.contents streams.old streams.new) done.status) }
    ensures trouble { IfErr result (IsTroubleOf request.now.parts job.now.call) }
    ensures silent { IfErr result (λ e. Leaves e
        (Stays streams.old.out streams.new.out × Stays streams.old.err streams.new.err)
        (Stays streams.old.save streams.new.save × Stays streams.old.memory streams.new.memory)) }
    ensures unwanted { is_some job.now.save ≡ false → Stays streams.old.save streams.new.save }
    ensures no_memory { is_some job.now.memory_out ≡ false → Stays streams.old.memory streams.new.memory }
{
    let mut gate = whence.frames;
    let (record, end) = record_request(rt, alloc, request, job.limit, &mut gate)?;
    let done = print_and_keep(alloc, &record, &end, job, whence, streams);
    drop(record);
    drop(end);
    done
}

/// Prints what the threads of a recorded run say, where that is wanted, and its end, and writes the record and the bytes
/// of the memory where they are wanted.
fn print_and_keep<W: Write, E: Write, S: Write>(
    alloc: Global,
    recorded: &Record,
    end: &EndState,
    job: &RunJob,
    whence: Whence,
    streams: &mut Streams<W, E, S>,
) -> Result<Done, Trouble>
    ensures made { IfOk result (λ done. PrintsAndKeeps whence.entry.bytes.now job.now recorded.now end.now
        (written W.contents E.contents S.contents streams.old streams.new) done.status) }
    ensures trouble { IfErr result IsUnwritten }
    ensures silent { IfErr result (λ e. Leaves e
        (Stays streams.old.out streams.new.out × Stays streams.old.err streams.new.err)
        (Stays streams.old.save streams.new.save × Stays streams.old.memory streams.new.memory)) }
    ensures unwanted { is_some job.now.save ≡ false → Stays streams.old.save streams.new.save }
    ensures no_memory { is_some job.now.memory_out ≡ false → Stays streams.old.memory streams.new.memory }
{
    let said = said_in(alloc, whence.bytes, recorded, job.look.text)?;
    let whence = Whence {
        recorded: Some(recorded),
        ..whence
    };
    let done = print_and_write(alloc, end, &said, job, whence, streams)?;
    keep(recorded, job.save.is_some(), &mut streams.save)?;
    Ok(done)
}

/// Prints what the threads of a run say, and its end, and writes the bytes of its memory where they are wanted.
fn print_and_write<W: Write, E: Write, S: Write>(
    alloc: Global,
    end: &EndState,
    said: &[Said],
    job: &RunJob,
    whence: Whence,
    streams: &mut Streams<W, E, S>,
) -> Result<Done, Trouble>
    ensures made { IfOk result (λ done. PrintsAllIn job.now end.now said.now
        (written W.contents E.contents S.contents streams.old streams.new) done.status) }
    ensures trouble { IfErr result IsUnwritten }
    ensures silent { IfErr result (λ e. Leaves e
        (Stays streams.old.out streams.new.out × Stays streams.old.err streams.new.err)
        (Stays streams.old.memory streams.new.memory)) }
    ensures unrecorded { Stays streams.old.save streams.new.save }
    ensures no_memory { is_some job.now.memory_out ≡ false → Stays streams.old.memory streams.new.memory }
{
    let Streams {
        out,
        err,
        memory,
        ..
    } = streams;
    let done = match print_end(alloc, out, err, end, said, job.look, whence) {
        Ok(done) => done,
        Err(unwritten) => return Err(unprinted(unwritten)),
    };
    keep_bytes(&end.bytes, job.memory_out.is_some(), memory)?;
    Ok(done)
}

/// Writes the bytes of a memory to their file, where they are wanted; where they aren't the file's writer stays as it
/// is.
fn keep_bytes<S: Write>(bytes: &[u8], is_wanted: bool, memory: &mut S) -> Result<(), Trouble>
    ensures kept { OnOk result (KeepsBytes is_wanted (changed S.contents memory.old memory.new) bytes.now) }
    ensures memory { IfErr result (λ trouble. trouble ≡ troubles.SaveMemory) }
    ensures unwanted { is_wanted ≡ false → Stays memory.old memory.new }
{
    if is_wanted {
        match memory.write_all(bytes) {
            Ok(()) => Ok(()),
            Err(_) => Err(Trouble::SaveMemory),
        }
    } else {
        Ok(())
    }
}

/// Writes a record to its file, where it is wanted; where it isn't the file's writer stays as it is. What a buffer
/// holds back of it is handed on by whoever made the buffer.
pub fn keep<S: Write>(record: &Record, is_wanted: bool, save: &mut S) -> Result<(), Trouble>
    ensures kept { OnOk result (KeepsRecord is_wanted (changed S.contents save.old save.new) «record».now) }
    ensures save { IfErr result (λ trouble. trouble ≡ troubles.Save) }
    ensures unwanted { is_wanted ≡ false → Stays save.old save.new }
    ensures sure { is_wanted ≡ false → IsOk result }
{
    if !is_wanted {
        return Ok(());
    }
    match write_record(record, save) {
        Ok(()) => Ok(()),
        Err(_) => Err(Trouble::Save),
    }
}
