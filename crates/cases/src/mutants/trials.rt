//! Jobs on changed bytes, and whether each ends as a job can.
ghost use Rattle.std.specs.Prelude.{◌≤◌};
ghost use Rattle.report_command.specs.Jobs.{IsInRange};
ghost use Rattle.report_jobs.specs.Plain.{IsPlain};

use crate::mutants::answers::is_answer;
use report_command::{CallWords, EndLook, Form, Job, RunJob};
use report_jobs::{Streams, perform_plain, status_of, tell_ended};
use std::alloc::{AllocError, Global};
use std::sync::Wait;
use std::thread::Threads;

/// The units of each thread, few enough that a thread that goes round for good ends soon.
const FUEL: u64 = 2000;

/// The entries of the log.
const LIMIT: u32 = 1000;

/// The bytes that are shown.
const DUMP: u32 = 64;

/// What a job gave.
#[derive(Drop)]
pub(crate) struct Gave {
    status: u8,
    pub(crate) streams: Streams<Vec<u8>, Vec<u8>, Vec<u8>>,
}

impl Gave {
    /// Whether the job ended as a job can.
    fn is_right(&self) -> bool {
        is_answer(self.status, &self.streams.out, &self.streams.err)
    }

    /// Whether there was a run.
    pub(crate) fn ran(&self) -> bool {
        self.status <= 1
    }
}

/// Does a job on the bytes of a module and of a record.
fn give<R: Threads + Wait + Sync>(
    rt: &R,
    alloc: Global,
    job: &Job,
    module: &[u8],
    saved: &[u8],
) -> Gave
    requires range { IsInRange job.now }
    requires plain { IsPlain job.now }
{
    let mut gave = Gave {
        status: 0,
        streams: Streams {
            out: Vec::new(alloc),
            err: Vec::new(alloc),
            save: Vec::new(alloc),
            memory: Vec::new(alloc),
        },
    };
    let ended = perform_plain(rt, alloc, job, module, saved, &mut gave.streams);
    tell_ended(&mut gave.streams.err, &ended);
    gave.status = status_of(&ended);
    gave
}

/// Over which memory a module is run.
#[derive(Clone, Copy)]
pub(crate) enum Over {
    Recorder,
    Words,
}

/// What is called in a module.
#[derive(Clone, Copy)]
pub(crate) struct Called<'a> {
    pub(crate) name: &'a str,
    pub(crate) arg: Option<&'a str>,
}

/// Runs a module, and keeps its record where the memory has one.
pub(crate) fn run<R: Threads + Wait + Sync>(
    rt: &R,
    alloc: Global,
    module: &[u8],
    called: Called,
    over: Over,
) -> Result<Gave, AllocError> {
    let mut args = Vec::new(alloc);
    if let Some(arg) = called.arg {
        args.push(arg)?;
    }
    let (on_words, save) = match over {
        Over::Recorder => (false, Some("a.record")),
        Over::Words => (true, None),
    };
    let call = CallWords {
        invoke: called.name,
        args,
        fuel: FUEL,
    };
    let job = Job::Run(RunJob {
        file: "a.wasm",
        call,
        on_words,
        limit: LIMIT,
        is_limit_said: true,
        save,
        memory_in: None,
        memory_out: None,
        look: EndLook::lines(0),
    });
    Ok(give(rt, alloc, &job, module, b""))
}

/// Replays a record of a module.
fn replay<R: Threads + Wait + Sync>(rt: &R, alloc: Global, module: &[u8], saved: &[u8]) -> Gave {
    let job = Job::Replay {
        file: "a.wasm",
        saved: "a.record",
        look: EndLook::lines(0),
    };
    give(rt, alloc, &job, module, saved)
}

/// Whether a run over the recorder ends as it can, and its record's replay gives the same.
fn is_recorded<R: Threads + Wait + Sync>(
    rt: &R,
    alloc: Global,
    module: &[u8],
    called: Called,
) -> Result<bool, AllocError> {
    let ran = run(rt, alloc, module, called, Over::Recorder)?;
    if !ran.ran() {
        return Ok(ran.is_right());
    }
    let again = replay(rt, alloc, module, &ran.streams.save);
    Ok(
        ran.is_right()
            && again.status == ran.status
            && again.streams.out == ran.streams.out
            && again.streams.err == ran.streams.err,
    )
}

/// Whether a module is refused or accepted as it can be, and where it is accepted its runs end as they can.
pub(crate) fn module_is_right<R: Threads + Wait + Sync>(
    rt: &R,
    alloc: Global,
    module: &[u8],
    called: Called,
) -> Result<Option<u8>, AllocError> {
    let check = Job::Check {
        file: "a.wasm",
        form: Form::Lines,
    };
    let checked = give(rt, alloc, &check, module, b"");
    if !checked.is_right() {
        return Ok(None);
    }
    if checked.status == 0 {
        let on_words = run(rt, alloc, module, called, Over::Words)?;
        if !on_words.is_right() || !is_recorded(rt, alloc, module, called)? {
            return Ok(None);
        }
        return Ok(Some(on_words.status));
    }
    Ok(Some(checked.status))
}

/// Whether a record is refused, or replayed, as it can be.
pub(crate) fn record_is_right<R: Threads + Wait + Sync>(
    rt: &R,
    alloc: Global,
    module: &[u8],
    saved: &[u8],
) -> Option<u8> {
    let gave = replay(rt, alloc, module, saved);
    if gave.is_right() {
        Some(gave.status)
    } else {
        None
    }
}
