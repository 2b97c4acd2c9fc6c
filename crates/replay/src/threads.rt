//! The threads of a run by a record, before their first turn.
ghost use Rattle.std.specs.Prelude.{◌≡◌, ◌∷◌, IfOk, IfErr, IsOkAnd};
ghost use Rattle.replay.specs.Runs.{invoke_line};
ghost use Rattle.replay.specs.Threads.{AreThreadsOf, AreOthers, MakesCallOf, OfCall};
ghost use Rattle.interp.specs.Threads.{meaning_in};

use crate::fault::ReplayFault;
use interp::Thread;
use replay_text::{RecordParts, Version};
use spawn_host::{Call, CallFault, Request, first_thread, spawnable_threads};
use std::alloc::{AllocError, Global};
use validate_module::ValidModule;

/// Thread 0, and behind it the 63 that can be spawned where the module can start threads.
pub(crate) fn threads_of<'m>(
    alloc: Global,
    module: &'m ValidModule,
    parts: &RecordParts,
) -> Result<Vec<Thread<'m>>, ReplayFault>
    ensures threads { IfOk result (AreThreadsOf meaning_in «module».now.parts parts.now) }
    ensures fault { IfErr result (OfCall «module».now.parts parts.now) }
{
    let first = first_of(alloc, module, parts)?;
    led_by(first, others_of(alloc, module, parts.fuel))
}

/// The first thread and the others behind it, if there was memory for them.
fn led_by<T: Drop>(first: T, others: Result<Vec<T>, AllocError>) -> Result<Vec<T>, ReplayFault>
    ensures threads { IfOk result (λ led. IsOkAnd others (λ rest. led.items ≡ first ∷ rest.items)) }
    ensures fault { IfErr result (λ fault. fault ≡ ReplayFault.NoMemory) }
{
    let mut threads = others?;
    threads.insert(0, first)?;
    Ok(threads)
}

/// The 63 threads that can be spawned, where the module can start threads.
fn others_of<'m>(
    alloc: Global,
    module: &'m ValidModule,
    fuel: u64,
) -> Result<Vec<Thread<'m>>, AllocError>
    ensures { IfOk result (λ others. AreOthers meaning_in «module».now.parts fuel others.items) }
{
    if module.starts_threads() {
        spawnable_threads(alloc, module, fuel)
    } else {
        Ok(Vec::new(alloc))
    }
}

/// The line of the name. That of the arguments stands behind it.
fn invoke_line(version: Version) -> u32
    ensures { result ≡ invoke_line version }
{
    match version {
        Version::One => 2,
        Version::Two => 5,
    }
}

/// Thread 0: it is about to call the exported function with the record's arguments.
fn first_of<'m>(
    alloc: Global,
    module: &'m ValidModule,
    parts: &RecordParts,
) -> Result<Thread<'m>, ReplayFault>
    ensures first { IfOk result (MakesCallOf meaning_in «module».now.parts parts.now) }
    ensures fault { IfErr result (OfCall «module».now.parts parts.now) }
{
    let call = Call {
        name: parts.invoke.as_str(),
        args: parts.args.as_slice(),
        fuel: parts.fuel,
    };
    match Request::new(module, call) {
        Ok(request) => Ok(first_thread(alloc, &request)?),
        Err(CallFault::UnknownExport) => Err(ReplayFault::Line(invoke_line(parts.version))),
        Err(CallFault::WrongArguments) => Err(ReplayFault::Line(invoke_line(parts.version) + 1)),
    }
}
