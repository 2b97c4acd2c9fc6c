//! The replay of a recorded run of a module.
ghost use Rattle.std.specs.Prelude.{◌≡◌, ◌↔◌, IsTrue, IfOk, OnOk, IfErr};
ghost use Rattle.validate_typing.specs.Validity.{HasDistinctNames};
ghost use Rattle.spawn_host.specs.Runs.{opening_within};
ghost use Rattle.replay.specs.Runs.{HasLength, FitsModule, OfScale, IsRunOf, IsReplayFault, ShowsNoRun, pages_line};
ghost use Rattle.replay.specs.Watching.{SeesReplay};

use crate::fault::ReplayFault;
use crate::threads::threads_of;
use crate::walking::walk;
use interp::Thread;
use replay_text::{Record, RecordParts, Version};
use replay_walk::{Unwatched, Watch};
use shared_memory_sequential::OneMemory;
use spawn_host::EndState;
use std::alloc::Global;
use validate_module::ValidModule;

/// Runs a recorded run of a module again, by one thread along the record's log, and gives what the run left: the ends
/// and pages of the record, and the bytes of the memory.
///
/// A thread's turns between two of its entries are made at the second one, so that a replay takes as many turns as the
/// run, and at most the fuel for each thread.
///
/// # Errors
/// `Line` and `EndLine` name the first line of the record's text that doesn't fit, from line 1 on. In version 2 it is 2
/// where the module has another length, and 4 where its memory has more pages than there might be, at first or at most,
/// as in version 1 line 1. Then comes the line of the name, 5 or 2, where no function of the module itself is exported
/// under it, and the line behind it where the arguments don't fit it; behind them the first entry with which no run
/// goes on, or the first line behind the log with which none ends. `NoMemory` says nothing of the record.
pub fn replay(alloc: Global, module: &ValidModule, record: &Record) -> Result<EndState, ReplayFault>
    ensures run { IfOk result (λ end. IsRunOf «module».now.parts «record».now end) }
    ensures fault { IfErr result (λ fault. IsReplayFault «module».now.parts «record».now fault) }
    ensures none { IfErr result (λ fault. ShowsNoRun «module».now.parts «record».now fault) }
{
    replay_watched(alloc, module, record, &mut Unwatched)
}

/// The same, while `watch` sees the walk along the record's log, up to the first entry that doesn't fit.
///
/// # Errors
/// As of `replay`.
pub fn replay_watched<'m, W: Watch<Thread<'m>>>(
    alloc: Global,
    module: &'m ValidModule,
    record: &Record,
    watch: &mut W,
) -> Result<EndState, ReplayFault>
    ensures run { IfOk result (λ end. IsRunOf «module».now.parts «record».now end) }
    ensures fault { IfErr result (λ fault. IsReplayFault «module».now.parts «record».now fault) }
    ensures none { IfErr result (λ fault. ShowsNoRun «module».now.parts «record».now fault) }
    ensures seen { SeesReplay W.sees «module».now.parts «record».now result watch.old watch.new }
{
    has_distinct_names(module);
    let parts = record.parts();
    check_scale(module, parts)?;
    let threads = threads_of(alloc, module, parts)?;
    let ends = Vec::from_slice(alloc, parts.ends.as_slice())?;
    let memory = walk(
        threads,
        opening(alloc, module, parts.max_pages)?,
        parts,
        watch,
    )?;
    Ok(EndState {
        threads: ends,
        pages: parts.pages,
        bytes: memory.into_bytes(),
    })
}

/// No two exports of a valid module have one name. It does nothing else.
fn has_distinct_names(module: &ValidModule)
    ensures { HasDistinctNames «module».now.parts.exports }
{
    module.parts();
}

/// Whether the record is of a module of this length, whose memory has no more pages than there might be.
fn check_scale(module: &ValidModule, parts: &RecordParts) -> Result<(), ReplayFault>
    ensures fits { OnOk result (FitsModule «module».now.parts parts.now) }
    ensures fault { IfErr result (λ fault. OfScale «module».now.parts parts.now fault) }
{
    if !has_length(module, parts) {
        return Err(ReplayFault::Line(MODULE_LINE));
    }
    if !module.has_pages_within(parts.max_pages) {
        return Err(ReplayFault::Line(pages_line(parts.version)));
    }
    Ok(())
}

/// The line of the module's length.
const MODULE_LINE: u32 = 2;

/// The line that says how many pages there might be.
fn pages_line(version: Version) -> u32
    ensures { result ≡ pages_line version }
{
    match version {
        Version::One => 1,
        Version::Two => 4,
    }
}

fn has_length(module: &ValidModule, parts: &RecordParts) -> bool
    ensures { IsTrue result ↔ HasLength «module».now.parts parts.now }
{
    match parts.version {
        Version::One => true,
        Version::Two => module.parts().length == parts.module_len,
    }
}

/// The memory of a module before the first instruction, where one without a maximum may have so many pages.
fn opening(alloc: Global, module: &ValidModule, max_pages: u32) -> Result<OneMemory, ReplayFault>
    ensures opened { IfOk result (λ memory. memory ≡ opening_within max_pages «module».now.parts) }
    ensures fault { IfErr result (λ fault. fault ≡ ReplayFault.NoMemory) }
{
    let image = module.image(alloc)?;
    match OneMemory::open(alloc, &image, module.pages_max_within(max_pages)) {
        Ok(memory) => Ok(memory),
        Err(_) => Err(ReplayFault::NoMemory),
    }
}
