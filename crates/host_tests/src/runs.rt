//! A run behind a gate, and what it left.

use interp_trait::Gate;
use replay::{ReplayFault, replay};
use replay_text::Record;
use report_jobs::{ModuleRefusal, load};
use report_runs::{Call, EndState, RecordRunFault, record_run, run_on_words};
use std::alloc::{AllocError, Global};
use std::sync::Wait;
use std::thread::Threads;
use types::{MOST_FUEL, MOST_LIMIT, Outcome, ThreadReport, Value};
use validate_module::ValidModule;

/// Over which memory, and how many entries its log takes.
#[derive(Clone, Copy, PartialEq, Eq, Debug)]
pub(crate) enum Memory {
    Locked { limit: u32 },
    Words,
}

/// Both, without a limit that is met.
pub(crate) const BOTH: [Memory; 2] = [Memory::Locked { limit: MOST_LIMIT }, Memory::Words];

/// The units of each thread, more than any spends.
pub(crate) const FUEL: u64 = 1_000_000_000;

/// How a thread ends, and how many units it has spent, where that doesn't depend on who comes first.
pub(crate) type Ended = (Outcome, Option<u64>);

/// A thread without a result that ends well.
pub(crate) const END: Ended = (Outcome::Done(None), None);

/// Why there was no run.
#[derive(Clone, Copy, PartialEq, Eq, Debug)]
pub(crate) enum Trouble {
    Refused(ModuleRefusal),
    Run(RecordRunFault),
    Replay(ReplayFault),
    /// A record can't have so much fuel.
    Fuel,
    /// The replay came to another end than the run.
    AnotherEnd,
    NoMemory,
}

impl From<AllocError> for Trouble {
    fn from(_: AllocError) -> Trouble {
        Trouble::NoMemory
    }
}

impl From<ModuleRefusal> for Trouble {
    fn from(refusal: ModuleRefusal) -> Trouble {
        Trouble::Refused(refusal)
    }
}

impl From<RecordRunFault> for Trouble {
    fn from(fault: RecordRunFault) -> Trouble {
        Trouble::Run(fault)
    }
}

impl From<ReplayFault> for Trouble {
    fn from(fault: ReplayFault) -> Trouble {
        Trouble::Replay(fault)
    }
}

/// Whether the replay of a record comes to this end.
fn comes_to(
    alloc: Global,
    valid: &ValidModule,
    record: &Record,
    end: &EndState,
) -> Result<bool, ReplayFault> {
    let replayed = replay(alloc, valid, record)?;
    Ok(replayed == *end)
}

/// A run over the recorder. Its record is replayed, and has to come to the same end.
fn run_recorded<G: Gate + Send + Sync, R: Threads + Wait + Sync>(
    rt: &R,
    alloc: Global,
    valid: &ValidModule,
    call: Call,
    limit: u32,
    gate: G,
) -> Result<EndState, Trouble> {
    if call.fuel > MOST_FUEL {
        return Err(Trouble::Fuel);
    }
    let mut gate = gate;
    let (record, end) = record_run(rt, alloc, valid, call, limit, &mut gate)?;
    if comes_to(alloc, valid, &record, &end)? {
        Ok(end)
    } else {
        Err(Trouble::AnotherEnd)
    }
}

/// A run over the row of words.
fn run_plain<G: Gate + Send + Sync, R: Threads + Wait + Sync>(
    rt: &R,
    alloc: Global,
    valid: &ValidModule,
    call: Call,
    gate: G,
) -> Result<EndState, Trouble> {
    let mut gate = gate;
    Ok(run_on_words(rt, alloc, valid, call, &mut gate)?)
}

/// Runs a module's function behind a gate.
fn run_valid<G: Gate + Send + Sync, R: Threads + Wait + Sync>(
    rt: &R,
    alloc: Global,
    valid: &ValidModule,
    call: Call,
    memory: Memory,
    gate: G,
) -> Result<EndState, Trouble> {
    match memory {
        Memory::Locked { limit } => run_recorded(rt, alloc, valid, call, limit, gate),
        Memory::Words => run_plain(rt, alloc, valid, call, gate),
    }
}

/// Runs the function `f` of a module behind a gate. What was recorded is replayed, and has to come to the same end.
pub(crate) fn run<G: Gate + Send + Sync, R: Threads + Wait + Sync>(
    rt: &R,
    alloc: Global,
    module: &[u8],
    args: &[Value],
    fuel: u64,
    memory: Memory,
    gate: G,
) -> Result<EndState, Trouble> {
    let valid = load(alloc, module)?;
    let call = Call {
        name: "f",
        args,
        fuel,
    };
    run_valid(rt, alloc, &valid, call, memory, gate)
}

/// Whether the thread ended so.
fn has_ended(report: &ThreadReport, ended: &Ended) -> bool {
    let (outcome, spent) = *ended;
    report.outcome == outcome && (spent.is_none() || spent == Some(report.spent))
}

/// Whether the threads ended so.
pub(crate) fn has_ends(end: &EndState, wanted: &[Ended]) -> bool {
    if end.threads.len() != wanted.len() {
        return false;
    }
    for (report, ended) in end.threads.iter().zip(wanted) {
        if !has_ended(report, ended) {
            return false;
        }
    }
    true
}
