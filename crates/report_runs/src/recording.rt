//! A run over the memory that records.
ghost use Rattle.std.specs.Prelude.{◌≡◌, ◌≤◌, ◌+◌, ◌++◌, [], length, vec_len, vec_capacity, IfOk, OnOk, IfErr};
ghost use Rattle.std.specs.Prelude.{OnErr};
ghost use Rattle.types.specs.declared.limits.TheConstants.{MOST_THREADS, MOST_LIMIT, MOST_FUEL};
ghost use Rattle.spawn_host.specs.Runs.{opening_memory};
ghost use Rattle.spawn_host.specs.Gates.{IsGatedCall, IsGatedRun};
ghost use Rattle.spawn_host_workers.specs.Unstarted.{fault_of};
ghost use Rattle.replay.specs.Runs.{IsRunOf};
ghost use Rattle.report_runs.specs.FaultNumbers.{record_run_fault_number};
ghost use Rattle.report_runs.specs.Called.{RecordsCall, RecordsRequest};
ghost use Rattle.report_runs.specs.RunFaults.{IsLogLimit, IsRecordingFaultOf, IsRecordingFaultOfRequest};
ghost use Rattle.report_runs.specs.RunFaults.{IsPastLimit};
ghost use Rattle.report_runs.specs.Headers.{IsHeaderOf};
ghost use Rattle.report_runs.specs.declared.recording.RecordRunFault.TheVariants as faults;
ghost use Rattle.spawn_host.specs.declared.running.RunFault.TheVariants as run_faults;
ghost use Rattle.replay_text.specs.Text.{IsRecord};
ghost use Rattle.replay_rules.specs.Ranges.{AreTyped};

use crate::fitting::{show_memory_opens, show_module_fits, show_parts_fit};
use interp_trait::Gate;
use locked_recorder::{LockedRecorder, Naming, Prepared};
use replay_text::{Record, RecordParts, Version};
use shared_memory_sequential::OpenFault;
use spawn_host::{Call, CallFault, EndState, Request, RunFault, run_request};
use spawn_host_workers::{StartFault, Unstarted};
use std::alloc::{AllocError, Global};
use std::marker::Brand;
use std::sync::Wait;
use std::thread::Threads;
use thiserror::Error;
use types::{MOST_LIMIT, MOST_PAGES, MOST_THREADS, Name, Sequence, ThreadReport, Value};
use validate_module::ValidModule;

/// Why there is no run over a memory of its own. All come before the first turn.
#[derive(Clone, Copy, PartialEq, Eq, Debug, Error)]
pub enum RecordRunFault {
    /// 1: the memory couldn't be opened.
    #[error("open: {0}")]
    Open(OpenFault),
    /// 2: the run couldn't begin.
    #[error("run: {0}")]
    Run(RunFault),
    /// 3: the system had too little memory left.
    #[error("no memory")]
    NoMemory,
}

impl RecordRunFault {
    /// The fault's number, 1 to 3.
    pub fn number(self) -> u8
        ensures { result ≡ record_run_fault_number self }
    {
        match self {
            RecordRunFault::Open(_) => 1,
            RecordRunFault::Run(_) => 2,
            RecordRunFault::NoMemory => 3,
        }
    }
}

impl From<AllocError> for RecordRunFault {
    ghost from_gives = { λ _ e. e ≡ faults.NoMemory };

    fn from(_: AllocError) -> RecordRunFault {
        RecordRunFault::NoMemory
    }
}

impl From<OpenFault> for RecordRunFault {
    ghost from_gives = { λ f e. e ≡ faults.Open f };

    fn from(fault: OpenFault) -> RecordRunFault {
        RecordRunFault::Open(fault)
    }
}

impl From<CallFault> for RecordRunFault {
    ghost from_gives = { λ f e. e ≡ faults.Run (run_faults.Call f) };

    fn from(fault: CallFault) -> RecordRunFault {
        RecordRunFault::Run(RunFault::Call(fault))
    }
}

impl From<StartFault> for RecordRunFault {
    ghost from_gives = { λ f e. e ≡ faults.Run (run_faults.Start f) };

    fn from(fault: StartFault) -> RecordRunFault {
        RecordRunFault::Run(RunFault::Start(fault))
    }
}

/// What a record says of the call, and room for its ends: all that is taken before the first turn.
#[derive(Drop)]
struct Header {
    invoke: Name,
    args: Sequence<Value>,
    fuel: u64,
    limit: u32,
    ends: Vec<ThreadReport>,
}

/// Runs an exported function over a new memory that records, and gives the record of the run, and what the run leaves.
/// The limit is 1 to 1,000,000 entries, and the fuel of the call 0 to 1,000,000,000,000 units.
///
/// There is one history that all threads saw: the record's log. It is legal for the memory and for the wait queue; each
/// thread's report follows from its own entries in it; and one thread that steps all threads along it comes to the same
/// reports, pages and bytes. So the record is of a run of the module, and that ends as this one did.
///
/// # Errors
/// `Open` with `PastLimit` exactly where the limit is out of its range. Otherwise `Run` with `UnknownExport` exactly
/// where no function of the module itself is exported under the name, and with `WrongArguments` exactly where one is,
/// and the arguments don't fit it. Otherwise `NoMemory`, `Open` or `Run` where memory is refused, and `Run` with
/// `NoThread` where the system starts no further thread. All come before the first turn, so the gate wasn't called.
pub fn record_run<G, R>(
    rt: &R,
    alloc: Global,
    module: &ValidModule,
    call: Call,
    limit: u32,
    gate: &mut G,
) -> Result<(Record, EndState), RecordRunFault>
where
    G: Gate + Send + Sync,
    R: Threads + Wait + Sync,
    requires fuel { call.fuel ≤ MOST_FUEL }
    ensures record { IfOk result (λ r. RecordsCall «module».now.parts call.entry limit r.0 r.1) }
    ensures run { IfOk result (λ r. IsRunOf «module».now.parts r.0 r.1) }
    ensures fault { IfErr result (IsRecordingFaultOf «module».now.parts call.entry limit) }
    ensures gated { IfOk result (λ r. IsGatedCall G.Gate «module».now.parts call.entry r.1.threads.items gate.old
        gate.new) }
    ensures uncalled { OnErr result (gate.new ≡ gate.old) }
{
    check_limit(limit)?;
    let request = Request::new(module, call)?;
    match record_request(rt, alloc, &request, limit, gate) {
        Ok(recorded) => Ok(recorded),
        Err(fault) => Err(fault),
    }
}

/// The same of a call that can be made.
///
/// # Errors
/// `Open` with `PastLimit` exactly where the limit is out of its range. Otherwise `NoMemory`, `Open` or `Run` where
/// memory is refused, and `Run` with `NoThread` where the system starts no further thread. All come before the first
/// turn, so the gate wasn't called.
pub fn record_request<G, R>(
    rt: &R,
    alloc: Global,
    request: &Request,
    limit: u32,
    gate: &mut G,
) -> Result<(Record, EndState), RecordRunFault>
where
    G: Gate + Send + Sync,
    R: Threads + Wait + Sync,
    requires fuel { request.now.fuel ≤ MOST_FUEL }
    ensures record { IfOk result (λ r. RecordsRequest request.now limit r.0 r.1) }
    ensures run { IfOk result (λ r. IsRunOf request.now.parts r.0 r.1) }
    ensures fault { IfErr result (IsRecordingFaultOfRequest request.now limit) }
    ensures gated { IfOk result (λ r. IsGatedRun G.Gate request.now r.1.threads.items gate.old gate.new) }
    ensures uncalled { OnErr result (gate.new ≡ gate.old) }
{
    check_limit(limit)?;
    show_module_fits(request.module());
    match over_new_memory(rt, alloc, request, limit, gate) {
        Ok((parts, end)) => Ok((record_of(parts), end)),
        Err(fault) => Err(fault),
    }
}

/// Whether a log may take so many entries.
fn check_limit(limit: u32) -> Result<(), RecordRunFault>
    ensures within { OnOk result (IsLogLimit limit) }
    ensures past { IfErr result (λ fault. IsPastLimit limit fault) }
{
    if limit == 0 || limit > MOST_LIMIT {
        return Err(RecordRunFault::Open(OpenFault::PastLimit));
    }
    Ok(())
}

/// The record of a run's parts, which are in range.
fn record_of(parts: RecordParts) -> Record
    requires { AreTyped parts → IsRecord parts }
    ensures { result ≡ parts }
{
    match Record::new(parts) {
        Ok(record) => record,
        Err(parts) => {
            // Never: this shows that the parts are in range.
            show_parts_fit(&parts);
            unreachable!()
        }
    }
}

/// The parts of the record, once there is a memory, and room for them.
fn over_new_memory<G, R>(
    rt: &R,
    alloc: Global,
    request: &Request,
    limit: u32,
    gate: &mut G,
) -> Result<(RecordParts, EndState), RecordRunFault>
where
    G: Gate + Send + Sync,
    R: Threads + Wait + Sync,
    requires range { IsLogLimit limit }
    ensures made { IfOk result (λ r. RecordsRequest request.now limit r.0 r.1) }
    ensures fault { IfErr result (IsRecordingFaultOfRequest request.now limit) }
    ensures gated { IfOk result (λ r. IsGatedRun G.Gate request.now r.1.threads.items gate.old gate.new) }
    ensures uncalled { OnErr result (gate.new ≡ gate.old) }
{
    let Ok(header) = header_of(alloc, request, limit) else {
        return Err(RecordRunFault::NoMemory);
    };
    let prepared = match prepare(alloc, request, limit) {
        Ok(prepared) => prepared,
        Err(fault) => {
            drop(header);
            return Err(fault);
        }
    };
    over_recorder::<Brand, _, _>(rt, alloc, request, prepared, header, gate)
}

/// What a record says of the call, and room for its ends.
fn header_of(alloc: Global, request: &Request, limit: u32) -> Result<Header, AllocError>
    ensures of_request { IfOk result (λ h. IsHeaderOf request.now h) }
    ensures limit { IfOk result (λ h. h.limit ≡ limit) }
    ensures ends { IfOk result (λ h. h.ends.items ≡ []) }
    ensures room { IfOk result (λ h. vec_capacity h.ends ≡ MOST_THREADS) }
{
    let call = request.call();
    let invoke = String::from_str(alloc, call.name)?;
    let args = Vec::from_slice(alloc, call.args)?;
    let ends = Vec::with_capacity(alloc, MOST_THREADS)?;
    Ok(Header {
        invoke: Name::from_string(invoke),
        args: Sequence::from_vec(args),
        fuel: call.fuel,
        limit,
        ends,
    })
}

/// What a memory that records is made of, where it is the module's.
fn prepare(alloc: Global, request: &Request, limit: u32) -> Result<Prepared, RecordRunFault>
    requires range { IsLogLimit limit }
    ensures opening { IfOk result (λ p. p.opening ≡ opening_memory request.now.parts) }
    ensures limit { IfOk result (λ p. p.limit ≡ limit) }
    ensures fault { IfErr result (IsRecordingFaultOfRequest request.now limit) }
{
    let module = request.module();
    show_memory_opens(module);
    let Ok(image) = module.image(alloc) else {
        return Err(RecordRunFault::NoMemory);
    };
    match Prepared::new(alloc, &image, module.pages_max(), limit) {
        Ok(prepared) => Ok(prepared),
        Err(fault) => Err(RecordRunFault::Open(fault)),
    }
}

/// The parts of the record, over a recorder whose type has been named.
fn over_recorder<B, G, R>(
    rt: &R,
    alloc: Global,
    request: &Request,
    prepared: Prepared,
    header: Header,
    gate: &mut G,
) -> Result<(RecordParts, EndState), RecordRunFault>
where
    B: Naming + Send + Sync,
    G: Gate + Send + Sync,
    R: Threads + Wait + Sync,
    requires table { prepared.table ≡ B.table }
    requires opening { prepared.opening ≡ B.opening }
    requires limit { prepared.limit ≡ B.limit }
    requires image { B.opening ≡ opening_memory request.now.parts }
    requires bound { B.limit ≡ header.limit }
    requires range { IsLogLimit header.limit }
    requires of_request { IsHeaderOf request.now header }
    requires ends { header.ends.items ≡ [] }
    requires room { vec_capacity header.ends ≡ MOST_THREADS }
    ensures made { IfOk result (λ r. RecordsRequest request.now header.limit r.0 r.1) }
    ensures fault { IfErr result (IsRecordingFaultOfRequest request.now header.limit) }
    ensures gated { IfOk result (λ r. IsGatedRun G.Gate request.now r.1.threads.items gate.old gate.new) }
    ensures uncalled { OnErr result (gate.new ≡ gate.old) }
{
    let Ok((memory, seats)) = LockedRecorder::<B, &R>::open(alloc, rt, prepared) else {
        drop(header);
        return Err(RecordRunFault::Open(OpenFault::NoMemory));
    };
    let end = match run_request(rt, alloc, request, &memory, seats, gate) {
        Ok(end) => end,
        Err(unstarted) => {
            drop(memory);
            drop(header);
            return Err(not_started(unstarted));
        }
    };
    let finished = memory.finish(end.seats);
    let Header {
        invoke,
        args,
        fuel,
        limit,
        mut ends,
    } = header;
    copy_reports(&end.threads, &mut ends);
    let parts = RecordParts {
        version: Version::Two,
        module_len: request.module().parts().length,
        threads: MOST_THREADS as u32,
        max_pages: MOST_PAGES,
        invoke,
        args,
        fuel,
        limit,
        log: Sequence::from_vec(finished.log),
        ends: Sequence::from_vec(ends),
        pages: finished.pages,
    };
    let end = EndState {
        threads: end.threads,
        pages: finished.pages,
        bytes: finished.bytes,
    };
    Ok((parts, end))
}

/// What is told of threads that weren't started. Their seats, or thread 0's, are let go of.
pub(crate) fn not_started<S: Drop>(unstarted: Unstarted<S>) -> RecordRunFault
    ensures { result ≡ faults.Run (run_faults.Start (fault_of unstarted)) }
{
    RecordRunFault::Run(RunFault::Start(unstarted.fault()))
}

/// Copies the reports into the room that was kept for them.
fn copy_reports(reports: &[ThreadReport], ends: &mut Vec<ThreadReport>)
    requires { vec_len ends.old + length reports.now ≤ vec_capacity ends.old }
    ensures items { ends.new.items ≡ ends.old.items ++ reports.now }
    ensures capacity { vec_capacity ends.new ≡ vec_capacity ends.old }
{
    for report in reports {
        ends.push_reserved(*report);
    }
}
