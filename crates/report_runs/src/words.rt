//! A run over the row of words.
ghost use Rattle.std.specs.Prelude.{◌≡◌, ◌≤◌, ◌*◌, [], length, vec_capacity, IfOk, IfErr, OnErr};
ghost use Rattle.types.specs.declared.limits.TheConstants.{PAGE_SIZE};
ghost use Rattle.spawn_host.specs.Runs.{opening_memory};
ghost use Rattle.spawn_host.specs.RunEnds.{EndsRequestOnWords};
ghost use Rattle.spawn_host.specs.Gates.{IsGatedCall, IsGatedRun};
ghost use Rattle.report_runs.specs.Called.{EndsCallOnWords};
ghost use Rattle.report_runs.specs.RunFaults.{IsWordsFaultOf, IsWordsFaultOfRequest};

use crate::fitting::show_memory_opens;
use crate::recording::{RecordRunFault, not_started};
use interp_trait::Gate;
use shared_memory_sequential::OpenFault;
use spawn_host::{Call, EndState, Request, run_request};
use std::alloc::Global;
use std::marker::Brand;
use std::sync::Wait;
use std::thread::Threads;
use types::PAGE_SIZE;
use validate_module::ValidModule;
use word_row::{ClosedRow, Naming, Prepared, WordRow};

/// Runs an exported function over a new row of words, and gives what the run leaves. The call may have any fuel.
///
/// There is one history that all threads saw, though no memory keeps it: it is legal for the memory and for the wait
/// queue; each thread's report follows from its own entries in it; and one thread that steps all threads along it comes
/// to the same reports, pages and bytes.
///
/// # Errors
/// `Run` with `UnknownExport` exactly where no function of the module itself is exported under the name, and with
/// `WrongArguments` exactly where one is, and the arguments don't fit it. Otherwise `NoMemory`, `Open` or `Run` where
/// memory is refused, and `Run` with `NoThread` where the system starts no further thread. All come before the first
/// turn, so the gate wasn't called: room for the final bytes is taken before it, and nothing afterwards.
pub fn run_on_words<G, R>(
    rt: &R,
    alloc: Global,
    module: &ValidModule,
    call: Call,
    gate: &mut G,
) -> Result<EndState, RecordRunFault>
where
    G: Gate + Send + Sync,
    R: Threads + Wait + Sync,
    ensures end { IfOk result (EndsCallOnWords «module».now.parts call.entry) }
    ensures fault { IfErr result (IsWordsFaultOf «module».now.parts call.entry) }
    ensures gated { IfOk result (λ end. IsGatedCall G.Gate «module».now.parts call.entry end.threads.items gate.old
        gate.new) }
    ensures uncalled { OnErr result (gate.new ≡ gate.old) }
{
    let request = Request::new(module, call)?;
    match run_request_on_words(rt, alloc, &request, gate) {
        Ok(end) => Ok(end),
        Err(fault) => Err(fault),
    }
}

/// The same of a call that can be made.
///
/// # Errors
/// `NoMemory`, `Open` or `Run` where memory is refused, and `Run` with `NoThread` where the system starts no further
/// thread. All come before the first turn, so the gate wasn't called: room for the final bytes is taken before it, and
/// nothing afterwards.
pub fn run_request_on_words<G, R>(
    rt: &R,
    alloc: Global,
    request: &Request,
    gate: &mut G,
) -> Result<EndState, RecordRunFault>
where
    G: Gate + Send + Sync,
    R: Threads + Wait + Sync,
    ensures end { IfOk result (EndsRequestOnWords request.now) }
    ensures fault { IfErr result (IsWordsFaultOfRequest request.now) }
    ensures gated { IfOk result (λ end. IsGatedRun G.Gate request.now end.threads.items gate.old gate.new) }
    ensures uncalled { OnErr result (gate.new ≡ gate.old) }
{
    let most = request.module().pages_max();
    let Ok(bytes) = Vec::with_capacity(alloc, PAGE_SIZE * most as usize) else {
        return Err(RecordRunFault::NoMemory);
    };
    match prepare(alloc, request) {
        Ok(prepared) => over_row::<Brand, _, _>(rt, alloc, request, prepared, bytes, gate),
        Err(fault) => Err(fault),
    }
}

/// The end, over a row whose type has been named.
fn over_row<B, G, R>(
    rt: &R,
    alloc: Global,
    request: &Request,
    prepared: Prepared,
    mut bytes: Vec<u8>,
    gate: &mut G,
) -> Result<EndState, RecordRunFault>
where
    B: Naming + Send + Sync,
    G: Gate + Send + Sync,
    R: Threads + Wait + Sync,
    requires table { prepared.table ≡ B.table }
    requires opening { prepared.opening ≡ B.opening }
    requires image { B.opening ≡ opening_memory request.now.parts }
    requires none { bytes.items ≡ [] }
    requires room { vec_capacity bytes ≡ PAGE_SIZE * (opening_memory request.now.parts).max }
    ensures end { IfOk result (EndsRequestOnWords request.now) }
    ensures fault { IfErr result (IsWordsFaultOfRequest request.now) }
    ensures gated { IfOk result (λ end. IsGatedRun G.Gate request.now end.threads.items gate.old gate.new) }
    ensures uncalled { OnErr result (gate.new ≡ gate.old) }
{
    let Ok((memory, seats)) = WordRow::<B>::open(alloc, prepared) else {
        return Err(RecordRunFault::Open(OpenFault::NoMemory));
    };
    let end = match run_request(rt, alloc, request, &memory, seats, gate) {
        Ok(end) => end,
        Err(unstarted) => return Err(not_started(unstarted)),
    };
    let closed = memory.close(end.seats);
    let pages = closed.pages();
    copy_bytes(&closed, &mut bytes);
    Ok(EndState {
        threads: end.threads,
        pages,
        bytes,
    })
}

/// What a row of words is made of, where it is the module's.
fn prepare(alloc: Global, request: &Request) -> Result<Prepared, RecordRunFault>
    ensures opening { IfOk result (λ p. p.opening ≡ opening_memory request.now.parts) }
    ensures fault { IfErr result (IsWordsFaultOfRequest request.now) }
{
    let module = request.module();
    show_memory_opens(module);
    let Ok(image) = module.image(alloc) else {
        return Err(RecordRunFault::NoMemory);
    };
    match Prepared::new(alloc, &image, module.pages_max()) {
        Ok(prepared) => Ok(prepared),
        Err(fault) => Err(RecordRunFault::Open(fault)),
    }
}

/// Copies the bytes of a closed row into the room that was kept for them.
fn copy_bytes(closed: &ClosedRow, bytes: &mut Vec<u8>)
    requires none { bytes.old.items ≡ [] }
    requires room { length closed.now.bytes ≤ vec_capacity bytes.old }
    ensures { bytes.new.items ≡ closed.now.bytes }
{
    for at in 0..PAGE_SIZE * closed.pages() as usize {
        match closed.byte(at) {
            Some(byte) => bytes.push_reserved(byte),
            None => unreachable!(),
        }
    }
}
