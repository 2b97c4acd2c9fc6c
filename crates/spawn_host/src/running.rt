//! The run of a module.
ghost use Rattle.std.specs.Prelude.{◌≡◌, ◌<◌, ℕ, true, [], IfOk, IfErr, OnErr, slice_index_or, vec_len};
ghost use Rattle.types.specs.declared.limits.TheConstants.{DESK_NAME, SEATS};
ghost use Rattle.spawn_host_workers.specs.OverMemory.{over};
ghost use Rattle.spawn_host_workers.specs.Unstarted.{IsUnstarted};
ghost use Rattle.spawn_host.specs.Faults.{HasStartFault, IsFaultOf, IsUnrun, fault_of, run_fault_number};
ghost use Rattle.spawn_host.specs.Runs.{opening_memory, IsRun, IsRunOfRequest};
ghost use Rattle.spawn_host.specs.Gates.{IsGatedCall, IsGatedRun};
ghost use Rattle.spawn_host.specs.declared.running.RunFault.TheVariants as faults;

use crate::call::Call;
use crate::request::{CallFault, Request};
use crate::threads::{first_thread, other_threads};
use interp_trait::Gate;
use shared_memory::SharedMemory;
use spawn_host_workers::{RunEnd, StartFault, Unstarted, run_all};
use std::alloc::Global;
use std::sync::Wait;
use std::thread::Threads;
use thiserror::Error;
use validate_module::ValidModule;

/// Why there's no run.
#[derive(Clone, Copy, PartialEq, Eq, Debug, Error)]
pub enum RunFault {
    /// The call can't be made.
    #[error("{0}")]
    Call(CallFault),
    /// It can, and its threads weren't started.
    #[error("{0}")]
    Start(StartFault),
}

impl RunFault {
    /// The fault's number: 1 for no memory, 2 for an unknown export, 3 for wrong arguments, 4 for no thread.
    pub fn number(self) -> u8
        ensures { result ≡ run_fault_number self }
    {
        match self {
            RunFault::Start(StartFault::NoMemory) => 1,
            RunFault::Call(CallFault::UnknownExport) => 2,
            RunFault::Call(CallFault::WrongArguments) => 3,
            RunFault::Start(StartFault::NoThread) => 4,
        }
    }
}

impl From<CallFault> for RunFault {
    ghost from_gives = { λ f e. e ≡ faults.Call f };

    fn from(fault: CallFault) -> RunFault {
        RunFault::Call(fault)
    }
}

impl From<StartFault> for RunFault {
    ghost from_gives = { λ f e. e ≡ faults.Start f };

    fn from(fault: StartFault) -> RunFault {
        RunFault::Start(fault)
    }
}

/// What is left of a run that there wasn't: no thread has made a turn.
#[derive(Drop)]
pub enum Unrun<S> {
    /// The call can't be made. All seats, as they came.
    Call(CallFault, Vec<S>),
    /// It can, and its threads weren't started.
    Start(Unstarted<S>),
}

impl<S> Unrun<S> {
    /// Why there's no run.
    pub fn fault(&self) -> RunFault
        ensures { result ≡ fault_of self.now }
    {
        match self {
            Unrun::Call(fault, _) => RunFault::Call(*fault),
            Unrun::Start(unstarted) => RunFault::Start(unstarted.fault()),
        }
    }
}

/// Runs an exported function of a module with arguments, and the threads that are spawned meanwhile, each as a real
/// thread over the memory. Each has the budget of the call. The gate is called before each of their turns.
///
/// The memory begins as the module's does. The 65 seats are those of a new memory, in order of their names, and the
/// last has the queue right.
///
/// # Errors
/// `Call` where the call can't be made. Otherwise `Start` where memory is refused, or the system starts no further
/// thread. All come before the first turn of a thread, so the gate wasn't called: the seats come back as they came, or
/// where a thread is refused thread 0's seat, whose thread has left and entered nothing else.
pub fn run<M, G, R>(
    rt: &R,
    alloc: Global,
    module: &ValidModule,
    call: Call,
    memory: &M,
    seats: Vec<M::Seat>,
    gate: &mut G,
) -> Result<RunEnd<M::Seat>, Unrun<M::Seat>>
where
    M: SharedMemory + Sync,
    G: Gate + Send + Sync,
    R: Threads + Wait + Sync,
    requires opening { M.opening ≡ opening_memory «module».now.parts }
    requires len { vec_len seats ≡ SEATS }
    requires names { (k : ℕ) (d : M.Seat) → k < SEATS → M.name (slice_index_or seats.items k d) ≡ k }
    requires new { (k : ℕ) (d : M.Seat) → k < SEATS → M.seen (slice_index_or seats.items k d) ≡ [] }
    requires right { (d : M.Seat) → M.has_queue_right (slice_index_or seats.items DESK_NAME d) ≡ true }
    ensures run { IfOk result (λ end. IsRun «module».now.parts call.entry.name.now call.entry.args.now call.entry.fuel
        (over M.SharedMemory memory.now) end.threads.items end.seats.items) }
    ensures fault { IfErr result (λ unrun. IsFaultOf «module».now.parts call.entry.name.now call.entry.args.now
        (fault_of unrun)) }
    ensures unrun { IfErr result (IsUnrun M.SharedMemory memory.now seats.items) }
    ensures gated { IfOk result (λ end. IsGatedCall G.Gate «module».now.parts call.entry end.threads.items gate.old
        gate.new) }
    ensures uncalled { OnErr result (gate.new ≡ gate.old) }
{
    let request = match Request::new(module, call) {
        Ok(request) => request,
        Err(fault) => return Err(Unrun::Call(fault, seats)),
    };
    match run_request(rt, alloc, &request, memory, seats, gate) {
        Ok(end) => Ok(end),
        Err(fault) => Err(Unrun::Start(fault)),
    }
}

/// The same, of a call that can be made.
///
/// # Errors
/// Where memory is refused, or the system starts no further thread, before the first turn of a thread: `NoMemory` with
/// the seats as they came, or `NoThread` with thread 0's seat, whose thread has left and entered nothing else.
pub fn run_request<M, G, R>(
    rt: &R,
    alloc: Global,
    request: &Request,
    memory: &M,
    seats: Vec<M::Seat>,
    gate: &mut G,
) -> Result<RunEnd<M::Seat>, Unstarted<M::Seat>>
where
    M: SharedMemory + Sync,
    G: Gate + Send + Sync,
    R: Threads + Wait + Sync,
    requires opening { M.opening ≡ opening_memory request.now.parts }
    requires len { vec_len seats ≡ SEATS }
    requires names { (k : ℕ) (d : M.Seat) → k < SEATS → M.name (slice_index_or seats.items k d) ≡ k }
    requires new { (k : ℕ) (d : M.Seat) → k < SEATS → M.seen (slice_index_or seats.items k d) ≡ [] }
    requires right { (d : M.Seat) → M.has_queue_right (slice_index_or seats.items DESK_NAME d) ≡ true }
    ensures run { IfOk result (λ end. IsRunOfRequest request.now (over M.SharedMemory memory.now) end.threads.items
        end.seats.items) }
    ensures fault { IfErr result (HasStartFault request.now) }
    ensures unstarted { IfErr result (IsUnstarted M.SharedMemory memory.now seats.items) }
    ensures gated { IfOk result (λ end. IsGatedRun G.Gate request.now end.threads.items gate.old gate.new) }
    ensures uncalled { OnErr result (gate.new ≡ gate.old) }
{
    let Ok(first) = first_thread(alloc, request) else {
        return Err(Unstarted::NoMemory(seats));
    };
    let Ok(others) = other_threads(alloc, request) else {
        return Err(Unstarted::NoMemory(seats));
    };
    run_all(rt, alloc, first, others, memory, seats, gate)
}
