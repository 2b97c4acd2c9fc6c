//! The threads of a run.
ghost use Rattle.std.specs.Prelude.{◌≡◌, ◌≤◌, ◌+◌, ◌++◌, [], All, IfOk, IfErr, vec_len, vec_capacity};
ghost use Rattle.types.specs.declared.limits.TheConstants.{MOST_THREADS};
ghost use Rattle.shared_memory.specs.History.{entries_of, queue_after};
ghost use Rattle.shared_memory.specs.WaitQueue.{IsFree};
ghost use Rattle.interp_trait.specs.Turns.{MayRun, MayBeSpawned};
ghost use Rattle.spawn_host_workers.specs.OverMemory.{over};
ghost use Rattle.spawn_host_workers.specs.Pairs.{AllThree};
ghost use Rattle.spawn_host_workers.specs.Works.{EndsWork};
ghost use Rattle.spawn_host_workers.specs.Crew.{EndsFirst, MayStart, EndsCrew, EndsAlone, idle_ends};
ghost use Rattle.spawn_host_workers.specs.Duties.{IsDuty, IsDone, Joined};
ghost use Rattle.spawn_host_workers.specs.Unstarted.{LeavesUnrun};

use crate::worker::{WorkerEnd, work};
use crate::{ThreadEnd, run_thread};
use interp_trait::{Gate, TakesTurns};
use shared_memory::SharedMemory;
use std::snapshot::Snapshot;
use std::sync::Wait;
use std::thread::{Promise, PromisedHandle, Scope, Threads};
use types::ThreadReport;
use waiters_desk::Desk;

/// What the threads of a run have in common.
#[derive(Drop)]
pub(crate) struct Workplace<'s, M: SharedMemory, W: Wait + Drop, G, R> {
    pub(crate) rt: &'s R,
    pub(crate) memory: &'s M,
    pub(crate) desk: &'s Desk<M, W>,
    pub(crate) gate: &'s G,
}

/// What a crew begins with: a first thread and others, with their seats.
#[derive(Drop)]
pub(crate) struct Crew<T, S> {
    pub(crate) first: T,
    /// The first thread's.
    pub(crate) seat: S,
    /// Those that can be spawned, in order of their numbers.
    pub(crate) threads: Vec<T>,
    /// Theirs, also where none can be spawned.
    pub(crate) seats: Vec<S>,
}

/// What a worker promises.
#[derive(Drop)]
pub(crate) struct Duty<T: TakesTurns, M: SharedMemory, G: Gate> {
    memory: Snapshot<M>,
    seat: Snapshot<M::Seat>,
    thread: Snapshot<T>,
    gate: Snapshot<G>,
}

impl<T: TakesTurns, M: SharedMemory, G: Gate> Promise<WorkerEnd<M::Seat, G>> for Duty<T, M, G> {
    ghost kept_by = { λ p r. EndsWork (over M.SharedMemory p.memory.value) G.Gate p.gate.value T.meaning p.thread.value
        p.seat.value r };
}

/// The system started no further thread.
#[derive(Clone, Copy)]
struct NoThread;

/// Starts a worker for a thread, with its seat.
fn start_worker<'s, E, T, M, W, G, R>(
    scope: &Scope<'s, E>,
    place: &'s Workplace<'s, M, W, G, R>,
    thread: T,
    seat: M::Seat,
) -> Result<PromisedHandle<WorkerEnd<M::Seat, G>, Duty<T, M, G>>, NoThread>
where
    T: TakesTurns + Send + Drop + 's,
    M: SharedMemory + Sync,
    M::Seat: 's,
    W: Wait + Drop + Sync,
    G: Gate + Send + Sync,
    R: Wait + Sync,
    requires new { entries_of (M.name seat) (M.seen seat) ≡ [] }
    requires begins { MayBeSpawned (T.meaning thread) }
    ensures { IfOk result (λ handle. IsDuty place.now.memory.now place.now.gate.now thread seat handle) }
{
    let duty = Duty {
        memory: Snapshot::of(place.memory),
        seat: Snapshot::of(&seat),
        thread: Snapshot::of(&thread),
        gate: Snapshot::of(place.gate),
    };
    let Ok(handle) = scope.spawn_with(
        duty,
        move || -> WorkerEnd<M::Seat, G>
            requires new { entries_of (M.name seat) (M.seen seat) ≡ [] }
            requires begins { MayBeSpawned (T.meaning thread) }
            ensures { EndsWork (over M.SharedMemory place.entry.now.memory.now) G.Gate place.entry.now.gate.now
                T.meaning thread seat result }
        { work(place, thread, seat) },
    ) else {
        return Err(NoThread);
    };
    Ok(handle)
}

/// Starts a worker for each thread, with the seat at its place, and puts the handles into the room that was kept for
/// them.
fn start_workers<'s, E, T, M, W, G, R>(
    scope: &Scope<'s, E>,
    place: &'s Workplace<'s, M, W, G, R>,
    threads: Vec<T>,
    seats: Vec<M::Seat>,
    mut handles: Vec<PromisedHandle<WorkerEnd<M::Seat, G>, Duty<T, M, G>>>,
) -> Result<Vec<PromisedHandle<WorkerEnd<M::Seat, G>, Duty<T, M, G>>>, NoThread>
where
    T: TakesTurns + Send + Drop + 's,
    M: SharedMemory + Sync,
    M::Seat: 's,
    W: Wait + Drop + Sync,
    G: Gate + Send + Sync,
    R: Wait + Sync,
    requires len { vec_len threads ≡ vec_len seats }
    requires new { All (λ (s : M.Seat). entries_of (M.name s) (M.seen s) ≡ []) seats.items }
    requires begins { All (λ (t : T). MayBeSpawned (T.meaning t)) threads.items }
    requires empty { handles.items ≡ [] }
    requires room { vec_len seats ≤ vec_capacity handles }
    ensures { IfOk result (λ all. AllThree (IsDuty place.now.memory.now place.now.gate.now) threads.items seats.items
        all.items × (vec_len all ≡ vec_len seats)) }
{
    let mut threads = threads.into_iter();
    for seat in seats {
        let Some(thread) = threads.next() else {
            unreachable!()
        };
        match start_worker(scope, place, thread, seat) {
            Ok(handle) => handles.push_reserved(handle),
            Err(none) => return Err(none),
        }
    }
    Ok(handles)
}

/// Joins the workers, in order.
fn join_all<T: TakesTurns, M: SharedMemory, G: Gate, R: Threads>(
    rt: &R,
    handles: Vec<PromisedHandle<WorkerEnd<M::Seat, G>, Duty<T, M, G>>>,
    ends: &mut Vec<WorkerEnd<M::Seat, G>>,
)
    requires room { vec_len ends.old + vec_len handles ≤ vec_capacity ends.old }
    ensures { Joined (IsDone M.SharedMemory G.Gate T.meaning) handles.items ends.old.items ends.new.items }
{
    for handle in handles {
        ends.push_reserved(handle.join(rt));
    }
}

/// Runs the first thread in the calling one, and a worker for each other.
///
/// # Errors
/// Where the system starts no further thread: the first thread left without a turn, and its seat comes back.
pub(crate) fn lead_crew<'s, E, T, M, W, G, R>(
    scope: &Scope<'s, E>,
    place: &'s Workplace<'s, M, W, G, R>,
    crew: Crew<T, M::Seat>,
    handles: Vec<PromisedHandle<WorkerEnd<M::Seat, G>, Duty<T, M, G>>>,
    mut ends: Vec<WorkerEnd<M::Seat, G>>,
) -> Result<Vec<WorkerEnd<M::Seat, G>>, M::Seat>
where
    T: TakesTurns + Send + Drop + 's,
    M: SharedMemory + Sync,
    M::Seat: 's,
    W: Wait + Drop + Sync,
    G: Gate + Send + Sync,
    R: Threads + Wait + Sync,
    requires start { MayStart M.name M.seen T.meaning crew }
    requires len { vec_len crew.threads ≡ vec_len crew.seats }
    requires none { (handles.items ≡ []) × (vec_len crew.seats ≤ vec_capacity handles) }
    requires empty { ends.items ≡ [] }
    requires room { MOST_THREADS ≤ vec_capacity ends }
    ensures ends { IfOk result (λ all. EndsCrew (over M.SharedMemory place.now.memory.now) G.Gate place.now.gate.now
        T.meaning crew all.items) }
    ensures left { IfErr result (LeavesUnrun M.SharedMemory place.now.memory.now crew.seat) }
{
    let Crew {
        first,
        mut seat,
        threads,
        seats,
    } = crew;
    let handles = match start_workers(scope, place, threads, seats, handles) {
        Ok(handles) => handles,
        Err(NoThread) => {
            place.desk.end(place.memory, &mut seat);
            return Err(seat);
        }
    };
    ends.push_reserved(lead(place, first, seat));
    join_all(place.rt, handles, &mut ends);
    Ok(ends)
}

/// Puts seats behind the ends, of workers whose threads can't be spawned.
fn leave_idle<S: Drop, G: Gate>(seats: Vec<S>, gate: G, ends: &mut Vec<WorkerEnd<S, G>>)
    requires room { vec_len ends.old + vec_len seats ≤ vec_capacity ends.old }
    ensures { ends.new.items ≡ ends.old.items ++ idle_ends gate seats.items }
{
    for seat in seats {
        ends.push_reserved(WorkerEnd {
            report: None,
            seat,
            gate,
        });
    }
}

/// Runs the first thread in the calling one, of a crew in which no other can be spawned.
pub(crate) fn lead_alone<T, M, W, G, R>(
    place: &Workplace<M, W, G, R>,
    crew: Crew<T, M::Seat>,
    mut ends: Vec<WorkerEnd<M::Seat, G>>,
) -> Vec<WorkerEnd<M::Seat, G>>
where
    T: TakesTurns + Drop,
    M: SharedMemory,
    W: Wait + Drop,
    G: Gate,
    R: Wait,
    requires start { MayStart M.name M.seen T.meaning crew }
    requires empty { ends.items ≡ [] }
    requires room { MOST_THREADS ≤ vec_capacity ends }
    ensures { EndsAlone (over M.SharedMemory place.now.memory.now) G.Gate place.now.gate.now T.meaning crew
        result.items }
{
    let Crew {
        first,
        seat,
        threads: _,
        seats,
    } = crew;
    ends.push_reserved(lead(place, first, seat));
    leave_idle(seats, *place.gate, &mut ends);
    ends
}

/// Runs the first thread.
fn lead<T: TakesTurns + Drop, M: SharedMemory, W: Wait + Drop, G: Gate, R: Wait>(
    place: &Workplace<M, W, G, R>,
    first: T,
    seat: M::Seat,
) -> WorkerEnd<M::Seat, G>
    requires here { MayRun (T.meaning first) }
    requires free { IsFree (queue_after (M.seen seat)) (M.name seat) }
    ensures { EndsFirst (over M.SharedMemory place.now.memory.now) G.Gate place.now.gate.now T.meaning first seat
        result }
{
    let ThreadEnd {
        outcome,
        seat,
        spent,
        gate,
    } = run_thread(place.rt, first, place.memory, seat, place.desk, *place.gate);
    let report = Some(ThreadReport { outcome, spent });
    WorkerEnd { report, seat, gate }
}
