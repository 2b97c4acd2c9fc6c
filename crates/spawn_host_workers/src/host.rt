//! A run of real threads.
ghost use Rattle.std.specs.Prelude.{◌≡◌, ◌≢◌, ◌≤◌, ◌<◌, ◌+◌, true, [], All, map, IfOk, IfErr, OnErr, IsOk};
ghost use Rattle.std.specs.Prelude.{length, slice_index_or};
ghost use Rattle.std.specs.Prelude.{vec_len, vec_capacity};
ghost use Rattle.types.specs.declared.limits.TheConstants.{DESK_NAME, MOST_THREADS, SEATS};
ghost use Rattle.interp_trait.specs.Turns.{MayRun, MayBeSpawned};
ghost use Rattle.spawn_host_workers.specs.OverMemory.{over};
ghost use Rattle.spawn_host_workers.specs.Crew.{CountsSpawnable, EndsCrew, EndsAll, MayStart};
ghost use Rattle.spawn_host_workers.specs.Composed.{reported, seats_of};
ghost use Rattle.spawn_host_workers.specs.Gated.{Gathers, GathersIf, IsGated, passage_of};
ghost use Rattle.spawn_host_workers.specs.Unstarted.{IsAsTheyCame, IsUnstarted, LeavesUnrun};
ghost use Rattle.spawn_host_workers.specs.Seats.{AreInOrder, AreLevel, AreNew, ComeHome, GivesRun};

use crate::crew::{Crew, Duty, Workplace, lead_alone, lead_crew};
use crate::report::{RunEnd, Unstarted};
use crate::rounds::level;
use crate::seats::{Dealt, deal};
use crate::worker::WorkerEnd;
use interp_trait::{Gate, TakesTurns};
use shared_memory::SharedMemory;
use std::alloc::{AllocError, Global};
use std::sync::Wait;
use std::thread;
use std::thread::{PromisedHandle, Threads};
use types::{MOST_THREADS, SEATS, ThreadReport};
use waiters_desk::Desk;

/// The reports of those that ran, and the seats of all.
fn split<S: Drop, G: Gate>(
    ends: Vec<WorkerEnd<S, G>>,
    threads: &mut Vec<ThreadReport>,
    seats: &mut Vec<S>,
)
    requires empty { (threads.old.items ≡ []) × (seats.old.items ≡ []) }
    requires room { (vec_len threads.old + vec_len ends ≤ vec_capacity threads.old)
        × (vec_len seats.old + vec_len ends ≤ vec_capacity seats.old) }
    ensures threads { threads.new.items ≡ reported ends.items }
    ensures seats { seats.new.items ≡ seats_of ends.items }
    ensures capacity { vec_capacity seats.new ≡ vec_capacity seats.old }
    ensures len { vec_len seats.new ≡ vec_len ends }
{
    for end in ends {
        let WorkerEnd {
            report,
            seat,
            gate: _,
        } = end;
        if let Some(report) = report {
            threads.push_reserved(report);
        }
        seats.push_reserved(seat);
    }
}

/// Runs the threads of a crew, each worker as a thread of a scope.
fn in_scope<T, M, G, R>(
    place: &Workplace<M, &R, G, R>,
    crew: Crew<T, M::Seat>,
    handles: Vec<PromisedHandle<WorkerEnd<M::Seat, G>, Duty<T, M, G>>>,
    ends: Vec<WorkerEnd<M::Seat, G>>,
) -> Result<Vec<WorkerEnd<M::Seat, G>>, M::Seat>
where
    T: TakesTurns + Send + Drop,
    M: SharedMemory + Sync,
    G: Gate + Send + Sync,
    R: Threads + Wait + Sync,
    requires start { MayStart M.name M.seen T.meaning crew }
    requires len { vec_len crew.threads ≡ vec_len crew.seats }
    requires none { (handles.items ≡ []) × (vec_len crew.seats ≤ vec_capacity handles) }
    requires empty { ends.items ≡ [] }
    requires room { MOST_THREADS ≤ vec_capacity ends }
    ensures ends { IfOk result (λ all. EndsCrew (over M.SharedMemory place.now.memory.now) G.Gate place.now.gate.now
        T.meaning crew all.items) }
    ensures left { IfErr result (LeavesUnrun M.SharedMemory place.now.memory.now crew.seat) }
{
    thread::scope(
        thread::scope_env(),
        place.rt,
        move |scope| -> Result<Vec<WorkerEnd<M::Seat, G>>, M::Seat>
            requires start { MayStart M.name M.seen T.meaning crew }
            requires len { vec_len crew.threads ≡ vec_len crew.seats }
            requires none { (handles.items ≡ []) × (vec_len crew.seats ≤ vec_capacity handles) }
            requires empty { ends.items ≡ [] }
            requires room { MOST_THREADS ≤ vec_capacity ends }
            ensures ends { IfOk result (λ all. EndsCrew (over M.SharedMemory place.entry.now.memory.now) G.Gate
                place.entry.now.gate.now T.meaning crew all.items) }
            ensures left { IfErr result (LeavesUnrun M.SharedMemory place.entry.now.memory.now crew.seat) }
        { lead_crew(scope, place, crew, handles, ends) },
    )
}

/// Runs the threads of a crew. Where no other can be spawned, the first runs alone, and no thread is started.
///
/// # Errors
/// Where the system starts no further thread: the first thread left without a turn, and its seat comes back.
fn run_crew<T, M, G, R>(
    place: &Workplace<M, &R, G, R>,
    crew: Crew<T, M::Seat>,
    handles: Vec<PromisedHandle<WorkerEnd<M::Seat, G>, Duty<T, M, G>>>,
    ends: Vec<WorkerEnd<M::Seat, G>>,
) -> Result<Vec<WorkerEnd<M::Seat, G>>, M::Seat>
where
    T: TakesTurns + Send + Drop,
    M: SharedMemory + Sync,
    G: Gate + Send + Sync,
    R: Threads + Wait + Sync,
    requires start { MayStart M.name M.seen T.meaning crew }
    requires len { vec_len crew.threads ≢ 0 → vec_len crew.threads ≡ vec_len crew.seats }
    requires none { (handles.items ≡ []) × (vec_len crew.threads ≤ vec_capacity handles) }
    requires empty { ends.items ≡ [] }
    requires room { MOST_THREADS ≤ vec_capacity ends }
    ensures alone { vec_len crew.threads ≡ 0 → IsOk result }
    ensures ends { IfOk result (λ all. EndsAll (over M.SharedMemory place.now.memory.now) G.Gate place.now.gate.now
        T.meaning crew all.items) }
    ensures left { IfErr result (LeavesUnrun M.SharedMemory place.now.memory.now crew.seat) }
{
    if crew.threads.is_empty() {
        return Ok(lead_alone(place, crew, ends));
    }
    in_scope(place, crew, handles, ends)
}

/// The room that a run needs, which is taken before its first turn.
#[derive(Drop)]
struct Room<T: TakesTurns, M: SharedMemory, G: Gate> {
    handles: Vec<PromisedHandle<WorkerEnd<M::Seat, G>, Duty<T, M, G>>>,
    ends: Vec<WorkerEnd<M::Seat, G>>,
    reports: Vec<ThreadReport>,
    home: Vec<M::Seat>,
}

/// Takes the room for a run with these workers, and no more.
fn reserve<T: TakesTurns, M: SharedMemory, G: Gate>(
    alloc: Global,
    workers: &[T],
) -> Result<Room<T, M, G>, AllocError>
    ensures handles { IfOk result (λ r. (r.handles.items ≡ []) × (vec_capacity r.handles ≡ length workers.now)) }
    ensures ends { IfOk result (λ r. (r.ends.items ≡ []) × (vec_capacity r.ends ≡ MOST_THREADS)) }
    ensures reports { IfOk result (λ r. (r.reports.items ≡ []) × (vec_capacity r.reports ≡ MOST_THREADS)) }
    ensures home { IfOk result (λ r. (r.home.items ≡ []) × (vec_capacity r.home ≡ SEATS)) }
{
    let handles = Vec::with_capacity(alloc, workers.len())?;
    let ends = Vec::with_capacity(alloc, MOST_THREADS)?;
    let reports = Vec::with_capacity(alloc, MOST_THREADS)?;
    let home = Vec::with_capacity(alloc, SEATS as usize)?;
    Ok(Room {
        handles,
        ends,
        reports,
        home,
    })
}

/// All seats meet the hub, and so have seen one list.
fn level_all<M: SharedMemory>(memory: &M, hub: &mut M::Seat, seats: &mut Vec<M::Seat>)
    requires { M.has_queue_right hub.old ≡ true }
    ensures level { AreLevel M.SharedMemory hub.old hub.new seats.old.items seats.new.items }
    ensures len { vec_len seats.new ≡ vec_len seats.old }
    ensures capacity { vec_capacity seats.new ≡ vec_capacity seats.old }
{
    level(memory, hub, seats.as_mut_slice());
}

/// Takes back the gate of a thread, if that one ran.
fn gather_if<G: Gate>(report: Option<ThreadReport>, other: G, gate: &mut G)
    ensures { GathersIf G.Gate report other gate.old gate.new }
{
    match report {
        Some(_) => gate.gather(other),
        None => {}
    }
}

/// Takes back the gates of those that ran, in order.
fn gather<S, G: Gate>(ends: &[WorkerEnd<S, G>], gate: &mut G)
    ensures { Gathers G.Gate (map passage_of ends.now) gate.old gate.new }
{
    for end in ends {
        gather_if(end.report, end.gate, gate);
    }
}

/// What a run gives, after its threads have ended: each of their seats has met the desk's, which comes last.
fn bring_home<M: SharedMemory, G: Gate>(
    memory: &M,
    ends: Vec<WorkerEnd<M::Seat, G>>,
    mut hub: M::Seat,
    mut threads: Vec<ThreadReport>,
    mut seats: Vec<M::Seat>,
) -> RunEnd<M::Seat>
    requires right { M.has_queue_right hub ≡ true }
    requires empty { (threads.items ≡ []) × (seats.items ≡ []) }
    requires room { (vec_len threads + vec_len ends ≤ vec_capacity threads)
        × (vec_len seats + vec_len ends < vec_capacity seats) }
    ensures threads { result.threads.items ≡ reported ends.items }
    ensures seats { ComeHome M.SharedMemory hub (seats_of ends.items) result.seats.items }
{
    split(ends, &mut threads, &mut seats);
    level_all(memory, &mut hub, &mut seats);
    seats.push_reserved(hub);
    RunEnd { threads, seats }
}

/// Runs the threads of a module as real threads, over one shared memory: the first in the calling thread, and each
/// spawned one in a thread of its own, which waits until it is spawned. Of a program that imports no function there are
/// none of these, and no thread is started.
///
/// The 65 seats are those of a new memory, in order of their names. Each thread has a copy of the gate, which is called
/// before each of its turns; those of the threads that ran are gathered in the end, in order of their numbers.
///
/// # Errors
/// Where memory is refused, or the system starts no further thread, before the first turn of a thread: all that a run
/// needs is reserved, and each worker started, before that. Where memory is refused the seats come back as they came.
/// Otherwise thread 0 has left, as if it had ended at once, and its seat has seen of it nothing else. The gate wasn't
/// called.
pub fn run_all<T, M, G, R>(
    rt: &R,
    alloc: Global,
    first: T,
    spawned: Vec<T>,
    memory: &M,
    seats: Vec<M::Seat>,
    gate: &mut G,
) -> Result<RunEnd<M::Seat>, Unstarted<M::Seat>>
where
    T: TakesTurns + Send + Drop,
    M: SharedMemory + Sync,
    G: Gate + Send + Sync,
    R: Threads + Wait + Sync,
    requires here { MayRun (T.meaning first) }
    requires count { CountsSpawnable (T.meaning first) (vec_len spawned) }
    requires begins { All (λ (t : T). MayBeSpawned (T.meaning t)) spawned.items }
    requires len { vec_len seats ≡ SEATS }
    requires names { AreInOrder M.SharedMemory seats.items }
    requires new { AreNew M.SharedMemory seats.items }
    requires right { (d : M.Seat) → M.has_queue_right (slice_index_or seats.items DESK_NAME d) ≡ true }
    ensures alone { vec_len spawned ≡ 0 → IfErr result (IsAsTheyCame seats.items) }
    ensures composed { IfOk result (GivesRun M.SharedMemory memory.now T.meaning first spawned.items) }
    ensures unstarted { IfErr result (IsUnstarted M.SharedMemory memory.now seats.items) }
    ensures gated { IfOk result (λ end. IsGated G.Gate T.meaning first spawned.items end.threads.items gate.old
        gate.new) }
    ensures uncalled { OnErr result (gate.new ≡ gate.old) }
{
    let Ok(room) = reserve::<T, M, G>(alloc, spawned.as_slice()) else {
        return Err(Unstarted::NoMemory(seats));
    };
    let Room {
        handles,
        ends,
        reports,
        home,
    } = room;
    let Dealt {
        first: seat,
        workers,
        desk,
    } = deal(seats);
    let desk = Desk::open(rt, memory, desk);
    let each = *gate;
    let place = Workplace {
        rt,
        memory,
        desk: &desk,
        gate: &each,
    };
    let crew = Crew {
        first,
        seat,
        threads: spawned,
        seats: workers,
    };
    match run_crew(&place, crew, handles, ends) {
        Ok(ends) => {
            gather(ends.as_slice(), gate);
            let hub = desk.close();
            Ok(bring_home(memory, ends, hub, reports, home))
        }
        Err(seat) => Err(Unstarted::NoThread(seat)),
    }
}
