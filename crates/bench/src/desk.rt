//! Threads that call a desk over one recorder.
ghost use Rattle.std.specs.Prelude.{◌≡◌, ◌≤◌, [], OnSome};
ghost use Rattle.shared_memory.specs.WaitQueue.{IsFree};
ghost use Rattle.shared_memory.specs.History.{entries_of, queue_after};

use crate::plan::{DeskPlan, Kind};
use anyhow::{Result, anyhow};
use locked_recorder::{LockedRecorder, Naming, Prepared};
use shared_memory::SharedMemory;
use shared_memory_script::{Dealt, deal};
use std::alloc::Global;
use std::sync::Wait;
use std::thread;
use std::thread::Threads;
use std::time::{Clock, Instant};
use types::Event;
use waiters_desk::{Asked, Desk, Full};

/// What a run was: the entries of its log, and the nanoseconds of all calls.
#[derive(Drop)]
pub struct Spent {
    pub entries: usize,
    pub nanos: u128,
}

/// A notify at 0; the thread goes on.
fn notify<M: SharedMemory, W: Wait + Drop>(desk: &Desk<M, W>, memory: &M, seat: &mut M::Seat)
    requires free { IsFree (queue_after (M.seen seat.old)) (M.name seat.old) }
    ensures free { IsFree (queue_after (M.seen seat.new)) (M.name seat.new) }
{
    match desk.notify(memory, seat, 0, 1) {
        Ok(_) | Err(Full) => {}
    }
}

/// Waits while the word at 0 is the other thread's number.
fn wait<M: SharedMemory, W: Wait + Drop>(
    desk: &Desk<M, W>,
    memory: &M,
    seat: &mut M::Seat,
    other: u64,
)
    requires other { other ≤ 1 }
    requires free { IsFree (queue_after (M.seen seat.old)) (M.name seat.old) }
    ensures free { IsFree (queue_after (M.seen seat.new)) (M.name seat.new) }
{
    match desk.wait(memory, seat, 0, 4, other, -1) {
        Ok(Asked::Asleep) => {
            let _ = desk.collect(memory, seat);
        }
        Ok(Asked::Told(_) | Asked::OutOfBounds) | Err(Full) => {}
    }
}

/// Gives the turn to the other thread: stores its number at 0.
fn give<M: SharedMemory>(memory: &M, seat: &mut M::Seat, other: u64)
    requires other { other ≤ 1 }
    requires free { IsFree (queue_after (M.seen seat.old)) (M.name seat.old) }
    ensures free { IsFree (queue_after (M.seen seat.new)) (M.name seat.new) }
{
    let _ = memory.access(
        seat,
        Event::Store {
            addr: 0,
            width: 4,
            reach: 4,
            value: other,
        },
    );
}

/// The turns of one thread.
fn take_turns<M: SharedMemory, W: Wait + Drop>(
    desk: &Desk<M, W>,
    memory: &M,
    seat: &mut M::Seat,
    other: u64,
    times: u32,
)
    requires other { other ≤ 1 }
    requires free { IsFree (queue_after (M.seen seat.old)) (M.name seat.old) }
{
    for _ in 0..times {
        wait(desk, memory, seat, other);
        give(memory, seat, other);
        notify(desk, memory, seat);
    }
    desk.end(memory, seat);
}

/// The notifies of one thread, with nobody asleep.
fn notify_all<M: SharedMemory, W: Wait + Drop>(
    desk: &Desk<M, W>,
    memory: &M,
    seat: &mut M::Seat,
    times: u32,
)
    requires free { IsFree (queue_after (M.seen seat.old)) (M.name seat.old) }
{
    for _ in 0..times {
        notify(desk, memory, seat);
    }
    desk.end(memory, seat);
}

/// Thread 0 spawns thread 1, and both take turns.
fn take_all_turns<M, W, R>(
    rt: &R,
    desk: &Desk<M, W>,
    memory: &M,
    zero: &mut M::Seat,
    one: &mut M::Seat,
    times: u32,
) -> Option<()>
where
    M: SharedMemory + Sync,
    W: Wait + Drop + Sync,
    R: Threads,
    requires zero { IsFree (queue_after (M.seen zero.old)) (M.name zero.old) }
    requires one { entries_of (M.name one.old) (M.seen one.old) ≡ [] }
{
    spawn(desk, memory, zero)?;
    begin(desk, memory, one)?;
    thread::join(
        rt,
        move || -> ()
            requires { IsFree (queue_after (M.seen one.now)) (M.name one.now) }
        { take_turns(desk, memory, one, 0, times) },
        move || -> ()
            requires { IsFree (queue_after (M.seen zero.now)) (M.name zero.now) }
        { take_turns(desk, memory, zero, 1, times) },
    );
    Some(())
}

/// A spawn; the thread goes on.
fn spawn<M: SharedMemory, W: Wait + Drop>(
    desk: &Desk<M, W>,
    memory: &M,
    seat: &mut M::Seat,
) -> Option<u32>
    requires free { IsFree (queue_after (M.seen seat.old)) (M.name seat.old) }
    ensures free { OnSome result (IsFree (queue_after (M.seen seat.new)) (M.name seat.new)) }
{
    match desk.spawn(memory, seat, 0) {
        Ok(id) => Some(id),
        Err(Full) => None,
    }
}

/// A thread that begins.
fn begin<M: SharedMemory, W: Wait + Drop>(
    desk: &Desk<M, W>,
    memory: &M,
    seat: &mut M::Seat,
) -> Option<u32>
    requires new { entries_of (M.name seat.old) (M.seen seat.old) ≡ [] }
    ensures free { OnSome result (IsFree (queue_after (M.seen seat.new)) (M.name seat.new)) }
{
    match desk.begin(memory, seat) {
        Some(arg) => Some(arg),
        None => None,
    }
}

/// Opens the recorder and its desk, lets the threads make their calls, and closes both.
pub fn run<B: Naming + Send + Sync, R: Threads + Wait + Sync + Clock>(
    rt: &R,
    alloc: Global,
    prepared: Prepared,
    plan: &DeskPlan,
) -> Result<Spent>
    requires table { prepared.table ≡ B.table }
    requires opening { prepared.opening ≡ B.opening }
    requires limit { prepared.limit ≡ B.limit }
{
    let (memory, seats) = LockedRecorder::<B, &R>::open(alloc, rt, prepared)?;
    let Some(dealt) = deal(seats) else {
        return Err(anyhow!("no seats"));
    };
    let Dealt {
        desk,
        mut zero,
        mut one,
        two: _,
    } = dealt;
    let desk = Desk::open(rt, &memory, desk);
    let start = Instant::now(rt)?;
    match plan.kind {
        Kind::Alone => notify_all(&desk, &memory, &mut zero, plan.times),
        Kind::Turns => {
            let _ = take_all_turns(rt, &desk, &memory, &mut zero, &mut one, plan.times);
        }
    }
    let nanos = start.elapsed(rt)?.as_nanos();
    let seats = Vec::from_array(alloc, [desk.close(), zero, one])?;
    let entries = memory.finish(seats).log.len();
    Ok(Spent { entries, nanos })
}
