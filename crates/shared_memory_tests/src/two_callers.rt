//! Runs of two callers over one recorder, with the expected values written out by hand.

use crate::adding::add;
use crate::steps::follow;
use crate::trial::{PAGE, Trial, try_at_recorder};
use locked_recorder::Finished;
use shared_memory::SharedMemory;
use std::test::Fail;
use std::thread;
use std::thread::Threads;
use test_cases::hold;
use types::{Event, Reply};

/// Adds 1 to byte 0, so many times.
fn add_all<M: SharedMemory>(memory: &M, seat: &mut M::Seat, times: u32) {
    for _ in 0..times {
        let _ = memory.access(seat, add(0, 1));
    }
}

/// A load of byte 8.
const LOAD: Event = Event::Load {
    addr: 8,
    width: 1,
    reach: 9,
};

/// A store of 9 in byte 8.
const STORE: Event = Event::Store {
    addr: 8,
    width: 1,
    reach: 9,
    value: 9,
};

/// Two threads that each add 1 to byte 0 a thousand times.
pub(crate) fn add_in_turn<M: SharedMemory + Sync, R: Threads>(
    rt: &R,
    memory: &M,
    seats: &mut Vec<M::Seat>,
) -> Result<(), Fail> {
    let [one, other, ..] = seats.as_mut_slice() else {
        return Err(Fail::new("no seats"));
    };
    let ((), ()) = thread::join(
        rt,
        move || add_all(memory, one, 1000),
        move || add_all(memory, other, 1000),
    );
    Ok(())
}

/// What one caller stores and grows.
static TOLD: [(Event, Reply); 2] = [(STORE, Reply::Done), (Event::Grow(1), Reply::Value(1))];

/// What another finds after a meeting.
static FOUND: [(Event, Reply); 2] = [(LOAD, Reply::Value(9)), (Event::Size, Reply::Value(2))];

/// One caller stores and grows, and another finds that after a meeting.
pub(crate) fn tell<M: SharedMemory>(memory: &M, seats: &mut Vec<M::Seat>) -> Result<(), Fail> {
    let [one, other, ..] = seats.as_mut_slice() else {
        return Err(Fail::new("no seats"));
    };
    follow(memory, one, &TOLD)?;
    memory.meet(one, other);
    follow(memory, other, &FOUND)
}

/// Four loads where the log has room for three.
static LOADS: [(Event, Reply); 4] = [
    (LOAD, Reply::Value(0)),
    (LOAD, Reply::Value(0)),
    (LOAD, Reply::Value(0)),
    (LOAD, Reply::Full),
];

/// Four loads by one caller, and what the memory says of itself.
pub(crate) fn load_four_times<M: SharedMemory>(
    memory: &M,
    seats: &mut Vec<M::Seat>,
) -> Result<(), Fail> {
    let [one, other, ..] = seats.as_mut_slice() else {
        return Err(Fail::new("no seats"));
    };
    follow(memory, one, &LOADS)?;
    hold(&[
        ("the limit", matches!(memory.limit(), Some(3))),
        ("the most pages", memory.pages_max() == 1),
        ("the other's name", memory.name(other) == 1),
    ])
}

/// How many entries of a log are of thread 0.
fn count_of_first(end: &Finished) -> usize {
    let mut first = 0usize;
    for entry in &end.log {
        if entry.thread == 0 {
            first = first.saturating_add(1);
        }
    }
    first
}

#[test]
fn two_threads_add(rt: HostRuntime) -> Result<(), Fail> {
    let end = try_at_recorder(&rt, rt.alloc(), &PAGE, 1, 5000, Trial::AddInTurn)?;
    hold(&[
        ("the log's length", end.log.len() == 2000),
        ("the entries of thread 0", count_of_first(&end) == 1000),
        ("the first byte", end.bytes.first() == Some(&208)),
        ("the page count", end.pages == 1),
    ])
}

#[test]
fn a_meeting_tells(rt: HostRuntime) -> Result<(), Fail> {
    let end = try_at_recorder(&rt, rt.alloc(), &PAGE, 2, 100, Trial::Telling)?;
    hold(&[
        ("the log's length", end.log.len() == 4),
        ("the page count", end.pages == 2),
        ("how many bytes", end.bytes.len() == 131072),
    ])
}

#[test]
fn a_full_log_holds_back(rt: HostRuntime) -> Result<(), Fail> {
    let end = try_at_recorder(&rt, rt.alloc(), &PAGE, 1, 3, Trial::FourLoads)?;
    hold(&[("the log's length", end.log.len() == 3)])
}
