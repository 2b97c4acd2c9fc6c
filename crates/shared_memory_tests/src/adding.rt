//! Threads that add to one word at once, over any memory.
ghost use Rattle.std.specs.Prelude.{◌≡◌};
ghost use Rattle.types.specs.declared.event.Event.TheVariants.{Rmw};
ghost use Rattle.types.specs.declared.event.RmwOp.TheVariants.{Add};

use shared_memory::SharedMemory;
use std::alloc::Global;
use std::test::Fail;
use std::thread;
use std::thread::Threads;
use test_cases::hold;
use types::{Event, Reply, RmwOp};

/// How many threads add at once.
const THREADS: usize = 8;

/// An addition of 1.
pub(crate) fn add(addr: u64, width: u8) -> Event
    ensures { result ≡ Rmw Add addr width 1 }
{
    Event::Rmw {
        op: RmwOp::Add,
        addr,
        width,
        value: 1,
    }
}

/// Tries to add 1 to the eight bytes at 8, so many times; answers the seat, and how many tries got a value.
fn add_all<M: SharedMemory>(memory: &M, mut seat: M::Seat, times: u32) -> (M::Seat, u32) {
    let mut added = 0;
    for _ in 0..times {
        let reply = memory.access(&mut seat, add(8, 8));
        if matches!(reply, Reply::Value(_)) && added < u32::MAX {
            added += 1;
        }
    }
    (seat, added)
}

/// The seats of the threads that add.
fn take_seats<S: Drop>(alloc: Global, seats: &mut Vec<S>) -> Result<Vec<S>, Fail> {
    let mut taken = Vec::new(alloc);
    for _ in 0..THREADS {
        let Some(seat) = seats.pop() else {
            return Err(Fail::new("no seats"));
        };
        taken.push(seat)?;
    }
    Ok(taken)
}

/// Puts seats back, and adds up how many tries got a value.
fn put_back<S: Drop>(seats: &mut Vec<S>, done: Vec<(S, u32)>) -> Result<u64, Fail> {
    let mut added = 0u64;
    for (seat, count) in done {
        added = added.saturating_add(u64::from(count));
        seats.push(seat)?;
    }
    Ok(added)
}

/// Eight threads that add at once, each so many times; as many tries have to get a value as `wanted` says.
pub(crate) fn add_at_once<M: SharedMemory + Sync, R: Threads + Sync>(
    rt: &R,
    alloc: Global,
    memory: &M,
    seats: &mut Vec<M::Seat>,
    times: u32,
    wanted: u64,
) -> Result<(), Fail> {
    let jobs = take_seats(alloc, seats)?;
    let done = thread::map_vec(rt, jobs, &|seat| add_all(memory, seat, times))?;
    let added = put_back(seats, done)?;
    hold(&[("the additions", added == wanted)])
}
