//! Four threads on one word, over any memory.
ghost use Rattle.std.specs.Prelude.{◌≡◌, false};
ghost use Rattle.types.specs.declared.event.Event.TheVariants.{Rmw};
ghost use Rattle.shared_memory.specs.Events.{IsEvent, is_of_queue};

use crate::adding::add;
use shared_memory::SharedMemory;
use shared_memory_script::make;
use std::alloc::Global;
use std::test::Fail;
use std::thread;
use std::thread::Threads;
use test_cases::hold;
use types::{Event, Reply, RmwOp};
use word_row::ClosedRow;

/// How often each thread makes its event.
const TIMES: u32 = 10_000;

/// A load of the eight bytes at 0.
const LOAD: Event = Event::Load {
    addr: 0,
    width: 8,
    reach: 8,
};

/// What a thread does with the word at 0.
#[derive(Clone, Copy)]
pub(crate) enum Task {
    /// It adds 1 to the byte at 0.
    AddByte,
    /// It adds 1 to the two bytes at 2.
    AddTwo,
    /// It adds 1 to the four bytes at 4.
    AddFour,
    /// It loads the eight bytes.
    Watch,
    /// It sets all bits of the byte at 0, and then clears some, by one try each.
    Clear,
    /// It sets bits of the byte at 1, by one try each.
    Set,
    /// It turns bits of the byte at 2, by one try each.
    Turn,
}

/// Loads the eight bytes at 0 so many times, and answers whether the numbers at 2 and at 4 never fell.
fn watch<M: SharedMemory>(memory: &M, seat: &mut M::Seat) -> bool {
    let mut two = 0;
    let mut four = 0;
    for _ in 0..TIMES {
        let Reply::Value(word) = memory.access(seat, LOAD) else {
            return false;
        };
        let now_two = word >> 16 & 0xffff;
        let now_four = word >> 32;
        if now_two < two || now_four < four {
            return false;
        }
        two = now_two;
        four = now_four;
    }
    true
}

/// A change of one byte.
fn change(op: RmwOp, addr: u64, value: u8) -> Event
    ensures { result ≡ Rmw op addr 1 value }
{
    Event::Rmw {
        op,
        addr,
        width: 1,
        value: u64::from(value),
    }
}

/// The event of a task in a round.
fn event_of(task: Task, round: u32) -> Event
    ensures event { IsEvent result }
    ensures plain { is_of_queue result ≡ false }
{
    let bit = 1u8 << (round % 4);
    match task {
        Task::AddByte => add(0, 1),
        Task::AddTwo => add(2, 2),
        Task::AddFour => add(4, 4),
        Task::Watch => LOAD,
        Task::Clear => change(RmwOp::And, 0, !bit),
        Task::Set => change(RmwOp::Or, 1, bit),
        Task::Turn => change(RmwOp::Xor, 2, (round % 251) as u8),
    }
}

/// Whether a task's event is made by one try, and never again.
fn is_single(task: Task) -> bool {
    matches!(task, Task::Clear | Task::Set | Task::Turn)
}

/// Does a task, and answers the seat and whether each try came to an end as it should.
fn perform<M: SharedMemory>(memory: &M, mut seat: M::Seat, task: Task) -> (M::Seat, bool) {
    if let Task::Watch = task {
        let steady = watch(memory, &mut seat);
        return (seat, steady);
    }
    if let Task::Clear = task {
        let _ = memory.access(&mut seat, change(RmwOp::Or, 0, 0xff));
    }
    for round in 0..TIMES {
        let event = event_of(task, round);
        let reply = if is_single(task) {
            memory.access(&mut seat, event)
        } else {
            make(memory, &mut seat, event)
        };
        if !matches!(reply, Reply::Value(_)) {
            return (seat, false);
        }
    }
    (seat, true)
}

/// A seat for each task.
fn deal<S: Drop>(
    alloc: Global,
    seats: &mut Vec<S>,
    tasks: [Task; 4],
) -> Result<Vec<(S, Task)>, Fail> {
    let mut jobs = Vec::new(alloc);
    for task in tasks {
        let Some(seat) = seats.pop() else {
            return Err(Fail::new("no seats"));
        };
        jobs.push((seat, task))?;
    }
    Ok(jobs)
}

/// Four threads, each with its task, which has to come to its end as it should.
pub(crate) fn share_a_word<M: SharedMemory + Sync, R: Threads + Sync>(
    rt: &R,
    alloc: Global,
    memory: &M,
    seats: &mut Vec<M::Seat>,
    tasks: [Task; 4],
) -> Result<(), Fail> {
    let jobs = deal(alloc, seats, tasks)?;
    let done = thread::map_vec(rt, jobs, &|(seat, task)| perform(memory, seat, task))?;
    let mut all = true;
    for (seat, well) in done {
        all = all && well;
        seats.push(seat)?;
    }
    hold(&[("each thread", all)])
}

/// A row has these bytes at its beginning.
pub(crate) fn begins_with(end: &ClosedRow, bytes: &[u8]) -> Result<(), Fail> {
    for (addr, byte) in bytes.iter().enumerate() {
        if end.byte(addr) != Some(*byte) {
            return Err(Fail::new(format_args!("the byte at {addr}")));
        }
    }
    Ok(())
}
