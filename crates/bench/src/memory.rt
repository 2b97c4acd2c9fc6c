//! Threads that make accesses over one shared memory.
ghost use Rattle.std.specs.Prelude.{◌≡◌};

use crate::accesses::{Tally, Task, perform, perform_on_words};
use crate::plan::MemoryPlan;
use anyhow::{Result, anyhow};
use locked_recorder::LockedRecorder;
use std::alloc::Global;
use std::sync::Wait;
use std::thread;
use std::thread::Threads;
use std::time::{Clock, Instant};
use word_row::WordRow;

/// What a run was: how many accesses were not answered, the sum of the values in the replies to the others, and the
/// nanoseconds of all.
#[derive(Drop)]
pub struct Spent {
    pub unanswered: u64,
    pub sum: u64,
    pub nanos: u128,
}

/// Takes a seat for each thread of a plan, with its share of the accesses.
fn deal<S: Drop>(alloc: Global, seats: &mut Vec<S>, plan: &MemoryPlan) -> Result<Vec<(S, Task)>> {
    let mut jobs = Vec::new(alloc);
    for i in 0..plan.threads {
        let Some(seat) = seats.pop() else {
            return Err(anyhow!("no seats"));
        };
        let left = u32::from(i < plan.accesses % plan.threads);
        let times = (plan.accesses / plan.threads).saturating_add(left);
        let task = Task {
            change: plan.change,
            rounds: plan.rounds,
            times,
        };
        jobs.push((seat, task))?;
    }
    Ok(jobs)
}

/// Puts the seats back; answers what all came to, with the nanoseconds spent.
fn collect<S: Drop>(seats: &mut Vec<S>, done: Vec<(S, Tally)>, nanos: u128) -> Result<Spent> {
    let mut spent = Spent {
        unanswered: 0,
        sum: 0,
        nanos,
    };
    for (seat, tally) in done {
        spent.unanswered = spent.unanswered.saturating_add(u64::from(tally.unanswered));
        spent.sum = spent.sum.wrapping_add(tally.sum);
        seats.push(seat)?;
    }
    Ok(spent)
}

/// Opens the recorder, lets the threads make their accesses, and closes it.
pub fn over_recorder<B: locked_recorder::Naming + Send + Sync, R: Threads + Wait + Sync + Clock>(
    rt: &R,
    alloc: Global,
    prepared: locked_recorder::Prepared,
    plan: &MemoryPlan,
) -> Result<Spent>
    requires table { prepared.table ≡ B.table }
    requires opening { prepared.opening ≡ B.opening }
    requires limit { prepared.limit ≡ B.limit }
{
    let (memory, mut seats) = LockedRecorder::<B, &R>::open(alloc, rt, prepared)?;
    let jobs = deal(alloc, &mut seats, plan)?;
    let shared = &memory;
    let start = Instant::now(rt)?;
    let done = thread::map_vec(rt, jobs, &|(seat, task)| perform(shared, seat, task))?;
    let nanos = start.elapsed(rt)?.as_nanos();
    let spent = collect(&mut seats, done, nanos)?;
    let _ = memory.finish(seats);
    Ok(spent)
}

/// Opens the row of words, lets the threads make their accesses, and closes it.
pub fn over_words<B: word_row::Naming + Send + Sync, R: Threads + Sync + Clock>(
    rt: &R,
    alloc: Global,
    prepared: word_row::Prepared,
    plan: &MemoryPlan,
) -> Result<Spent>
    requires table { prepared.table ≡ B.table }
    requires opening { prepared.opening ≡ B.opening }
{
    let (row, mut seats) = WordRow::<B>::open(alloc, prepared)?;
    let jobs = deal(alloc, &mut seats, plan)?;
    let shared = &row;
    let start = Instant::now(rt)?;
    let done = thread::map_vec(
        rt,
        jobs,
        &|(seat, task)| perform_on_words(shared, seat, task),
    )?;
    let nanos = start.elapsed(rt)?.as_nanos();
    let spent = collect(&mut seats, done, nanos)?;
    let _ = row.close(seats);
    Ok(spent)
}
