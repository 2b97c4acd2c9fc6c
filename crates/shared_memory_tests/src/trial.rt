//! Trials with the seats of a memory, and the memories that are opened for a trial and closed behind it.
ghost use Rattle.std.specs.Prelude.{◌≡◌};

use crate::adding::add_at_once;
use crate::beside::{follow_another, follow_script};
use crate::laws::agree_after_two;
use crate::row::{add_and_load, race_to_grow};
use crate::row_alone::use_alone;
use crate::sharing::{Task, share_a_word};
use crate::singles::meet_after_growth;
use crate::two_callers::{add_in_turn, load_four_times, tell};
use locked_recorder::{Finished, LockedRecorder};
use shared_memory::SharedMemory;
use std::alloc::Global;
use std::marker::Brand;
use std::sync::Wait;
use std::test::Fail;
use std::thread::Threads;
use types::PAGE_SIZE;
use word_row::{ClosedRow, WordRow};

/// Two pages of zeros.
pub(crate) const IMAGE: [u8; TWO_PAGES] = [0; TWO_PAGES];

const TWO_PAGES: usize = 2 * PAGE_SIZE;

/// A page of zeros.
pub(crate) const PAGE: [u8; PAGE_SIZE] = [0; PAGE_SIZE];

/// How many pages a memory may have that grows.
pub(crate) const THREE_PAGES: u32 = 3;

/// What is tried with the seats of a memory.
#[derive(Clone, Copy)]
pub(crate) enum Trial {
    /// One seat along the script, beside the sequential memory.
    Script,
    /// One seat beside a sequential memory that has another byte.
    AnotherByte,
    /// Two seats that add once each, and then meet.
    Agreement,
    /// Two threads that add a thousand times each.
    AddInTurn,
    /// Eight threads that add at once, each so many times, and how many tries get a value.
    AddAtOnce { times: u32, wanted: u64 },
    /// The same, and what one of them loads then.
    AddAndLoad { times: u32, wanted: u64 },
    /// Four threads on one word, each with its task.
    ShareAWord([Task; 4]),
    /// Two threads that grow the memory at once.
    RaceToGrow,
    /// What one caller stores and grows, and what another finds after a meeting.
    Telling,
    /// One seat that remembers fewer pages than there are.
    MeetAfterGrowth,
    /// Four loads where the log has room for three, and what the memory says of itself.
    FourLoads,
    /// One caller at the end of the memory, and what the memory says of itself.
    Alone,
}

/// Makes a trial, which fails where another thing is heard than has to be.
fn make<M: SharedMemory + Sync, R: Threads + Sync>(
    rt: &R,
    alloc: Global,
    memory: &M,
    seats: &mut Vec<M::Seat>,
    trial: Trial,
) -> Result<(), Fail> {
    match trial {
        Trial::Script => follow_script(alloc, memory, seats),
        Trial::AnotherByte => follow_another(alloc, memory, seats),
        Trial::Agreement => agree_after_two(memory, seats),
        Trial::AddInTurn => add_in_turn(rt, memory, seats),
        Trial::AddAtOnce { times, wanted } => {
            add_at_once(rt, alloc, memory, seats, times, wanted)
        }
        Trial::AddAndLoad { times, wanted } => {
            add_and_load(rt, alloc, memory, seats, times, wanted)
        }
        Trial::ShareAWord(tasks) => share_a_word(rt, alloc, memory, seats, tasks),
        Trial::RaceToGrow => race_to_grow(rt, alloc, memory, seats),
        Trial::Telling => tell(memory, seats),
        Trial::MeetAfterGrowth => meet_after_growth(memory, seats),
        Trial::FourLoads => load_four_times(memory, seats),
        Trial::Alone => use_alone(memory, seats),
    }
}

/// Makes a trial at a recorder, and answers what is left of it.
fn make_at_recorder<B, R>(
    rt: &R,
    alloc: Global,
    prepared: locked_recorder::Prepared,
    trial: Trial,
) -> Result<Finished, Fail>
where
    B: locked_recorder::Naming + Send + Sync,
    R: Threads + Wait + Sync,
    requires table { prepared.table ≡ B.table }
    requires opening { prepared.opening ≡ B.opening }
    requires limit { prepared.limit ≡ B.limit }
{
    let (memory, mut seats) = LockedRecorder::<B, &R>::open(alloc, rt, prepared)?;
    make(rt, alloc, &memory, &mut seats, trial)?;
    Ok(memory.finish(seats))
}

/// Makes a trial at a recorder over these bytes and at most so many pages, whose log takes so many entries. Answers
/// what is left of the recorder.
pub(crate) fn try_at_recorder<R: Threads + Wait + Sync>(
    rt: &R,
    alloc: Global,
    image: &[u8],
    max: u32,
    limit: u32,
    trial: Trial,
) -> Result<Finished, Fail> {
    let prepared = locked_recorder::Prepared::new(alloc, image, max, limit)?;
    make_at_recorder::<Brand, R>(rt, alloc, prepared, trial)
}

/// Makes a trial at a row, and answers what is left of it.
fn make_at_row<B: word_row::Naming + Send + Sync, R: Threads + Sync>(
    rt: &R,
    alloc: Global,
    prepared: word_row::Prepared,
    trial: Trial,
) -> Result<ClosedRow, Fail>
    requires table { prepared.table ≡ B.table }
    requires opening { prepared.opening ≡ B.opening }
{
    let (memory, mut seats) = WordRow::<B>::open(alloc, prepared)?;
    make(rt, alloc, &memory, &mut seats, trial)?;
    Ok(memory.close(seats))
}

/// Makes a trial at a row over these bytes and at most so many pages. Answers what is left of the row.
pub(crate) fn try_at_row<R: Threads + Sync>(
    rt: &R,
    alloc: Global,
    image: &[u8],
    max: u32,
    trial: Trial,
) -> Result<ClosedRow, Fail> {
    let prepared = word_row::Prepared::new(alloc, image, max)?;
    make_at_row::<Brand, R>(rt, alloc, prepared, trial)
}
