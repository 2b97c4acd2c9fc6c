//! A row of words beside the sequential memory: one seat along a script, and threads on one word and on the page count.

use crate::adding::add_at_once;
use crate::beside::after_script;
use crate::sharing::{Task, begins_with};
use crate::trial::{IMAGE, THREE_PAGES, Trial, try_at_row};
use shared_memory::SharedMemory;
use shared_memory_script::make;
use std::alloc::{AllocError, Global};
use std::test::Fail;
use std::thread;
use std::thread::Threads;
use test_cases::hold;
use types::{Event, MOST_PAGES, PAGE_SIZE, Reply};
use word_row::ClosedRow;

/// The bytes of a memory at most.
const MOST_BYTES: usize = MOST_PAGES as usize * PAGE_SIZE;

/// How many pages two threads want, one by one: more than there may be.
const PAGES_WANTED: u32 = 160;

/// The first nine bytes after 10,000 additions of 1 to the byte at 0, the two bytes at 2 and the four at 4.
static ADDED: [u8; 9] = [0x10, 0x00, 0x10, 0x27, 0x10, 0x27, 0x00, 0x00, 0x00];

/// Whether a row has these bytes, as far as they go.
fn has_bytes(end: &ClosedRow, bytes: &[u8]) -> bool {
    let mut same = true;
    for (addr, byte) in bytes.iter().enumerate() {
        same = same && end.byte(addr) == Some(*byte);
    }
    same
}

#[test]
fn one_seat_agrees_with_one_memory(rt: HostRuntime) -> Result<(), Fail> {
    let one = after_script(rt.alloc())?;
    let end = try_at_row(&rt, rt.alloc(), &IMAGE, THREE_PAGES, Trial::Script)?;
    hold(&[
        ("the page count", end.pages() == 3),
        ("the bytes", has_bytes(&end, one.bytes())),
        ("how many bytes", one.bytes().len() == 3 * PAGE_SIZE),
        ("no byte behind them", end.byte(3 * PAGE_SIZE).is_none()),
    ])
}

#[test]
fn four_threads_on_one_word(rt: HostRuntime) -> Result<(), Fail> {
    let tasks = [Task::AddByte, Task::AddTwo, Task::AddFour, Task::Watch];
    let end = try_at_row(
        &rt,
        rt.alloc(),
        &IMAGE,
        THREE_PAGES,
        Trial::ShareAWord(tasks),
    )?;
    begins_with(&end, &ADDED)
}

/// Eight threads that add at once, and what one of them then loads.
pub(crate) fn add_and_load<M: SharedMemory + Sync, R: Threads + Sync>(
    rt: &R,
    alloc: Global,
    memory: &M,
    seats: &mut Vec<M::Seat>,
    times: u32,
    wanted: u64,
) -> Result<(), Fail> {
    add_at_once(rt, alloc, memory, seats, times, wanted)?;
    let Some(seat) = seats.last_mut() else {
        return Err(Fail::new("no seats"));
    };
    let load = Event::Load {
        addr: 8,
        width: 8,
        reach: 16,
    };
    hold(&[("the sum", memory.access(seat, load) == Reply::Value(wanted))])
}

#[test]
fn each_addition_to_a_whole_word_is_made(rt: HostRuntime) -> Result<(), Fail> {
    let adding = Trial::AddAndLoad {
        times: 10_000,
        wanted: 80_000,
    };
    let _ = try_at_row(&rt, rt.alloc(), &IMAGE, THREE_PAGES, adding)?;
    Ok(())
}

/// Grows by one page so many times, and notes the counts before those growths that succeeded.
fn grow_all<M: SharedMemory>(
    memory: &M,
    seat: &mut M::Seat,
    mut counts: Vec<u64>,
) -> Result<Vec<u64>, AllocError> {
    for _ in 0..PAGES_WANTED {
        if let Reply::Value(before) = make(memory, seat, Event::Grow(1)) {
            if before != u64::from(u32::MAX) {
                counts.push(before)?;
            }
        }
    }
    Ok(counts)
}

/// Whether these are the numbers from 2 on.
fn rise_by_one(counts: &[u64]) -> bool {
    let mut wanted = 2u64;
    for count in counts {
        if *count != wanted {
            return false;
        }
        wanted = wanted.saturating_add(1);
    }
    true
}

/// Two threads that grow the memory at once: together they have to be answered each page count from 2 to 255.
pub(crate) fn race_to_grow<M: SharedMemory + Sync, R: Threads>(
    rt: &R,
    alloc: Global,
    memory: &M,
    seats: &mut Vec<M::Seat>,
) -> Result<(), Fail> {
    let [.., other, one] = seats.as_mut_slice() else {
        return Err(Fail::new("no seats"));
    };
    let (first, second) = thread::join(
        rt,
        move || grow_all(memory, one, Vec::new(alloc)),
        move || grow_all(memory, other, Vec::new(alloc)),
    );
    let mut counts = first?;
    counts.extend_from_slice(&second?)?;
    counts.sort()?;
    hold(&[
        ("how many growths", counts.len() == 254),
        ("the count before each", rise_by_one(&counts)),
    ])
}

#[test]
fn two_threads_grow(rt: HostRuntime) -> Result<(), Fail> {
    let end = try_at_row(&rt, rt.alloc(), &IMAGE, MOST_PAGES, Trial::RaceToGrow)?;
    hold(&[
        ("the page count", end.pages() == MOST_PAGES),
        ("the last byte", end.byte(MOST_BYTES - 1) == Some(0)),
        ("no byte behind it", end.byte(MOST_BYTES).is_none()),
    ])
}
