//! A recorder beside the sequential memory: one seat along a script, and the log of eight threads.

use crate::beside::after_script;
use crate::trial::{IMAGE, THREE_PAGES, Trial, try_at_recorder};
use locked_recorder::Finished;
use shared_memory_script::replay;
use shared_memory_sequential::OneMemory;
use std::test::Fail;
use test_cases::hold;
use types::{Event, MOST_LIMIT, Reply};

#[test]
fn one_seat_agrees_with_one_memory(rt: HostRuntime) -> Result<(), Fail> {
    let one = after_script(rt.alloc())?;
    let end = try_at_recorder(&rt, rt.alloc(), &IMAGE, THREE_PAGES, 5000, Trial::Script)?;
    hold(&[
        ("the log's length", end.log.len() == 717),
        ("the page count", end.pages == 3),
        ("the bytes", end.bytes.as_slice() == one.bytes()),
    ])
}

#[test]
fn another_byte_is_found(rt: HostRuntime) -> Result<(), Fail> {
    let _ = try_at_recorder(
        &rt,
        rt.alloc(),
        &IMAGE,
        THREE_PAGES,
        5000,
        Trial::AnotherByte,
    )?;
    Ok(())
}

/// The log of 160,000 additions, replayed on a sequential memory, leaves there what the recorder has.
fn replays(end: &Finished, one: &mut OneMemory) -> Result<(), Fail> {
    let sum = Event::Load {
        addr: 8,
        width: 8,
        reach: 16,
    };
    hold(&[
        ("the log's length", end.log.len() == 160_000),
        ("each reply", replay(&end.log, one).is_none()),
        ("the page count", end.pages == one.pages()),
        ("the bytes", end.bytes.as_slice() == one.bytes()),
        ("the sum", one.step(&sum) == Reply::Value(160_000)),
    ])
}

#[test]
fn a_log_of_eight_threads_replays(rt: HostRuntime) -> Result<(), Fail> {
    let adding = Trial::AddAtOnce {
        times: 20_000,
        wanted: 160_000,
    };
    let mut one = OneMemory::open(rt.alloc(), &IMAGE, THREE_PAGES)?;
    let end = try_at_recorder(&rt, rt.alloc(), &IMAGE, THREE_PAGES, MOST_LIMIT, adding)?;
    replays(&end, &mut one)
}
