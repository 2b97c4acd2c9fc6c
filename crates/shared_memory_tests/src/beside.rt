//! One seat of any memory beside the sequential memory.

use crate::trial::{IMAGE, THREE_PAGES};
use shared_memory::{SharedMemory, is_event};
use shared_memory_script::{agree, script};
use shared_memory_sequential::OneMemory;
use std::alloc::Global;
use std::test::Fail;
use test_cases::hold;
use types::{Answer, Event};

/// One seat along the script: each reply has to be the sequential memory's.
pub(crate) fn follow_script<M: SharedMemory>(
    alloc: Global,
    memory: &M,
    seats: &mut Vec<M::Seat>,
) -> Result<(), Fail> {
    let Some(seat) = seats.last_mut() else {
        return Err(Fail::new("no seats"));
    };
    let events = script(alloc)?;
    let mut one = OneMemory::open(alloc, &IMAGE, THREE_PAGES)?;
    let differs = agree(memory, seat, &mut one, &events);
    hold(&[
        ("each reply", differs.is_none()),
        ("how many events", events.len() == 717),
    ])
}

/// The sequential memory after the script.
pub(crate) fn after_script(alloc: Global) -> Result<OneMemory, Fail> {
    let events = script(alloc)?;
    let mut one = OneMemory::open(alloc, &IMAGE, THREE_PAGES)?;
    for event in &events {
        if is_event(*event) {
            one.step(event);
        }
    }
    Ok(one)
}

/// A load of eight bytes.
fn load(addr: u64, reach: u64) -> Event {
    Event::Load {
        addr,
        width: 8,
        reach,
    }
}

/// One seat along a few events, where the sequential memory has another byte at 16: the load there has to be found.
pub(crate) fn follow_another<M: SharedMemory>(
    alloc: Global,
    memory: &M,
    seats: &mut Vec<M::Seat>,
) -> Result<(), Fail> {
    let Some(seat) = seats.last_mut() else {
        return Err(Fail::new("no seats"));
    };
    let mut one = OneMemory::open(alloc, &IMAGE, THREE_PAGES)?;
    let store = Event::Store {
        addr: 16,
        width: 1,
        reach: 17,
        value: 7,
    };
    one.step(&store);
    let events = [
        Event::Size,
        Event::Told(Answer::ForGood),
        load(8, 16),
        load(16, 24),
        Event::Size,
    ];
    let differs = agree(memory, seat, &mut one, &events);
    hold(&[("the place of the difference", differs == Some(3))])
}
