//! A log whose replay differs.

use crate::trial::IMAGE;
use shared_memory_script::replay;
use shared_memory_sequential::OneMemory;
use std::test::Fail;
use test_cases::hold;
use types::{Entry, Event, Reply};

/// An entry of thread 0, which asked for the page count.
fn size(pages: u64) -> Entry {
    Entry {
        thread: 0,
        event: Event::Size,
        reply: Reply::Value(pages),
    }
}

#[test]
fn a_replay_finds_the_first_difference(rt: HostRuntime) -> Result<(), Fail> {
    let mut one = OneMemory::open(rt.alloc(), &IMAGE, 3)?;
    let grow = Entry {
        thread: 1,
        event: Event::Grow(1),
        reply: Reply::Value(2),
    };
    let log = [size(2), grow, size(3), size(2), size(3)];
    hold(&[
        ("the fourth", replay(&log, &mut one) == Some(3)),
        ("the first", replay(&log, &mut one) == Some(0)),
    ])
}
