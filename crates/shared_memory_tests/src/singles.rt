//! Single exchanges of a row's word: threads that change lanes of one word at once, and none of their tries lost; and a
//! seat that remembers fewer pages than there are.

use crate::sharing::{Task, begins_with};
use crate::steps::follow;
use crate::trial::{IMAGE, THREE_PAGES, Trial, try_at_row};
use shared_memory::SharedMemory;
use std::test::Fail;
use types::{Event, Reply};

/// The address of the third page.
const THIRD_PAGE: u64 = 131_072;

/// The first nine bytes at the end: of 255 its lower four bits cleared, the lower four bits set in 0, the exclusive or
/// of 0 to 250 again and again (worked out by another program), a byte that nobody changes, 10,000 additions of 1 in
/// four bytes, and another that nobody changes.
static LANES: [u8; 9] = [0xf0, 0x0f, 0x28, 0x00, 0x10, 0x27, 0x00, 0x00, 0x00];

#[test]
fn lanes_of_one_word_at_once(rt: HostRuntime) -> Result<(), Fail> {
    let tasks = [Task::Clear, Task::Set, Task::Turn, Task::AddFour];
    let end = try_at_row(
        &rt,
        rt.alloc(),
        &IMAGE,
        THREE_PAGES,
        Trial::ShareAWord(tasks),
    )?;
    begins_with(&end, &LANES)
}

/// A load in the third page.
const LOAD: Event = Event::Load {
    addr: THIRD_PAGE,
    width: 8,
    reach: THIRD_PAGE + 8,
};

/// A store in the third page.
const STORE: Event = Event::Store {
    addr: THIRD_PAGE,
    width: 8,
    reach: THIRD_PAGE + 8,
    value: 9,
};

/// What the first seat hears before the two have met.
static BEFORE: [(Event, Reply); 2] = [(Event::Size, Reply::Value(2)), (LOAD, Reply::OutOfBounds)];

/// What the second seat does.
static GROWTH: [(Event, Reply); 2] = [(Event::Grow(1), Reply::Value(2)), (STORE, Reply::Done)];

/// What the first seat hears afterwards.
static AFTER: [(Event, Reply); 2] = [(Event::Size, Reply::Value(3)), (LOAD, Reply::Value(9))];

/// One seat remembers two pages, and another grows to a third and stores there, before the two meet.
pub(crate) fn meet_after_growth<M: SharedMemory>(
    memory: &M,
    seats: &mut Vec<M::Seat>,
) -> Result<(), Fail> {
    let [.., other, one] = seats.as_mut_slice() else {
        return Err(Fail::new("no seats"));
    };
    follow(memory, one, &BEFORE)?;
    follow(memory, other, &GROWTH)?;
    memory.meet(one, other);
    follow(memory, one, &AFTER)
}

#[test]
fn a_growth_past_the_count_remembered(rt: HostRuntime) -> Result<(), Fail> {
    let _ = try_at_row(&rt, rt.alloc(), &IMAGE, THREE_PAGES, Trial::MeetAfterGrowth)?;
    Ok(())
}
