//! A row of words by one caller: opened, used and closed.

use crate::steps::follow;
use crate::trial::{Trial, try_at_row};
use shared_memory::SharedMemory;
use std::alloc::Global;
use std::test::Fail;
use test_cases::hold;
use types::{Event, Reply};

/// Two pages, of which the byte before the last is 7.
fn image(alloc: Global) -> Result<Vec<u8>, Fail> {
    let mut image = Vec::new(alloc);
    image.resize(131_070, 0)?;
    image.push(7)?;
    image.push(0)?;
    Ok(image)
}

/// A load of the last two bytes of the second page, whose instruction reaches into a third.
const LOAD: Event = Event::Load {
    addr: 131_070,
    width: 2,
    reach: 131_076,
};

/// A store at the end of the second page.
const STORE: Event = Event::Store {
    addr: 131_071,
    width: 1,
    reach: 131_072,
    value: 9,
};

/// What one caller makes, and what it is answered.
static STEPS: [(Event, Reply); 6] = [
    (LOAD, Reply::OutOfBounds),
    (STORE, Reply::Done),
    (Event::Grow(1), Reply::Value(2)),
    (LOAD, Reply::Value(0x907)),
    (Event::Grow(2), Reply::Value(4_294_967_295)),
    (Event::Size, Reply::Value(3)),
];

/// One caller stores at the end of the second page, grows to a third, and loads there and past it.
pub(crate) fn use_alone<M: SharedMemory>(memory: &M, seats: &mut Vec<M::Seat>) -> Result<(), Fail> {
    let Some(seat) = seats.last_mut() else {
        return Err(Fail::new("no seats"));
    };
    follow(memory, seat, &STEPS)?;
    hold(&[
        ("the name", memory.name(seat) == 64),
        ("the limit", memory.limit().is_none()),
        ("the most pages", memory.pages_max() == 4),
    ])
}

#[test]
fn one_caller(rt: HostRuntime) -> Result<(), Fail> {
    let image = image(rt.alloc())?;
    let end = try_at_row(&rt, rt.alloc(), &image, 4, Trial::Alone)?;
    hold(&[
        ("the page count", end.pages() == 3),
        ("the byte that was there", end.byte(131_070) == Some(7)),
        ("the byte stored", end.byte(131_071) == Some(9)),
        ("the first new byte", end.byte(131_072) == Some(0)),
        ("the last byte", end.byte(196_607) == Some(0)),
        ("no byte behind it", end.byte(196_608).is_none()),
    ])
}
