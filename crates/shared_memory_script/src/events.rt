//! Events of every kind, with the edges of each.
use std::alloc::{AllocError, Global};
use types::{Event, PAGE_SIZE, RmwOp};

/// The bytes of a page.
const PAGE: u64 = PAGE_SIZE as u64;

/// The six operators of a read-modify-write.
const OPERATORS: [RmwOp; 6] = [
    RmwOp::Add,
    RmwOp::Sub,
    RmwOp::And,
    RmwOp::Or,
    RmwOp::Xor,
    RmwOp::Xchg,
];

/// The widths of atomic accesses, each with the greatest value that fits it.
const WIDTHS: [(u8, u64); 4] = [
    (1, 0xff),
    (2, 0xffff),
    (4, 0xffff_ffff),
    (8, 0xffff_ffff_ffff_ffff),
];

/// Values of 1 to 8 bytes.
const VALUES: [u64; 8] = [
    0x81,
    0x8281,
    0x83_8281,
    0x8483_8281,
    0x85_8483_8281,
    0x8685_8483_8281,
    0x87_8685_8483_8281,
    0x8887_8685_8483_8281,
];

/// The page count and growth: by none, to the maximum of three pages, and past it.
const GROWTH: [Event; 9] = [
    Event::Size,
    Event::Grow(0),
    Event::Grow(2),
    Event::Grow(4294967295),
    Event::Size,
    Event::Grow(1),
    Event::Size,
    Event::Grow(1),
    Event::Grow(0),
];

/// Pushes a load of so many bytes, which ends an access of its own.
fn push_load(events: &mut Vec<Event>, addr: u64, width: u8) -> Result<(), AllocError> {
    let reach = addr.saturating_add(u64::from(width));
    events.push(Event::Load { addr, width, reach })?;
    Ok(())
}

/// Stores and loads of 1 to 8 bytes, low and high in a word, and of parts of accesses that end past the memory.
fn push_parts(events: &mut Vec<Event>, end: u64) -> Result<(), AllocError> {
    for width in 1..9u8 {
        let value = VALUES[usize::from(width) - 1];
        let rest = u64::from(8 - width);
        let last = end.saturating_sub(u64::from(width));
        for (addr, over) in [(64, 0), (64 + rest, 0), (last, 0), (last, rest)] {
            let reach = addr.saturating_add(u64::from(width)).saturating_add(over);
            events.push(Event::Store {
                addr,
                width,
                reach,
                value,
            })?;
            events.push(Event::Load { addr, width, reach })?;
            push_load(events, addr, width)?;
        }
        push_load(events, 64, 8)?;
    }
    push_load(events, end, 1)?;
    push_load(events, end, 8)
}

/// Each operator at each width, at 0, at the greatest value and out of bounds.
fn push_operators(events: &mut Vec<Event>, end: u64) -> Result<(), AllocError> {
    for (width, most) in WIDTHS {
        for op in OPERATORS {
            let inside = [(128, most), (128, 1), (128, 0), (136, 0x5a), (136, most)];
            for (addr, value) in inside {
                events.push(Event::Rmw {
                    op,
                    addr,
                    width,
                    value,
                })?;
            }
            events.push(Event::Rmw {
                op,
                addr: end,
                width,
                value: 1,
            })?;
            push_load(events, 128, 8)?;
            push_load(events, 136, 8)?;
        }
    }
    Ok(())
}

/// Compare-exchanges that match, that don't, that expect what doesn't fit their width, and out of bounds.
fn push_exchanges(events: &mut Vec<Event>, end: u64) -> Result<(), AllocError> {
    for (width, most) in WIDTHS {
        let rows = [
            (192, 0, most),
            (192, most, 0x42),
            (192, most, 0x43),
            (192, 0x142, 0x44),
            (192, 0xffff_ffff_0000_0042, 0x45),
            (192, 0x42, 0),
            (end, 0, 1),
        ];
        for (addr, expected, replacement) in rows {
            events.push(Event::Cmpxchg {
                addr,
                width,
                expected,
                replacement,
            })?;
            push_load(events, 192, 8)?;
        }
    }
    Ok(())
}

/// What one memory answers: events for a memory of two pages of zeros that may have three. Each kind of event of the
/// memory is among them, with widths of 1 to 8 bytes, before the growth to the maximum and after it.
///
/// # Errors
/// Where the room can't be had.
pub fn script(alloc: Global) -> Result<Vec<Event>, AllocError> {
    let mut events = Vec::new(alloc);
    push_parts(&mut events, 2 * PAGE)?;
    push_operators(&mut events, 2 * PAGE)?;
    push_exchanges(&mut events, 2 * PAGE)?;
    events.extend_from_slice(&GROWTH)?;
    push_parts(&mut events, 3 * PAGE)?;
    push_operators(&mut events, 3 * PAGE)?;
    push_exchanges(&mut events, 3 * PAGE)?;
    Ok(events)
}
