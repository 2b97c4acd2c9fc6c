//! The conditions on events, as tests.
ghost use Rattle.std.specs.Prelude.{◌≡◌, ◌≤◌, ◌↔◌, IsTrue};
ghost use Rattle.shared_memory.specs.Events.{IsEvent};
ghost use Rattle.shared_memory.specs.Conditions.{fits_width, is_part, is_atomic, is_question, is_event};

use types::{Event, Question};

/// Whether a value has at most so many bytes.
fn fits_width(width: u8, value: u64) -> bool
    requires { width ≤ 8 }
    ensures { result ≡ fits_width width value }
{
    match width {
        0 => value == 0,
        1 => value < 1 << 8,
        2 => value < 1 << 16,
        3 => value < 1 << 24,
        4 => value < 1 << 32,
        5 => value < 1 << 40,
        6 => value < 1 << 48,
        7 => value < 1 << 56,
        _ => true,
    }
}

/// Whether a part of an access has a width of 1 to 8 and lies in one aligned 8-byte word, and the whole access ends
/// where it may.
fn is_part(addr: u64, width: u8, reach: u64) -> bool
    ensures value { result ≡ is_part addr width reach }
    ensures narrow { IsTrue result → width ≤ 8 }
{
    let width = u64::from(width);
    width >= 1
        && addr % 8 + width <= 8
        && addr <= reach
        && reach - addr <= 8
        && width <= reach - addr
}

/// Whether an atomic access has a width of 1, 2, 4 or 8 bytes, which divides its address.
fn is_atomic(addr: u64, width: u8) -> bool
    ensures value { result ≡ is_atomic addr width }
    ensures narrow { IsTrue result → width ≤ 8 }
{
    (width == 1 || width == 2 || width == 4 || width == 8) && addr % u64::from(width) == 0
}

/// Whether a question meets its conditions.
fn is_question(question: Question) -> bool
    ensures { result ≡ is_question question }
{
    match question {
        Question::Wait {
            addr,
            width,
            expected,
            timeout: _,
        } => {
            (width == 4 || width == 8) && (is_atomic(addr, width) && fits_width(width, expected))
        }
        Question::Notify { addr, count: _ } => addr % 4 == 0,
        Question::Spawn { arg: _ } | Question::Leave => true,
    }
}

/// Whether an event meets the conditions on events.
pub fn is_event(event: Event) -> bool
    ensures value { result ≡ is_event event }
    ensures holds { IsTrue result ↔ IsEvent event }
{
    match event {
        Event::Size | Event::Grow(_) | Event::Told(_) => true,
        Event::Load { addr, width, reach } => is_part(addr, width, reach),
        Event::Store {
            addr,
            width,
            reach,
            value,
        } => is_part(addr, width, reach) && fits_width(width, value),
        Event::Rmw {
            op: _,
            addr,
            width,
            value,
        } => is_atomic(addr, width) && fits_width(width, value),
        Event::Cmpxchg {
            addr,
            width,
            expected: _,
            replacement,
        } => is_atomic(addr, width) && fits_width(width, replacement),
        Event::Ask(question) => is_question(question),
    }
}
