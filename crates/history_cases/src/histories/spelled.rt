//! Histories as texts.
use race_history::{AccessKind, Site};
use std::alloc::{AllocError, Global};
use types::{Answer, Entry, Event, Question, Reply, RmwOp};

/// A history, and the instruction of each entry.
#[derive(Drop)]
pub(crate) struct Spelled {
    pub(crate) log: Vec<Entry>,
    pub(crate) sites: Vec<Site>,
}

/// The digit at a place of a word, 0 behind its end.
pub(crate) fn digit(letters: &[u8], place: usize) -> u8 {
    match letters.get(place) {
        Some(letter) => letter.wrapping_sub(b'0'),
        None => 0,
    }
}

/// The event of the letters behind the thread's number, and what it got. A capital letter is an atomic access.
///
/// l and s load and store, r reads, modifies and writes, and so does c, a compare-exchange that finds what it expects;
/// d finds another value. The digits behind are the first byte's address and the width. w waits there, n notifies as
/// many as the width says, p spawns, e ends, t is told 0, and u another number. m asks for the number of pages, g grows
/// the memory, f is refused to, and o stores out of bounds.
fn event(letter: u8, addr: u64, width: u8) -> (Event, Reply) {
    let reach = addr.wrapping_add(u64::from(width));
    match letter {
        b'l' | b'L' => (Event::Load { addr, width, reach }, Reply::Value(0)),
        b's' | b'S' => (
            Event::Store {
                addr,
                width,
                reach,
                value: 0,
            },
            Reply::Done,
        ),
        b'r' => (
            Event::Rmw {
                op: RmwOp::Add,
                addr,
                width,
                value: 1,
            },
            Reply::Value(0),
        ),
        b'c' => (
            Event::Cmpxchg {
                addr,
                width,
                expected: 0,
                replacement: 1,
            },
            Reply::Value(0),
        ),
        b'd' => (
            Event::Cmpxchg {
                addr,
                width,
                expected: 0,
                replacement: 1,
            },
            Reply::Value(1),
        ),
        b'w' => (
            Event::Ask(Question::Wait {
                addr,
                width,
                expected: 0,
                timeout: -1,
            }),
            Reply::Value(0),
        ),
        b'n' => (
            Event::Ask(Question::Notify {
                addr,
                count: u32::from(width),
            }),
            Reply::Done,
        ),
        b'm' => (Event::Size, Reply::Value(1)),
        b'g' => (Event::Grow(1), Reply::Value(1)),
        b'f' => (Event::Grow(1), Reply::Value(4294967295)),
        b'p' => (Event::Ask(Question::Spawn { arg: 0 }), Reply::Done),
        b'e' => (Event::Ask(Question::Leave), Reply::Done),
        b'o' => (
            Event::Store {
                addr,
                width,
                reach,
                value: 0,
            },
            Reply::OutOfBounds,
        ),
        _ => (Event::Told(Answer::Number(u32::from(width))), Reply::Done),
    }
}

/// The instruction of a word: a capital letter is an atomic one.
fn site(letter: u8, code: u8) -> Site {
    let kind = if letter < b'a' {
        AccessKind::Atomic
    } else {
        AccessKind::Plain
    };
    Site {
        kind,
        code: u64::from(code),
        is_allowed: false,
    }
}

/// The history that words spell: each is a thread's digit, a letter, for most letters two digits, and the digit of a
/// place in the code where that isn't 0.
pub(crate) fn history_of(alloc: Global, text: &str) -> Result<Spelled, AllocError> {
    let mut all = Spelled {
        log: Vec::new(alloc),
        sites: Vec::new(alloc),
    };
    for word in text.split_ascii_whitespace() {
        let letters = word.as_bytes();
        let Some(letter) = letters.get(1) else {
            continue;
        };
        let (event, reply) = event(*letter, u64::from(digit(letters, 2)), digit(letters, 3));
        all.log.push(Entry {
            thread: u32::from(digit(letters, 0)),
            event,
            reply,
        })?;
        all.sites.push(site(*letter, digit(letters, 4)))?;
    }
    Ok(all)
}
