//! The events of the Trace Event Format, as they are spelt in JSON. Times are numbers of entries, from 0 on, as
//! microseconds; all threads are of one process.

ghost use Rattle.std.specs.Prelude.{◌≡◌, string_bytes, IfOk};
ghost use Rattle.show_events.specs.Events as specified;
ghost use Rattle.show_events.specs.EntryRows.{event_row};
ghost use Rattle.show_events.specs.Events.{entry_json, name_json, start_json, finish_json};

use serde_json::Value;
use std::alloc::{AllocError, Global};
use std::fmt::{self, Formatter, Write};

/// A text in quotes, with an escape for what can't stand in them.
pub(crate) fn quoted(alloc: Global, text: &str) -> Result<String, AllocError>
    ensures { IfOk result (λ s. string_bytes s ≡ specified.quoted text.now) }
{
    Value::String(String::from_str(alloc, text)?).to_string(alloc)
}

/// What is said of an entry.
#[derive(Clone, Copy)]
pub(crate) struct EntryEvent<'a> {
    pub(crate) thread: u32,
    /// Its number in the log.
    pub(crate) at: u64,
    /// How many entries long it is.
    pub(crate) length: u64,
    pub(crate) words: &'a str,
    /// The line of the record.
    pub(crate) line: u64,
    /// Where it was made.
    pub(crate) place: &'a str,
}

/// The front of an entry: its words, as JSON has them, its number in the log, and how long it is.
#[derive(Clone, Copy)]
struct EventFront<'a> {
    words: &'a str,
    at: u64,
    length: u64,
}

impl fmt::Display for EventFront<'_> {
    ghost use Rattle.std.specs.Prelude.{Some};
    ghost use Rattle.show_events.specs.Events.{named_json};

    ghost output = { λ n. Some (named_json n.words.now n.at n.length) };

    fn fmt<W: Write>(&self, f: &mut Formatter<W>) -> fmt::Result {
        let (words, at, length) = (self.words, self.at, self.length);
        write!(
            f,
            "{{\"ph\":\"X\",\"name\":{words},\"cat\":\"entry\",\"ts\":{at},\"dur\":{length}"
        )
    }
}

/// The end of an entry: its thread, its line of the record, and its place, as JSON has it.
#[derive(Clone, Copy)]
struct Placed<'a> {
    thread: u32,
    line: u64,
    place: &'a str,
}

impl fmt::Display for Placed<'_> {
    ghost use Rattle.std.specs.Prelude.{Some};
    ghost use Rattle.show_events.specs.Events.{placed_json};

    ghost output = { λ p. Some (placed_json p.thread p.line p.place.now) };

    fn fmt<W: Write>(&self, f: &mut Formatter<W>) -> fmt::Result {
        let (thread, line, place) = (self.thread, self.line, self.place);
        write!(
            f,
            ",\"pid\":1,\"tid\":{thread},\"args\":{{\"line\":{line},\"place\":{place}"
        )
    }
}

/// An entry with its words, from its number on and so many long.
pub(crate) fn entry_event(alloc: Global, event: EntryEvent) -> Result<String, AllocError>
    ensures { IfOk result
        (λ s. string_bytes s ≡ entry_json (event_row event.entry) event.entry.at event.entry.length) }
{
    let words = quoted(alloc, event.words)?;
    let place = quoted(alloc, event.place)?;
    let named = EventFront {
        words: words.as_str(),
        at: event.at,
        length: event.length,
    };
    let placed = Placed {
        thread: event.thread,
        line: event.line,
        place: place.as_str(),
    };
    format!(in alloc; "{named}{placed}}}}}")
}

/// The name of a thread.
pub(crate) fn name_event(alloc: Global, thread: u32) -> Result<String, AllocError>
    ensures { IfOk result (λ s. string_bytes s ≡ name_json thread) }
{
    format!(in alloc;
        "{{\"ph\":\"M\",\"name\":\"thread_name\",\"ts\":0,\"pid\":1,\"tid\":{thread},\"args\":{{\"name\":\"t{thread}\"}}}}"
    )
}

/// The beginning of an arrow.
pub(crate) fn start_event(
    alloc: Global,
    kind: &str,
    id: u64,
    thread: u32,
    at: u64,
) -> Result<String, AllocError>
    ensures { IfOk result (λ s. string_bytes s ≡ start_json kind.now id thread at) }
{
    format!(in alloc;
        "{{\"ph\":\"s\",\"name\":\"{kind}\",\"cat\":\"flow\",\"id\":{id},\"ts\":{at},\"pid\":1,\"tid\":{thread}}}"
    )
}

/// The end of an arrow.
pub(crate) fn finish_event(
    alloc: Global,
    kind: &str,
    id: u64,
    thread: u32,
    at: u64,
) -> Result<String, AllocError>
    ensures { IfOk result (λ s. string_bytes s ≡ finish_json kind.now id thread at) }
{
    format!(in alloc;
        "{{\"ph\":\"f\",\"name\":\"{kind}\",\"cat\":\"flow\",\"id\":{id},\"bp\":\"e\",\"ts\":{at},\"pid\":1,\"tid\":{thread}}}"
    )
}
