//! What is chosen of a record.

ghost use Rattle.std.specs.Prelude.{◌≡◌, ◌==◌, IfOk};
ghost use Rattle.std.specs.List.{list_any};
ghost use Rattle.selection.specs.Choices as specified;
ghost use Rattle.selection.specs.Choices.{is_chosen, is_chosen_line, is_chosen_thread, is_chosen_address};
ghost use Rattle.selection.specs.Choices.{is_left_out, meets_some, AreOfAny};

use crate::spans::Spans;
use std::alloc::{AllocError, Global};
use types::{Entry, Event, Question};

/// Numbers from one up to another, both among them.
#[derive(Clone, Copy, Debug, PartialEq, Eq)]
pub struct NumberSpan {
    pub first: u64,
    pub last: u64,
}

impl NumberSpan {
    /// Whether a number is among them.
    pub fn has(self, number: u64) -> bool
        ensures { result ≡ specified.has self number }
    {
        self.first <= number && number <= self.last
    }

    /// Whether two spans have a number in common.
    pub fn meets(self, other: NumberSpan) -> bool
        ensures { result ≡ specified.meets self other }
    {
        self.first <= other.last && other.first <= self.last
    }
}

/// Which entries are shown: those on these lines of the record, of these threads and at these addresses, but for those
/// that touch an address which is left out. Where no threads are given, and where there are no spans, all are.
#[derive(Drop)]
pub struct Choice {
    pub lines: Option<Spans>,
    pub threads: Vec<u32>,
    pub addrs: Option<Spans>,
    /// The addresses that are left out, if some are.
    pub left_out: Option<Spans>,
}

impl Choice {
    /// Whether the entry on this line of the record is chosen.
    pub fn has(&self, line: u64, entry: &Entry) -> bool
        ensures { result ≡ is_chosen self.now line entry.now }
    {
        self.has_line(line)
            && self.has_thread(entry.thread)
            && self.has_address(entry.event)
            && !self.leaves_out(entry.event)
    }

    fn has_line(&self, line: u64) -> bool
        ensures { result ≡ is_chosen_line self.now.lines line }
    {
        match &self.lines {
            Some(lines) => lines.has(line),
            None => true,
        }
    }

    fn has_thread(&self, thread: u32) -> bool
        ensures { result ≡ is_chosen_thread self.now.threads.items thread }
    {
        self.threads.is_empty() || is_among(self.threads.as_slice(), thread)
    }

    /// Whether the event touches one of the addresses.
    fn has_address(&self, event: Event) -> bool
        ensures { result ≡ is_chosen_address self.now.addrs event }
    {
        match &self.addrs {
            Some(addrs) => some_touched(addrs, event),
            None => true,
        }
    }

    /// Whether the event touches an address that is left out.
    fn leaves_out(&self, event: Event) -> bool
        ensures { result ≡ is_left_out self.now.left_out event }
    {
        match &self.left_out {
            Some(addrs) => some_touched(addrs, event),
            None => false,
        }
    }
}

fn is_among(threads: &[u32], thread: u32) -> bool
    ensures { result ≡ list_any (λ n. n == thread) threads.now }
{
    threads.iter().any(|other| *other == thread)
}

/// Whether an event touches one of these addresses.
fn some_touched(addrs: &Spans, event: Event) -> bool
    ensures { result ≡ meets_some addrs.now.spans.items (specified.touched event) }
{
    match touched(event) {
        Some(span) => addrs.meets(span),
        None => false,
    }
}

/// What some spans choose: the numbers that they have, and all, which is `None`, where none are given.
pub fn spans_if_any(alloc: Global, spans: Vec<NumberSpan>) -> Result<Option<Spans>, AllocError>
    ensures { IfOk result (AreOfAny spans.items) }
{
    if spans.is_empty() {
        return Ok(None);
    }
    let all = Spans::new(alloc, spans)?;
    Ok(Some(all))
}

/// The addresses of the bytes that an event touches, or at which it waits or wakes.
pub fn touched(event: Event) -> Option<NumberSpan>
    ensures { result ≡ specified.touched event }
{
    let (addr, width) = match event {
        Event::Load { addr, width, .. }
        | Event::Store { addr, width, .. }
        | Event::Rmw { addr, width, .. }
        | Event::Cmpxchg { addr, width, .. }
        | Event::Ask(Question::Wait { addr, width, .. }) => (addr, width),
        Event::Ask(Question::Notify { addr, .. }) => (addr, 1),
        _ => return None,
    };
    let last = addr.saturating_add(u64::from(width.saturating_sub(1)));
    Some(NumberSpan { first: addr, last })
}

/// When threads have colors.
#[derive(Clone, Copy, PartialEq, Eq)]
pub enum Color {
    /// Where standard output is a terminal; who writes elsewhere takes it as `Never`.
    Auto,
    Always,
    Never,
}

/// How a record is shown: what is chosen of it, in how many characters a row, and whether with colors.
#[derive(Drop)]
pub struct Look {
    pub choice: Choice,
    pub width: usize,
    pub color: Color,
}
