//! What a thread said last.

ghost use Rattle.std.specs.Prelude.{◌≡◌, if◌then◌else◌, Some, option_map, is_some};
ghost use Rattle.show_said.specs.Last as specified;
ghost use Rattle.show_said.specs.Said as log_said;

use crate::said::{Said, put_by};
use types::{Entry, Event, Question};

/// Whether an entry is a thread's, and not its leave.
fn is_deed(thread: usize, entry: &Entry) -> bool
    ensures { result ≡ specified.is_deed thread entry.now }
{
    match entry.event {
        Event::Ask(Question::Leave) => false,
        _ => entry.thread as usize == thread,
    }
}

/// Whether the last thing that a thread did was to put something at its port, if that was known before an entry.
fn says_behind(ports: &[u32], entry: &Entry, thread: usize, says: bool) -> bool
    ensures { result
        ≡ (if specified.is_deed thread entry.now then is_some (log_said.put_by ports.now entry.now) else says) }
{
    if is_deed(thread, entry) {
        put_by(ports, entry).is_some()
    } else {
        says
    }
}

/// Whether the last thing that a thread did in a log, but for its leave, was to put something at its port.
fn ends_saying(ports: &[u32], log: &[Entry], thread: usize) -> bool
    ensures { result ≡ specified.ends_saying ports.now log.now thread }
{
    let mut says = false;
    for entry in log {
        says = says_behind(ports, entry, thread, says);
    }
    says
}

/// The later one of a line and the one before it, of a thread's.
fn later<'s>(line: &'s Said, thread: usize, last: Option<&'s Said>) -> Option<&'s Said>
    ensures { option_map (λ s. s.now) result
        ≡ (if specified.is_by thread line.now then Some line.now else option_map (λ s. s.now) last.entry) }
{
    if line.thread == thread {
        Some(line)
    } else {
        last
    }
}

/// The last line that a thread said.
fn last_line(said: &[Said], thread: usize) -> Option<&Said>
    ensures { option_map (λ s. s.now) result ≡ specified.last_line said.now thread }
{
    let mut last = None;
    for line in said {
        last = later(line, thread, last);
    }
    last
}

/// The last line of what was said in a log by a thread, where the last thing that the thread did, but for its leave, was
/// to say something.
pub fn last_words<'s>(
    ports: &[u32],
    log: &[Entry],
    said: &'s [Said],
    thread: usize,
) -> Option<&'s Said>
    ensures { option_map (λ s. s.now) result ≡ specified.last_words ports.now log.now said.now thread }
{
    if ends_saying(ports, log, thread) {
        last_line(said, thread)
    } else {
        None
    }
}
