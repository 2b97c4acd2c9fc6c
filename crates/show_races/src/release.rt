//! What would order the first entry of a race.

ghost use Rattle.std.specs.Prelude.{◌≡◌, ◌<◌, length};
ghost use Rattle.race_history.specs.Accesses.{bytes_of, call_of, has_value, is_out_of_bounds};
ghost use Rattle.show_races.specs.Releases as specified;
ghost use Rattle.show_races.specs.Releases.{IsNextWrite, tells};

use race_history::{Site, bytes_of};
use types::{Entry, Event, Question, Reply};

/// What a refused `Grow` gets.
const REFUSED: u64 = 4294967295;

/// Whether the entry's access to bytes is an atomic write.
fn writes_bytes(entry: &Entry, site: &Site) -> bool
    ensures { result ≡ tells (bytes_of entry.now site.now) }
{
    match bytes_of(entry, site) {
        Some(access) => access.atomic && access.writes,
        None => false,
    }
}

/// Whether the event ended past the memory's length.
fn is_outside(reply: Reply) -> bool
    ensures { result ≡ is_out_of_bounds reply }
{
    match reply {
        Reply::OutOfBounds => true,
        _ => false,
    }
}

/// Whether the entry enters a list of waiters, or counts threads.
fn enters(entry: &Entry) -> bool
    ensures { result ≡ tells (call_of entry.now) }
{
    if is_outside(entry.reply) {
        return false;
    }
    match entry.event {
        Event::Ask(
            Question::Wait {
                addr: _,
                width: _,
                expected: _,
                timeout: _,
            },
        ) => true,
        Event::Ask(Question::Notify { addr: _, count: _ }) => true,
        Event::Ask(Question::Spawn { arg: _ }) => true,
        _ => false,
    }
}

/// Whether it was refused.
fn is_refused(reply: Reply) -> bool
    ensures { result ≡ has_value reply 4294967295 }
{
    match reply {
        Reply::Value(v) => v == REFUSED,
        _ => false,
    }
}

/// Whether the entry changes the number of pages.
pub fn changes_pages(entry: &Entry) -> bool
    ensures { result ≡ specified.changes_pages entry.now }
{
    match entry.event {
        Event::Grow(_) => !is_refused(entry.reply),
        _ => false,
    }
}

/// Whether the entry at a place is an atomic write of this thread, of bytes or at another location.
fn is_atomic_write(log: &[Entry], sites: &[Site], thread: u32, at: usize) -> bool
    ensures { result ≡ specified.is_atomic_write log.now sites.now thread at }
{
    let (Some(entry), Some(site)) = (log.get(at), sites.get(at)) else {
        return false;
    };
    entry.thread == thread && (writes_bytes(entry, site) || enters(entry) || changes_pages(entry))
}

/// The place of a thread's next atomic write behind a place, of bytes or at another location, if it makes one.
pub fn next_atomic_write(log: &[Entry], sites: &[Site], thread: u32, first: usize) -> Option<usize>
    requires { first < length log.now }
    ensures { IsNextWrite log.now sites.now thread first result }
{
    for at in first + 1..log.len() {
        if is_atomic_write(log, sites, thread, at) {
            return Some(at);
        }
    }
    None
}
