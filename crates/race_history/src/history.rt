//! Whether a list of entries is a history.
ghost use Rattle.std.specs.Prelude.{◌≡◌, ◌↔◌, IsTrue, true};
ghost use Rattle.shared_memory.specs.History.{AreEntries, IsEntry};
ghost use Rattle.shared_memory.specs.Legal.{IsAllowed, IsQueueLegal};

use crate::calls::enter;
use shared_memory::is_event;
use types::{DESK_NAME, Entry, Event, MOST_THREADS};
use waiters::Queue;

/// Whether an entry has a thread's name, and its event meets the conditions on events.
fn is_entry(entry: &Entry) -> bool
    ensures { IsTrue result ↔ IsEntry entry.now }
{
    entry.thread <= DESK_NAME && is_event(entry.event)
}

/// Whether the queue allows an entry: a question is of a live thread without an open one, and an answer is the one due.
fn is_allowed(queue: &Queue, entry: &Entry) -> bool
    ensures { IsTrue result ↔ IsAllowed queue.now entry.now.thread entry.now.event }
{
    match entry.event {
        Event::Ask(_) => { queue.is_alive(entry.thread) && !queue.has_open_question(entry.thread) }
        Event::Told(answer) => queue.due(entry.thread) == Some(answer),
        _ => true,
    }
}

/// Whether a list of entries is a history of threads, as `races_of` takes it: its entries meet the conditions on
/// entries, and the wait queue allows its calls.
pub fn is_history(log: &[Entry]) -> bool
    ensures { IsTrue result ↔ (AreEntries log.now × IsQueueLegal log.now) }
{
    let mut queue = Queue::new(MOST_THREADS as u32);
    for entry in log {
        if !is_entry(entry) || !is_allowed(&queue, entry) {
            return false;
        }
        enter(&mut queue, entry);
    }
    true
}
