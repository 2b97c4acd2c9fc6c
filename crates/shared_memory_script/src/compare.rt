//! A shared memory beside the sequential one.
ghost use Rattle.std.specs.Prelude.{◌≡◌, false};
ghost use Rattle.shared_memory.specs.Events.{IsEvent, is_of_queue};
ghost use Rattle.shared_memory.specs.History.{memory_after};
ghost use Rattle.shared_memory.specs.Legal.{IsMemoryLegal};

use crate::conditions::is_of_memory;
use shared_memory::{SharedMemory, is_event};
use shared_memory_sequential::OneMemory;
use types::{Entry, Event, Reply};

/// How often an event is tried where its tries are lost to other threads.
const MOST_TRIES: u32 = 1_000_000;

/// Makes an event of the memory, again and again while its tries are lost, and answers the last reply.
pub fn make<M: SharedMemory>(memory: &M, seat: &mut M::Seat, event: Event) -> Reply
    requires event { IsEvent event }
    requires plain { is_of_queue event ≡ false }
{
    for _ in 0..MOST_TRIES {
        let reply = memory.access(seat, event);
        if reply != Reply::Again {
            return reply;
        }
    }
    Reply::Again
}

/// Makes each event of a script through a seat and on the sequential memory, and answers the place of the first one
/// whose replies differ. What is no event of the memory is passed over.
///
/// Both memories should be alike at first, and no other seat in use meanwhile.
pub fn agree<M: SharedMemory>(
    memory: &M,
    seat: &mut M::Seat,
    one: &mut OneMemory,
    script: &[Event],
) -> Option<usize> {
    for (i, event) in script.iter().enumerate() {
        if is_event(*event) && is_of_memory(event) {
            let reply = make(memory, seat, *event);
            if reply != one.step(event) {
                return Some(i);
            }
        }
    }
    None
}

/// Steps the events of a log on the sequential memory, and answers the place of the first entry whose event doesn't
/// meet the conditions on events or whose reply isn't the sequential memory's.
pub fn replay(log: &[Entry], one: &mut OneMemory) -> Option<usize>
    ensures legal { result ≡ None → IsMemoryLegal one.old log.now }
    ensures after { result ≡ None → one.new ≡ memory_after one.old log.now }
{
    for (i, entry) in log.iter().enumerate() {
        if !is_event(entry.event) || one.step(&entry.event) != entry.reply {
            return Some(i);
        }
    }
    None
}
