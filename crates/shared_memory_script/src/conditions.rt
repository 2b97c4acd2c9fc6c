//! Which events are of the memory.
ghost use Rattle.std.specs.Prelude.{◌≡◌, not};
ghost use Rattle.shared_memory.specs.Events.{is_of_queue};

use types::Event;

/// Whether an event is of the memory, and neither a question nor an answer taken.
pub fn is_of_memory(event: &Event) -> bool
    ensures { result ≡ not (is_of_queue event.now) }
{
    !matches!(*event, Event::Ask(_) | Event::Told(_))
}
