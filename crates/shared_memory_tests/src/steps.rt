//! Events that one seat of any memory makes, with the replies that they have to get.

use shared_memory::{SharedMemory, is_event};
use shared_memory_script::is_of_memory;
use std::test::Fail;
use types::{Event, Reply};

/// Makes events of the memory, each of which has its reply.
pub(crate) fn follow<M: SharedMemory>(
    memory: &M,
    seat: &mut M::Seat,
    steps: &[(Event, Reply)],
) -> Result<(), Fail> {
    for (place, (event, reply)) in steps.iter().enumerate() {
        let allowed = is_event(*event) && is_of_memory(event);
        if !allowed || memory.access(seat, *event) != *reply {
            return Err(Fail::new(format_args!("{place}: {event:?}")));
        }
    }
    Ok(())
}
