//! The event that a thread wants, made.

ghost use Rattle.std.specs.Prelude.{IfOk};
ghost use Rattle.search_parts.specs.Threads.{IsInCall, IsEventIn};

use crate::event::{Effect, entered};
use crate::shared::{Common, HashedThread};
use crate::wants::wanted;
use search_memory::step;
use std::alloc::{AllocError, Global};
use validate_module::ValidModule;

/// The event that thread n wants to make, if it wants one: what is shared after it, and what it makes.
///
/// # Errors
/// Where memory is refused.
pub fn make_event(
    alloc: Global,
    valid: &ValidModule,
    opening: &[u8],
    shared: &Common,
    thread: &HashedThread,
    n: usize,
) -> Result<Option<(Common, Effect)>, AllocError>
    requires { IsInCall valid.now opening.now shared.now thread.now.standing n }
    ensures { IfOk result (IsEventIn valid.now opening.now shared.now thread.now.standing n) }
{
    let Some(event) = wanted(&thread.standing) else {
        return Ok(None);
    };
    let (memory, reply) = step(alloc, opening, &shared.memory, &event)?;
    let (queue, made) = entered(alloc, &shared.queue, n as u32, &event, reply)?;
    Ok(Some((Common::new(memory, queue), made)))
}
