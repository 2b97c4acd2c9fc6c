//! What an instruction came to.

ghost use Rattle.std.specs.Prelude.{◌≡◌};
ghost use Rattle.interp_state.specs.Steps.{came_to};

use crate::state::StepResult;
use types::Trap;

/// What an instruction came to that moves on or traps.
#[inline]
pub fn came_to(trap: Option<Trap>) -> StepResult
    ensures { result ≡ came_to trap }
{
    match trap {
        None => StepResult::Moved,
        Some(trap) => StepResult::Trapped(trap),
    }
}
