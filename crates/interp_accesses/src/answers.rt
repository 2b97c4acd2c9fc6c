//! Answers to questions.

ghost use Rattle.std.specs.Prelude.{◌≡◌};
ghost use Rattle.interp_state.specs.declared.state.Progress.TheVariants.{Asked};
ghost use Rattle.interp_state.specs.Steps.{IsSound, IsTold};

use interp_state::{Progress, State, push};

/// The answer to the question that was asked comes onto the stack.
#[inline]
pub fn hear(state: &mut State, number: u32)
    requires sound { IsSound state.old }
    requires due { state.old.progress ≡ Asked }
    ensures { IsTold state.old number state.new }
{
    push(&mut state.values, u64::from(number));
    state.progress = Progress::Fresh;
}
