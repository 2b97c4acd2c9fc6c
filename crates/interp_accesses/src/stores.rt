//! Plain stores.

ghost use Rattle.std.specs.Prelude.{ℕ};
ghost use Rattle.types.specs.declared.instr.Instr.{Instr};
ghost use Rattle.types.specs.declared.instr.PlainInstr.{PlainInstr};
ghost use Rattle.interp_state.specs.declared.state.StepResult.{StepResult};
ghost use Rattle.interp_state.specs.Steps.{Continues, Wanting, IsStep, IsReplied};

use crate::operands::{drop_two, effective, top_two};
use crate::parts::{high_store, is_in_one_word, low_store};
use interp_state::{Progress, State};
use types::{AccessWidth, Event, MemArg};

/// A store wants its part in the first word written, and then that in the second one, where it touches two.
#[inline(always)]
pub(crate) fn store(state: &State, width: AccessWidth, arg: MemArg) -> Event
    requires { Continues state.now (Instr.Plain (PlainInstr.Store width arg)) }
    ensures { IsStep state.now (StepResult.Wants result) state.now }
{
    let (base, number) = top_two(&state.values);
    let addr = effective(base, arg);
    match state.progress {
        Progress::Fresh => low_store(addr, width.bytes(), number),
        Progress::Halfway(_) => high_store(addr, width.bytes(), number),
        Progress::Asked => unreachable!(),
    }
}

/// The part that a store wanted written is: the value and the address go as soon as all parts are.
#[inline(always)]
pub(crate) fn store_replied(state: &mut State, width: AccessWidth, arg: MemArg)
    requires { Wanting state.old (Instr.Plain (PlainInstr.Store width arg)) }
    ensures { (number : ℕ) → IsReplied state.old number state.new }
{
    match state.progress {
        Progress::Fresh => {
            let (base, _) = top_two(&state.values);
            if is_in_one_word(effective(base, arg), width.bytes()) {
                drop_two(state);
            } else {
                state.progress = Progress::Halfway(0);
            }
        }
        Progress::Halfway(_) => drop_two(state),
        Progress::Asked => unreachable!(),
    }
}
