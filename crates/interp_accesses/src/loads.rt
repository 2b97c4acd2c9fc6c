//! Plain loads.

ghost use Rattle.types.specs.declared.instr.Instr.{Instr};
ghost use Rattle.types.specs.declared.instr.PlainInstr.{PlainInstr};
ghost use Rattle.interp_state.specs.declared.state.StepResult.{StepResult};
ghost use Rattle.interp_state.specs.Steps.{Continues, Wanting, IsStep, IsReplied};

use crate::loaded::loaded;
use crate::operands::{effective, replace_top};
use crate::parts::{high_load, is_in_one_word, join, low_load};
use interp_state::{Progress, State, top_i32};
use types::{Event, LoadOp, MemArg};

/// A load wants the number of its first word, and then that of the second one, where it touches two.
#[inline(always)]
pub(crate) fn load(state: &State, op: LoadOp, arg: MemArg) -> Event
    requires { Continues state.now (Instr.Plain (PlainInstr.Load op arg)) }
    ensures { IsStep state.now (StepResult.Wants result) state.now }
{
    let addr = effective(top_i32(&state.values), arg);
    match state.progress {
        Progress::Fresh => low_load(addr, op.bytes()),
        Progress::Halfway(_) => high_load(addr, op.bytes()),
        Progress::Asked => unreachable!(),
    }
}

/// The number that a load wanted is there: the word of the value replaces the address as soon as all parts are.
#[inline(always)]
pub(crate) fn load_replied(state: &mut State, op: LoadOp, arg: MemArg, number: u64)
    requires { Wanting state.old (Instr.Plain (PlainInstr.Load op arg)) }
    ensures { IsReplied state.old number state.new }
{
    let addr = effective(top_i32(&state.values), arg);
    match state.progress {
        Progress::Fresh => {
            if is_in_one_word(addr, op.bytes()) {
                replace_top(state, loaded(op, number));
            } else {
                state.progress = Progress::Halfway(number);
            }
        }
        Progress::Halfway(low) => {
            replace_top(state, loaded(op, join(addr, op.bytes(), low, number)));
        }
        Progress::Asked => unreachable!(),
    }
}
