//! Calls by the index of a function (Core specification 1.0, sections 4.4.5 and 4.4.7), also of the imported function
//! that starts a thread (wasi-threads).

ghost use Rattle.std.specs.Prelude.{ℕ};
ghost use Rattle.types.specs.declared.instr.Instr.{Instr};
ghost use Rattle.types.specs.declared.instr.PlainInstr.{PlainInstr};
ghost use Rattle.interp_state.specs.Steps.{ComesNext, IsStep, StaysThere, Wanting, IsReplied};
ghost use Rattle.interp_calls.specs.Entering.{HasBodies};

use crate::entering::enter;
use crate::indices::top_i32;
use interp_state::{Progress, State, StepResult, came_to, pop};
use types::{Event, Instr, PlainInstr, Question};

/// `call`: the function is opened. An imported one starts a thread, and its argument stays till the question is asked.
#[inline(always)]
pub fn call(state: &mut State, function: u32) -> StepResult
    requires begins { ComesNext state.old (Instr.Plain (PlainInstr.Call function)) }
    requires bodies { HasBodies state.old }
    ensures step { IsStep state.old result state.new }
    ensures stays { StaysThere state.old result state.new }
{
    let function = function as usize;
    let imported = state.program.imported;
    if function < imported {
        let arg = top_i32(state.values.as_slice());
        return StepResult::Wants(Event::Ask(Question::Spawn { arg }));
    }
    came_to(enter(state, function - imported))
}

/// A `call` that starts a thread was asked: its argument goes, and the answer is due.
#[inline]
pub fn call_replied(state: &mut State, function: u32)
    requires { Wanting state.old (Instr.Plain (PlainInstr.Call function)) }
    ensures { (number : ℕ) → IsReplied state.old number state.new }
{
    pop(&mut state.values);
    state.pc += 1;
    state.progress = Progress::Asked;
}
