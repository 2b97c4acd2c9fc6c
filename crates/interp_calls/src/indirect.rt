//! Calls through the table (Core specification 1.0, sections 4.4.5 and 4.4.7), also of the imported function that
//! starts a thread (wasi-threads).

ghost use Rattle.std.specs.Prelude.{ℕ};
ghost use Rattle.types.specs.declared.instr.Instr.{Instr};
ghost use Rattle.types.specs.declared.instr.PlainInstr.{PlainInstr};
ghost use Rattle.interp_state.specs.Steps.{ComesNext, IsStep, StaysThere, Wanting, IsReplied};
ghost use Rattle.interp_calls.specs.Entering.{HasBodies};

use crate::entering::enter;
use crate::indices::{element_at, is_of_type, top_i32};
use interp_state::{Progress, State, StepResult, came_to, pop};
use types::{Event, Instr, PlainInstr, Question, Trap};

/// `call_indirect`: the function at a place of the table, where it has the stated type.
#[inline]
pub fn call_indirect(state: &mut State, type_index: u32) -> StepResult
    requires begins { ComesNext state.old (Instr.Plain (PlainInstr.CallIndirect type_index)) }
    requires bodies { HasBodies state.old }
    ensures step { IsStep state.old result state.new }
    ensures stays { StaysThere state.old result state.new }
{
    let place = top_i32(state.values.as_slice());
    let function = match element_at(state.program.elements.as_slice(), place as usize) {
        None => return StepResult::Trapped(Trap::UndefinedElement),
        Some(None) => return StepResult::Trapped(Trap::UninitializedElement),
        Some(Some(function)) => function as usize,
    };
    if !is_of_type(&state.program, function, type_index as usize) {
        return StepResult::Trapped(Trap::SignatureMismatch);
    }
    let imported = state.program.imported;
    if function < imported {
        let arg = top_i32(&state.values[..state.values.len() - 1]);
        return StepResult::Wants(Event::Ask(Question::Spawn { arg }));
    }
    pop(&mut state.values);
    came_to(enter(state, function - imported))
}

/// A `call_indirect` that starts a thread was asked: the place in the table and the argument go, and the answer is due.
#[inline]
pub fn call_indirect_replied(state: &mut State, type_index: u32)
    requires { Wanting state.old (Instr.Plain (PlainInstr.CallIndirect type_index)) }
    ensures { (number : ℕ) → IsReplied state.old number state.new }
{
    pop(&mut state.values);
    pop(&mut state.values);
    state.pc += 1;
    state.progress = Progress::Asked;
}
