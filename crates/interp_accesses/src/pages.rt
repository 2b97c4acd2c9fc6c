//! The size of the memory (Core specification 1.0, sections 4.4.4.3 and 4.4.4.4), in pages of 65,536 bytes.

ghost use Rattle.types.specs.declared.instr.Instr.{Instr};
ghost use Rattle.types.specs.declared.instr.PlainInstr.{PlainInstr};
ghost use Rattle.interp_state.specs.Steps.{ComesNext, Wanting, IsStep, StaysThere, IsReplied};

use crate::operands::replace_top;
use interp_numeric::i32_wrap_i64;
use interp_state::{State, StepResult, push, top_i32};
use types::{Event, Instr, MOST_VALUES, PlainInstr, Trap};

/// `memory.size` wants the number of pages, where there is room for it on the stack.
#[inline]
pub fn memory_size(state: &mut State) -> StepResult
    requires { ComesNext state.old (Instr.Plain PlainInstr.MemorySize) }
    ensures step { IsStep state.old result state.new }
    ensures stays { StaysThere state.old result state.new }
{
    if state.values.len() == MOST_VALUES {
        return StepResult::Trapped(Trap::StackExhausted);
    }
    StepResult::Wants(Event::Size)
}

/// The number of pages comes onto the stack.
#[inline]
pub fn memory_size_replied(state: &mut State, number: u64)
    requires { Wanting state.old (Instr.Plain PlainInstr.MemorySize) }
    ensures { IsReplied state.old number state.new }
{
    push(&mut state.values, u64::from(i32_wrap_i64(number)));
    state.pc += 1;
}

/// `memory.grow` wants as many more pages as the number on top says.
#[inline]
pub fn memory_grow(state: &mut State) -> StepResult
    requires { ComesNext state.old (Instr.Plain PlainInstr.MemoryGrow) }
    ensures step { IsStep state.old result state.new }
    ensures stays { StaysThere state.old result state.new }
{
    StepResult::Wants(Event::Grow(top_i32(&state.values)))
}

/// The number of pages before, or 2^32 - 1 where the memory didn't grow, replaces the number of those that were wanted.
#[inline]
pub fn memory_grow_replied(state: &mut State, number: u64)
    requires { Wanting state.old (Instr.Plain PlainInstr.MemoryGrow) }
    ensures { IsReplied state.old number state.new }
{
    replace_top(state, u64::from(i32_wrap_i64(number)));
}
