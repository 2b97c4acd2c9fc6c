//! The operands of a memory instruction, and the state behind it.

ghost use Rattle.std.specs.Prelude.{◌≡◌, ◌+◌, ◌<◌, ◌≤◌, [], ◌∷◌, length, reverse};
ghost use Rattle.types.specs.declared.value.ValType.{ValType};
ghost use Rattle.interp_state.specs.Words.{HasWords};
ghost use Rattle.interp_accesses.specs.Done.{IsDone, AreTop};

use interp_state::{Progress, State, pop, push};
use types::MemArg;

/// The topmost number, of either type, and the number of 32 bits below it, which comes first in the answer. Both stay.
#[inline]
pub(crate) fn top_two(values: &[u64]) -> (u32, u64)
    requires { (t : ValType) × HasWords (t ∷ (ValType.I32 ∷ [])) (reverse values.now) }
    ensures { AreTop (reverse values.now) result.0 result.1 }
{
    match values {
        [.., base, number] => (*base as u32, *number),
        _ => unreachable!(),
    }
}

/// The effective address: the operand and the offset, without wrapping.
#[inline]
pub(crate) fn effective(base: u32, arg: MemArg) -> u64
    ensures { result ≡ base + arg.offset }
{
    u64::from(base) + u64::from(arg.offset)
}

/// The topmost word is replaced, and the next instruction comes.
#[inline]
pub(crate) fn replace_top(state: &mut State, word: u64)
    requires here { state.old.pc < length state.old.code.now }
    requires some { 0 < length state.old.values.items }
    ensures { IsDone 1 (word ∷ []) state.old state.new }
{
    pop(&mut state.values);
    push(&mut state.values, word);
    state.pc += 1;
    state.progress = Progress::Fresh;
}

/// The two topmost words go, and the next instruction comes.
#[inline]
pub(crate) fn drop_two(state: &mut State)
    requires here { state.old.pc < length state.old.code.now }
    requires two { 2 ≤ length state.old.values.items }
    ensures { IsDone 2 [] state.old state.new }
{
    pop(&mut state.values);
    pop(&mut state.values);
    state.pc += 1;
    state.progress = Progress::Fresh;
}
