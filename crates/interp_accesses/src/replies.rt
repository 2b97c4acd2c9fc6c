//! What the reply to an atomic instruction's event makes of a thread.

ghost use Rattle.std.specs.Prelude.{◌≤◌, ◌<◌, [], ◌∷◌, length};
ghost use Rattle.types.specs.declared.limits.TheConstants.{MOST_VALUES};
ghost use Rattle.interp_state.specs.declared.state.Progress.{Progress};
ghost use Rattle.interp_machine.specs.Access.{answered_value};
ghost use Rattle.interp_state.specs.Words.{word_of};
ghost use Rattle.interp_accesses.specs.Replies.{Settles};

use crate::atomic_operands::{answered, drop_top};
use interp_state::{Progress, State, push};
use types::AccessWidth;

/// The operands go, and the instruction is done.
#[inline]
pub(crate) fn finish(state: &mut State, taken: usize)
    requires operands { taken ≤ length state.old.values.items }
    requires inside { state.old.pc < length state.old.code.now }
    ensures { Settles state.old state.new taken [] state.old.progress }
{
    drop_top(&mut state.values, taken);
    state.pc += 1;
}

/// The operands go, and the answer to the question is due.
#[inline]
pub(crate) fn await_answer(state: &mut State, taken: usize)
    requires operands { taken ≤ length state.old.values.items }
    requires inside { state.old.pc < length state.old.code.now }
    ensures { Settles state.old state.new taken [] Progress.Asked }
{
    finish(state, taken);
    state.progress = Progress::Asked;
}

/// The number that the access answered takes the place of the operands.
#[inline]
pub(crate) fn give(state: &mut State, taken: usize, width: AccessWidth, number: u64)
    requires some { 0 < taken }
    requires operands { taken ≤ length state.old.values.items }
    requires room { length state.old.values.items ≤ MOST_VALUES }
    requires inside { state.old.pc < length state.old.code.now }
    ensures { Settles state.old state.new taken (word_of (answered_value width number) ∷ []) state.old.progress }
{
    finish(state, taken);
    push(&mut state.values, answered(width, number));
}
