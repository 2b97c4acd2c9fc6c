//! Atomic instructions as steps of the thread machine.

ghost use Rattle.std.specs.Prelude.{◌≡◌, reverse};
ghost use Rattle.types.specs.declared.instr.Instr.{Instr};
ghost use Rattle.types.specs.declared.instr.PlainInstr.{PlainInstr};
ghost use Rattle.validate_typing.specs.Typing.{atomic_takes};
ghost use Rattle.interp_machine.specs.Program.{Program};
ghost use Rattle.interp_state.specs.Steps.{ComesNext, IsStep, Wanting, IsReplied};
ghost use Rattle.interp_state.specs.Words.{HasWords};
ghost use Rattle.interp_accesses.specs.Requests.{Wants};
ghost use Rattle.interp_accesses.specs.Wanted.{wants_or_traps};

use crate::replies::{await_answer, finish, give};
use crate::requests::{cmpxchg, load, notify, rmw, store, wait};
use interp_state::State;
use types::{AtomicOp, Event, MemArg, Trap};

/// The event that an atomic instruction wants, or its trap.
#[inline(always)]
pub(crate) fn request(
    values: &[u64],
    shared: bool,
    op: AtomicOp,
    arg: MemArg,
) -> Result<Event, Trap>
    requires { HasWords (atomic_takes op) (reverse values.now) }
    ensures { (p : Program) → p.shared ≡ shared → Wants p op arg (reverse values.now) result }
{
    match op {
        AtomicOp::Notify => notify(values, arg),
        AtomicOp::Wait(val_type) => wait(values, shared, val_type, arg),
        AtomicOp::Load(width) => load(values, width, arg),
        AtomicOp::Store(width) => store(values, width, arg),
        AtomicOp::Rmw(op, width) => rmw(values, op, width, arg),
        AtomicOp::Cmpxchg(width) => cmpxchg(values, width, arg),
    }
}

/// An atomic instruction wants its event, or traps. The operands stay until the reply.
#[inline(always)]
pub(crate) fn atomic(state: &State, op: AtomicOp, arg: MemArg) -> Result<Event, Trap>
    requires { ComesNext state.now (Instr.Plain (PlainInstr.Atomic op arg)) }
    ensures { IsStep state.now (wants_or_traps result) state.now }
{
    request(state.values.as_slice(), state.program.shared, op, arg)
}

/// The reply to an atomic instruction's event is taken. After `wait` and `notify` the answer is due.
#[inline(always)]
pub(crate) fn atomic_replied(state: &mut State, op: AtomicOp, arg: MemArg, number: u64)
    requires { Wanting state.old (Instr.Plain (PlainInstr.Atomic op arg)) }
    ensures { IsReplied state.old number state.new }
{
    match op {
        AtomicOp::Notify => await_answer(state, 2),
        AtomicOp::Wait(_) => await_answer(state, 3),
        AtomicOp::Load(width) => give(state, 1, width, number),
        AtomicOp::Store(_) => finish(state, 2),
        AtomicOp::Rmw(_, width) => give(state, 2, width, number),
        AtomicOp::Cmpxchg(width) => give(state, 3, width, number),
    }
}
