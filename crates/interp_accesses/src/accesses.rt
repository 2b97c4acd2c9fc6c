//! Accesses, plain and atomic ones.

ghost use Rattle.interp_state.specs.Steps.{IsReplied, IsStep, Wanting};
ghost use Rattle.interp_accesses.specs.Wanted.{instr_of, wants_or_traps, IsDue};

use crate::loads::{load, load_replied};
use crate::steps::{atomic, atomic_replied};
use crate::stores::{store, store_replied};
use interp_state::State;
use types::{AccessWidth, AtomicOp, Event, LoadOp, MemArg, Trap};

/// An instruction that reads or writes the memory, or asks a question by its bytes.
#[derive(Clone, Copy)]
pub enum Access {
    Load(LoadOp, MemArg),
    Store(AccessWidth, MemArg),
    Atomic(AtomicOp, MemArg),
}

/// The event that an access wants, or its trap. The operands stay until the reply.
#[inline(always)]
pub fn wanted(state: &State, access: Access) -> Result<Event, Trap>
    requires { IsDue state.now access }
    ensures { IsStep state.now (wants_or_traps result) state.now }
{
    match access {
        Access::Load(op, arg) => Ok(load(state, op, arg)),
        Access::Store(width, arg) => Ok(store(state, width, arg)),
        Access::Atomic(op, arg) => atomic(state, op, arg),
    }
}

/// The reply to the event of an access is taken. After `wait` and `notify` the answer is due.
#[inline(always)]
pub fn access_replied(state: &mut State, access: Access, number: u64)
    requires { Wanting state.old (instr_of access) }
    ensures { IsReplied state.old number state.new }
{
    match access {
        Access::Load(op, arg) => load_replied(state, op, arg, number),
        Access::Store(width, arg) => store_replied(state, width, arg),
        Access::Atomic(op, arg) => atomic_replied(state, op, arg, number),
    }
}
