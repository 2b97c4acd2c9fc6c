//! The events that atomic instructions want. The operands stay where they are.

ghost use Rattle.std.specs.Prelude.{◌≡◌, reverse};
ghost use Rattle.types.specs.declared.operators.AtomicOp.{AtomicOp};
ghost use Rattle.validate_typing.specs.Typing.{atomic_takes};
ghost use Rattle.interp_machine.specs.Program.{Program};
ghost use Rattle.interp_state.specs.Words.{HasWords};
ghost use Rattle.interp_accesses.specs.Requests.{Wants};

use crate::atomic_operands::{address_at, i32_at, number_at};
use shared_memory_sequential::low_bytes;
use types::{AccessWidth, Event, MemArg, Question, RmwOp, Trap, ValType};

/// `memory.atomic.notify`
#[inline]
pub(crate) fn notify(values: &[u64], arg: MemArg) -> Result<Event, Trap>
    requires { HasWords (atomic_takes AtomicOp.Notify) (reverse values.now) }
    ensures { (p : Program) → Wants p AtomicOp.Notify arg (reverse values.now) result }
{
    let addr = address_at(values, 1, arg, 4)?;
    Ok(Event::Ask(Question::Notify {
        addr,
        count: i32_at(values, 0),
    }))
}

/// `memory.atomic.wait32` and `memory.atomic.wait64`: only in a shared memory.
#[inline]
pub(crate) fn wait(
    values: &[u64],
    shared: bool,
    val_type: ValType,
    arg: MemArg,
) -> Result<Event, Trap>
    requires { HasWords (atomic_takes (AtomicOp.Wait val_type)) (reverse values.now) }
    ensures { (p : Program) → p.shared ≡ shared → Wants p (AtomicOp.Wait val_type) arg (reverse values.now) result }
{
    let width = val_type.bytes();
    let addr = address_at(values, 2, arg, width)?;
    if !shared {
        return Err(Trap::NotShared);
    }
    Ok(Event::Ask(Question::Wait {
        addr,
        width,
        expected: number_at(values, 1),
        timeout: number_at(values, 0).cast_signed(),
    }))
}

/// An atomic load.
#[inline]
pub(crate) fn load(values: &[u64], width: AccessWidth, arg: MemArg) -> Result<Event, Trap>
    requires { HasWords (atomic_takes (AtomicOp.Load width)) (reverse values.now) }
    ensures { (p : Program) → Wants p (AtomicOp.Load width) arg (reverse values.now) result }
{
    let bytes = width.bytes();
    let addr = address_at(values, 0, arg, bytes)?;
    Ok(Event::Load {
        addr,
        width: bytes,
        reach: addr + u64::from(bytes),
    })
}

/// An atomic store.
#[inline]
pub(crate) fn store(values: &[u64], width: AccessWidth, arg: MemArg) -> Result<Event, Trap>
    requires { HasWords (atomic_takes (AtomicOp.Store width)) (reverse values.now) }
    ensures { (p : Program) → Wants p (AtomicOp.Store width) arg (reverse values.now) result }
{
    let bytes = width.bytes();
    let addr = address_at(values, 1, arg, bytes)?;
    Ok(Event::Store {
        addr,
        width: bytes,
        reach: addr + u64::from(bytes),
        value: low_bytes(number_at(values, 0), bytes),
    })
}

/// A read-modify-write.
#[inline]
pub(crate) fn rmw(values: &[u64], op: RmwOp, width: AccessWidth, arg: MemArg) -> Result<Event, Trap>
    requires { HasWords (atomic_takes (AtomicOp.Rmw op width)) (reverse values.now) }
    ensures { (p : Program) → Wants p (AtomicOp.Rmw op width) arg (reverse values.now) result }
{
    let bytes = width.bytes();
    let addr = address_at(values, 1, arg, bytes)?;
    let operand = number_at(values, 0);
    Ok(Event::Rmw {
        op,
        addr,
        width: bytes,
        value: low_bytes(operand, bytes),
    })
}

/// A compare-exchange: the expected number is compared as a whole.
#[inline]
pub(crate) fn cmpxchg(values: &[u64], width: AccessWidth, arg: MemArg) -> Result<Event, Trap>
    requires { HasWords (atomic_takes (AtomicOp.Cmpxchg width)) (reverse values.now) }
    ensures { (p : Program) → Wants p (AtomicOp.Cmpxchg width) arg (reverse values.now) result }
{
    let bytes = width.bytes();
    let addr = address_at(values, 2, arg, bytes)?;
    let (expected, replacement) = (number_at(values, 1), number_at(values, 0));
    Ok(Event::Cmpxchg {
        addr,
        width: bytes,
        expected,
        replacement: low_bytes(replacement, bytes),
    })
}
