//! An event on a memory that is given by its changes.

ghost use Rattle.std.specs.Prelude.{◌≡◌, ◌≤◌, ◌+◌, ◌==◌, ◌&&◌, nat_le, length, fold, IfOk};
ghost use Rattle.shared_memory.specs.Events.{IsEvent};
ghost use Rattle.shared_memory.specs.Memory.{can_grow, loaded, reply_of};
ghost use Rattle.shared_memory_sequential.specs.Opening.{IsSized};
ghost use Rattle.search_memory.specs.Memories.{memory_of, with_change, AreAfter, StayDifferences};

use crate::beside::{ChangedByte, Changes, changes_in, padded};
use crate::looking::ChangedMemory;
use shared_memory_sequential::{OneMemory, OpenFault, combine};
use std::alloc::{AllocError, Global};
use types::{Event, Reply};

/// Makes a change.
fn change(bytes: &mut [u8], change: ChangedByte)
    ensures { bytes.new ≡ with_change bytes.old change }
{
    if change.at < bytes.len() {
        bytes[change.at] = change.byte;
    }
}

/// Makes the changes.
fn change_all(bytes: &mut [u8], changes: &[ChangedByte])
    ensures { bytes.new ≡ fold with_change bytes.old changes.now }
{
    for one in changes {
        change(bytes, *one);
    }
}

/// The memory with these changes.
///
/// # Errors
/// Where memory is refused.
pub fn memory(alloc: Global, opening: &[u8], changed: &Changes) -> Result<OneMemory, AllocError>
    requires { IsSized (memory_of opening.now changed.now) }
    ensures { IfOk result (λ m. m ≡ memory_of opening.now changed.now) }
{
    let mut bytes = padded(alloc, opening, changed.len)?;
    change_all(&mut bytes, changed.changes.as_slice());
    match OneMemory::open(alloc, bytes.as_slice(), changed.max) {
        Ok(memory) => Ok(memory),
        Err(OpenFault::NoMemory) => Err(AllocError),
        Err(OpenFault::PastLimit) => unreachable!(),
    }
}

/// Whether so many bytes at an address lie within the memory with these changes and hold this number.
pub fn holds(opening: &[u8], changed: &Changes, addr: u64, width: u8, number: u64) -> bool
    requires { width ≤ 8 }
    ensures { result ≡ (nat_le (addr + width) (length (memory_of opening.now changed.now).bytes)
        && (loaded (memory_of opening.now changed.now) addr width == number)) }
{
    let beside = ChangedMemory { opening, changed };
    beside.is_within(addr, width) && beside.number_at(addr, width) == number
}

/// Whether so many more pages fit under the memory's maximum.
pub fn can_grow(opening: &[u8], changed: &Changes, more: u32) -> bool
    ensures { result ≡ can_grow (memory_of opening.now changed.now) more }
{
    ChangedMemory { opening, changed }.can_grow(more)
}

/// The changes after `memory.grow`, by the whole memory.
fn grown(
    alloc: Global,
    opening: &[u8],
    changed: &Changes,
    event: &Event,
) -> Result<Changes, AllocError>
    requires sized { IsSized (memory_of opening.now changed.now) }
    requires event { IsEvent event.now }
    ensures after { IfOk result (AreAfter opening.now changed.now event.now) }
    ensures sized { IfOk result (λ c. IsSized (memory_of opening.now c)) }
    ensures differences { IfOk result (StayDifferences opening.now changed.now) }
{
    let mut memory = memory(alloc, opening, changed)?;
    memory.step(event);
    changes_in(alloc, opening, &memory)
}

/// The changes after an event.
fn after(
    alloc: Global,
    opening: &[u8],
    changed: &Changes,
    event: &Event,
) -> Result<Changes, AllocError>
    requires sized { IsSized (memory_of opening.now changed.now) }
    requires event { IsEvent event.now }
    ensures after { IfOk result (AreAfter opening.now changed.now event.now) }
    ensures sized { IfOk result (λ c. IsSized (memory_of opening.now c)) }
    ensures differences { IfOk result (StayDifferences opening.now changed.now) }
{
    let beside = ChangedMemory { opening, changed };
    match *event {
        Event::Store {
            addr,
            width,
            reach,
            value,
        } if beside.ends_within(reach) => beside.written(alloc, addr, width, value),
        Event::Rmw {
            op,
            addr,
            width,
            value,
        } if beside.is_within(addr, width) => {
            let old = beside.number_at(addr, width);
            beside.written(alloc, addr, width, combine(op, width, old, value))
        }
        Event::Cmpxchg {
            addr,
            width,
            expected,
            replacement,
        } if beside.is_within(addr, width) && beside.number_at(addr, width) == expected => {
            beside.written(alloc, addr, width, replacement)
        }
        Event::Grow(_) => grown(alloc, opening, changed, event),
        _ => changed.copy(alloc),
    }
}

/// Makes an event on the memory with these changes: the changes after it, and the reply.
///
/// # Errors
/// Where memory is refused.
pub fn step(
    alloc: Global,
    opening: &[u8],
    changed: &Changes,
    event: &Event,
) -> Result<(Changes, Reply), AllocError>
    requires sized { IsSized (memory_of opening.now changed.now) }
    requires event { IsEvent event.now }
    ensures after { IfOk result (λ r. AreAfter opening.now changed.now event.now r.0) }
    ensures sized { IfOk result (λ r. IsSized (memory_of opening.now r.0)) }
    ensures differences { IfOk result (λ r. StayDifferences opening.now changed.now r.0) }
    ensures reply { IfOk result (λ r. r.1 ≡ reply_of (memory_of opening.now changed.now) event.now) }
{
    let reply = ChangedMemory { opening, changed }.reply(event);
    Ok((after(alloc, opening, changed, event)?, reply))
}
