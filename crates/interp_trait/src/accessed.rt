//! A memory as a thread accesses it.

ghost use Rattle.std.specs.Prelude.{◌≡◌, true};
ghost use Rattle.shared_memory.specs.Events.{IsEvent, is_of_queue};
ghost use Rattle.shared_memory.specs.Legal.{MayEnter};
ghost use Rattle.shared_memory.specs.Access.{Accesses, lost_after};

use shared_memory::SharedMemory;
use types::{Event, Reply};

/// A memory that a thread accesses through its seat. A seat of a `SharedMemory` may go to another thread. That isn't
/// asked of one here, since the prover has no call that asks it in a method of a trait's `impl`.
pub trait Accessed {
    ghost use Rattle.shared_memory.specs.declared.memory.SharedMemory.{Ghosts};

    /// The caller's place at the memory.
    type Seat: Drop;

    /// What it is as a shared memory.
    ghost memory: { Ghosts Self Self.Seat };

    /// The number under which a seat enters.
    fn name(&self, seat: &Self::Seat) -> u32
        ensures { result ≡ memory.name seat.now };

    /// Makes one try of an event, as `SharedMemory::access` does.
    fn access(&self, seat: &mut Self::Seat, event: Event) -> Reply
        requires event { IsEvent event }
        requires right { is_of_queue event ≡ true → memory.has_queue_right seat.old ≡ true }
        requires allowed { is_of_queue event ≡ true → MayEnter (memory.name seat.old) event (memory.seen seat.old) }
        ensures name { memory.name seat.new ≡ memory.name seat.old }
        ensures right { memory.has_queue_right seat.new ≡ memory.has_queue_right seat.old }
        ensures outcome { Accesses memory.LOSES memory.opening (memory.limit self.now) (memory.name seat.old)
            (memory.has_queue_right seat.old) event (memory.seen seat.old) (memory.seen seat.new) result }
        ensures tries { memory.lost seat.new ≡ lost_after result (memory.lost seat.old) };
}

/// A shared memory, lent to a thread.
#[derive(Clone, Copy)]
pub struct Lent<'a, M> {
    pub memory: &'a M,
}

impl<M: SharedMemory> Accessed for Lent<'_, M> {
    type Seat = M::Seat;

    ghost memory = { record {
      LOSES = M.LOSES;
      opening = M.opening;
      limit = λ lent. M.limit lent.memory.now;
      pages_max = λ lent. M.pages_max lent.memory.now;
      name = M.name;
      seen = M.seen;
      has_queue_right = M.has_queue_right;
      lost = M.lost;
    } };

    #[inline(always)]
    fn name(&self, seat: &M::Seat) -> u32 {
        self.memory.name(seat)
    }

    #[inline(always)]
    fn access(&self, seat: &mut M::Seat, event: Event) -> Reply {
        self.memory.access(seat, event)
    }
}
