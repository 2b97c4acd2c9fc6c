//! Who waits at the desk is told of what changed there.
ghost use Rattle.std.specs.Prelude.{◌≡◌, [], true};
ghost use Rattle.types.specs.declared.limits.TheConstants.{MOST_THREADS};
ghost use Rattle.shared_memory.specs.WaitQueue.{first_queue};
ghost use Rattle.shared_memory.specs.History.{of_queue};

use shared_memory::SharedMemory;
use std::marker::Model;
use std::snapshot::Snapshot;
use std::sync::Condvar;
use types::MOST_THREADS;
use waiters::Queue;

/// What all who wait at the desk wait for. A desk has one: it is made only beside the queue right before the first
/// question, so that no call at a desk can ring another one in its place.
#[derive(Drop)]
pub(crate) struct Bell {
    changed: Condvar,
}

impl Bell {
    /// The bell of a desk with this seat.
    pub(crate) fn of<M: SharedMemory>(seat: &M::Seat) -> Bell
        requires right { M.has_queue_right seat.now ≡ true }
        requires quiet { of_queue (M.seen seat.now) ≡ [] }
    {
        let _ = seat;
        Bell {
            changed: Condvar::new(),
        }
    }

    /// What wakes.
    pub(crate) fn changed(&self) -> &Condvar {
        &self.changed
    }
}

/// That all who wait at the desk were woken when the wait queue was this one, so that each looks at it again. It takes
/// no bytes. Nothing makes one but `first`, of a desk where nobody waits yet, and `tell_all`.
#[derive(Drop)]
pub(crate) struct Told {
    queue: Snapshot<Queue>,
}

impl Model for Told {
    ghost use Rattle.shared_memory.specs.WaitQueue.{WaitQueue};

    ghost Value = { WaitQueue };

    ghost view = { λ t. t.queue.value };
}

impl Told {
    /// Of the first queue, at which nobody waits yet.
    pub(crate) fn first() -> Told
        ensures { result ≡ first_queue MOST_THREADS }
    {
        Told {
            queue: Snapshot::of(&Queue::new(MOST_THREADS as u32)),
        }
    }

    /// Wakes all who wait, so that each looks at the queue.
    pub(crate) fn tell_all(bell: &Bell, queue: &Queue) -> Told
        ensures { result ≡ queue.now }
    {
        bell.changed.notify_all();
        Told {
            queue: Snapshot::of(queue),
        }
    }
}
