//! A queue without the answers due, in few bytes.
ghost use Rattle.std.specs.Prelude.{◌≡◌, IfOk};
ghost use Rattle.shared_memory.specs.Sound.{IsSound};
ghost use Rattle.waiters.specs.Kept.{queue_of, without_answers};

use crate::queue::{Queue, no_answers};
use arrayvec::ArrayVec;
use shared_memory::Sleeper;
use std::alloc::{AllocError, Global};

/// What a queue has beside the answers due. Queues in which none is due are equal exactly where this is.
#[derive(PartialEq, Eq, Drop)]
pub struct KeptQueue {
    /// The live threads.
    pub alive: Vec<u32>,
    /// The sleepers, who has slept longest first.
    pub sleepers: Vec<Sleeper>,
    /// The arguments of the spawned threads, of which thread n's stands at n - 1.
    pub args: Vec<u32>,
    /// How many threads the run may have.
    pub threads: u32,
}

/// A copy.
fn copied<T: Copy>(alloc: Global, items: &[T]) -> Result<Vec<T>, AllocError>
    ensures { IfOk result (λ v. v.items ≡ items.now) }
{
    let mut all = Vec::with_capacity(alloc, items.len())?;
    all.extend_from_slice(items)?;
    Ok(all)
}

impl Queue {
    /// What the queue has beside the answers due.
    ///
    /// # Errors
    /// Where memory is refused.
    pub fn keep(&self, alloc: Global) -> Result<KeptQueue, AllocError>
        ensures { IfOk result (λ kept. queue_of kept ≡ without_answers self.now) }
    {
        Ok(KeptQueue {
            alive: copied(alloc, self.alive.as_slice())?,
            sleepers: copied(alloc, self.sleepers.as_slice())?,
            args: copied(alloc, self.args.as_slice())?,
            threads: self.threads(),
        })
    }

    /// The queue that has this, and in which no answer is due.
    pub fn resume(kept: &KeptQueue) -> Queue
        requires { IsSound (queue_of kept.now) }
        ensures { result ≡ queue_of kept.now }
    {
        let mut alive = ArrayVec::new();
        alive.try_extend_from_slice(kept.alive.as_slice()).unwrap();
        let mut sleepers = ArrayVec::new();
        sleepers
            .try_extend_from_slice(kept.sleepers.as_slice())
            .unwrap();
        let mut args = ArrayVec::new();
        args.try_extend_from_slice(kept.args.as_slice()).unwrap();
        Queue {
            alive,
            sleepers,
            due: no_answers(kept.threads),
            args,
        }
    }
}
