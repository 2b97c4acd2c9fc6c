//! A state's parts: what threads share, and a thread at rest.

ghost use Rattle.std.specs.Hash as fed;
ghost use Rattle.std.specs.Cmp.Rules.{hashing};
ghost use Rattle.std.proofs.Common.{rules};
ghost use Rattle.std.specs.Prelude.{◌≡◌, IfOk};
ghost use Rattle.waiters.specs.Kept.{queue_of};

use crate::digest::{of_shared, of_standing};
use crate::walker::RestingThread;
use search_memory::Changes;
use std::alloc::{AllocError, Global};
use std::hash::{Hash, Hasher};
use waiters::KeptQueue;

/// A copy of a queue.
///
/// # Errors
/// Where memory is refused.
pub(crate) fn copied(alloc: Global, queue: &KeptQueue) -> Result<KeptQueue, AllocError>
    ensures { IfOk result (λ q. queue_of q ≡ queue_of queue.now) }
{
    Ok(KeptQueue {
        alive: Vec::from_slice(alloc, queue.alive.as_slice())?,
        sleepers: Vec::from_slice(alloc, queue.sleepers.as_slice())?,
        args: Vec::from_slice(alloc, queue.args.as_slice())?,
        threads: queue.threads,
    })
}

/// What threads share: the memory by its changes, and the queue. The digest alone is hashed; all is compared.
#[derive(PartialEq, Eq, Drop)]
pub struct Common {
    pub digest: u64,
    pub memory: Changes,
    pub queue: KeptQueue,
}

impl Common {
    ghost use Rattle.std.specs.Prelude.{◌≡◌, ℕ, List, IfOk};
    ghost use Rattle.search_memory.specs.Memories.{memory_of};
    ghost use Rattle.shared_memory.specs.WaitQueue.{next_id};
    ghost use Rattle.waiters.specs.Kept.{queue_of};

    pub fn new(memory: Changes, queue: KeptQueue) -> Common
        ensures memory { result.memory ≡ memory }
        ensures queue { result.queue ≡ queue }
    {
        Common {
            digest: of_shared(&memory, &queue),
            memory,
            queue,
        }
    }

    /// A copy.
    ///
    /// # Errors
    /// Where memory is refused.
    pub fn copy(&self, alloc: Global) -> Result<Common, AllocError>
        ensures memory { IfOk result (λ c. (opening : List ℕ) → memory_of opening c.memory ≡ memory_of opening self.now.memory) }
        ensures queue { IfOk result (λ c. queue_of c.queue ≡ queue_of self.now.queue) }
    {
        Ok(Common {
            digest: self.digest,
            memory: self.memory.copy(alloc)?,
            queue: copied(alloc, &self.queue)?,
        })
    }

    /// How many threads were started, thread 0 among them.
    pub fn started(&self) -> usize
        ensures { result ≡ next_id (queue_of self.now.queue) }
    {
        self.queue.args.len() + 1
    }
}

impl Hash for Common {
    ghost hash_input = { λ a. fed.u64 a.digest };

    ghost respects_eq = { Prim.search (hashing, rules) };

    fn hash<H: Hasher>(&self, state: &mut H) {
        self.digest.hash(state);
    }
}

/// A thread at rest. The digest alone is hashed; all is compared.
#[derive(PartialEq, Eq, Drop)]
pub struct HashedThread {
    pub digest: u64,
    pub standing: RestingThread,
}

impl HashedThread {
    ghost use Rattle.std.specs.Prelude.{◌≡◌};

    pub fn new(standing: RestingThread) -> HashedThread
        ensures { result.standing ≡ standing }
    {
        HashedThread {
            digest: of_standing(&standing),
            standing,
        }
    }
}

impl Hash for HashedThread {
    ghost hash_input = { λ a. fed.u64 a.digest };

    ghost respects_eq = { Prim.search (hashing, rules) };

    fn hash<H: Hasher>(&self, state: &mut H) {
        self.digest.hash(state);
    }
}
