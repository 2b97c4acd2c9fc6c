//! Where all threads come to rest in the beginning.

ghost use Rattle.std.specs.Prelude.{◌≡◌, [], ◌∷◌, IfOk};
ghost use Rattle.shared_memory_sequential.specs.Opening.{IsSized};
ghost use Rattle.search_parts.specs.Sharing.{SharesFirst};
ghost use Rattle.search_parts.specs.declared.shared.HashedThread.{HashedThread};

use crate::shared::Common;
use crate::shared_walker::SharedWalker;
use crate::walker::RestingThread;
use search_memory::Changes;
use std::alloc::{AllocError, Global};
use types::MOST_THREADS;
use waiters::Queue;

/// The first thread alone, which stands so.
///
/// # Errors
/// Where memory is refused.
pub fn first_threads(alloc: Global, main: RestingThread) -> Result<Vec<SharedWalker>, AllocError>
    ensures { IfOk result (λ v. (t : HashedThread) × (v.items ≡ t ∷ []) × (t.standing ≡ main)) }
{
    let mut threads = Vec::with_capacity(alloc, 1)?;
    threads.push(SharedWalker::new(alloc, main)?)?;
    Ok(threads)
}

/// What threads share in the beginning: the opening memory, and the queue in which thread 0 alone is alive.
///
/// # Errors
/// Where memory is refused.
pub fn first_common(alloc: Global, opening: &[u8], max: u32) -> Result<Common, AllocError>
    requires { IsSized (record { bytes = opening.now; max = max }) }
    ensures { IfOk result (SharesFirst opening.now max) }
{
    let memory = Changes {
        len: opening.len(),
        max,
        changes: Vec::new(alloc),
    };
    let queue = Queue::new(MOST_THREADS as u32).keep(alloc)?;
    Ok(Common::new(memory, queue))
}
