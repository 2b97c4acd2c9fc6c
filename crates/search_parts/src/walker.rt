//! A thread at rest.

use interp::Kept;
use std::alloc::{AllocError, Global};
use types::{Event, Outcome};

/// How far a thread is that makes no turn of its own.
#[derive(PartialEq, Eq, Drop)]
pub enum RestingThread {
    /// It wasn't started.
    Missing,
    /// It wants this event, or awaits an answer, and then it wants none.
    Going(Kept, Option<Event>),
    /// It has ended, and hasn't asked to leave.
    Ended(Outcome),
    /// It has asked to leave.
    Leaving(Outcome),
    /// It has left.
    Away(Outcome),
}

impl RestingThread {
    ghost use Rattle.std.specs.Prelude.{IfOk};
    ghost use Rattle.search_parts.specs.Rests.{StandsForAll};

    /// A copy.
    ///
    /// # Errors
    /// Where memory is refused.
    pub fn copy(&self, alloc: Global) -> Result<RestingThread, AllocError>
        ensures { IfOk result (StandsForAll self.now) }
    {
        match self {
            RestingThread::Missing => Ok(RestingThread::Missing),
            RestingThread::Going(kept, event) => {
                Ok(RestingThread::Going(kept.copy(alloc)?, *event))
            }
            RestingThread::Ended(outcome) => Ok(RestingThread::Ended(*outcome)),
            RestingThread::Leaving(outcome) => Ok(RestingThread::Leaving(*outcome)),
            RestingThread::Away(outcome) => Ok(RestingThread::Away(*outcome)),
        }
    }
}
