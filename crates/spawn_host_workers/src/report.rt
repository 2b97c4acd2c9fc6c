//! What a run gives, and why it can give nothing.
ghost use Rattle.std.specs.Prelude.{◌≡◌};
ghost use Rattle.spawn_host_workers.specs.Unstarted.{fault_of};

use thiserror::Error;
use types::ThreadReport;

/// What a run gives back.
#[derive(Drop)]
pub struct RunEnd<S> {
    /// The reports of thread 0 and of those that were spawned, in order of their numbers.
    pub threads: Vec<ThreadReport>,
    /// The seats, in order of their names. All have seen one list.
    pub seats: Vec<S>,
}

/// Why no threads were started.
#[derive(Clone, Copy, PartialEq, Eq, Debug, Error)]
pub enum StartFault {
    /// The system had too little memory left.
    #[error("no memory")]
    NoMemory,
    /// The system started no further thread.
    #[error("no thread")]
    NoThread,
}

/// What is left of a run whose threads weren't started: no thread has made a turn.
#[derive(Drop)]
pub enum Unstarted<S> {
    /// The system had too little memory left. All seats, as they came.
    NoMemory(Vec<S>),
    /// The system started no further thread. Thread 0's seat: that thread left without a turn, so that the workers
    /// which were started found nobody alive.
    NoThread(S),
}

impl<S> Unstarted<S> {
    /// Which of the two it is.
    pub fn fault(&self) -> StartFault
        ensures { result ≡ fault_of self.now }
    {
        match self {
            Unstarted::NoMemory(_) => StartFault::NoMemory,
            Unstarted::NoThread(_) => StartFault::NoThread,
        }
    }
}
