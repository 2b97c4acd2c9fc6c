//! Why a record was not replayed.

ghost use Rattle.std.specs.Prelude.{◌≡◌};
ghost use Rattle.replay.specs.FaultNumbers.{replay_fault_number};
ghost use Rattle.replay.specs.declared.fault.ReplayFault.TheVariants.{NoMemory};

use std::alloc::{AllocError, AllocFailed};
use thiserror::Error;

/// Why a record is of no run of a module. A line's number is that in the record's text, from 1 on.
#[derive(Clone, Copy, PartialEq, Eq, Debug, Error)]
pub enum ReplayFault {
    /// 1: this line, of the header or of the log, is the first that doesn't fit.
    #[error("line {0} does not fit")]
    Line(u32),
    /// 2: the log fits, and this line behind it is the first that doesn't: the end of a thread, or the pages.
    #[error("end line {0} does not fit")]
    EndLine(u32),
    /// 3: the system had too little memory left, which says nothing of the record.
    #[error("no memory")]
    NoMemory,
}

impl ReplayFault {
    /// The fault's number, 1 to 3.
    pub fn number(self) -> u8
        ensures { result ≡ replay_fault_number self }
    {
        match self {
            ReplayFault::Line(_) => 1,
            ReplayFault::EndLine(_) => 2,
            ReplayFault::NoMemory => 3,
        }
    }
}

impl From<AllocError> for ReplayFault {
    ghost from_gives = { λ _ e. e ≡ NoMemory };

    fn from(_: AllocError) -> ReplayFault {
        ReplayFault::NoMemory
    }
}

impl<T: Drop> From<AllocFailed<T>> for ReplayFault {
    ghost from_gives = { λ _ e. e ≡ NoMemory };

    fn from(_: AllocFailed<T>) -> ReplayFault {
        ReplayFault::NoMemory
    }
}
