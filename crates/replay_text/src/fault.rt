//! Why a record was not written or not read.

ghost use Rattle.std.specs.Prelude.{◌≡◌};
ghost use Rattle.replay_text.specs.Faults.{record_fault_number, write_fault_number};
ghost use Rattle.replay_text.specs.declared.fault.RecordFault.TheVariants.{NoMemory};

use std::alloc::{AllocError, AllocFailed};
use std::io;
use thiserror::Error;

/// Why bytes were not read as a record.
#[derive(Clone, Copy, Debug, PartialEq, Eq, Error)]
pub enum RecordFault {
    /// This line, one of the header, is wrong or missing.
    #[error("header line {0}")]
    Header(usize),
    /// This line, behind the header, is wrong where it stands.
    #[error("line {0} unreadable")]
    Unreadable(usize),
    /// The text ends before the line `finish`.
    #[error("end missing")]
    EndMissing,
    /// Memory ran out, which says nothing of the bytes.
    #[error("no memory")]
    NoMemory,
}

impl RecordFault {
    /// The fault's number, 1 to 4.
    pub fn number(self) -> u8
        ensures { result ≡ record_fault_number self }
    {
        match self {
            RecordFault::Header(_) => 1,
            RecordFault::Unreadable(_) => 2,
            RecordFault::EndMissing => 3,
            RecordFault::NoMemory => 4,
        }
    }
}

impl From<AllocError> for RecordFault {
    ghost from_gives = { λ _ e. e ≡ NoMemory };

    fn from(_e: AllocError) -> RecordFault {
        RecordFault::NoMemory
    }
}

impl<T: Drop> From<AllocFailed<T>> for RecordFault {
    ghost from_gives = { λ _ e. e ≡ NoMemory };

    fn from(_e: AllocFailed<T>) -> RecordFault {
        RecordFault::NoMemory
    }
}

/// Why a record was not written. How much went out isn't said.
#[derive(Clone, Copy, Debug, PartialEq, Eq, Error)]
pub enum WriteFault {
    /// The writer answered an error.
    #[error("writer")]
    Writer,
    /// The writer had no memory.
    #[error("no memory")]
    NoMemory,
}

impl WriteFault {
    /// The fault's number, 1 or 2.
    pub fn number(self) -> u8
        ensures { result ≡ write_fault_number self }
    {
        match self {
            WriteFault::Writer => 1,
            WriteFault::NoMemory => 2,
        }
    }
}

impl From<io::Error> for WriteFault {
    fn from(error: io::Error) -> WriteFault {
        if error.kind() == io::ErrorKind::OutOfMemory {
            WriteFault::NoMemory
        } else {
            WriteFault::Writer
        }
    }
}
