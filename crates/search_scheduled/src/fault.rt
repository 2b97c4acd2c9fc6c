//! Why there is no run.
ghost use Rattle.std.specs.Prelude.{◌≡◌};
ghost use Rattle.search_scheduled.specs.declared.fault.SearchFault.TheVariants.{NoMemory};
ghost use Rattle.search_scheduled.specs.Faults.{fault_of};

use crate::CourseFault;
use std::alloc::{AllocError, AllocFailed};
use thiserror::Error;

/// Why a run along a strategy has no record.
#[derive(Clone, Copy, PartialEq, Eq, Debug, Error)]
pub enum SearchFault {
    /// The system had too little memory left.
    #[error("no memory")]
    NoMemory,
    /// The run came to no end that a record can tell.
    #[error("no end")]
    NoEnd,
    /// The strategy gave the run up.
    #[error("given up")]
    GivenUp,
}

impl From<AllocError> for SearchFault {
    ghost from_gives = { λ _ e. e ≡ NoMemory };

    fn from(_: AllocError) -> SearchFault {
        SearchFault::NoMemory
    }
}

impl<T: Drop> From<AllocFailed<T>> for SearchFault {
    ghost from_gives = { λ _ e. e ≡ NoMemory };

    fn from(_: AllocFailed<T>) -> SearchFault {
        SearchFault::NoMemory
    }
}

impl From<CourseFault> for SearchFault {
    ghost from_gives = { λ fault e. e ≡ fault_of fault };

    fn from(fault: CourseFault) -> SearchFault {
        match fault {
            CourseFault::NoMemory => SearchFault::NoMemory,
            CourseFault::NoEntry => SearchFault::NoEnd,
            CourseFault::GivenUp => SearchFault::GivenUp,
        }
    }
}
