//! Why a memory couldn't be opened.
ghost use Rattle.std.specs.Prelude.{◌≡◌};
ghost use Rattle.shared_memory_sequential.specs.Faults.{fault_number};

use std::fmt;
use thiserror::Error;

/// Why a memory couldn't be opened.
#[derive(Clone, Copy, PartialEq, Eq, Debug, Error)]
pub enum OpenFault {
    /// The system had too little memory left for the pages.
    NoMemory,
    /// The image isn't whole pages or passes the maximum, or the maximum passes 256 pages.
    PastLimit,
}

impl OpenFault {
    /// The fault's number: 1 for `NoMemory`, 2 for `PastLimit`.
    pub fn number(self) -> u8
        ensures { result ≡ fault_number self }
    {
        match self {
            OpenFault::NoMemory => 1,
            OpenFault::PastLimit => 2,
        }
    }
}

/// The fault's words, as they are printed.
impl fmt::Display for OpenFault {
    ghost use Rattle.std.specs.Prelude.{Some};
    ghost use Rattle.shared_memory_sequential.specs.Faults.{fault_words};

    ghost output = { λ f. Some (fault_words f) };

    fn fmt<W: fmt::Write>(&self, f: &mut fmt::Formatter<W>) -> fmt::Result {
        match self {
            OpenFault::NoMemory => write!(f, "no memory"),
            OpenFault::PastLimit => write!(f, "past a limit"),
        }
    }
}
