//! Why debug information isn't read on.

use std::alloc::{AllocError, AllocFailed};

/// Why debug information isn't read on.
#[derive(Clone, Copy, Debug, PartialEq, Eq)]
pub enum DebugFault {
    /// Memory ran out.
    OutOfMemory,
    /// The bytes are malformed, or of a form that isn't known.
    Unreadable,
}

impl From<AllocError> for DebugFault {
    fn from(_e: AllocError) -> DebugFault {
        DebugFault::OutOfMemory
    }
}

impl<T: Drop> From<AllocFailed<T>> for DebugFault {
    fn from(_e: AllocFailed<T>) -> DebugFault {
        DebugFault::OutOfMemory
    }
}
