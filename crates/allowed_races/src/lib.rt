//! Races that are meant: which accesses may race, of a search through runs and of a record.
//!
//! An access all of whose bytes are allowed counts as atomic, and two of these don't race, whatever their bytes. Where
//! mixed accesses are allowed, two atomic ones don't race either.
//!
//! Proved: an access is allowed exactly where each of its bytes lies in one of the spans.
#![tactic(auto)]

mod allowed;

pub use allowed::Allowed;
