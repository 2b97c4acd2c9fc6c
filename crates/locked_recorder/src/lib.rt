//! A shared memory behind a lock, which records every entry.
//!
//! Proved: it meets the trait, loses no try, and `finish` gives the one log and the memory after it. An access finds
//! the log full exactly where it has `limit` entries or more and the event is neither an answer nor a leave; the log
//! is at most 192 entries longer than its limit. It has room for exactly so many, so no access takes memory, and there
//! is none that it can't use.
//!
//! The memory and the log of its entries lie under one lock; each seat is a seat of a table of one
//! word. An access takes the lock, enters its event by one step on that word, a load, and answers. A meeting of two
//! seats takes no lock.
#![tactic(auto)]

mod keeper;
mod prepared;
mod recorder;
mod rule;
mod steps;

pub use keeper::Finished;
pub use prepared::Prepared;
pub use recorder::LockedRecorder;
pub use shared_memory_on_table::Naming;
pub use shared_memory_sequential::OpenFault;

/// A caller's place at a recorder.
pub type LockedSeat<B> = shared_memory_on_table::CallerSeat<B>;
