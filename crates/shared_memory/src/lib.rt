//! The shared memory: what a history of a run is and when it is legal (in `specs/`), and the trait that each
//! memory shared by threads meets.
//!
//! Proved: definitions, the trait with its laws, and lemmas on them; `is_event` tells exactly what an event is. The
//! trait says that each name is one of 65, that the memory before any entry is whole pages, and that its maximum is
//! the most pages that there may be.
#![tactic(auto)]

mod conditions;
mod memory;
mod sleeper;

pub use conditions::is_event;
pub use memory::SharedMemory;
pub use sleeper::Sleeper;
