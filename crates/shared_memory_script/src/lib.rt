//! Runs of one seat of a shared memory beside the sequential memory: a script of events, the comparison of both
//! memories along it, and the replay of a log. And the dealing of a recorder's seats to a desk and to threads.
//!
//! Proved: where `replay` finds no difference, the log is legal for the memory. The memory is then the one after the
//! log. Whose seats are dealt to whom.
#![tactic(auto)]

mod compare;
mod conditions;
mod dealt;
mod events;

pub use compare::{agree, make, replay};
pub use conditions::is_of_memory;
pub use dealt::{Dealt, deal};
pub use events::script;
