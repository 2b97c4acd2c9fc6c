//! Who waits for whom: the wait queue of the threads that share one memory.
//!
//! Proved: `Queue` makes the wait queue's steps, and tells who is alive, who sleeps, and which answer is due.
#![tactic(auto)]

mod due;
mod kept;
mod queue;
mod waking;

pub use kept::KeptQueue;
pub use queue::Queue;
