//! Calls of functions, as steps of the thread machine over flat code with its table of branches.
//!
//! Proved: the same of calls, and of the question that spawns a thread.
#![tactic(auto)]

mod direct;
mod entering;
mod indices;
mod indirect;

pub use direct::{call, call_replied};
pub use indirect::{call_indirect, call_indirect_replied};
