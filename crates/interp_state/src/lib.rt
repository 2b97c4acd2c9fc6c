//! The state of a thread over flat code with its table of branches, and which configuration of the thread machine it
//! stands for.
//!
//! Proved: what becomes of the flat state becomes of every configuration that it stands for.
#![tactic(auto)]

mod functions;
mod stack;
mod state;
mod steps;

pub use functions::{Code, code_of, type_of_function};
pub use stack::{pop, pop_i32, push, push_zeros, replace_top, top, top_i32, value_of, word};
pub use state::{Caller, Program, Progress, State, StepResult};
pub use steps::came_to;
