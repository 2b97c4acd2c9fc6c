//! The scheduled machine of a module, as a plain program: one thread steps all threads of the module along a schedule.
//!
//! It is slow and simple. `specs/Threads.antt` says which thread of the definition each thread stands for,
//! `specs/Runs.antt` where the whole machine stands; the definition itself is that of the crates `schedule` and
//! `schedule_threads`, and what each of its states keeps to is in `schedule_machine`.
//!
//! Proved: mark by mark it stands where the definition's machine does, and makes its entries. Where memory is refused
//! nothing was stepped.
#![tactic(auto)]

mod ends;
mod mark;
mod stepped;
mod stepping;

pub use mark::{Kind, Mark};
pub use stepped::Stepped;
pub use stepping::Machine;
