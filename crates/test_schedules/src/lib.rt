//! The scheduled machine of a module, and the schedule of a log: along the schedules of real runs tests step the
//! machine.
//!
//! Proved: `machine_of` gives the machine where a run of the module begins.
#![tactic(auto)]

mod opening;
mod scheduling;

pub use opening::{MachineFault, machine_of};
pub use scheduling::schedule_of;
