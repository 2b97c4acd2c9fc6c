//! Runs the threads of a module as real threads, over one shared memory: each is run to its end, over a memory and a
//! desk that it shares with others.
//!
//! Proved: where `run_all` answers, all 65 seats have seen one legal list, and each report is of a run with its
//! entries. Where it answers a fault, all seats are as they came, or all that thread 0 ever entered is that it leaves.
//! `run_thread` runs any thread that makes turns: its units are its budget, as many of its steps are lost tries as its
//! seat lost, and the gate is called before each of its turns.
#![tactic(auto)]

mod crew;
mod host;
mod report;
mod rounds;
mod running;
mod seats;
mod serving;
mod worker;

pub use host::run_all;
pub use report::{RunEnd, StartFault, Unstarted};
pub use running::{ThreadEnd, run_thread};
