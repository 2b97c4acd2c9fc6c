//! One run of a module by one thread, along a strategy: its record, and what it left.
//!
//! Proved: `run_along` answers a record only with the end of a run that it is of, and that run is the one through which
//! the strategy leads from the call on; it is given up only where the strategy gives it up. A thread that sleeps, or
//! that an answer is due to, makes no turn.
//!
//! - `threads_of` and `opening` make what a run begins with, as a replay does.
//! - `Course` is a walk, and the log that it has made (`CameAlong`, specs/Courses.antt): each entry is what the thread
//!   that goes on wants, with the memory's reply. So what such a walk made is what a replay takes, and every contract
//!   says that in the words of `replay_walk`: `hear` and `hear_due` (a thread takes the answer that is due to it,
//!   `IsToldOn`), `settle_going` (a thread that can go on makes its turns of its own; one that sleeps, has left or
//!   wasn't started is left as it is: `SettlesOn`, specs/Settled.antt), `leave` and `make` (what a settled thread does
//!   then, its leave or its event).
//! - An `Ear` hears of each entry the thread that makes it, where that stands (`IsHeard`, specs/Heard.antt): `Places` notes
//!   the place in the code, if that is asked for.
//! - `conclude` reads the ends off the walk, compares each with where the walk stands as a replay does, and makes the
//!   record's parts.
//! - `run_along` puts it together. Whatever the strategy, the record is of a run of the module (`IsRunOf`), and its log
//!   that of a course which the strategy led to its end (`IsLedRun`, specs/Led.antt): before each entry it is asked of
//!   the threads that can go on, in order, one goes on as it says, and all take the answers that are due then.
#![tactic(auto)]

mod concluding;
mod course;
mod ear;
mod fault;
mod hearing;
mod making;
mod running;
mod settled;
mod threads;

pub use course::{Course, CourseFault};
pub use ear::{Ear, Places};
pub use fault::SearchFault;
pub use running::{MadeRun, run_along, run_with_spares};
pub use threads::Spares;
