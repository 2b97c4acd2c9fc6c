//! The replay of a recorded run: one thread runs it again, all along the record's log.
//!
//! Proved: `replay` gives the end of the run that the record is of, or, of a record of no run, the first line that
//! doesn't fit. Of both, memory may run out. Each record that it accepts has a legal log (`logs_of_runs_are_legal`).
//!
//! - `specs/Runs.antt` says of which runs of a module a record is, and which of its lines is the first that doesn't
//!   fit.
//! - `threads_of` makes the threads (`specs/Threads.antt`), `walk` walks along the log and compares the lines behind
//!   it, whatever the threads are (`specs/Walks.antt`), and `replay` puts both together.
//! - After the last entry of its log a walk stands where the scheduled machine does (crate `replay_walk`).
//!   `first_wrong_end` compares each end line with how its thread stands there, and the pages line with the memory.
//!   `specs/Ends.antt` says what its answer says, and `proofs/Lines.antt` why.
//! - All schedules that make one log end alike (crate `replay_rules`), so what is found where the walk ends is true of
//!   each of them: `specs/Verdicts.antt` and the laws in `src/verdicts.rt`. A record is of a run, or some entry is the
//!   first that doesn't fit, or some line is the first that doesn't agree; and no two of these.
#![tactic(auto)]

mod ends;
mod fault;
mod replaying;
mod threads;
mod verdicts;
mod walking;

pub use ends::first_wrong_end;
pub use fault::ReplayFault;
pub use replaying::{replay, replay_watched};
pub use verdicts::{
    agreeing_records_are_of_runs, logs_of_runs_are_legal, no_run_has_a_misfit,
    no_run_has_a_wrong_end, runs_end_in_one_memory, wrong_ends_are_of_no_run,
};
