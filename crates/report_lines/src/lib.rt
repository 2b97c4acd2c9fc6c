//! The lines that a run's end is printed as, its status, the line of an ending, and the lines of searches.
//!
//! Proved: `write_run` writes exactly the lines of an end, and answers 0 exactly where all its threads ended well; each
//! other function writes exactly the line that it is for.
#![tactic(auto)]

mod complete;
mod drawn;
mod endings;
mod found;
mod lines;

pub use complete::{
    write_all_met, write_cannot_end, write_cannot_tell, write_cycle, write_fair_runs_end,
    write_told, write_too_many, write_unknown,
};
pub use drawn::{Often, write_cut, write_met, write_stopped, write_unseen};
pub use endings::{write_ending, write_endings};
pub use found::{
    write_for_ever, write_found_ending, write_found_run, write_no_end, write_without_run,
};
pub use lines::write_run;
