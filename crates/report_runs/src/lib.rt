//! Whole runs of a module: over the memory that records, with their record, and over the row of words.
//!
//! Proved: `record_run` and `run_on_words` are the headline; a record is of the run that was made. Of faults, one of
//! the limit or of the call comes exactly where the limit or the call is wrong, whatever room there is.
//! `record_request` and `run_request_on_words` do the same for a call that was found to be one. The gate is called
//! before each turn of a run, and not at all where a fault is told.
#![tactic(auto)]

mod fitting;
mod laws;
mod recording;
mod words;

pub use laws::the_log_is_the_history_that_all_seats_saw;
pub use recording::{RecordRunFault, record_request, record_run};
pub use spawn_host::{Call, EndState};
pub use words::{run_on_words, run_request_on_words};
