//! The command line as a job.
//!
//! `options.rt` is the table of all arguments: the kind of each says which values it takes, and what is said of others.
//!
//! Proved: each field of a job is what `clap` found of the argument that it is (`specs/Options.antt`, a line for each),
//! and its numbers are in their ranges. No run keeps a record in place of its module, or one of a memory of words or
//! with bytes laid over it, and none writes its memory in place of a file that it reads or of its record. A result that
//! is expected of a search is spelled whole. The lines, addresses and moments of a show are those that its words spell
//! (`specs/Addresses.antt`), and a value of a call the one that its text spells (`specs/Spells.antt`). What `clap` finds
//! in words, cases say.
#![tactic(auto)]

mod advice;
mod allowance;
mod arguments;
mod call;
mod command_line;
mod commands;
mod explain;
mod form;
mod kinds;
mod limits;
mod lines;
mod memory;
mod options;
mod places;
mod races;
mod refusal;
mod search;
mod show;
mod table;
mod values;

pub use advice::{ADVICE, Advice};
pub use allowance::Allowance;
pub use call::CallWords;
pub use command_line::{Job, JobOrder, Misuse, RunJob, Usage, asked, command, misused, not_text};
pub use explain::Explain;
pub use form::{EndLook, Form};
pub use memory::MemoryFile;
pub use places::{Data, When};
pub use races::RacesJob;
pub use search::Search;
pub use selection::{Color, Find, Look, SearchTarget, Sought, Way};
pub use show::{At, LastWrite, RecordView, ShowLook};
pub use values::value_in;
