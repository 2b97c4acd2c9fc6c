//! The rows of a record as data: Trace Event JSON, an event a line, as Perfetto and chrome://tracing read it; and as a
//! page that needs nothing else, with a lane for each thread, and its entries one below the other.
//!
//! Proved: `write_events` writes exactly the lines of its events, in which no `<` is: the process, the threads of the
//! entries that are chosen, each of these entries in order, with its words, its thread, its line, its place and how long
//! it is, and both ends of each wake-up, spawn and race from one of them to a later one; a trace is these lines, and a
//! page has them of the entries around the failure, which are all where at most 100,000 are chosen, and before them the
//! call, how many are chosen, where the run failed, each thread's end, and moments.
//!
//! A link leads to a later entry, and a wait is as long as it takes to its answer. In a page no `<` stands before the ends
//! of its two elements of data.
#![tactic(auto)]

mod around;
mod event;
mod line;
mod links;
mod page;
mod run;
mod script;
mod style;
mod write;

pub use around::{failure_of, part_around};
pub use links::{Link, LinkKind, Links};
pub use page::write_page;
pub use run::MomentText;
pub use write::{write_events, write_trace};
