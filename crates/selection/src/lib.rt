//! What is chosen on a command line: of a record, which entries are shown and how; of a search along drawn schedules,
//! which runs are made and by which strategy, and what is looked for.
//!
//! Proved: a span has the numbers from its first to its last; spans that are searched have the numbers of those that
//! they were made of; which entries are chosen, by their line, thread and
//! addresses; which strategy draws a run of a mix.
#![tactic(auto)]

mod choice;
mod sought;
mod spans;
mod way;

pub use choice::{Choice, Color, Look, NumberSpan, spans_if_any, touched};
pub use sought::{Find, SearchTarget, Sought};
pub use spans::Spans;
pub use way::{MIX, MOST_DEPTH, Way};
