//! Searching: many runs of a module along schedules that are drawn, the first with an ending that is looked for, and of
//! that one a run with few switches of threads.
//!
//! Proved: the run of a number is the run of the module by the call along the strategy that is drawn of the seed and
//! that number. A find is the run of its number, which ends as is looked for; the endings of a table are those of the
//! runs of its numbers, noted one after another, as many as it says. Where none is found, all runs that were asked for
//! were made, and none is looked for, where a search stops at the first; or the follower's last wish was to end.
//! The size of a run is exact, and `shrunk` answers a run by the same call that ends alike and is no larger.
//!
//! - `selection::Sought` says which runs are made, and what is looked for; `is_looked_for` whether an ending is.
//! - `EndingTable` counts the endings that were met (`search_endings::Ending`).
//! - `first_found` makes them one by one and notes their endings, up to the first that is looked for, or until it is
//!   told to end; `Halt` says which. `run_of_number` makes one of them.
//! - `shrunk` leaves out the rounds of waits in loops, found by moments in which the run is the same (`Moments`), and
//!   then tries parts of that run's schedule; a run that ends alike with fewer switches, or with as many and fewer
//!   entries, takes its place. So nothing rests on how what is left out was found.
//! - `run_to` follows choices to an ending: it answers their run only where that ends so, and none only where it ends
//!   otherwise.
//! - `Hears` follows a search on its way, and gives what runs look at in their middle (`search_strategies::EndWatch`).
//!
//! All runs are `search_scheduled::run_along`'s: so what is found, and what becomes of it, is a run of the module
//! (`IsFind`, specs/Finds.antt), and which run that is follows from the strategy (`IsRunOfNumber`, specs/Drawing.antt).
#![tactic(auto)]

mod ahead;
mod ending;
mod finder;
mod finding;
mod following;
mod hears;
mod judging;
mod leading;
mod maker;
mod met;
mod moments;
mod rounds;
mod search;
mod shrinking;
mod size;
mod sought;
mod spins;
mod table;
mod words;

pub use ending::{ending_of, have_one_ending};
pub use finding::{
    Crew, Halt, NumberedRun, SearchResult, first_found, first_judged, run_of_number,
};
pub use following::{run_round, run_to};
pub use hears::Hears;
pub use judging::Judges;
pub use leading::entries_leading;
pub use met::{EndingTable, Met};
pub use shrinking::{shrunk, shrunk_by};
pub use size::{Size, size_of};
pub use sought::is_looked_for;
pub use words::has_line_with;
