//! The races of a recorded run: which two entries race, where in the module they were made, and what would have ordered
//! them. `show_race_words` tells them in words.
//!
//! Proved: `races_shown` has each race of the run, of those at the same two places in the code, called from the same two
//! places, the first, each once, unless it says that there are more, which is so then; `racing_pairs` are races, all
//! where they are fewer than are asked for; `next_atomic_write` is the next entry of a thread that others may read from.
//! `rows_seen` has the rows of a record's entries as a replay fills them, or why it has none; `watched` has the fault
//! alone.
#![tactic(auto)]

mod found;
mod release;
mod rows;
mod sites;

pub use found::{RecordRaces, races_shown, racing_pairs};
pub use release::{changes_pages, next_atomic_write};
pub use rows::{Unseen, rows_seen, watched};
pub use sites::{opening_of, sites_of};
