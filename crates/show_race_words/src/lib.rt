//! The races of a recorded run in words: which two entries race, with the names of their data, the calls that led to
//! them, what would have ordered them, and where their threads were started.
//!
//! Proved: `write_races` writes a paragraph for each race, with the lines, the threads, the words, the names and the
//! places of its two entries, what they do with the number of pages where they race there, the calls that led to them as
//! far as they are given, the last block of the heap given out before them in which the first byte lies that both touch,
//! the next entry of the first thread that other threads may read from, and the entries that started the two threads;
//! `write_found` writes them of a run that was found for one. `stack_places` are just the places of the entries whose
//! calls are told so.
//!
//! - `specs/Spots.antt`: where an entry stands and was made. `specs/Starts.antt`: which entry started a thread.
//! - `specs/Stacks.antt`: the calls that led to an entry. `specs/Blocks.antt`: in which block of the heap a byte lies.
//! - `specs/Written.antt`: what is written.
#![tactic(auto)]

mod blocks;
mod looks;
mod ordering;
mod spots;
mod stacks;
mod starts;
mod writing;

pub use stacks::stack_places;
pub use writing::{write_found, write_races};
