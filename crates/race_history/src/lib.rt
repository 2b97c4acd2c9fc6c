//! The data races of a history: pairs of accesses of two threads to a byte of one location in common, one of them a
//! write and one of them plain, or both atomic of different ranges, that nothing orders.
//!
//! Proved: each pair that `races_of` names races, and each race is named, with the last entry before the second that
//! makes the access of its first; as many as are asked for, in order. Where it says that there are no more and names
//! none, no two entries race. `is_history` tells exactly which lists of entries it takes.
//!
//! - `specs/Accesses.antt`: what an entry does, at which locations; `specs/Order.antt`: which entries happen before
//!   which; `specs/Races.antt`: what a race is.
//! - `writers` finds of each atomic read the atomic write that it reads from, `calls` which spawn starts which thread
//!   and which notifies wake whom; `sources` gathers of each entry those just before it in the order.
//! - `clocks` gives each entry a clock: for each thread, before which place that thread's entries happen before it.
//! - `found` compares each access with the last ones of each kind near it (`lasts`), by these clocks.
#![tactic(auto)]

mod access;
mod calls;
mod clocks;
mod found;
mod history;
mod lasts;
mod race;
mod sources;
mod writers;

pub use access::{AccessKind, Location, Site, ThreadAccess, accesses_of, bytes_of};
pub use history::is_history;
pub use race::{Race, Races, races_of};
