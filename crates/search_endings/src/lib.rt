//! How a run ends: what searches compare, count and look for.
//!
//! Proved: an ending has the outcomes of all threads, the page count and so many first bytes of the memory. Equal
//! endings have the same, and others are not equal.
//!
//! It stands apart from the run of a module, so that a search through a module's threads needn't wait for that.
#![tactic(auto)]

mod ending;

pub use ending::{Ending, equal_endings_are_the_same, is_done};
