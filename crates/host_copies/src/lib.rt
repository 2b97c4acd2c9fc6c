//! Copies of a module's parts, for a module that is kept while runs of it begin with other memories.
//!
//! Proved: a copy is equal to what it is of.
#![tactic(auto)]

mod code;
mod copied;
mod parts;

pub use copied::{Copied, all_copied, plain_copied};
