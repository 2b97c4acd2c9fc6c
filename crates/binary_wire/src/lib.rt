//! The parts of the binary format that every section is made of: numbers, blocks of a stated size, names and vectors
//! (Core specification 1.0, sections 5.1 and 5.2), and why bytes are refused.
//!
//! Proved: each reader gives the value that the bytes spell, or the first fault with its kind and offset.
//!
//! A grammar says which bytes spell a value (`specs/Grammar.antt`), a reading computes the value from the bytes, or
//! the first fault (`specs/Reading.antt`), and `proofs/` has that the two agree, as a record `Law` for each part.
#![tactic(auto)]

mod bounds;
mod fault;
mod numbers;
mod reader;
mod vectors;

pub use bounds::Bounds;
pub use fault::{Fault, ReadFault, Refusal};
pub use reader::Reader;
pub use vectors::{IndexItem, Item, read_vector};
