//! The states that a search met, by their parts, each of which is kept once.
//!
//! A state is what threads share, and the threads. Most states have most of their parts in common with others, so what
//! is shared, and each thread, stands in a list of its own, and is named by its number there. A state is a row of words:
//! the number of what is shared, and those of its threads. The rows of all states lie one behind the other, and are found
//! by a digest of 64 bits; what has one is compared. So a state costs some thirty bytes and four for each thread, however
//! large its parts are.
//!
//! Proved: a number stands for what was put in, or for what equals it, for good; a table of states has each row that was
//! put in, once, in the order of their meeting, and no other; and a place stands for the row that was put there.
//!
//! So nothing rests on a hash, on a digest, or on a number.
//!
//! `specs/Tables.antt` has the words of these contracts.
#![tactic(auto)]

mod parts;
mod rows;
mod states;

pub use parts::StateParts;
pub use rows::PackedRows;
pub use states::States;
