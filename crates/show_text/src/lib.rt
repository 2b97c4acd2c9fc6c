//! Entries of a record in words: what each says, and how a row is laid out.
//!
//! Proved: `Words` are the words of an entry, with the sign of its numbers where they have one, and a row has its line, its thread, its words and its place, in whatever
//! columns and colors; the answer to a question, and the question of an answer, are those of the log (`contexts`); whom a
//! notify woke are the first ones of those who sleep at its address, as many as it is told (`Wakes`); a text without its
//! control characters is what `Plain` writes.
#![tactic(auto)]

mod asks;
mod context;
mod number;
mod plain;
mod sheet;
mod woken;
mod words;

pub use context::{Context, contexts};
pub use plain::{Plain, plain_char};
pub use sheet::{Sheet, Unwritten};
pub use woken::{Wake, Wakes};
pub use words::Words;
