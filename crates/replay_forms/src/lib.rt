//! Texts of words and numbers, and readers that take exactly these: numbers have no leading zeros, and one space or
//! one line feed stands behind a word.
//!
//! Proved: each reader takes what its definition reads, and nothing else.
#![tactic(auto)]

mod front;
mod items;
mod print;

pub use front::{after, hex_digit, number_then, number_within, signed_then};
pub use items::{HexByte, Item, several};
pub use print::{Printed, write_items};
