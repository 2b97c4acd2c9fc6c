//! What is told of an open function: where it is, the words of its locals and operands, and the values of its variables;
//! and that as text. `show_moments` makes it; lines and objects tell it.
//!
//! Proved: the lines of open functions are exactly those that are defined for them, one behind the other.
//!
//! - `specs/Values.antt`: a word by its type, a number that may have a sign, a variable's value.
//! - `specs/Functions.antt`: an open function.
#![tactic(auto)]

mod functions;
mod values;

pub use functions::{ToldFunction, functions_text};
pub use values::{ToldNumber, ToldValue, TypedWord};
