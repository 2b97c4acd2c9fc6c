//! What it is to be a thread that makes its turns one by one, whoever gives the replies and the answers.
//!
//! Proved: these are definitions, and the trait in their words.
#![tactic(auto)]

mod accessed;
mod gate;
mod turn;

pub use accessed::{Accessed, Lent};
pub use gate::{Gate, OpenGate, TrapFrame};
pub use turn::{Given, TakesTurns, Turn};
