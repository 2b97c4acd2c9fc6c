//! The memory of a state of a search: the bytes that differ from the opening memory's.
//!
//! Proved: changed bytes stand for one memory, of which `step` gives the sequential memory's reply and the next; and they
//! are the bytes that differ, in order of their addresses, and no others, so that one memory has one form.
//!
//! Most states of a search differ from the opening memory in a few bytes. `Changes` has these alone, so states take
//! little room and are compared quickly; an event reads and changes the bytes that it touches alone, and only
//! `memory.grow` makes the memory that they stand for.
#![tactic(auto)]

mod beside;
mod bytes;
mod looking;
mod stepping;

pub use beside::{ChangedByte, Changes, changes_in};
pub use stepping::{can_grow, holds, memory, step};
