//! Modules in the binary format (Core specification 1.0, chapter 5; threads proposal, section "Binary format").
//!
//! Proved: `read` gives the one module that the bytes spell, or the first fault and its offset, or wants memory.
//!
//! `specs/Grammar.antt` says which bytes spell which module. `read` answers that module, or a fault: the first one from
//! front to back, as `specs/Reading.antt` computes it.
#![tactic(auto)]

mod bodies;
mod externals;
mod kinds;
mod limits;
mod module;
mod opening;
mod parts;
mod sections;
mod segments;

pub use module::read;
