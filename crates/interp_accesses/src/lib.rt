//! Memory instructions as steps of the thread machine over flat code, plain ones (Core specification 1.0, section
//! 4.4.4) and atomic ones (threads proposal, sections "Atomic Memory Accesses", "Wait and Notify operators"): first the
//! event that an instruction wants, then what the reply makes of the thread; and the answer to a question.
//!
//! Proved: the same of memory instructions, of what a reply makes of the state, and of an answer.
//!
//! A plain access that touches two aligned words of 8 bytes is two events, the low part first, and both are tested
//! against the bounds of the whole access (this project's own).
#![tactic(auto)]

mod accesses;
mod answers;
mod atomic_operands;
mod loaded;
mod loads;
mod operands;
mod pages;
mod parts;
mod replies;
mod requests;
mod steps;
mod stores;

pub use accesses::{Access, access_replied, wanted};
pub use answers::hear;
pub use pages::{memory_grow, memory_grow_replied, memory_size, memory_size_replied};
