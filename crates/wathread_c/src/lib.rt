//! The calls of a host in C (`include/wathread.h`): each one states its clauses again.
//!
//! Each call answers a status, as the program does, and an object of JSON, as the program prints it with `--json`; a
//! run its record, and a replay the memory's bytes too. Where a buffer is too small, its length says how much is
//! wanted, and nothing is put into it. A host keeps modules, and instances with their memories, by handles: places of its
//! own, each with a pointer to what the library keeps for it.
//!
//! Proved: what each call answers and puts, of what it was given (`specs/Calls.antt`) and of what handles held, and what
//! they hold behind it (`specs/Kept.antt`).
#![tactic(auto)]

mod answer;
mod calling;
mod checking;
mod given;
mod instance_handle;
mod instances;
mod loose;
mod module_handle;
mod modules;
mod objects;
mod refused;
mod replaying;
mod running;
mod searching;
#[cfg(test)]
mod tests;

pub use answer::CallAnswer;
pub use given::{Options, Word};
pub use instance_handle::InstanceHandle;
pub use module_handle::ModuleHandle;
