//! The rules of a valid module outside the bodies of its functions (Core specification 1.0, section 3.4; wasi-threads),
//! and what code names by an index.
//!
//! Proved: a fault is of the first rule outside bodies that is broken; without one all are kept. Memory may run out.
//!
//! `specs/Faults.antt` has the order of the rules; `proofs/Rules.antt` shows that a module without a fault there keeps
//! every rule of `IsValid` outside bodies, and that a valid module has none.
#![tactic(auto)]

mod constants;
mod exports;
mod imports;
mod segments;
mod sizes;
mod spaces;
mod threads;
mod whole;

pub use constants::offset;
pub use exports::exported_function;
pub use spaces::IndexSpaces;
pub use whole::fault_outside_bodies;
