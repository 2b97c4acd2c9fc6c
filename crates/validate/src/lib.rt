//! The validator: a module that keeps every rule of the Core specification 1.0, chapter 3, of the threads proposal and
//! of wasi-threads becomes a `ValidModule`, which has the table of branches of each body, the opening image of the
//! memory and the memory's maximum.
//!
//! Proved: `validate` gives the module, only where it is valid, and refuses a valid one only for want of memory. A
//! fault outside bodies is the first one, another is in the first body that isn't typed, at the first instruction with
//! which no typed code goes on. `check_module` says the same,
//! and makes no `ValidModule`.
#![tactic(auto)]

mod alone;
mod check;
mod operands;
mod whole;

pub use operands::operand_types;
pub use validate_module::ValidModule;
pub use whole::{check_module, validate};
