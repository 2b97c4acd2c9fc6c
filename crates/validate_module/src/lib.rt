//! What validation leaves: a valid module (Core specification 1.0, chapter 3), with the table of branches of each body,
//! its flat instructions, the opening image of the memory and the memory's maximum. Who runs one needs nothing of the
//! validator.
//!
//! Proved: a `ValidModule` is valid, its tables are right, and all that it tells is exact.
#![tactic(auto)]

mod image;
mod own;
mod valid_module;

pub use own::{body, func_type};
pub use valid_module::{Findings, ValidModule};
