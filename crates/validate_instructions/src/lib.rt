//! The validator of one instruction that neither begins, divides nor ends a block (Core specification 1.0, chapter 3.3;
//! threads proposal).
//!
//! Proved: each instruction's check is right in both directions: what it accepts fits between what is known before and
//! after it, and what it refuses fits nothing of which that is known.
//!
//! It stands in the innermost of the open blocks, each of which has its own operands. What it fits, and why it is
//! refused, is said of all types that the operands may have (`specs/Blocks.antt`).
#![tactic(auto)]

mod block;
mod branches;
mod calls;
mod memory;
mod numeric;
mod operands;
mod parametric;
mod plain;
mod problem;
mod scope;
mod variables;

pub use block::{Arm, BlockLabel, Flow, OpenBlock, Shape};
pub use operands::{put_result, take_one, take_result};
pub use plain::check_plain;
pub use problem::Problem;
pub use scope::{Declared, Scope};
