//! The validator of one function's body, which makes the table of branches in the same pass (Core specification 1.0,
//! chapter 3.3 and appendix "Validation Algorithm"; threads proposal).
//!
//! Proved: `check_body` gives a table only of a typed body, and refuses that only for want of memory. A refusal names
//! the first instruction with which no typed code goes on: some typed code begins with what comes before it. Its fault
//! is the one that it has inside the labels of the blocks that are open there (`BreaksAt`), and these are read off the
//! code. What is known before and after each instruction is exact, and so is where blocks end. `operand_types` gives the
//! types of the operands at a place, where it can be reached.
//!
//! The pass keeps the open blocks, each with its own operands. That what it accepts is typed is proved backward, an
//! instruction at a time: what is right after an instruction makes what is right before it (`specs/Passes.antt`).
#![tactic(auto)]

mod body;
mod control;
mod ends;
mod laws;
mod reached;

pub use body::check_body;
pub use laws::{blocks_are_read_off_the_code, operands_have_one_type_each};
pub use reached::operand_types;
