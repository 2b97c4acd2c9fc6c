//! Instructions and expressions in the binary format (Core specification 1.0, section 5.4; threads proposal, section
//! "Binary format").
//!
//! Proved: the same of instructions; the table of opcodes is the standard's groups, by computation.
//!
//! `specs/Opcodes.antt` says which instruction each opcode begins, `specs/Grammar.antt` which bytes spell an
//! instruction, and `specs/Reading.antt` computes the instructions from the bytes, or the first fault.
//! `proofs/Laws.antt` has that the grammar and the reading agree.
#![tactic(auto)]

mod expression;
mod immediates;
mod opcodes;
mod shaped;

pub use expression::{Keep, read_each, read_expression};
pub use immediates::read_val_type;
