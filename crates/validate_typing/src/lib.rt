//! The typing rules of code (Core specification 1.0, chapter 3; threads proposal), the rules of a valid module, the
//! opening image of its memory, where branches lead in flat code, and why a module is refused.
//!
//! Proved: an expression stands for one nesting, and `flatten` gives the flat instruction of each instruction.
//!
//! `specs/Typing.antt` types nested instructions, `specs/Placed.antt` says that such instructions stand in flat code
//! with the right table of branches, and `specs/Validity.antt` which modules are valid.
//!
//! `Flat` instructions: one for each instruction of a body, at most 16 bytes, with the target of its branch beside it.
//! A thread finds by one look which instruction comes next.
#![tactic(auto)]

mod fault;
mod instr;
mod laws;
mod making;
mod table;
mod target;

pub use fault::{BodyPlace, Fault, ValidFault};
pub use instr::Flat;
pub use laws::expression_stands_for_one_nesting;
pub use making::{flatten, flatten_all};
pub use table::Table;
pub use target::Target;
