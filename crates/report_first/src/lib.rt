//! One call from a module's bytes to printed lines, for the modules of one atomic add: what is printed is said without
//! any definition of the machine between, and the calls on the way are those of every module.
//!
//! Proved: of 4,096 modules `first` writes lines that are said in numbers alone, and the definitions say the same of
//! them.
//!
//! `specs/First.antt` has the bytes, the module that they spell, and how its runs end; `specs/Laws.antt` says that by
//! the definitions of grammar, validity and runs it is just this module, it is valid, and each run of it ends so.
#![tactic(auto)]

mod bytes_to_lines;
mod laws;

pub use bytes_to_lines::{FirstFault, first};
pub use laws::{first_modules_are_read, first_modules_are_valid, first_modules_end_so};
