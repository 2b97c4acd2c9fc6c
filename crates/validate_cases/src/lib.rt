//! Cases of modules: what the reader of the binary format and the validator say of bytes. A file of cases is one for
//! the library `test_cases`; the keys of bytes are those of `kinds.rt`.
//!
//! ```text
//! module 00 61*3 ..      whether these bytes are a valid module; `61*3` stands for three such bytes; several lines of a key are
//!                          as many times bytes
//! gives LINE             the lines that are said of them
//! ```
#![tactic(auto)]

mod bodies;
mod bytes;
mod code;
mod contents;
mod instrs;
mod kinds;
mod modules;
mod operands;
mod operators;
mod portraits;
mod sections;

pub use kinds::tell;
