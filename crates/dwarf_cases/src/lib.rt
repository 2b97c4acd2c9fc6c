//! Cases of what is shown of a module: lines of source, names of functions, places of instructions,
//! names of static data, functions in the place of their calls, and variables. A file of cases
//! is one for the library `test_cases`; the keys of what is asked are those of `asked.rt`.
//!
//! ```text
//! module FILE            the module is this file
//! lines 2 9 24           the lines of source at these offsets of its code
//! gives LINE             the lines that are shown
//! ```
#![tactic(auto)]

mod asked;
mod data;
mod frames;
mod lines;
mod names;
mod places;
mod spoiled;

pub use asked::tell;
