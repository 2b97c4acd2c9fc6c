//! Cases of histories whose races are known.
//!
//! A file of cases is one for the library `test_cases`: `== TITLE`, and below it lines of a key, a space and what the
//! key has.
//!
//! ```text
//! races 0p00 0t01 0s04 1l04 => 2-3   a history, an arrow, and the pairs of places that race, by the second one
//! opening 8                          the pages with which the memory opens have so many bytes; else 65,536
//! ```
//!
//! The words of a history are those that `bench/races.py` explains, which makes histories and judges them by the
//! definition.

mod spelled;
mod trial;

pub use trial::try_history;
