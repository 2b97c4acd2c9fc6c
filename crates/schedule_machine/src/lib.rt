//! The scheduled machine of a module: what a run starts with, and what each of its states keeps to.
//!
//! It is that of the crates `schedule` and `schedule_threads`, over a memory and a wait queue. There is no program
//! here: `schedule_program` steps it, and the search goes through its runs; both stand on the laws in `proofs/`.
//!
//! Proved: these are definitions and lemmas alone.
#![tactic(auto)]
