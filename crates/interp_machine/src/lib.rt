//! The thread machine: what a thread of a WebAssembly module does step by step (Core specification 1.0, chapter 4;
//! threads proposal), with the costs and the limits of this project's profile.
//!
//! Proved: these are definitions alone.
//!
//! `specs/Step.antt` says for each configuration what comes next, over nested instructions, locals, globals, labels
//! and frames.
#![tactic(auto)]
