//! The memory with which a run begins, where a file's bytes are laid over it: as by one more data segment of its
//! module, behind the module's own.
//!
//! Proved: `laid` gives the module with bytes as one more data segment, whose opening image is the module's with the
//! bytes written over it, and which is valid where the module is; `why_unlaid` says exactly of which bytes that can't
//! be done, and why.
#![tactic(auto)]

mod laws;
mod laying;

pub use laws::{laid_modules_are_valid, the_image_is_laid_over};
pub use laying::{Unlaid, laid, why_unlaid};
