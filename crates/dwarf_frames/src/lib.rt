//! What C says of the place where a thread is: the calls whose functions were put in their places, innermost first, and
//! the parameters and locals that are in scope, each with its type and where it is.
//!
//! Proved: ends on every input, and answers an error for want of memory alone; what is said of a frame is said of the
//! offset that is asked for, and of the chains that are kept the one of an offset is found.
//!
//! The entries are those of the crate `dwarf_units`. What they don't say is left out.
#![tactic(auto)]

mod chains;
mod frames;
mod functions;
mod inlined;
mod kinds;
mod scopes;
mod values;
mod variables;
mod wording;

pub use chains::{Chains, chain_at, read_chains};
pub use frames::{CallFrame, Chain, read_frame};
pub use functions::read_functions;
pub use inlined::{Inlined, inlined_at};
pub use kinds::{ValueKind, kind_of};
pub use values::FrameValue;
pub use variables::{Variable, variables_at};
pub use wording::type_words;
