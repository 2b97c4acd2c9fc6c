//! Names of static data, as C writes them: from an address to `queue.head` or `slots[3].item`, and back.
//!
//! Proved: what words name lies within a static variable; an address has a name only within one, and bytes a type.
//!
//! The entries are those of the crate `dwarf_units`. What they don't say has no name: nothing is guessed.
#![tactic(auto)]

mod leaves;
mod members;
mod naming;
mod parts;
mod place;
mod sizes;
mod static_data;
mod words;

pub use leaves::{Leaf, leaves_of};
pub use members::Bits;
pub use naming::{name_at, type_at};
pub use place::ByteRange;
pub use sizes::{bare, dimensions, size_of};
pub use static_data::read_data;
pub use words::{NamedBytes, place_of};
