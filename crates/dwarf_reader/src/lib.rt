//! The bytes of debug information (DWARF 4 and 5, of 32 bits and addresses of 4 bytes), whichever section they are of:
//! numbers of a fixed width and in LEB128, strings, the forms of attributes, and custom sections that may be missing.
//!
//! Proved: what `Cursor` reads is what stands at the front, a fault comes exactly where nothing such stands there, and
//! leaves the cursor where it was; a section is the first of its name, and empty only where there is none.
#![tactic(auto)]

mod cursor;
mod fault;
mod forms;
mod sections;

pub use cursor::{Cursor, string_at};
pub use fault::DebugFault;
pub use forms::{AttributeForm, AttributeValue};
pub use sections::custom_or_empty;
