//! What debug information says of a module's functions and data: the entries of its custom section `.debug_info` (DWARF
//! 4 and 5, of 32 bits and addresses of 4 bytes), their attributes, and the code and data that they have.
//!
//! Proved: the sections are the first of their names, and empty only where there is none; `Spans::at` is the first span
//! that has a place.
//!
//! Nothing is asked of the sections: what can't be read gives no entries, and what points nowhere no value.
#![tactic(auto)]

mod abbreviations;
mod attributes;
mod entries;
mod lists;
mod locations;
mod room;
mod sections;
mod spans;
mod tags;
mod units;
mod values;

pub use attributes::Attribute;
pub use entries::Units;
pub use lists::CodeRange;
pub use locations::{Base, Location};
pub use room::ValueRoom;
pub use sections::InfoSections;
pub use spans::{Spanned, Spans};
pub use tags::Tag;
pub use units::read_units;
