//! A module's bytes as debuggers count them, section by section (Core specification 1.0, sections 5.5.2 and 5.5.3): the
//! sections of an id or a name, what functions are called, and where the instructions of a function stand, as offsets
//! from the start of the code section's contents.
//!
//! Proved: places are those of the reading; a section or a list of names is the first such one, and is found where
//! there is one. The offset of a section's contents is exact. A function's name is the first in the list, else the
//! first export, else the index (`IsCalled`); a name of more than 256 bytes is cut, and says how long it was.
//!
//! Nothing is asked of the bytes: from where they are malformed on, there is no section. The offsets of instructions
//! are those that the reading of crate `binary_instructions` keeps of each (`specs/Places.antt`).
#![tactic(auto)]

mod bodies;
mod names;
mod places;
mod sections;
mod short;

pub use bodies::{BodyPlaces, code_places};
pub use names::{FunctionName, Named, function_name, read_names};
pub use places::{one_place_each, read_places};
pub use sections::{Section, custom_section, next_section, section_of, subsection_of};
pub use short::{MOST_NAME, short_name};
