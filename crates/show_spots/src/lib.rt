//! Places in a module's code, as they are printed: a place with its function and its line of source, the place of a call
//! that led to one, and the lines of source around one. `show_rows` finds them.
//!
//! Proved: a place in the code, a call that led to one, both with an inlined function too, and the lines of source around
//! it are written exactly as it is defined for them.
//!
//! - `specs/Spots.antt`: a place, and the place of a call.
//! - `specs/Inlined.antt`: a place whose function was put in the place of its call, with the calls that lead there.
//! - `specs/Around.antt`: the lines of source around a place.
#![tactic(auto)]

mod around;
mod inlined;
mod spot;

pub use around::Around;
pub use inlined::{InlinedCall, InlinedSpot};
pub use spot::{CallSpot, Spot};
