//! The sequential memory: a linear memory owned by one thread, which steps every event in place; and the narrow places
//! inside one aligned word of 8 bytes, with the ranges of bytes that an access has in such words. The lowest byte of a
//! word is its first, at the lowest address.
//!
//! Proved: `OneMemory` gives each event's reply and next state, and opens where no limit is passed. A lane written is
//! the lane read, and lanes elsewhere stay; an access touches one or two words, whose ranges make it together.
#![tactic(auto)]

mod fault;
mod laws;
mod memory;
mod number;
mod range;
mod word;

pub use fault::OpenFault;
pub use laws::{lane_elsewhere, lane_of_with_lane};
pub use memory::OneMemory;
pub use number::combine;
pub use range::{Part, parts};
pub use word::{lane, low_bytes, with_lane};
