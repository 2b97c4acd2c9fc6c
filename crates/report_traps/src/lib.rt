//! Where threads trapped: what is kept of it while a run or a replay goes on, and the places in words behind it.
//!
//! Proved: a place in words is the function, how far the instruction is behind the start of its body, and the line of
//! source in parentheses, as far as they are known. Which functions are kept of a thread, tests and cases say: what a
//! gate shared by threads has heard is in no contract.
#![tactic(auto)]

mod frames;
mod replayed;
mod site;
mod traps;

pub use frames::Frames;
pub use replayed::Replayed;
pub use site::Site;
pub use traps::Traps;
