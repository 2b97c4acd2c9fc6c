//! At which bytes each thread stood that was stopped, what it waits for there, and which threads wait for one another in a
//! cycle; and that as text.
//!
//! Proved: of a thread that stopped, what it touched last is that of its last entry that touches bytes, none of which is left
//! out, and how often it did so is the number of such entries at its end that touch the same bytes; `write_waits` writes for
//! each thread that was stopped, in order, at which bytes it stood, since which line and how often it touched them, and who
//! wrote them and notified them last; behind that the cycles in which threads wait for one another. Of two stopped threads
//! one waits for the other where that is the last one of the others to write where the first stands; threads that wait so in
//! a cycle are found at the one of the lowest number.
//!
//! - `specs/Beside.antt`: what an event touches beside the memory that is left out.
//! - `specs/Stands.antt`: at which bytes a thread stands; `specs/Waits.antt`: what is told of one that was stopped.
//! - `specs/Cycles.antt`: which threads wait for one another; `specs/CycleTexts.antt`: what is told of them.
#![tactic(auto)]

mod beside;
mod cycle_texts;
mod cycles;
mod stands;
mod waits;

pub use beside::is_left_out;
pub use cycles::cycles_told;
pub use stands::Stand;
pub use waits::{ToldWait, wait_told, write_waits};
