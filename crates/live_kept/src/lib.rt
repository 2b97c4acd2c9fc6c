//! Clears the locals of a thread at rest that are dead where it stands, so that threads that are the same but for dead
//! locals are kept in the same words.
//!
//! Proved: what `clear_dead` leaves stands, up to dead locals, for what it stood for before. Threads without budgets that
//! are the same but for dead locals want the same, make accesses of one kind, and are the same but for dead locals after a
//! turn, a reply, an answer, and where they come to rest, by as many turns.
#![tactic(auto)]

mod clearing;
mod walkers;

pub use clearing::clear_dead;
pub use walkers::walkers_go_alike;
