//! Whether every fair run of a graph ends.
//!
//! Proved: where it is answered that every fair run ends, each does; a cycle that is answered is one that a fair run
//! makes again and again, with the threads and the states that it has. That it isn't known is answered only where the
//! hint that is judged shows neither.
//!
//! `find_hint` looks for ranks that show the one, or for a walk that shows the other. It goes by the strongly connected
//! components, by Tarjan's search: their numbers are ranks. Where a thread has a move at each state of a component and
//! none inside of it, it leads out of it; where there is no such thread, a walk round the component gives each thread
//! a turn. That nothing trusts: `judge` has the checks of `search_graph` judge the hint. It is proved that finding it is
//! safe and ends, and what a hint is (`specs/Hints.antt`): the thread of each rank leaves the component of that number, or
//! no thread leaves some component, by the components that were found and the groups of moves. That these are the graph's
//! isn't proved.
#![tactic(auto)]

mod components;
mod hints;
mod judged;
mod parted;
mod walks;

pub use hints::{Hint, find_hint};
pub use judged::{Cycle, Fairness, judge};
