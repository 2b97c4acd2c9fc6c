//! A finite graph of states and of threads' moves among them: which states can still end, and whether every fair run
//! does.
//!
//! Proved: from which states no path of moves leads to one that has ended is answered exactly; ranks that pass the
//! check show that every fair run ends, and a walk that does is one that a fair run makes again and again.
//!
//! A run is fair if no thread has a move at each moment from some moment on and makes none of them. A state is a
//! number, and a move leads from one to another. Any order of the moves is right; that of a search, by the state that
//! they are from, is fast.
//!
//! - `cannot_end` marks back along the moves from the states that have ended, until no mark is new.
//! - `every_fair_run_ends` checks of ranks that no move leads to a greater one, and that at each state with moves a
//!   thread that the rank names has one and only ones to smaller ranks. So it has a turn at some time, and the rank
//!   falls.
//! - `is_fair_cycle` checks of a walk that it comes back to its start, and that each thread that has a move there makes
//!   one on the way, or comes by a state where it has none.
//! - Whoever made ranks or a walk is not trusted (crate `search_fairness` looks for them). `group_moves` and `order_back`
//!   give hints of that kind, of which it is proved that making them is safe and ends. `Grouped::moves_of` gives a part of
//!   such a hint, and which one is exact (`specs/Groups.antt`).
//! - `specs/Worlds.antt`: what a search goes through, and which of its graph's states stands for what. The laws of
//!   `laws.rt` carry both answers over: there is no fair run without end of the one where there is none of the other,
//!   and where there is one, there is one.
#![tactic(auto)]

mod cycles;
mod ends;
mod graph;
mod grouped;
mod laws;
mod ranks;

pub use cycles::is_fair_cycle;
pub use ends::cannot_end;
pub use graph::{Graph, Move, is_graph};
pub use grouped::{Grouped, Key, group_moves, number_or_0, order_back, put_at};
pub use laws::{StandsFor, a_fair_run_begins_before, a_fair_run_goes_round, no_fair_run_goes_on};
pub use ranks::every_fair_run_ends;
