//! Who goes on after each entry of a run that one thread steps.
//!
//! Proved: a strategy answers a place among the threads that can go on, and each but a watched one by a function of what
//! it is. What the strategy of a drawn run is at its beginning is a function of seed and number.
//!
//! A strategy is asked before each event of a run, with the threads that can go on, and hears the event then. Its trait
//! says by `chooses` and `hears` what it may answer and be then. Of each way these are functions, of the draws as of all
//! else (`Draws`, the PCG generator's): `strategy_of` and `drawn_choice` for the ways of drawn runs (specs/Runs.antt),
//! which are `at_random` (Draws.antt), `by_priority` (Priorities.antt) and `spin` (Spinning.antt); `chosen`, `rounds` and
//! `along` for choices that are given (Given.antt). So run number I of a seed is the same run on every machine. One that
//! answers nobody gives the run up (`Watched`). `docs/SEARCHES.md` says how each chooses.
#![tactic(auto)]

mod along;
mod chosen;
mod drawn;
mod draws;
mod pct;
mod places;
mod random;
mod rounds;
mod spin;
mod strategy;
mod watched;

pub use along::Along;
pub use chosen::Chosen;
pub use drawn::Drawn;
pub use draws::Draws;
pub use pct::Pct;
pub use random::Random;
pub use rounds::Rounds;
pub use spin::Spin;
pub use strategy::Strategy;
pub use watched::{EndWatch, Watched};
