//! Which runs have a race, for searches that look for one.
//!
//! Proved: `has_race` answers of a recorded run whether two of its accesses race, by where its threads stand in a replay
//! of it. `RaceJudge` answers the same of a run that was made, and replays nothing: where threads were heard to stand
//! while the run was made, a replay of its record sees them stand (proofs/Heard.antt). It looks for a run with a race
//! (`search_finds::Judges`).
#![tactic(auto)]

mod judge;

pub use judge::{RaceJudge, has_race};
