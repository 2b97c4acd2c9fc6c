//! At a state it is enough if only some of the threads go on (ample sets), where a check of them passes: nothing that
//! is said of all runs is lost; no search uses it yet. That the threads of a module keep the laws that are asked of a
//! system is shown by `search_apart`.
//!
//! What a thread may still want from some state on is its *footprint*. Threads of a set go on alone at a state if
//! nothing that they want conflicts with what is in another one's footprint: what the others do before one of them
//! moves can as well be done after it. Which threads those are, and what the footprints, is a guess that nobody has to
//! trust: of what was explored it is checked that each footprint has what its thread wants, and along each move what
//! it has behind it; and that no thread is put off for ever, by ranks of states.
//!
//! Proved, of threads whose steps are independent where they don't conflict, and where the check passes: in all runs
//! each thread wants only what is in its footprint; each end of a run is found, all that a thread wants, and each two
//! wants that conflict, both at once; which states can come to an end is exact; no fair run goes on for ever where
//! each fair run of what was explored ends.
//!
//! And of threads that make turns, of which some are plain, as accesses that aren't atomic: their steps, of plain
//! turns and one that isn't plain, are independent where turns are. Where no two threads race in what was explored of
//! such steps, none race in any run of turns, and each end of one is found.
//!
//! - `specs/Systems.antt`: threads, their steps, and when these are independent. It is asked of whoever uses the laws.
//! - `specs/Explored.antt`: what was explored, by numbers, with the guess. `specs/Ample.antt`: what is checked of it.
//! - `specs/Found.antt`, `specs/Ending.antt` and `specs/Fair.antt`: what is so of all runs. `laws.rt` says it as
//!   contracts.
//! - `specs/Turns.antt` and `specs/TurnRuns.antt`: turns, and what is so of all runs of them.
//! - `certificate.rt` has the guess as plain data, and `checked.rt` checks it (`specs/Certificate.antt`): whoever made
//!   it is not trusted.
//! - `proofs/Runs.antt`: a step that conflicts with nothing in a run comes before it as well. `proofs/Ways.antt`: in a
//!   run a step of those that go on comes first, or beside it. `proofs/Finding.antt`: so footprints hold, by induction
//!   on the run's length and the rank, and all is found. `proofs/Made.antt` and `proofs/Fair.antt`: ends, and runs
//!   that don't.
//! - `proofs/Bundles.antt`: steps of turns. `proofs/Normal.antt`: a run of turns is one of steps, behind which some
//!   threads have made plain turns.
#![tactic(auto)]

mod certificate;
mod checked;
mod laws;
mod rows;

pub use certificate::{Certificate, Parts, Standing};
pub use laws::{
    SteppingThreads, TurningThreads, ends_are_told, fair_runs_are_told,
    it_is_enough_that_some_go_on, runs_of_turns_are_told, steps_are_independent,
};
