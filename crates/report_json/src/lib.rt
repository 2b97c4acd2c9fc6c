//! What comes of jobs, as JSON objects, one on a line, of the parts that `show_json` has.
//!
//! Proved: each function writes exactly the line of the value that is defined for its object.
//!
//! `Ends`, `Said`, `Refusals`, `Found`, `Drawn`, `Complete` and `Raced` in `specs/` say which value each object is.
#![tactic(auto)]

mod complete;
mod drawn;
mod ends;
mod found;
mod raced;
mod refusals;
mod said;

pub use complete::{CompleteObject, write_complete};
pub use drawn::{Coverage, DrawnEnd, DrawnObject, DrawnRuns, MetEnding, write_drawn};
pub use ends::{RunEndObject, status_of, write_run};
pub use found::{FoundAs, FoundObject, RunSize, Shrunk};
pub use raced::{RacingThreads, RunRaces};
pub use refusals::{
    Failure, RefusalObject, RefusedObject, write_accepted, write_done, write_failed, write_refusal,
};
