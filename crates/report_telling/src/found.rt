//! What was found of all runs, and a run that was found, as what it is told.
use crate::complete::Complete;
use crate::racing::Racing;
use report_json::{FoundAs, Shrunk};
use search_scheduled::MadeRun;

/// What was found of all runs.
#[derive(Drop)]
pub struct WholeSearch {
    pub all: Complete,
    pub racing: Racing,
    /// Whether threads made plain accesses at once: then those aren't among the choices of its paths.
    pub is_free: bool,
}

/// What was found: as what, and the run, if one was made.
#[derive(Drop)]
pub struct FoundRun {
    pub found_as: FoundAs,
    pub made: Option<MadeRun>,
}

/// What is kept of it: as what it was found, the sizes of a run that was shrunk, and the run, if one was made.
#[derive(Drop)]
pub struct KeptRun {
    pub found_as: FoundAs,
    pub shrunk: Option<Shrunk>,
    pub made: Option<MadeRun>,
}
