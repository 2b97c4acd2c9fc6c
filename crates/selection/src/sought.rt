//! What a search along drawn schedules makes, and looks for.

use crate::way::Way;
use types::Outcome;

/// What a line of a thread is found by.
#[derive(Clone, Copy)]
pub enum Find<'a> {
    /// Nothing.
    Nothing,
    /// A trap or a stop.
    Failure,
    /// These words.
    Words(&'a str),
    /// A state from which no run ends. Only a search through every order knows of one.
    NoEnd,
    /// A fair run that goes on for ever. The same.
    ForEver,
}

/// What is looked for: a run that has a line of a thread with this, or whose thread 0 comes to another result than is
/// expected.
#[derive(Clone, Copy)]
pub struct SearchTarget<'a> {
    pub find: Find<'a>,
    pub expect: Option<Outcome>,
}

/// Which runs are made, and what is looked for.
#[derive(Clone, Copy)]
pub struct Sought<'a> {
    /// Who goes on.
    pub way: Way,
    /// The seed: it and its number say which run it is.
    pub seed: u64,
    /// The number of the first run.
    pub from: u64,
    /// How many runs are made at most.
    pub runs: u64,
    /// How many entries the log of a run takes, 1 to 1,000,000.
    pub limit: u32,
    /// How many bytes of the memory belong to an ending.
    pub dump: u32,
    /// What is looked for.
    pub target: SearchTarget<'a>,
    /// Whether the first run that is looked for is the last that is made.
    pub stops: bool,
}
