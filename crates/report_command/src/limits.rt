//! The ranges of a job's numbers, and what a number is where none is given.

/// The most bytes that a dump shows.
pub const MOST_DUMP: u32 = 4096;

/// The most runs that a search makes, and the highest number of a first run.
pub(crate) const MOST_RUNS: u64 = 1_000_000_000_000;

/// The highest seed.
pub(crate) const MOST_SEED: u64 = 1_000_000_000_000_000_000;

/// The most states that a search through every order of entries may meet.
pub(crate) const MOST_STATES: u32 = 1_000_000_000;

/// The most threads that make the runs of a search.
pub(crate) const MOST_JOBS: u32 = 256;

/// The most seconds after which a search ends, or a smaller run is no longer looked for.
pub(crate) const MOST_SECONDS: u32 = 1_000_000;

/// For how many seconds a smaller run is looked for.
pub(crate) const DEFAULT_SHRINK_SECONDS: u32 = 10;

/// The highest number of a line of a record before which threads and memory are shown.
pub(crate) const MOST_LINE: u64 = 2_000_000;

/// The most races that are told.
pub const MOST_RACES: u32 = 10_000;

/// How many characters a row has room for, at least and at most.
pub const NARROWEST: u32 = 40;

pub const WIDEST: u32 = 1000;

/// How many states a search through every order of entries meets at most, where nobody says so.
pub(crate) const DEFAULT_STATES: u32 = 1_000_000;

/// How many one meets at most that is made before runs are drawn.
pub(crate) const FIRST_STATES: u32 = 50_000;
