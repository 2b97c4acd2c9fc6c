//! The endings that were met, and how often.
ghost use Rattle.std.specs.Prelude.{◌≤◌, All};

use search_endings::Ending;

/// An ending that was met.
#[derive(Debug, Drop)]
pub struct Met {
    pub ending: Ending,
    /// In how many runs.
    pub times: u64,
    /// The number of the first of these.
    pub first: u64,
}

/// The endings that were met, in the order of their first runs.
#[derive(Debug, Drop)]
pub struct EndingTable {
    pub met: Vec<Met>,
    /// How many runs were made.
    pub runs: u64,
    ghost counted: { All (λ m. m.times ≤ runs) met.items },
}
