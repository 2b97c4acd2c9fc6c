//! The streams of a job.

/// Where a job writes.
#[derive(Drop)]
pub struct Streams<W, E, S> {
    /// Its lines.
    pub out: W,
    /// A line about what went wrong, or lines about threads that trapped.
    pub err: E,
    /// The file that it makes: the record of a run or of what a search found, behind the lines, or what a show makes.
    pub save: S,
    /// The file that gets the bytes of a run's memory, as they are in the end, behind all that.
    pub memory: S,
}
