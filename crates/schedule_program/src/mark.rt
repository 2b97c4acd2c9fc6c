//! The marks of a schedule.

/// What a mark asks of its thread.
#[derive(Clone, Copy, PartialEq, Eq, Debug)]
pub enum Kind {
    /// Its next turn.
    Turn,
    /// A try that it loses.
    Loses,
    /// A try that finds the log full.
    Fills,
}

/// One mark of a schedule: whose it is, and what it asks.
#[derive(Clone, Copy, PartialEq, Eq, Debug)]
pub struct Mark {
    pub thread: u32,
    pub kind: Kind,
}
