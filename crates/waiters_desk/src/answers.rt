//! What the desk's calls answer.

/// What a question got (threads proposal, "Wait and notify operators").
#[derive(Clone, Copy, PartialEq, Eq, Debug)]
pub enum Asked {
    /// The word ends past the memory's length.
    OutOfBounds,
    /// The answer came at once. A wait is told 1 where another value was there, and 2 where the timeout was 0; a notify
    /// how many threads were woken; a spawn the id of the new thread, or 4294967295 where none is left; an end 0.
    Told(u32),
    /// The question is a wait and open, and `collect` waits for its answer.
    Asleep,
}

/// What a notify got.
#[derive(Clone, Copy, PartialEq, Eq, Debug)]
pub enum Notified {
    /// The four bytes at the address end past the memory's length.
    OutOfBounds,
    /// So many threads were woken.
    Woke(u32),
}

/// The log is full: nothing was entered, and nothing changed at the desk.
#[derive(Clone, Copy, PartialEq, Eq, Debug)]
pub struct Full;
