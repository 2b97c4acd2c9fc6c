//! Who sleeps.

/// A thread that sleeps in the wait queue.
#[derive(Clone, Copy, PartialEq, Eq, Default)]
pub struct Sleeper {
    /// The thread's number, 0 to 63.
    pub thread: u32,
    /// The effective address that it waits at. Waits of 4 and of 8 bytes share one line.
    pub addr: u64,
    /// Its timeout, as it was given: a negative one never ends.
    pub timeout: i64,
}
