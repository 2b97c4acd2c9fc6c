//! What was explored of threads, by numbers, with a guess of which of them go on.
use types::Sequence;

/// What a thread is at states, as far as it matters: most threads are the same at many states. Each such part has a
/// number, and what steps do has numbers, too.
#[derive(Drop)]
pub struct Parts {
    /// Whether the thread can go on.
    pub can: Vec<bool>,
    /// What it wants: all that it does by its next step.
    pub wants: Vec<Sequence<u32>>,
    /// What another thread's step has to do to wake it or start it.
    pub heeds: Vec<Sequence<u32>>,
    /// Its footprint: what it may still want is marked.
    pub may: Vec<Sequence<bool>>,
}

/// A thread at a state.
#[derive(Clone, Copy, PartialEq, Eq, Debug)]
pub struct Standing {
    pub part: u32,
    /// Whether it is one of those that go on there.
    pub goes: bool,
    /// The index of a move: its own, if it goes on; else one that leads to a smaller rank of this thread.
    pub by: u32,
    pub rank: u32,
}

/// What was explored, but for the moves, and the guess.
#[derive(Drop)]
pub struct Certificate {
    pub threads: usize,
    /// For each state, its threads.
    pub states: Vec<Sequence<Standing>>,
    pub parts: Parts,
    /// For each thing that steps do, what conflicts with it.
    pub conflicts: Vec<Sequence<bool>>,
}
