//! What is told of a moment: what each thread comes to, where it stands, and with which entries the next one races.

use selection::NumberSpan;
use show_told::ToldFunction;

/// How a thread stands to its first entry from a moment on that isn't left out.
#[derive(Clone, Copy, PartialEq, Eq, Debug)]
pub enum Stance {
    /// It wants what the entry is.
    Wants,
    /// It is at its end, and leaves by it.
    Ends,
    /// It is its answer, which is due.
    Owed,
    /// It is its answer, and it sleeps on the question at this place of the log.
    Asleep(usize),
}

/// What a thread comes to.
#[derive(Drop)]
pub struct ToldNext<'a> {
    /// The place in the log of its first entry from the moment on that isn't left out.
    pub at: usize,
    pub stance: Stance,
    /// The bytes to which that entry comes, or to which its question came, if it comes to some.
    pub touched: Option<NumberSpan>,
    /// The place of the last entry before the moment that wrote one of them, if one did.
    pub last: Option<usize>,
    /// Its open functions, the one that runs first.
    pub functions: Vec<ToldFunction<'a>>,
}

/// A thread that was spawned.
#[derive(Drop)]
pub struct ToldThread<'a> {
    pub thread: usize,
    /// What it comes to; nothing where it is gone.
    pub next: Option<ToldNext<'a>>,
}

/// What is told of a moment.
#[derive(Drop)]
pub struct ToldMoment<'a> {
    /// In the order of their numbers.
    pub threads: Vec<ToldThread<'a>>,
    /// The places of the entries with which that of the moment races.
    pub races: Vec<usize>,
}
