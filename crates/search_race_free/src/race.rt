//! Two threads that race.

/// These threads race in some run.
#[derive(Clone, Copy, PartialEq, Eq, Debug)]
pub struct ThreadRace {
    pub one: usize,
    pub other: usize,
}
