//! A settled state, flat.

/// What threads share, and the threads, each at rest.
#[derive(Drop, PartialEq, Eq, Hash)]
pub struct RestingState<S, T> {
    pub shared: S,
    pub threads: Vec<T>,
}
