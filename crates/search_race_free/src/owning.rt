//! A settled state, and what its threads own.

use search_settled::NextAccess;

/// An access that a thread has made; or, where it isn't plain, that it would have made, and that was written over.
#[derive(Clone, Copy, PartialEq, Eq, PartialOrd, Ord, Hash, Debug)]
pub struct Touch {
    pub thread: usize,
    pub access: NextAccess,
}

/// A settled state, and what the threads own there: the plain accesses that each has made since it last made anything
/// else, and the atomic one that it wants since before another thread wrote over it.
#[derive(Drop, PartialEq, Eq, Hash)]
pub struct Owning<F> {
    pub flat: F,
    pub owned: Vec<Touch>,
}
