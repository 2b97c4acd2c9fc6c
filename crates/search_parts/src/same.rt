//! What is equal in a search is the same: its tests of equality read all that tells memories, queues and threads apart.
//! And what is the same is equal, so that a search meets each state once: there is one form for one meaning.
//!
//! Each function here does nothing, and its contract is a law.
ghost use Rattle.search_parts.specs.Same.{EqualMemoriesAreTheSame, EqualQueuesAreTheSame, EqualStandingsAreTheSame};
ghost use Rattle.search_parts.specs.Same.{TheSameMemoriesAreEqual, TheSameQueuesAreEqual, TheSameStandingsAreEqual};

/// Changes of one opening memory that are equal are those of the same memory.
pub fn equal_memories_are_the_same()
    ensures { EqualMemoriesAreTheSame }
{}

/// What is kept of queues is of the same queue where it is equal.
pub fn equal_queues_are_the_same()
    ensures { EqualQueuesAreTheSame }
{}

/// Threads at rest that are equal stand for the same threads, up to dead locals.
pub fn equal_standings_are_the_same()
    ensures { EqualStandingsAreTheSame }
{}

/// Changes of one opening memory that are those of the same memory are equal, where they are what differs.
pub fn the_same_memories_are_equal()
    ensures { TheSameMemoriesAreEqual }
{}

/// What is kept of the same queue is equal.
pub fn the_same_queues_are_equal()
    ensures { TheSameQueuesAreEqual }
{}

/// Threads at rest that stand for the same thread with all its locals, at the same places of the module, are equal.
pub fn the_same_standings_are_equal()
    ensures { TheSameStandingsAreEqual }
{}
