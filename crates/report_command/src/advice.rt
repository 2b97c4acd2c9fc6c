//! What to do about threads that were stopped, by options of the command line.

use types::{Outcome, Stop, Trap};

/// How a thread ended, and what to do about it.
#[derive(Clone, Copy)]
pub struct Advice {
    pub outcome: Outcome,
    /// A line, without its line feed.
    pub words: &'static str,
}

/// What there is to say of ends of threads, in the order in which it is said.
pub static ADVICE: [Advice; 4] = [
    Advice {
        outcome: Outcome::Stop(Stop::RecordFull),
        words: "the record took no further entry: --limit takes up to 1000000, and --memory words has no limit and keeps no record",
    },
    Advice {
        outcome: Outcome::Stop(Stop::OutOfFuel),
        words: "a thread spent all its units: --fuel takes up to 1000000000000",
    },
    Advice {
        outcome: Outcome::Stop(Stop::AsleepForGood),
        words: "a thread sleeps where nobody is left to wake it: `show` has the entry at which it fell asleep",
    },
    Advice {
        outcome: Outcome::Trap(Trap::UnalignedAtomic),
        words: "an atomic access wants an address that its width divides",
    },
];
