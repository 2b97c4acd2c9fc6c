//! What it is to say who goes on.
ghost use Rattle.std.specs.Prelude.{ℕ, ◌≡◌, ◌<◌, ◌≤◌, true, List, Option, length, IfSome};
ghost use Rattle.types.specs.declared.event.Entry.{Entry};
ghost use Rattle.types.specs.declared.limits.TheConstants.{MOST_THREADS};

use types::Entry;

/// Says who goes on.
pub trait Strategy {
    /// Asked of these threads it may give this answer, and be this then.
    ghost chooses: { Self → List ℕ → Option ℕ → Self → Type 0 };

    /// Once it has heard this entry, it may be this.
    ghost hears: { Self → Entry → Self → Type 0 };

    /// It may give the run up in the middle of a thread's turns of its own.
    ghost may_end: { Self → Type 0 } = { λ _. ⊥ };

    /// Which of the threads that can go on does: its place in `ready`, which has their numbers, 1 to 64 of them in
    /// order. Without one the run is given up.
    fn choose(&mut self, ready: &[u32]) -> Option<usize>
        requires some { 0 < length ready.now }
        requires few { length ready.now ≤ MOST_THREADS }
        ensures place { IfSome result (λ place. place < length ready.now) }
        ensures chosen { chooses self.old ready.now result self.new };

    /// Hears the entry that the thread made.
    fn hear(&mut self, entry: &Entry)
        ensures { hears self.old entry.now self.new };

    /// Whether the run is given up in the middle of a thread's turns of its own. It is asked there once in a while.
    fn is_over(&self) -> bool
        ensures { result ≡ true → may_end self.now }
    {
        false
    }
}
