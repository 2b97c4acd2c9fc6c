//! Who hears how far a search came, and says whether it goes on.
ghost use Rattle.std.specs.Prelude.{◌≡◌, ℕ};

/// Whether a search is to go on.
#[derive(Clone, Copy, PartialEq, Eq, Debug)]
pub enum Wish {
    GoOn,
    End,
}

/// Hears how far a search came while it is on its way, and wishes each time that it goes on or ends. A search ends
/// early only where that is wished; whatever else is done with what is heard, it answers the same.
pub trait Follows {
    ghost use Rattle.search_reach.specs.declared.follows.Wish.{Wish};
    ghost use Rattle.search_reach.specs.Told.{HearsStates};

    /// What it wished last.
    ghost wish: { Self → Wish };

    /// How many states were met of which it heard last before it wished the end, or as it wished it.
    ghost told_at: { Self → ℕ };

    /// So many runs were made, with so many endings.
    fn runs(&mut self, made: u64, endings: usize) -> Wish
        ensures { result ≡ wish self.new };

    /// So many states were met, and so many of them are left to be gone through. Who wished the end goes on wishing it.
    fn states(&mut self, met: usize, left: usize) -> Wish
        ensures wish { result ≡ wish self.new }
        ensures hears { HearsStates met (wish self.old) (told_at self.old) (wish self.new) (told_at self.new) };

    /// It is at its end, and what it found is told next.
    fn end(&mut self);
}

/// Nobody hears it, and it always goes on.
impl Follows for () {
    ghost use Rattle.search_reach.specs.declared.follows.Wish.{Wish};

    ghost wish = { λ _. Wish.GoOn };

    ghost told_at = { λ _. 0 };

    fn runs(&mut self, _made: u64, _endings: usize) -> Wish {
        Wish::GoOn
    }

    fn states(&mut self, _met: usize, _left: usize) -> Wish {
        Wish::GoOn
    }

    fn end(&mut self) {}
}
