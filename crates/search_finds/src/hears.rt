//! Who hears how far a search of drawn runs came.
ghost use Rattle.std.specs.Prelude.{◌≡◌};

use crate::size::Size;
use replay_text::Record;
use search_reach::{Follows, Wish};
use search_strategies::EndWatch;

/// Follows a search of drawn runs: it also hears how far the shrinking of a run came, and gives those who make runs
/// something to look at, by which a run is given up.
pub trait Hears: Follows {
    ghost use Rattle.search_reach.specs.declared.follows.Wish.{Wish};

    /// What is looked at from any thread.
    type Watch: EndWatch + Sync + Drop;

    /// That, by which runs are given up where it is to end.
    fn watch(&self) -> Self::Watch;

    /// Some run was given up: what it wishes now.
    fn given_up(&mut self) -> Wish
        ensures { result ≡ Self.wish self.new };

    /// A run was found, which has this record, and smaller ones are tried next. Without a body nobody hears of it.
    fn found(&mut self, _record: &Record) {}

    /// So many smaller ones were tried, and the smallest has this size.
    fn tried(&mut self, tries: u32, size: Size) -> Wish
        ensures { result ≡ Self.wish self.new };
}

/// Nobody hears it, and no run is given up.
impl Hears for () {
    ghost use Rattle.search_reach.specs.declared.follows.Wish.{Wish};

    type Watch = ();

    fn watch(&self) -> () {}

    fn given_up(&mut self) -> Wish {
        Wish::GoOn
    }

    fn tried(&mut self, _tries: u32, _size: Size) -> Wish {
        Wish::GoOn
    }
}
