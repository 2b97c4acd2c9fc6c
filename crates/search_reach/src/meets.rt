//! A system that keeps the states that were met in a table of its own.
ghost use Rattle.std.specs.Prelude.{◌≡◌, ℕ, Bool, true, false, List, [], ◌∷◌, length, IfOk};
ghost use Rattle.std.specs.List.{slice_get, IsDistinct};
ghost use Rattle.search_reach.specs.Search.{StepSystem, IsFirst, IsEnding, AllGetStuck, CanGetStuck};
ghost use Rattle.search_reach.specs.Meeting.{HasMetAt, OfStateAt, HasFirst, HasSound, GoesOnAt};

use search_graph::Move;
use std::alloc::{AllocError, Global};
use std::hash::Hash;

/// Worlds, between which threads make steps, and states that stand for them, which are kept in a table: each once, in
/// the order of their meeting.
pub trait Meets {
    /// The states that were met.
    type Table: Drop;

    /// How a state has ended.
    type Ending: Eq + Hash + Drop;

    /// The states.
    ghost State: { Type 0 };

    /// The worlds.
    ghost World: { Type 0 };

    /// The steps of threads, what a state stands for, where it begins, how a world has ended, and of which it cannot
    /// tell what comes of them.
    ghost system: { Self → StepSystem State World Self.Ending };

    /// When two states are equal.
    ghost equal: { Self → State → State → Bool };

    /// A table has these states.
    ghost holds: { Self → Self.Table → List State → Type 0 };

    /// A table without states.
    fn table(&self, alloc: Global) -> Self::Table
        ensures { holds self.now result [] };

    /// How many states were met.
    fn count(&self, table: &Self::Table) -> usize
        ensures len { (ks : List State) → holds self.now table.now ks → result ≡ length ks }
        ensures distinct { (ks : List State) → holds self.now table.now ks → IsDistinct (equal self.now) ks };

    /// Puts the first state into a table without states. It answers no, and puts none, where it cannot tell it.
    fn first(&self, alloc: Global, table: &mut Self::Table) -> Result<bool, AllocError>
        requires { holds self.now table.old [] }
        ensures first { IfOk result (λ told. told ≡ true → HasFirst (system self.now) (holds self.now table.new)) }
        ensures none { IfOk result (λ told. told ≡ false → holds self.now table.new []) }
        ensures gives_up { IfOk result (λ told. told ≡ false → CanGetStuck (system self.now)) };

    /// Puts the next states of the one at this place into the table, of which each state can be met, and notes the moves
    /// to them. It answers no, puts none and notes none where it cannot tell them.
    fn next(
        &self,
        alloc: Global,
        table: &mut Self::Table,
        at: u32,
        moves: &mut Vec<Move>,
    ) -> Result<bool, AllocError>
        requires at { HasMetAt (system self.now) (holds self.now table.old) at }
        requires sound { HasSound (system self.now) (holds self.now table.old) }
        ensures next { IfOk result (λ told. told ≡ true → GoesOnAt (system self.now) (holds self.now table.old)
            (equal self.now) (holds self.now table.new) at moves.old.items moves.new.items) }
        ensures none { IfOk result (λ told. told ≡ false → OfStateAt (system self.now) (holds self.now table.old) at
            (λ ks s. holds self.now table.new ks)) }
        ensures kept { IfOk result (λ told. told ≡ false → moves.new.items ≡ moves.old.items) }
        ensures gives_up { IfOk result (λ told. told ≡ false → OfStateAt (system self.now) (holds self.now table.old) at
            (λ ks s. AllGetStuck (system self.now) s)) };

    /// How the state at this place has ended, where it has.
    fn ending(
        &self,
        alloc: Global,
        table: &Self::Table,
        at: usize,
    ) -> Result<Option<Self::Ending>, AllocError>
        requires { HasMetAt (system self.now) (holds self.now table.now) at }
        ensures { IfOk result (λ o. OfStateAt (system self.now) (holds self.now table.now) at
            (λ ks s. IsEnding (system self.now) s o)) };

    /// Equal states stand for the same.
    ghost alike: { (t : Self) (x y : State) → equal t x y ≡ true → (w : World) (left : ℕ → ℕ)
        → (system t).stands x w left → (system t).stands y w left };

    /// What equals another is equalled by it.
    ghost symmetric: { (t : Self) (x y : State) → equal t x y ≡ true → equal t y x ≡ true };
}
