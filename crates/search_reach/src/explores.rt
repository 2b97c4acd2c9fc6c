//! A system whose states can be gone through.
ghost use Rattle.std.specs.Prelude.{◌≡◌, ℕ, true, Option, None, IfOk, IfSome};
ghost use Rattle.search_reach.specs.Search.{
  StepSystem,
  AreNext,
  IsFirst,
  IsMet,
  IsEnding,
  AllGetStuck,
  CanGetStuck,
};

use std::alloc::{AllocError, Global};
use std::hash::Hash;

/// A next state of a state, and the thread whose steps lead there.
#[derive(Drop)]
pub struct NextState<S> {
    pub thread: u32,
    pub state: S,
}

/// Worlds, between which threads make steps, and concrete states that stand for them.
pub trait Explores {
    /// A concrete state.
    type State: Eq + Hash + Drop;

    /// How a state has ended.
    type Ending: Eq + Hash + Drop;

    /// The worlds.
    ghost World: { Type 0 };

    /// The steps of threads, what a concrete state stands for, where it begins, how a world has ended, and of which it
    /// cannot tell what comes of them.
    ghost system: { Self → StepSystem Self.State World Self.Ending };

    /// The first state, or nothing where it cannot tell it.
    fn first(&self, alloc: Global) -> Result<Option<Self::State>, AllocError>
        ensures first { IfOk result (λ o. IfSome o (IsFirst (system self.now))) }
        ensures gives_up { IfOk result (λ o. o ≡ None → CanGetStuck (system self.now)) };

    /// The next states of a state, each with its thread, or nothing where it cannot tell them.
    fn next(
        &self,
        alloc: Global,
        state: &Self::State,
    ) -> Result<Option<Vec<NextState<Self::State>>>, AllocError>
        requires { IsMet (system self.now) state.now }
        ensures next { IfOk result (λ o. IfSome o (λ v. AreNext (system self.now) state.now v.items)) }
        ensures gives_up { IfOk result (λ o. o ≡ None → AllGetStuck (system self.now) state.now) };

    /// How a state has ended, where it has.
    fn ending(&self, alloc: Global, state: &Self::State) -> Result<Option<Self::Ending>, AllocError>
        requires { IsMet (system self.now) state.now }
        ensures { IfOk result (IsEnding (system self.now) state.now) };

    /// Equal states stand for the same.
    ghost same: { (t : Self) (x y : Self.State) → Self.State.eq x y ≡ true → (w : World) (left : ℕ → ℕ)
        → (system t).stands x w left → (system t).stands y w left };
}
