//! Threads that are moved one by one.
ghost use Rattle.std.specs.Prelude.{◌≡◌, ◌<◌, ◌≤◌, ◌↔◌, true, false, None, IfOk, IfSome};
ghost use Rattle.schedule.specs.System.{State};
ghost use Rattle.search_settled.specs.Settled.{AreTame};
ghost use Rattle.search_settled.specs.Next.{IsBeginning, IsSomewhere, HasEnded, NobodyTurns};
ghost use Rattle.search_settled.specs.Threads.{ThreadSystem};
ghost use Rattle.search_settled.specs.Parts.{HasParts};
ghost use Rattle.search_settled.specs.declared.flat.RestingState.{RestingState as StateAtRest};
ghost use Rattle.search_settled.specs.Flat.{
  AreBounded,
  IsThreadOf,
  IsEventAt,
  IsBeforeSome,
  ComesAfter,
  IsStuckBy,
  StartsSomewhere,
  BeginsAfter,
  IsStuckByStart,
};

use crate::RestingState;
use std::alloc::{AllocError, Global};
use std::hash::Hash;

/// A system of threads, what they share and each of them as values that can be compared.
pub trait Moves {
    /// What threads share.
    type Shared: Eq + Hash + Drop;

    /// A thread at rest.
    type Thread: Eq + Hash + Drop;

    /// What an event makes of the threads.
    type Effect: Drop;

    /// How threads have ended.
    type Ending: Eq + Hash + Drop;

    /// What threads share, the threads, and their events, replies and answers, as the system has them.
    ghost X: { Type 0 };

    ghost T: { Type 0 };

    ghost E: { Type 0 };

    ghost V: { Type 0 };

    ghost A: { Type 0 };

    /// The system, and what stands for its states.
    ghost threads: { Self → ThreadSystem X T E V A Self.Shared Self.Thread Self.Effect };

    /// How a state has ended.
    ghost ends: { Self → State X T → Self.Ending → Type 0 };

    /// Of which states it cannot tell where all threads come to rest.
    ghost stuck: { Self → State X T → Type 0 };

    /// Where all threads come to rest in the beginning, or nothing where it cannot tell that.
    fn first(
        &self,
        alloc: Global,
    ) -> Result<Option<RestingState<Self::Shared, Self::Thread>>, AllocError>
        ensures first { IfOk result (λ o. IfSome o (IsBeginning (threads self.now))) }
        ensures gives_up { IfOk result (λ o. o ≡ None → stuck self.now (threads self.now).first) };

    /// How many threads were started.
    fn started(&self, shared: &Self::Shared) -> usize
        ensures { (x : X) → (threads self.now).shares shared.now x → result ≡ (threads self.now).count x };

    /// The event that thread n wants to make, if it wants one.
    fn event(
        &self,
        alloc: Global,
        shared: &Self::Shared,
        thread: &Self::Thread,
        n: usize,
    ) -> Result<Option<(Self::Shared, Self::Effect)>, AllocError>
        requires { (z : State X T) × IsThreadOf (threads self.now) shared.now thread.now n z }
        ensures { IfOk result (IsEventAt (threads self.now) shared.now thread.now n) };

    /// Where thread m comes to rest after an event of thread n, or nothing where it cannot tell that.
    fn after(
        &self,
        alloc: Global,
        made: &Self::Effect,
        n: usize,
        thread: &Self::Thread,
        m: usize,
    ) -> Result<Option<Self::Thread>, AllocError>
        requires somewhere { IsBeforeSome (threads self.now) made.now n thread.now m }
        requires few { m < (threads self.now).most }
        ensures rests { IfOk result (λ o. IfSome o (ComesAfter (threads self.now) made.now n thread.now m)) }
        ensures gives_up { IfOk result (λ o. o ≡ None
            → IsStuckBy (threads self.now) (stuck self.now) made.now n thread.now m) };

    /// Whether thread m, which is another one, may hear of an event of thread n.
    fn hears(&self, made: &Self::Effect, n: usize, m: usize) -> bool
        requires { m < (threads self.now).most }
        ensures { result ≡ false → (t : Self.Thread) → ComesAfter (threads self.now) made.now n t m t };

    /// The same thread, for one state more.
    fn share(&self, thread: &Self::Thread) -> Result<Self::Thread, AllocError>
        ensures { IfOk result (λ t. t ≡ thread.now) };

    /// What is shared, once more.
    fn copied(&self, alloc: Global, shared: &Self::Shared) -> Result<Self::Shared, AllocError>
        ensures { IfOk result (λ s. (x : X) → (threads self.now).shares shared.now x ↔ (threads self.now).shares s x) };

    /// Where thread m first comes to rest, which an event of thread n starts, or nothing where it cannot tell that.
    fn first_after(
        &self,
        alloc: Global,
        made: &Self::Effect,
        n: usize,
        m: usize,
    ) -> Result<Option<Self::Thread>, AllocError>
        requires somewhere { StartsSomewhere (threads self.now) made.now n m }
        requires few { m < (threads self.now).most }
        ensures rests { IfOk result (λ o. IfSome o (BeginsAfter (threads self.now) made.now n m)) }
        ensures gives_up { IfOk result
            (λ o. o ≡ None → IsStuckByStart (threads self.now) (stuck self.now) made.now n m) };

    /// How a settled state of which these are the parts has ended, where it has.
    fn ending(
        &self,
        alloc: Global,
        shared: &Self::Shared,
        each: &[Self::Thread],
    ) -> Result<Option<Self::Ending>, AllocError>
        requires { (c : StateAtRest Self.Shared Self.Thread) × HasParts shared.now each.now c
            × IsSomewhere (threads self.now) c }
        ensures { IfOk result (λ o. (c : StateAtRest Self.Shared Self.Thread) → HasParts shared.now each.now c
            → HasEnded (threads self.now) (ends self.now) c o) };

    /// Answers go to who awaits them, and no more threads are there than can be.
    ghost tame: { (t : Self) → AreTame (threads t).system (threads t).first (threads t).most };

    ghost bounded: { (t : Self)
        → AreBounded (threads t).system (threads t).first (threads t).count (threads t).most };

    /// Nobody makes turns in the end.
    ghost over: { (t : Self) → NobodyTurns (threads t).system (ends t) };

    /// Equal ones are the same.
    ghost same_shared: { (t : Self) (x y : Self.Shared) → Self.Shared.eq x y ≡ true → (w : X)
        → (threads t).shares x w → (threads t).shares y w };

    ghost same_thread: { (t : Self) (x y : Self.Thread) → Self.Thread.eq x y ≡ true → (w : T)
        → (threads t).is_thread x w → (threads t).is_thread y w };
}
