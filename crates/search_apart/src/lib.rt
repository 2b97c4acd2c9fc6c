//! The threads of a module are threads that make turns, as crate `search_ample` asks for them.
//!
//! Proved: wherever threads of a module without budgets come, two of their turns that don't conflict may be made in
//! either order, and whoever sleeps or isn't there stays so until what it heeds; where nobody is ever stuck, as in each
//! call of a valid module.
//!
//! So all that crate `search_ample` says of threads that make turns is so of these. No search uses it yet.
//!
//! Each function here does nothing, and its contract is a law.
//!
//! - `specs/Acts.antt`: what a turn does, as data, which of it conflicts, and which is plain.
//! - `specs/Turning.antt`: what threads want and heed next, and which states nobody tells apart.
//! - `specs/Theorems.antt`: what is proved, and where nobody is stuck.
//! - `proofs/Changes.antt`, `proofs/Conflicts.antt`: what an event makes of the memory, and what that leaves of another
//!   one. `proofs/Sleepers.antt`, `proofs/Calls.antt`, `proofs/Deeds.antt`: the same of the queue.
//! - `proofs/Stepping.antt`, `proofs/Awaiting.antt`: a thread awaits an answer only behind a question.
//!   `proofs/InCalls.antt`: threads stay typed.
//! - `proofs/Doing.antt`: what a turn makes of a state. `proofs/Alike.antt`: which states nobody tells apart.
//!   `proofs/Apart.antt`: the laws.
#![tactic(auto)]

ghost use Rattle.search_apart.specs.Theorems.{TurnsAreApart, WhoAwaitsSleeps, NobodyIsStuckInCalls};

/// Where nobody is stuck, turns of a module's threads keep the laws of turns. What doesn't conflict with a thread's
/// next turn leaves that as it is, and may be made before it or behind it. Who sleeps, or isn't there yet, stays so
/// until another one's turn does what it heeds, or nobody else can go on.
pub fn turns_are_apart()
    ensures { TurnsAreApart }
{}

/// Where nobody is stuck, a thread that awaits the answer to its question sleeps in the queue.
pub fn who_awaits_sleeps()
    ensures { WhoAwaitsSleeps }
{}

/// In each call of a valid module, what comes next of each thread is defined wherever threads come.
pub fn nobody_is_stuck_in_calls()
    ensures { NobodyIsStuckInCalls }
{}
