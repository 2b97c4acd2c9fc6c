//! The runs of a module's threads, as a search goes through them: without budgets.
//!
//! Proved: however threads ran together with units and room enough, threads without budgets come to the same end, by no
//! more events than their history has entries. What they come to, the scheduled machine comes to along some turns, with
//! some budget.
//!
//! Each function here does nothing, and its contract is a law.
//!
//! - `specs/Called.antt`: the threads of a module without budgets, over the sequential memory and the wait queue.
//! - `specs/Accesses.antt`: what a thread does with the memory by its event, and which of that is plain.
//! - `specs/Ends.antt`: how they have ended.
//! - `specs/Theorems.antt`: how their ends stand to those of runs.
#![tactic(auto)]

ghost use Rattle.search_runs.specs.Theorems.{ThreadsAreTame, AccessesArePlain, FewGoOn, NobodyGoesOnInTheEnd};
ghost use Rattle.search_runs.specs.Theorems.{EveryRunEndsSo, EveryRunEndsWithin, EveryEndIsScheduled};

/// Wherever these threads come, an event gives answers to its own thread or to one that awaits it, and threads 0 to 63
/// alone make turns of their own.
pub fn threads_are_tame()
    ensures { ThreadsAreTame }
{}

/// A load or a store that isn't atomic and lies within bounds tells no thread anything, and commutes with each event of
/// another thread that doesn't conflict with it.
pub fn accesses_are_plain()
    ensures { AccessesArePlain }
{}

/// Threads 0 to 63 alone make turns of their own or events.
pub fn few_go_on()
    ensures { FewGoOn }
{}

/// Where all threads have ended, none makes a turn of its own or an event.
pub fn nobody_goes_on_in_the_end()
    ensures { NobodyGoesOnInTheEnd }
{}

/// However threads ran together, where none of them stopped for want of units or for a full log, threads without
/// budgets can end as they did.
pub fn every_run_ends_so()
    ensures { EveryRunEndsSo }
{}

/// And they do so by no more events than their history has entries.
pub fn every_run_ends_within()
    ensures { EveryRunEndsWithin }
{}

/// What threads without budgets can come to, the scheduled machine comes to along some turns, with some budget.
pub fn every_end_is_scheduled()
    ensures { EveryEndIsScheduled }
{}
