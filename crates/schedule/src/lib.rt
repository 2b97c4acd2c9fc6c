//! The theorem of one schedule: what threads did together over something shared, one thread that steps them all does
//! again, along a schedule of their history.
//!
//! Proved: a legal history's schedule makes it; all its schedules with as many lost tries end alike.
//!
//! It is stated over any system of threads (`specs/System.antt`), so it never looks at an instruction. Each function
//! here does nothing, and its contract is a law; `X` are the shared states, `T` the threads, `E` the events, `V` the
//! replies, `A` the answers, `W` what events touch, `C` the configurations of a machine and `O` its outcomes.
//!
//! Whoever uses it supplies
//! - a machine (`specs/Machine.antt`): what a configuration wishes, how it goes on, and the two laws of a machine;
//! - four functions of the shared state: the reply to an event, the state after it, the answer that it gives to each
//!   thread, and the thread that it starts under each number. A queue's answers due are no part of the shared state,
//!   but the threads' places;
//! - of a run: a legal history, and for each thread its steps from its start to its end, whose acts are its entries;
//! - and, for the clauses on lost tries and on a limit, what each thread saw of the history at each of its steps.
#![tactic(auto)]

ghost use Rattle.schedule.specs.Theorems.{OneSchedule, ScheduleFollows, EveryOtherGivesTheSame};
ghost use Rattle.schedule.specs.Theorems.{ThreadsWithBudgetsKeepTheLaws, ThreadsLeaveLast};
ghost use Rattle.schedule.specs.Theorems.{ActsAndLossesFixTheEnd, ScheduledRunsGoOn};

/// The schedule of a history makes the history, gives every thread's end and the shared state after the history.
pub fn one_schedule<X, T, E, V, A>()
    ensures { OneSchedule X T E V A }
{}

/// The schedule of a history follows it: others changed what a thread wanted to touch at least as often as it lost a
/// try between two neighbouring entries of its own, and no log was full before its limit.
pub fn schedule_follows<X, T, E, V, A, W>()
    ensures { ScheduleFollows X T E V A W }
{}

/// Every other schedule that makes the history, with as many lost tries and all threads gone, gives the same ends.
pub fn every_other_gives_the_same<X, T, E, V, A>()
    ensures { EveryOtherGivesTheSame X T E V A }
{}

/// Threads with a budget of units over a machine of configurations are threads of such a system.
pub fn threads_with_budgets_keep_the_laws<C, E, V, A, O, X>()
    ensures { ThreadsWithBudgetsKeepTheLaws C E V A O X }
{}

/// Such a thread enters a leave and the answer to it last, whatever ends it.
pub fn threads_leave_last<C, E, V, A, O, X>()
    ensures { ThreadsLeaveLast C E V A O X }
{}

/// A thread's acts, and how many tries it lost between them, fix its end.
pub fn acts_and_losses_fix_the_end<X, T, E, V, A>()
    ensures { ActsAndLossesFixTheEnd X T E V A }
{}

/// What the scheduled machine comes to is a function of its schedule alone, mark after mark.
pub fn scheduled_runs_go_on<X, T, E, V, A>()
    ensures { ScheduledRunsGoOn X T E V A }
{}
