//! Threads without a budget, beside the threads with one of crate `schedule`.
//!
//! Proved: a run in which nobody stops for want of units or for a full log is a run of threads without budgets.
//!
//! Whoever looks for all runs can't go through all budgets: so it goes through the runs of threads that have none. Each
//! function here does nothing, and its contract is a law; `C` are the configurations of a machine, `E` the events, `V`
//! the replies, `A` the answers, `O` the outcomes and `X` the shared states.
//!
//! - `specs/Unlimited.antt`: a thread without a budget, and the system of such threads. It stops neither for want of
//!   units nor for a full log, and no try of it is lost.
//! - `specs/Budgets.antt`: how runs of the one and the other kind stand to one another.
#![tactic(auto)]

ghost use Rattle.search_threads.specs.Budgets.{UnlimitedThreadsKeepTheLaws, RunsWithoutStopsNeedNoBudget};
ghost use Rattle.search_threads.specs.Budgets.{UnlimitedRunsHaveBudgets};

/// Threads without a budget over a machine of configurations are threads of a system, as crate `schedule` asks for
/// them.
pub fn unlimited_threads_keep_the_laws<C, E, V, A, O, X>()
    ensures { UnlimitedThreadsKeepTheLaws C E V A O X }
{}

/// A run of threads with a budget in which nobody stops for want of units or for a full log is one of threads without a
/// budget: along some turns these make the same history, and come to the same ends.
pub fn runs_without_stops_need_no_budget<C, E, V, A, O, X>()
    ensures { RunsWithoutStopsNeedNoBudget C E V A O X }
{}

/// What threads without a budget make along a list of turns, threads with a budget of more units than there are turns
/// make too.
pub fn unlimited_runs_have_budgets<C, E, V, A, O, X>()
    ensures { UnlimitedRunsHaveBudgets C E V A O X }
{}
