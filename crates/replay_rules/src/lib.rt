//! Which logs a schedule makes, the walk along a log that finds its first entry that no schedule makes, and of which
//! runs a record is.
//!
//! Proved: what a walk takes, a schedule makes; every run of the log ends as the walk does; where it stops, no run
//! goes on.
//!
//! The laws of the walk are stated over any system of threads (crate `schedule`), and look at no instruction. Each
//! function does nothing, and its contract is a law; `X` are the shared states, `T` the threads, `E` the events, `V`
//! the replies, `A` the answers, and `W` what events touch.
//!
//! - `specs/Logs.antt`: when a schedule without lost tries makes a log, and which entry of a log is the first that none
//!   makes.
//! - `specs/Walk.antt`: how one thread takes an entry. It makes turns of its own until it wants an event, which has to
//!   be the entry's, with its reply; at the limit a thread that wants another event leaves. An answer heard has to be
//!   due.
//! - `proofs/Making.antt`: what a walk takes, a schedule makes: the thread's turns of its own, and the turn that makes
//!   the event.
//! - `proofs/Leading.antt`: a run that makes the log leads the walk. Each of its threads is the walk's, some turns of
//!   its own further, or ended by the full log there. So the walk can take whatever the run enters. This is one
//!   induction over the run's schedule, and needs no reordering.
//! - `specs/Recorded.antt`: of which runs a record is, over the machine of crate `schedule_runs`: what the record says,
//!   some schedule without lost tries makes. It says too which entry is the first that doesn't fit, and which end line
//!   is the first that doesn't agree. `specs/Telling.antt` joins it to the runs of real threads, `specs/Ranges.antt` to
//!   the ranges of records.
#![tactic(auto)]

ghost use Rattle.replay_rules.specs.Telling.{RunsAreRecorded};
ghost use Rattle.replay_rules.specs.Ranges.{RunsAreInRange};
ghost use Rattle.replay_rules.specs.Theorems.{WalksAreMade, EndsAreTheSame, StopsAreMisfits};

/// A walk along a whole log: a schedule makes the log, and comes to where the walk does.
pub fn walks_are_made<X, T, E, V, A, W>()
    ensures { WalksAreMade X T E V A W }
{}

/// Every schedule that makes the log comes to the walk's shared state, and to the walk's threads as far as they are
/// gone.
pub fn ends_are_the_same<X, T, E, V, A, W>()
    ensures { EndsAreTheSame X T E V A W }
{}

/// An entry that the walk can't take is the first that doesn't fit: some run makes those before it, and none goes on
/// with it.
pub fn stops_are_misfits<X, T, E, V, A, W>()
    ensures { StopsAreMisfits X T E V A W }
{}

/// Threads that made a history together over a log with a limit, and a record that tells its entries, its ends and its
/// pages: that record is of a run, which ends with the memory after the history.
pub fn runs_are_recorded()
    ensures { RunsAreRecorded }
{}

/// Such a record is within the ranges of records, where the memory kept to its limits and the budget is at most
/// 1,000,000,000,000 units.
pub fn runs_are_in_range()
    ensures { RunsAreInRange }
{}
