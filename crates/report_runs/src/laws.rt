//! What callers who make a run themselves rest on: a function that does nothing, and whose contract is a law.
ghost use Rattle.report_runs.specs.Logs.{TheLogIsTheHistorySeen};

/// With the seats of a whole run, the log that `LockedRecorder::finish` gives up is the history that all of them saw.
/// So a caller of `spawn_host::run` who hands them back has the history that the run's contract speaks of.
pub fn the_log_is_the_history_that_all_seats_saw<S>()
    ensures { TheLogIsTheHistorySeen S }
{}
