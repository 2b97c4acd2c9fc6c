//! What the end of a walk shows of every schedule that makes its log: functions that do nothing, and whose contracts
//! are laws.
ghost use Rattle.replay.specs.Verdicts.{AgreeingRecordsAreOfRuns, WrongEndsAreOfNoRun, RunsEndInOneMemory};
ghost use Rattle.replay.specs.Verdicts.{NoRunHasAWrongEnd};
ghost use Rattle.replay.specs.Verdicts.{NoRunHasAMisfit, LogsOfRunsAreLegal};

/// A walk took the whole log and each line behind it agrees: the record is of a run, which ends with the walk's memory.
pub fn agreeing_records_are_of_runs()
    ensures { AgreeingRecordsAreOfRuns }
{}

/// A walk took the whole log: the first line that doesn't agree where it came to is the first that agrees with no
/// schedule.
pub fn wrong_ends_are_of_no_run()
    ensures { WrongEndsAreOfNoRun }
{}

/// A walk took the whole log: each run that the record is of ends with the walk's memory.
pub fn runs_end_in_one_memory()
    ensures { RunsEndInOneMemory }
{}

/// A record with a line that agrees with no schedule is of no run.
pub fn no_run_has_a_wrong_end()
    ensures { NoRunHasAWrongEnd }
{}

/// A record with an entry that doesn't fit is of no run.
pub fn no_run_has_a_misfit()
    ensures { NoRunHasAMisfit }
{}

/// The log of a record that is of a run is legal, from the module's opening memory on.
pub fn logs_of_runs_are_legal()
    ensures { LogsOfRunsAreLegal }
{}
