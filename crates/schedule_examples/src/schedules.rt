//! Worked runs and their schedules. Each function here does nothing, and its contract is a law.

ghost use Rattle.schedule_examples.specs.WorkedRun.{WorkedRun, AnotherSchedule, NoAnswerOfAnother, NoEntryAfterLeave};
ghost use Rattle.schedule_examples.specs.TwoThreads.{TwoThreadsRanTogether};

/// A worked run: one thread starts another and sleeps, the other loses a try, adds and wakes it, and both leave.
pub fn a_worked_run()
    ensures { WorkedRun }
{}

/// Another schedule of that history, in which a thread loses its try earlier, gives the same ends.
pub fn another_schedule_gives_the_same()
    ensures { AnotherSchedule }
{}

/// An answer told to another thread is not legal.
pub fn no_answer_of_another_thread()
    ensures { NoAnswerOfAnother }
{}

/// No threads run so that one enters an event after it has left.
pub fn no_entry_after_leave()
    ensures { NoEntryAfterLeave }
{}

/// A worked run, so that what is asked of threads can be met: one spawns another and ends, and the other one ends
/// meanwhile.
pub fn two_threads_ran_together()
    ensures { TwoThreadsRanTogether }
{}
