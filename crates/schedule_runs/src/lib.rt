//! The theorem of one schedule for the threads of a module: what they did together over one memory, one thread that
//! steps them all does again, along a schedule of their history.
//!
//! Proved: threads of a module that made a legal history together made one run: its schedule gives the same ends and
//! memory. So does every other schedule that makes the history, with as many lost tries of each thread between its
//! entries and all threads gone. Each entry comes in its thread's turn.
//!
//! `specs/Runs.antt` says what a history and the runs of its threads are to that theorem, `specs/Theorem.antt` what
//! comes of it.
#![tactic(auto)]

ghost use Rattle.schedule_runs.specs.Theorem.{ThreadsMakeOneRun};
ghost use Rattle.schedule_runs.specs.Beginnings.{BeginningsStay, NobodyBeginsLater};

/// Threads of a module that each ran to an end, and together made a history that is legal, made one run: its schedule
/// gives every outcome, the units left to each thread and the memory, and so does every other schedule along the
/// history.
pub fn threads_make_one_run()
    ensures { ThreadsMakeOneRun }
{}

/// A thread that begins in a history begins as it does in each longer one.
pub fn beginnings_stay()
    ensures { BeginningsStay }
{}

/// A thread that hasn't begun where nobody is alive any more never begins.
pub fn nobody_begins_later()
    ensures { NobodyBeginsLater }
{}
