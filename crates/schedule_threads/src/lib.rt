//! The scheduled machine of a module: one thread steps all, over the sequential memory and the wait queue.
//!
//! Proved: the thread machine of any program keeps the laws that the theorem of one schedule asks of threads.
//!
//! `specs/Shared.antt` is what threads share, `specs/Threads.antt` the thread machine as the theorem of one schedule
//! (crate `schedule`) asks for it.
#![tactic(auto)]

ghost use Rattle.schedule.specs.Machine.{MachineLaws};
ghost use Rattle.interp_machine.specs.Program.{Program};
ghost use Rattle.schedule_threads.specs.Shared.{ThreadsOverMemoryAndQueueKeepTheLaws};
ghost use Rattle.schedule_threads.specs.Threads.{machine_of};

/// Threads with a budget of units, over any machine of configurations that keeps the laws of one, over the sequential
/// memory and the wait queue, are threads of a system of which the theorem of one schedule speaks.
pub fn threads_over_memory_and_queue_keep_the_laws<C>()
    ensures { ThreadsOverMemoryAndQueueKeepTheLaws C }
{}

/// The thread machine of any program keeps the laws of a machine: after a question within bounds a thread waits for its
/// answer, and does nothing else first.
pub fn programs_keep_the_laws_of_a_machine()
    ensures { (p : Program) → MachineLaws (machine_of p) }
{}
