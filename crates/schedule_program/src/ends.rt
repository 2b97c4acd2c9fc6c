//! What the machine has come to: its memory, and the reports of the threads that have left.
ghost use Rattle.std.specs.Prelude.{◌≡◌, IfOk};
ghost use Rattle.schedule_program.specs.Threads.{report_of};
ghost use Rattle.schedule_program.specs.Runs.{AtEach, AreReports, LeavesWithin};

use crate::stepping::Machine;
use interp_trait::TakesTurns;
use shared_memory_sequential::OneMemory;
use std::alloc::{AllocError, Global};
use types::{MOST_THREADS, ThreadReport};

/// Threads are numbered 0 to 63.
const THREADS: u32 = MOST_THREADS as u32;

impl<T: TakesTurns> Machine<T> {
    /// The memory.
    pub fn memory(&self) -> &OneMemory
        ensures { AtEach T.meaning self.now (λ s w. result.now ≡ w.shared.memory) }
    {
        &self.memory
    }

    /// The report of a thread that has left. One that hasn't, or was never started, has none.
    pub fn report(&self, n: u32) -> Option<ThreadReport>
        ensures report { AtEach T.meaning self.now (λ s w. result ≡ report_of s.fuel (w.threads n)) }
        ensures within { LeavesWithin T.meaning self.now n }
    {
        let place = n as usize;
        if place < self.threads.len() {
            return self.threads[place].report();
        }
        None
    }

    /// The reports of all threads that have left, in order of their numbers.
    ///
    /// # Errors
    /// Where memory is refused.
    pub fn reports(&self, alloc: Global) -> Result<Vec<ThreadReport>, AllocError>
        ensures { IfOk result (λ reports. AreReports T.meaning self.now reports.items) }
    {
        let mut reports = Vec::with_capacity(alloc, THREADS as usize)?;
        for n in 0..THREADS {
            if let Some(report) = self.report(n) {
                reports.push_reserved(report);
            }
        }
        Ok(reports)
    }
}
