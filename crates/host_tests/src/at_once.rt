//! Five threads of one run meet in the middle of it.

use crate::runs::{BOTH, END, Ended, FUEL, Trouble, has_ends, run};
use interp_trait::{Gate, TrapFrame};
use std::alloc::Global;
use std::sync::Wait;
use std::sync::atomic::{AtomicU64, Ordering};
use std::test::Fail;
use std::thread::{Threads, yield_now};
use test_modules::{COUNTING, FOUR};
use types::{Outcome, Value};

/// How often a thread looks for the others before it gives up.
const LOOKS: u32 = 10_000_000;

/// How many units thread 0 has spent when it has spawned the four others.
const SPAWNED: u64 = 12;

/// The flags of all five threads: that of thread n is 2 to the power of n.
const ALL: u64 = 31;

/// Holds thread 0 where it has spawned, and each other before its first turn, until all five have come.
#[derive(Drop)]
struct Meeting {
    /// The flags of those that have come.
    came: AtomicU64,
    /// The flags of those that saw all five there.
    saw: AtomicU64,
}

impl Meeting {
    fn new() -> Meeting {
        Meeting {
            came: AtomicU64::new(0),
            saw: AtomicU64::new(0),
        }
    }

    /// Waits until all have come, or for so many looks.
    fn wait(&self, flag: u64) {
        for _ in 0..LOOKS {
            if self.came.load(Ordering::SeqCst) == ALL {
                self.saw.fetch_add(flag, Ordering::SeqCst);
                return;
            }
            yield_now();
        }
    }
}

impl Gate for &Meeting {
    ghost sees = { λ old thread turn new. Unit {0} };

    ghost gathers = { λ old other new. Unit {0} };

    fn at(&mut self, thread: u32, turn: u64) {
        if thread > 4 || (thread == 0 && turn < SPAWNED) {
            return;
        }
        let flag = 1u64 << thread;
        if self.came.load(Ordering::SeqCst) & flag != 0 {
            return;
        }
        self.came.fetch_add(flag, Ordering::SeqCst);
        self.wait(flag);
    }

    fn gather(&mut self, _other: &Meeting) {}

    fn trapped(&self, _thread: u32, _frame: TrapFrame) {}
}

/// Modules that spawn four threads, and how the threads end.
#[rattlefmt::skip]
static MODULES: [(&[u8], [Ended; 5]); 2] = [
    (FOUR, [
        (Outcome::Done(Some(Value::I32(7))), Some(14)),
        (Outcome::Done(None), Some(1)), (Outcome::Done(None), Some(1)),
        (Outcome::Done(None), Some(1)), (Outcome::Done(None), Some(1)),
    ]),
    (COUNTING, [(Outcome::Done(Some(Value::I32(160))), None), END, END, END, END]),
];

/// Whether all five saw one another, and ended so.
fn meet<R: Threads + Wait + Sync>(
    rt: &R,
    alloc: Global,
    module: &[u8],
    ends: &[Ended],
) -> Result<bool, Trouble> {
    for memory in BOTH {
        let meeting = Meeting::new();
        let end = run(rt, alloc, module, &[], FUEL, memory, &meeting)?;
        if meeting.saw.load(Ordering::SeqCst) != ALL || !has_ends(&end, ends) {
            return Ok(false);
        }
    }
    Ok(true)
}

/// A host that ran the spawned threads one after the other would leave each of them alone at the gate.
#[test]
fn five_threads_run_at_once(rt: HostRuntime) -> Result<(), Fail> {
    for (module, ends) in MODULES {
        assert!(rt; meet(&rt, rt.alloc(), module, &ends)?);
    }
    Ok(())
}
