//! A gate that holds threads back until others have come to some point.

use interp_trait::{Gate, TrapFrame};
use std::alloc::{AllocError, Global};
use std::sync::atomic::{AtomicU64, Ordering};
use std::thread::yield_now;

/// How often a held thread looks before it goes on all the same.
const LOOKS: u32 = 10_000_000;

/// A thread that has spent so many units, or more, goes on only behind a sign.
#[derive(Clone, Copy, PartialEq, Eq, Debug)]
pub(crate) struct Hold {
    pub(crate) thread: u32,
    pub(crate) from: u64,
    pub(crate) sign: Sign,
}

/// So many turns of a thread that has spent so many units, or more.
#[derive(Clone, Copy, PartialEq, Eq, Debug)]
pub(crate) struct Sign {
    pub(crate) thread: u32,
    pub(crate) spent: u64,
    pub(crate) turns: u64,
}

/// A hold, and how many turns of its sign have come.
#[derive(Drop)]
struct Watched {
    hold: Hold,
    came: AtomicU64,
}

impl Watched {
    /// Waits until the sign has come. Answers whether it came within so many looks.
    fn wait(&self) -> bool {
        for _ in 0..LOOKS {
            if self.came.load(Ordering::SeqCst) >= self.hold.sign.turns {
                return true;
            }
            yield_now();
        }
        false
    }
}

/// A gate of holds.
#[derive(Drop)]
pub(crate) struct Holding {
    holds: Vec<Watched>,
    /// 1 once a thread went on without its sign.
    missed: AtomicU64,
}

impl Holding {
    pub(crate) fn new(alloc: Global, holds: &[Hold]) -> Result<Holding, AllocError> {
        let mut watched = Vec::new(alloc);
        for hold in holds {
            watched.push(Watched {
                hold: *hold,
                came: AtomicU64::new(0),
            })?;
        }
        Ok(Holding {
            holds: watched,
            missed: AtomicU64::new(0),
        })
    }

    /// Whether every held thread waited until its sign came.
    pub(crate) fn was_kept(&self) -> bool {
        self.missed.load(Ordering::SeqCst) == 0
    }
}

impl Gate for &Holding {
    ghost sees = { λ old thread turn new. Unit {0} };

    ghost gathers = { λ old other new. Unit {0} };

    fn at(&mut self, thread: u32, turn: u64) {
        for watched in &self.holds {
            let sign = watched.hold.sign;
            if sign.thread == thread && sign.spent <= turn {
                watched.came.fetch_add(1, Ordering::SeqCst);
            }
        }
        for watched in &self.holds {
            if watched.hold.thread == thread && watched.hold.from <= turn && !watched.wait() {
                self.missed.store(1, Ordering::SeqCst);
            }
        }
    }

    fn gather(&mut self, _other: &Holding) {}

    fn trapped(&self, _thread: u32, _frame: TrapFrame) {}
}
