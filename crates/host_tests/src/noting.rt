//! A gate that writes down every call.

use interp_trait::{Gate, TrapFrame};
use std::alloc::{AllocError, Global};
use std::sync::atomic::{AtomicU64, Ordering};

/// How many calls it has room for.
const MOST_CALLS: u32 = 64;

/// A gate that lets each thread through, and writes down the calls.
#[derive(Drop)]
pub(crate) struct Noting {
    /// How many have come.
    count: AtomicU64,
    /// The thread of each, in order.
    threads: Vec<AtomicU64>,
    /// The units of each.
    units: Vec<AtomicU64>,
}

/// A place for each call.
fn places(alloc: Global) -> Result<Vec<AtomicU64>, AllocError> {
    let mut places = Vec::new(alloc);
    for _ in 0..MOST_CALLS {
        places.push(AtomicU64::new(0))?;
    }
    Ok(places)
}

impl Noting {
    pub(crate) fn new(alloc: Global) -> Result<Noting, AllocError> {
        Ok(Noting {
            count: AtomicU64::new(0),
            threads: places(alloc)?,
            units: places(alloc)?,
        })
    }

    /// How many calls have come.
    pub(crate) fn count(&self) -> u64 {
        self.count.load(Ordering::SeqCst)
    }

    /// Whether the calls for a thread came with these units, in this order.
    pub(crate) fn has(&self, thread: u64, units: &[u64]) -> bool {
        let mut wanted = units.iter();
        let noted = self.threads.iter().zip(&self.units);
        for (name, spent) in noted.take(self.count() as usize) {
            if name.load(Ordering::SeqCst) == thread
                && wanted.next() != Some(&spent.load(Ordering::SeqCst))
            {
                return false;
            }
        }
        wanted.next().is_none()
    }
}

impl Gate for &Noting {
    ghost sees = { λ old thread turn new. Unit {0} };

    ghost gathers = { λ old other new. Unit {0} };

    fn at(&mut self, thread: u32, turn: u64) {
        let place = self.count.fetch_add(1, Ordering::SeqCst) as usize;
        if let (Some(name), Some(units)) = (self.threads.get(place), self.units.get(place)) {
            name.store(u64::from(thread), Ordering::SeqCst);
            units.store(turn, Ordering::SeqCst);
        }
    }

    fn gather(&mut self, _other: &Noting) {}

    fn trapped(&self, _thread: u32, _frame: TrapFrame) {}
}
