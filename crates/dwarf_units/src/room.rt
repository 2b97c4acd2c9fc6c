//! How much may be asked of debug information, so that what others wrote costs no more.

use std::cell::Cell;

/// How many bytes are passed over in one step.
const STEP_BYTES: u64 = 64;

/// Whether there is room for a value.
#[derive(Clone, Copy, PartialEq, Eq, Debug)]
pub enum ValueRoom {
    There,
    /// Not for it, but for a word that further ones aren't told.
    ForMark,
    Nowhere,
}

/// How much may be asked.
#[derive(Drop)]
pub(crate) struct Room {
    /// How many steps are left.
    steps: Cell<u64>,
    /// How many there were of them when they were allowed.
    allowed: Cell<u64>,
    /// How many there were then in all.
    in_all: Cell<u64>,
    /// How many values may be told.
    pub(crate) values: Cell<u64>,
}

impl Room {
    /// For as much as one likes.
    pub(crate) fn endless() -> Room {
        Room {
            steps: Cell::new(u64::MAX),
            allowed: Cell::new(u64::MAX),
            in_all: Cell::new(u64::MAX),
            values: Cell::new(u64::MAX),
        }
    }

    /// Allows so many steps from now on, as far as there are so many in all.
    pub(crate) fn allow(&self, steps: u64) {
        let made = self.allowed.get().saturating_sub(self.steps.get());
        let left = self.in_all.get().saturating_sub(made);
        self.in_all.set(left);
        self.allowed.set(steps.min(left));
        self.steps.set(steps.min(left));
    }

    /// Allows so many in all.
    pub(crate) fn allow_in_all(&self, steps: u64) {
        self.in_all.set(steps);
        self.allowed.set(steps);
        self.steps.set(steps);
    }

    /// Takes a step. Answers whether one was left.
    pub(crate) fn step(&self) -> bool {
        let left = self.steps.get().checked_sub(1);
        self.steps.set(left.unwrap_or(0));
        left.is_some()
    }

    /// Takes the steps for so many bytes that were passed over.
    pub(crate) fn pass(&self, bytes: usize) {
        self.steps
            .set(self.steps.get().saturating_sub(bytes as u64 / STEP_BYTES));
    }

    /// Takes the room of a value. The last one is for the mark.
    pub(crate) fn take_value(&self) -> ValueRoom {
        let values = self.values.get();
        self.values.set(values.saturating_sub(1));
        match values {
            0 => ValueRoom::Nowhere,
            1 => ValueRoom::ForMark,
            _ => ValueRoom::There,
        }
    }
}
