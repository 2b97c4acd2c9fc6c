//! What comes of the cases of a file.

ghost use Rattle.std.specs.Prelude.{◌≡◌, ◌⊎◌, ◌+◌, ◌↔◌, false, IsTrue, min, ◌-◌, ◌^◌};

use std::alloc::AllocError;
use std::io;

/// Why the cases come to no end.
#[derive(Drop)]
pub enum Stop {
    /// Memory is refused.
    NoMemory,
    /// A file can't be read, or isn't what it should be.
    Unread,
}

impl From<AllocError> for Stop {
    fn from(_: AllocError) -> Stop {
        Stop::NoMemory
    }
}

impl From<io::Error> for Stop {
    fn from(_: io::Error) -> Stop {
        Stop::Unread
    }
}

/// What came of the cases of a file.
#[derive(Drop)]
pub struct Tally {
    /// How many tries there were: one of a case, or one of each of its texts or command lines.
    pub tried: u64,
    /// Whether one of the cases came out otherwise than wanted.
    pub is_wrong: bool,
}

impl Tally {
    /// Of no case yet.
    pub fn new() -> Tally
        ensures { result ≡ record { tried = 0; is_wrong = false } }
    {
        Tally {
            tried: 0,
            is_wrong: false,
        }
    }

    /// Counts what was tried, and notes whether it came out as wanted.
    pub fn add(&mut self, is_right: bool)
        ensures counted { self.new.tried ≡ min (self.old.tried + 1) (2 ^ 64 - 1) }
        ensures noted { IsTrue self.new.is_wrong ↔ (IsTrue self.old.is_wrong ⊎ (is_right ≡ false)) }
    {
        self.tried = self.tried.saturating_add(1);
        self.is_wrong |= !is_right;
    }
}
