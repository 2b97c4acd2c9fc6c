//! The versions of a record's text.

ghost use Rattle.std.specs.Prelude.{◌≡◌};
ghost use Rattle.replay_text.specs.Versions.{header_count};

/// Threads of a run whose record is of version 1.
pub const FIRST_THREADS: u32 = 16;

/// Pages of a memory of such a run.
pub const FIRST_PAGES: u32 = 64;

/// Which of its two texts a record has.
#[derive(Clone, Copy, PartialEq, Eq)]
pub enum Version {
    /// It says nothing of the module, and a run has 16 threads and a memory 64 pages at most.
    One,
    /// It says how long the module is, and how many threads and pages there may be.
    Two,
}

impl Version {
    /// How many lines stand before the entries.
    pub fn header_lines(self) -> usize
        ensures { result ≡ header_count self }
    {
        match self {
            Version::One => 5,
            Version::Two => 8,
        }
    }
}
