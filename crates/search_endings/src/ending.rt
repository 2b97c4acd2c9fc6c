//! How a run ends.
ghost use Rattle.std.specs.Prelude.{◌≡◌, IfOk};
ghost use Rattle.search_endings.specs.Endings.{ending_with, reported_ending, EqualEndingsAreTheSame};
ghost use Rattle.search_endings.specs.Ends as specified;

use std::alloc::{AllocError, Global};
use std::hash::{Hash, Hasher};
use std::marker::Model;
use types::{Outcome, ThreadReport};

/// Whether a thread ended well: its function returned.
pub fn is_done(outcome: Outcome) -> bool
    ensures { result ≡ specified.is_done outcome }
{
    matches!(outcome, Outcome::Done(_))
}

/// The outcomes of all threads that were started, in order of their numbers, the page count, and so many first bytes of
/// the memory.
#[derive(Debug, Drop)]
pub struct Ending {
    outcomes: Vec<Outcome>,
    pages: u32,
    bytes: Vec<u8>,
}

impl Model for Ending {
    ghost use Rattle.search_endings.specs.Endings as endings;

    ghost Value = { endings.Ending };

    ghost view = { λ e. record { outcomes = e.outcomes.items; pages = e.pages; bytes = e.bytes.items } };
}

impl Ending {
    /// Threads ended so, and the memory has so many pages and these bytes: of them an ending has the first, as many as
    /// `dump` says, or all where there are fewer.
    ///
    /// # Errors
    /// Where memory is refused.
    pub fn new(
        alloc: Global,
        outcomes: Vec<Outcome>,
        pages: u32,
        memory: &[u8],
        dump: usize,
    ) -> Result<Ending, AllocError>
        ensures { IfOk result (λ e. e ≡ ending_with dump outcomes.items pages memory.now) }
    {
        let count = memory.len().min(dump);
        let bytes = Vec::from_slice(alloc, &memory[..count])?;
        Ok(Ending {
            outcomes,
            pages,
            bytes,
        })
    }

    /// The same of threads that left these reports, whatever they have spent.
    ///
    /// # Errors
    /// Where memory is refused.
    pub fn of_reports(
        alloc: Global,
        reports: &[ThreadReport],
        pages: u32,
        memory: &[u8],
        dump: usize,
    ) -> Result<Ending, AllocError>
        ensures { IfOk result (λ e. e ≡ reported_ending dump reports.now pages memory.now) }
    {
        let mut outcomes = Vec::new(alloc);
        for n in 0..reports.len() {
            outcomes.push(reports[n].outcome)?;
        }
        Ending::new(alloc, outcomes, pages, memory, dump)
    }

    /// The outcomes of thread 0 and of those that were spawned, in order of their numbers.
    pub fn outcomes(&self) -> &[Outcome]
        ensures { result.now ≡ self.now.outcomes }
    {
        self.outcomes.as_slice()
    }

    /// The page count.
    pub fn pages(&self) -> u32
        ensures { result ≡ self.now.pages }
    {
        self.pages
    }

    /// The first bytes of the memory, as many as are looked at.
    pub fn bytes(&self) -> &[u8]
        ensures { result.now ≡ self.now.bytes }
    {
        self.bytes.as_slice()
    }
}

impl PartialEq for Ending {
    ghost use Rattle.std.specs.Cmp.{partial_equiv_from_equiv};
    ghost use Rattle.search_endings.specs.Endings.{is_same_ending};
    ghost use Rattle.search_endings.specs.Equal.{same_ending_equiv};

    ghost eq = { is_same_ending };

    ghost laws = { partial_equiv_from_equiv same_ending_equiv };

    fn eq(&self, other: &Ending) -> bool {
        self.pages == other.pages && self.outcomes == other.outcomes && self.bytes == other.bytes
    }
}

impl Eq for Ending {
    ghost use Rattle.search_endings.specs.Equal.{same_ending_equiv};

    ghost laws = { same_ending_equiv };
}

/// The page count and the bytes are hashed; all is compared.
impl Hash for Ending {
    ghost use Rattle.std.specs.Prelude.{◌++◌};
    ghost use Rattle.std.specs.Hash as fed;
    ghost use Rattle.std.proofs.Common.{ap};
    ghost use Rattle.search_endings.specs.Equal.{equal_ones};

    ghost hash_input = { λ e. fed.u32 e.pages ++ fed.slice fed.u8 e.bytes };

    ghost respects_eq = { λ x y same. ap (λ e. fed.u32 e.pages ++ fed.slice fed.u8 e.bytes) (equal_ones x y same) };

    fn hash<H: Hasher>(&self, state: &mut H) {
        self.pages.hash(state);
        self.bytes.hash(state);
    }
}

/// Endings are equal exactly where they have the same outcomes, pages and bytes.
pub fn equal_endings_are_the_same()
    ensures { EqualEndingsAreTheSame }
{}
