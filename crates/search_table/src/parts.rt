//! The parts of states.
ghost use Rattle.std.specs.Prelude.{◌≡◌, IfOk, OnOk};
ghost use Rattle.search_table.specs.Tables.{ArePartsDistinct, AreNoParts, Grows, HasEqual};

use indexmap::IndexSet;
use std::alloc::{AllocError, Global};
use std::hash::Hash;

/// The parts of states, each once, by their numbers.
#[derive(Drop)]
pub struct StateParts<S: Eq + Hash, T: Eq + Hash> {
    pub shared: IndexSet<S>,
    pub threads: IndexSet<T>,
}

/// The number of a place, where it has one of 32 bits.
fn number(place: usize) -> Result<u32, AllocError>
    ensures { IfOk result (λ n. n ≡ place) }
{
    match u32::try_from(place) {
        Ok(number) => Ok(number),
        Err(_) => Err(AllocError),
    }
}

impl<S: Eq + Hash + Drop, T: Eq + Hash + Drop> StateParts<S, T> {
    /// None.
    pub fn new(alloc: Global) -> StateParts<S, T>
        ensures { AreNoParts result }
    {
        StateParts {
            shared: IndexSet::new(alloc),
            threads: IndexSet::new(alloc),
        }
    }

    /// How many there are.
    pub fn len(&self) -> usize
        ensures { ArePartsDistinct S.eq T.eq self.now }
    {
        // No two of one list are equal, as each list says where it is asked for its length.
        self.shared.len().saturating_add(self.threads.len())
    }

    /// The number of what is shared.
    ///
    /// # Errors
    /// Where memory is refused, or there are too many.
    pub fn put_shared(&mut self, shared: S) -> Result<u32, AllocError>
        ensures grows { OnOk result (Grows self.old self.new) }
        ensures number { IfOk result (λ n. HasEqual S.eq self.new.shared.keys n shared) }
    {
        let (place, _) = self.shared.insert_full(shared)?;
        number(place)
    }

    /// The number of a thread.
    ///
    /// # Errors
    /// Where memory is refused, or there are too many.
    pub fn put_thread(&mut self, thread: T) -> Result<u32, AllocError>
        ensures grows { OnOk result (Grows self.old self.new) }
        ensures number { IfOk result (λ n. HasEqual T.eq self.new.threads.keys n thread) }
    {
        let (place, _) = self.threads.insert_full(thread)?;
        number(place)
    }
}
