//! The states that were met.
ghost use Rattle.std.specs.Prelude.{◌≡◌, ◌+◌, ◌%◌, ◌^◌, ◌∷◌, [], ◌++◌, length, Some, IfOk, IfSome, OnOk, slice_get, option_copied};
ghost use Rattle.search_table.specs.Tables.{AreStates, IsFree, IsPlace, is_row, mix, row_digest, states_of, with_row, words_eq};

use crate::rows::PackedRows;
use indexmap::IndexSet;
use std::alloc::{AllocError, Global};

/// States by their parts, each once, in the order of their meeting. The row of a state is the number of what is shared,
/// and behind it those of its threads.
#[derive(Drop)]
pub struct States {
    pub rows: PackedRows,
    /// A number of each state: the digest of its row, or the first behind it that no state before it has.
    pub digests: IndexSet<u64>,
}

/// Where a row was found, or isn't.
#[derive(Clone, Copy)]
enum RowPlace {
    /// It is there.
    Known(usize),
    /// It isn't, and this number is free for it.
    Free(u64),
}

/// A digest, and one word more.
fn mixed(digest: u64, word: u32) -> u64
    ensures { result ≡ mix digest word }
{
    let spread = (digest ^ u64::from(word)).wrapping_mul(0x9E37_79B9_7F4A_7C15);
    spread ^ (spread >> 29)
}

/// The digest of a row. Nothing rests on it: rows of one digest are compared.
fn digest_of(row: &[u32]) -> u64
    ensures { result ≡ row_digest row.now }
{
    let mut digest = row.len() as u64;
    for word in row {
        digest = mixed(digest, *word);
    }
    digest
}

/// The number behind one.
fn number_behind(number: u64) -> u64
    ensures { result ≡ (number + 1) % 2 ^ 64 }
{
    number.wrapping_add(1)
}

/// Whether two rows have the same words.
fn are_same(row: &[u32], other: &[u32]) -> bool
    ensures { result ≡ words_eq row.now other.now }
{
    row == other
}

impl States {
    /// None.
    pub fn new(alloc: Global) -> States
        ensures states { states_of result ≡ [] }
        ensures are { AreStates result }
    {
        States {
            rows: PackedRows::new(alloc),
            digests: IndexSet::new(alloc),
        }
    }

    /// How many there are.
    pub fn len(&self) -> usize
        ensures { result ≡ length (states_of self.now) }
    {
        self.rows.len()
    }

    /// The row of the state at this place.
    pub fn row(&self, place: usize) -> Option<&[u32]>
        requires { AreStates self.now }
        ensures { option_copied result ≡ slice_get (states_of self.now) place }
    {
        self.rows.get(place)
    }

    /// Whether this is the row of the state at this place.
    fn is_at(&self, place: usize, row: &[u32]) -> bool
        requires { AreStates self.now }
        ensures { result ≡ is_row (slice_get (states_of self.now) place) row.now }
    {
        match self.row(place) {
            Some(there) => are_same(there, row),
            None => false,
        }
    }

    /// Where a row is, or the first number from its digest on that no state has. None where it has seen more numbers than
    /// there are states.
    fn place_of(&self, row: &[u32]) -> Option<RowPlace>
        requires { AreStates self.now }
        ensures { IfSome result (IsPlace self.now row.now) }
    {
        let mut number = digest_of(row);
        let most = self.rows.len().saturating_add(1);
        for passed in 0..most {
            let Some(place) = self.digests.get_index_of(&number) else {
                return Some(RowPlace::Free(number));
            };
            if self.is_at(place, row) {
                return Some(RowPlace::Known(place));
            }
            let behind = number_behind(number);
            number = behind;
        }
        None
    }

    /// Puts the row of a state that wasn't met behind the others, by a number that is free for it.
    fn push(&mut self, row: &[u32], number: u64) -> Result<usize, AllocError>
        requires are { AreStates self.old }
        requires free { IsFree self.old row.now number }
        ensures are { OnOk result (AreStates self.new) }
        ensures states { OnOk result (states_of self.new ≡ states_of self.old ++ row.now ∷ []) }
        ensures place { IfOk result (λ place. place ≡ length (states_of self.old)) }
    {
        let place = self.rows.len();
        self.digests.insert_full(number)?;
        self.rows.push(row)?;
        Ok(place)
    }

    /// The place of the state of this row, which is put behind the others where it isn't there.
    ///
    /// # Errors
    /// Where memory is refused.
    pub fn put(&mut self, row: &[u32]) -> Result<usize, AllocError>
        requires { AreStates self.old }
        ensures are { OnOk result (AreStates self.new) }
        ensures states { OnOk result (states_of self.new ≡ with_row (states_of self.old) row.now) }
        ensures place { IfOk result (λ place. slice_get (states_of self.new) place ≡ Some row.now) }
    {
        let Some(found) = self.place_of(row) else {
            return Err(AllocError);
        };
        match found {
            RowPlace::Known(place) => Ok(place),
            RowPlace::Free(number) => self.push(row, number),
        }
    }
}
