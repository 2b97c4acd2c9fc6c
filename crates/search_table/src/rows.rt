//! Rows of words, one behind the other.
ghost use Rattle.std.specs.Prelude.{◌≡◌, ◌≤◌, ◌∷◌, [], ◌++◌, length, OnOk, slice_get, slice_range, option_copied};
ghost use Rattle.search_table.specs.Tables.{AreRows, rows_of, start_at};

use std::alloc::{AllocError, Global};

/// Rows of words: all words, one row's behind the other's, and where those of each end.
#[derive(Drop)]
pub struct PackedRows {
    pub words: Vec<u32>,
    pub ends: Vec<usize>,
}

/// Where the words of a row end.
fn end_of(ends: &[usize], place: usize) -> Option<usize>
    ensures { result ≡ slice_get ends.now place }
{
    ends.get(place).copied()
}

/// Where they begin.
fn start_of(ends: &[usize], place: usize) -> usize
    ensures { result ≡ start_at 0 ends.now place }
{
    if place == 0 {
        return 0;
    }
    end_of(ends, place - 1).unwrap_or(0)
}

/// The words from one place up to another.
fn words_between(words: &[u32], from: usize, to: usize) -> &[u32]
    requires in_order { from ≤ to }
    requires within { to ≤ length words.now }
    ensures { result.now ≡ slice_range words.now from to }
{
    &words[from..to]
}

impl PackedRows {
    /// None.
    pub fn new(alloc: Global) -> PackedRows
        ensures rows { rows_of result ≡ [] }
        ensures are { AreRows result }
    {
        PackedRows {
            words: Vec::new(alloc),
            ends: Vec::new(alloc),
        }
    }

    /// How many there are.
    pub fn len(&self) -> usize
        ensures { result ≡ length (rows_of self.now) }
    {
        self.ends.len()
    }

    /// The words of the row at this place.
    pub fn get(&self, place: usize) -> Option<&[u32]>
        requires { AreRows self.now }
        ensures { option_copied result ≡ slice_get (rows_of self.now) place }
    {
        let words = self.words.as_slice();
        let ends = self.ends.as_slice();
        let Some(end) = end_of(ends, place) else {
            return None;
        };
        let from = start_of(ends, place);
        Some(words_between(words, from, end))
    }

    /// Puts a row behind the others.
    ///
    /// # Errors
    /// Where memory is refused.
    pub fn push(&mut self, row: &[u32]) -> Result<(), AllocError>
        requires { AreRows self.old }
        ensures rows { OnOk result (rows_of self.new ≡ rows_of self.old ++ row.now ∷ []) }
        ensures are { OnOk result (AreRows self.new) }
    {
        self.words.extend_from_slice(row)?;
        let end = self.words.len();
        self.ends.push(end)?;
        Ok(())
    }
}
