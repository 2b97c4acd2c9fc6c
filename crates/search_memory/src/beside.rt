//! The bytes in which a memory differs from the opening one.

ghost use Rattle.std.specs.Prelude.{◌≡◌, fold, length, IfOk};
ghost use Rattle.search_memory.specs.Memories.{memory_of, padded, with_change};
ghost use Rattle.search_memory.specs.Memories.{AreDifferences, HasDifferences, StayDifferences};

use shared_memory_sequential::OneMemory;
use std::alloc::{AllocError, Global};

/// A byte of the memory that differs from the opening memory's.
#[derive(Clone, Copy, PartialEq, Eq, Hash)]
pub struct ChangedByte {
    pub at: usize,
    pub byte: u8,
}

/// A memory beside the opening one. Equal ones are the same memory.
#[derive(PartialEq, Eq, Hash, Drop)]
pub struct Changes {
    /// How many bytes it has.
    pub len: usize,
    /// How many pages it may have.
    pub max: u32,
    /// What differs, in order of the addresses. A byte that the opening memory doesn't have was opened as 0.
    pub changes: Vec<ChangedByte>,
}

impl Changes {
    ghost use Rattle.std.specs.Prelude.{ℕ, List};

    /// A copy.
    ///
    /// # Errors
    /// Where memory is refused.
    pub fn copy(&self, alloc: Global) -> Result<Changes, AllocError>
        ensures same { IfOk result (λ c. (opening : List ℕ) → memory_of opening c ≡ memory_of opening self.now) }
        ensures differences { IfOk result (λ c. (opening : List ℕ) → StayDifferences opening self.now c) }
    {
        Ok(Changes {
            len: self.len,
            max: self.max,
            changes: Vec::from_slice(alloc, self.changes.as_slice())?,
        })
    }
}

/// The opening memory's bytes, with zeros behind them up to this length.
pub(crate) fn padded(alloc: Global, opening: &[u8], len: usize) -> Result<Vec<u8>, AllocError>
    ensures { IfOk result (λ bytes. bytes.items ≡ padded opening.now len) }
{
    let mut bytes = Vec::with_capacity(alloc, len)?;
    bytes.extend_from_slice(opening)?;
    bytes.resize(len, 0)?;
    Ok(bytes)
}

/// What differs from the bytes at first.
fn differences(alloc: Global, first: &[u8], bytes: &[u8]) -> Result<Vec<ChangedByte>, AllocError>
    requires { length first.now ≡ length bytes.now }
    ensures same { IfOk result (λ changes. fold with_change first.now changes.items ≡ bytes.now) }
    ensures differences { IfOk result (λ changes. AreDifferences first.now 0 (length bytes.now) changes.items) }
{
    let mut changes = Vec::new(alloc);
    for at in 0..bytes.len() {
        if bytes[at] != first[at] {
            changes.push(ChangedByte {
                at,
                byte: bytes[at],
            })?;
        }
    }
    Ok(changes)
}

/// In which bytes the memory differs from the opening one.
///
/// # Errors
/// Where memory is refused.
pub fn changes_in(alloc: Global, opening: &[u8], memory: &OneMemory) -> Result<Changes, AllocError>
    ensures same { IfOk result (λ c. memory_of opening.now c ≡ memory.now) }
    ensures differences { IfOk result (HasDifferences opening.now) }
{
    let bytes = memory.bytes();
    let first = padded(alloc, opening, bytes.len())?;
    Ok(Changes {
        len: bytes.len(),
        max: memory.max(),
        changes: differences(alloc, first.as_slice(), bytes)?,
    })
}
