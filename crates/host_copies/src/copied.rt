//! What can be copied where memory allows.
ghost use Rattle.std.specs.Prelude.{◌≡◌, IfOk};

use std::alloc::{AllocError, Global};
use types::{Name, Sequence};

/// A value that can be copied where memory allows.
pub trait Copied: Drop {
    /// A copy of it.
    ///
    /// # Errors
    /// Where memory is refused.
    fn copied(&self, alloc: Global) -> Result<Self, AllocError>
        ensures { IfOk result (λ copy. copy ≡ self.now) };
}

/// A copy of a sequence, item by item.
///
/// # Errors
/// Where memory is refused.
pub fn all_copied<T: Copied>(
    alloc: Global,
    sequence: &Sequence<T>,
) -> Result<Sequence<T>, AllocError>
    ensures { IfOk result (λ copy. copy ≡ sequence.now) }
{
    let items = sequence.as_slice();
    let mut copies = Vec::with_capacity(alloc, items.len())?;
    for item in items {
        copies.push(item.copied(alloc)?)?;
    }
    Ok(Sequence::from_vec(copies))
}

/// A copy of a sequence whose items are copied as they are.
///
/// # Errors
/// Where memory is refused.
pub fn plain_copied<T: Copy>(
    alloc: Global,
    sequence: &Sequence<T>,
) -> Result<Sequence<T>, AllocError>
    ensures { IfOk result (λ copy. copy ≡ sequence.now) }
{
    Ok(Sequence::from_vec(Vec::from_slice(alloc, sequence.as_slice())?))
}

impl Copied for Name {
    fn copied(&self, alloc: Global) -> Result<Name, AllocError> {
        Ok(Name::from_string(String::from_str(alloc, self.as_str())?))
    }
}
