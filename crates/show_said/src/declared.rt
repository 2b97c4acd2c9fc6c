//! What a module declares in custom sections.

ghost use Rattle.std.specs.Prelude.{◌≡◌, IfOk, option_map};
ghost use Rattle.show_said.specs.Sections as specified;
ghost use Rattle.show_said.specs.Sections.{declared_in, AreDeclared};

use binary_wire::{Item, ReadFault, Reader, read_vector};
use show_places::custom_section;
use std::alloc::{AllocError, Global};
use types::Sequence;

/// What stands behind the version, where it is the one that is known.
pub(crate) fn behind_version(contents: &[u8]) -> Option<&[u8]>
    ensures { option_map (λ s. s.now) result ≡ specified.behind_version contents.now }
{
    match contents {
        [] => None,
        [version, items @ ..] => { if *version == 1 { Some(items) } else { None } }
    }
}

/// The items in the contents of such a section.
#[tactic(auto, unfolding(crate::specs::Sections::declared_in))]
fn read_contents<T: Item>(alloc: Global, contents: &[u8]) -> Result<Sequence<T::Value>, AllocError>
    ensures { IfOk result (λ items. items ≡ declared_in T.at contents.now) }
{
    let none = Sequence::from_vec(Vec::new(alloc));
    let Some(items) = behind_version(contents) else {
        return Ok(none);
    };
    let mut reader = Reader::new(items);
    match read_vector::<T>(&mut reader, alloc, u32::MAX) {
        Ok(items) => Ok(items),
        Err(ReadFault::OutOfMemory) => Err(AllocError),
        Err(ReadFault::Malformed { .. }) => Ok(none),
    }
}

/// The items of the module's first custom section with this name, and none where it has no such section or that can't be
/// read: behind a byte 1 a vector.
pub(crate) fn read_declared<T: Item>(
    alloc: Global,
    bytes: &[u8],
    name: &[u8],
) -> Result<Sequence<T::Value>, AllocError>
    ensures { IfOk result (AreDeclared T.at name.now bytes.now) }
{
    let Some(contents) = custom_section(bytes, name) else {
        return Ok(Sequence::from_vec(Vec::new(alloc)));
    };
    read_contents::<T>(alloc, contents)
}
