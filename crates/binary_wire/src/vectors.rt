//! Vectors: a count, and so many items (Core specification 1.0, section 5.1.3).

ghost use Rattle.std.specs.Prelude.{◌≡◌};
ghost use Rattle.binary_wire.specs.Reading.{Reading, GivesNextInMemory, vector_at, items_at, u32_at};

use crate::fault::ReadFault;
use crate::reader::Reader;
use std::alloc::Global;
use types::Sequence;

/// A kind of item that a vector may hold: a type without values, which says how one item is read. So a crate above may
/// say it of types of the crate `types`.
pub trait Item {
    type Value: Drop;

    /// The item at the front of the bytes, and the bytes behind it.
    ghost at: { Reading Self.Value };

    /// Reads one item.
    fn read(reader: &mut Reader, alloc: Global) -> Result<Self::Value, ReadFault>
        ensures gives { GivesNextInMemory at reader.old reader.new result }
        ensures keeps { reader.new.bounds ≡ reader.old.bounds };
}

/// An index: an unsigned number of 32 bits (Core specification 1.0, section 5.5.1).
pub struct IndexItem;

impl Item for IndexItem {
    type Value = u32;

    ghost at = { u32_at };

    fn read(reader: &mut Reader, _alloc: Global) -> Result<u32, ReadFault> {
        Ok(reader.read_u32()?)
    }
}

/// So many items, one after the other. Memory is taken as they come, whatever their number is said to be.
fn read_items<T: Item>(
    reader: &mut Reader,
    alloc: Global,
    count: u32,
) -> Result<Sequence<T::Value>, ReadFault>
    ensures gives { GivesNextInMemory (items_at T.at count) reader.old reader.new result }
    ensures keeps { reader.new.bounds ≡ reader.old.bounds }
{
    let mut items = Vec::new(alloc);
    for _ in 0..count {
        let item = T::read(reader, alloc)?;
        items.push(item)?;
    }
    Ok(Sequence::from_vec(items))
}

/// A count within a limit, and so many items.
#[tactic(auto, unfolding(crate::specs::Reading::vector_at))]
pub fn read_vector<T: Item>(
    reader: &mut Reader,
    alloc: Global,
    limit: u32,
) -> Result<Sequence<T::Value>, ReadFault>
    ensures gives { GivesNextInMemory (vector_at limit T.at) reader.old reader.new result }
    ensures keeps { reader.new.bounds ≡ reader.old.bounds }
{
    let count = reader.read_u32_within(limit)?;
    read_items::<T>(reader, alloc, count)
}
