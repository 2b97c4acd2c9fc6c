//! Types: what is behind their names, and how large they are.

use dwarf_units::{Attribute, Tag, Units};
use std::alloc::{AllocError, Global};

/// The most types on the way from one to another, and the most parts of parts.
pub(crate) const MOST_TYPES: u32 = 64;

/// The most dimensions of an array.
const MOST_DIMENSIONS: usize = 16;

/// The size of an address.
const ADDRESS: u64 = 4;

/// Whether a type is a name or a qualifier of another one, whose values it has.
fn is_alias(tag: Tag) -> bool {
    matches!(
        tag,
        Tag::Typedef | Tag::ConstType | Tag::VolatileType | Tag::RestrictType | Tag::AtomicType
    )
}

/// The type behind the names and qualifiers of a type, where the way to it is not too long.
pub fn bare(units: &Units, its_type: usize) -> Option<usize> {
    let mut bare = its_type;
    for _ in 0..MOST_TYPES {
        if !is_alias(units.tag(bare)) {
            return Some(bare);
        }
        bare = units.type_of(bare)?;
    }
    None
}

fn count_of(units: &Units, dimension: usize) -> Option<u64> {
    match units.number(dimension, Attribute::Count) {
        Some(count) => Some(count),
        None => units
            .number(dimension, Attribute::UpperBound)?
            .checked_add(1),
    }
}

/// The numbers of elements of an array's dimensions, the outermost first; none of one that isn't said.
pub fn dimensions(
    alloc: Global,
    units: &Units,
    array: usize,
) -> Result<Vec<Option<u64>>, AllocError> {
    let mut counts = Vec::new(alloc);
    for child in &units.children(alloc, array, MOST_DIMENSIONS)? {
        if matches!(units.tag(*child), Tag::SubrangeType) {
            counts.push(count_of(units, *child))?;
        }
    }
    Ok(counts)
}

/// The number of elements of all of an array's dimensions.
fn elements(alloc: Global, units: &Units, array: usize) -> Result<Option<u64>, AllocError> {
    let mut all = Some(1u64);
    for count in &dimensions(alloc, units, array)? {
        all = match (all, *count) {
            (Some(all), Some(count)) => all.checked_mul(count),
            _ => None,
        };
    }
    Ok(all)
}

/// How many bytes the values of a type have, where that is said.
pub fn size_of(alloc: Global, units: &Units, its_type: usize) -> Result<Option<u64>, AllocError> {
    let mut its_type = its_type;
    let mut count = Some(1u64);
    for _ in 0..MOST_TYPES {
        let size = match (
            units.number(its_type, Attribute::ByteSize),
            units.tag(its_type),
        ) {
            (Some(size), _) => Some(size),
            (None, Tag::PointerType) => Some(ADDRESS),
            (None, Tag::ArrayType) => {
                let more = elements(alloc, units, its_type)?;
                count = count.and_then(|count| count.checked_mul(more?));
                None
            }
            (None, tag) if is_alias(tag) => None,
            _ => return Ok(None),
        };
        if let Some(size) = size {
            return Ok(count.and_then(|count| count.checked_mul(size)));
        }
        let Some(inner) = units.type_of(its_type) else {
            return Ok(None);
        };
        its_type = inner;
    }
    Ok(None)
}
