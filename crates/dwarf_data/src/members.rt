//! Members of structures and unions.

use crate::place::ByteRange;
use crate::sizes::size_of;
use dwarf_units::{Attribute, Tag, Units};
use std::alloc::{AllocError, Global};

/// Some bits of a number: the lowest one's place, and how many.
#[derive(Clone, Copy, Debug, PartialEq, Eq)]
pub struct Bits {
    pub first: u64,
    pub count: u64,
}

/// A member: its name, where it has one, its type, the bytes that it touches, counted from the structure's start, and
/// the bits of these that it has, if it is a bit field.
#[derive(Clone, Copy)]
pub(crate) struct Member<'a> {
    pub name: Option<&'a str>,
    pub its_type: usize,
    pub place: ByteRange,
    pub bits: Option<Bits>,
}

fn offset_of(units: &Units, member: usize) -> u64 {
    units
        .number(member, Attribute::DataMemberLocation)
        .unwrap_or(0)
}

/// The first bit of a member of so many bits, counted from the structure's start.
fn first_bit(units: &Units, member: usize, bits: u64, size: u64) -> Option<u64> {
    if let Some(first) = units.number(member, Attribute::DataBitOffset) {
        return Some(first);
    }
    // Version 4 counts from the highest bit of the bytes that hold the member.
    let holder = offset_of(units, member);
    let above = units.number(member, Attribute::BitOffset)?;
    let size = units.number(member, Attribute::ByteSize).unwrap_or(size);
    let below = size.checked_mul(8)?.checked_sub(above)?.checked_sub(bits)?;
    holder.checked_mul(8)?.checked_add(below)
}

/// The bytes that a member touches whose type has a size, and its bits, if it is a bit field.
fn bytes_of(units: &Units, member: usize, size: u64) -> Option<(ByteRange, Option<Bits>)> {
    let Some(count) = units.number(member, Attribute::BitSize) else {
        let start = offset_of(units, member);
        return Some((ByteRange { start, size }, None));
    };
    let bit = first_bit(units, member, count, size)?;
    let (start, first) = (bit / 8, bit % 8);
    let size = bit.checked_add(count)?.div_ceil(8) - start;
    Some((ByteRange { start, size }, Some(Bits { first, count })))
}

/// What an entry says of a member, if it is one that has a place.
fn member_of<'a>(
    alloc: Global,
    units: &Units<'a>,
    entry: usize,
) -> Result<Option<Member<'a>>, AllocError> {
    if !matches!(units.tag(entry), Tag::Member) {
        return Ok(None);
    }
    let Some(its_type) = units.type_of(entry) else {
        return Ok(None);
    };
    let Some(size) = size_of(alloc, units, its_type)? else {
        return Ok(None);
    };
    let Some((place, bits)) = bytes_of(units, entry, size) else {
        return Ok(None);
    };
    Ok(Some(Member {
        name: units.name(entry),
        its_type,
        place,
        bits,
    }))
}

/// The members of a structure or a union that have places, among its first entries, not more than so many.
pub(crate) fn members<'a>(
    alloc: Global,
    units: &Units<'a>,
    structure: usize,
    most: usize,
) -> Result<Vec<Member<'a>>, AllocError> {
    let mut members = Vec::new(alloc);
    for entry in &units.children(alloc, structure, most)? {
        if let Some(member) = member_of(alloc, units, *entry)? {
            members.push(member)?;
        }
    }
    Ok(members)
}
