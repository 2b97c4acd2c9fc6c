//! From addresses to words.

ghost use Rattle.std.specs.Prelude.{IfOk, OnSome, IsSome, find};
ghost use Rattle.dwarf_units.specs.Spans.{holds};

use crate::members::members;
use crate::parts::{PartShape, VariablePart};
use crate::place::ByteRange;
use crate::sizes::MOST_TYPES;
use crate::static_data::whole;
use dwarf_units::{Spans, Units};
use show_places::short_name;
use std::alloc::{AllocError, Global};
use std::fmt::Write;

/// The words of a part so far, the part, where the last part began that has a name of its own, and whether the part is a
/// bit field.
#[derive(Drop)]
struct NamedPart {
    words: String,
    part: VariablePart,
    start: u64,
    has_bits: bool,
}

impl NamedPart {
    /// Goes on to the first member that has an address. Answers whether there is one.
    fn to_member(&mut self, alloc: Global, units: &Units, addr: u64) -> Result<bool, AllocError> {
        for member in &members(alloc, units, self.part.its_type, units.len())? {
            let Some(part) = self.part.member(units, *member) else {
                continue;
            };
            if part.place.contains(addr) {
                if let Some(name) = member.name {
                    write!(self.words, ".{name}")?;
                    self.start = part.place.start;
                }
                self.part = part;
                self.has_bits = member.bits.is_some();
                return Ok(true);
            }
        }
        Ok(false)
    }

    /// Goes on to the element that has an addr. Answers whether there is one.
    fn to_element(
        &mut self,
        alloc: Global,
        units: &Units,
        addr: u64,
        size: u64,
    ) -> Result<bool, AllocError> {
        if size == 0 {
            return Ok(false);
        }
        let number = addr.saturating_sub(self.part.place.start) / size;
        let Some(part) = self.part.element(alloc, units, number, size)? else {
            return Ok(false);
        };
        write!(self.words, "[{number}]")?;
        self.start = part.place.start;
        self.part = part;
        Ok(true)
    }

    /// Goes on to the part right below that has an address. Answers whether there is one.
    fn step(&mut self, alloc: Global, units: &Units, address: u64) -> Result<bool, AllocError> {
        match self.part.shape(alloc, units)? {
            PartShape::Members => self.to_member(alloc, units, address),
            PartShape::Elements { count: _, size } => self.to_element(alloc, units, address, size),
            PartShape::Whole => Ok(false),
        }
    }

    /// Whether a part of this type begins at an address.
    fn is_at(&self, address: u64, its_type: Option<usize>) -> bool {
        self.part.place.start == address && its_type == Some(self.part.its_type)
    }
}

/// The innermost part that has an address: a static variable, or a member or an element on the way to the address, as far
/// as the first one of this type that begins there, if there is one.
fn part_at(
    alloc: Global,
    units: &Units,
    data: &Spans,
    address: u64,
    its_type: Option<usize>,
) -> Result<Option<NamedPart>, AllocError>
    ensures { IfOk result (λ part. OnSome part (IsSome (find (holds address) «data».now.items.items))) }
{
    let Some(span) = data.at(address) else {
        return Ok(None);
    };
    let (Some(name), Some(part)) = (units.name(span.entry), whole(units, span)) else {
        return Ok(None);
    };
    let mut named = NamedPart {
        words: short_name(alloc, name)?,
        part,
        start: span.start,
        has_bits: false,
    };
    for _ in 0..MOST_TYPES {
        if named.is_at(address, its_type) || !named.step(alloc, units, address)? {
            break;
        }
    }
    Ok(Some(named))
}

/// What an address is called: by the static variable that has it, and the members and elements on the way to it, as far as
/// the first one of this type that begins there, if there is one. One that isn't the first of what is named has its
/// distance from that behind a `+`.
pub fn name_at(
    alloc: Global,
    units: &Units,
    data: &Spans,
    address: u64,
    its_type: Option<usize>,
) -> Result<Option<String>, AllocError>
    ensures { IfOk result (λ words. OnSome words (IsSome (find (holds address) «data».now.items.items))) }
{
    let Some(mut named) = part_at(alloc, units, data, address, its_type)? else {
        return Ok(None);
    };
    let past = address.saturating_sub(named.start);
    if past > 0 {
        write!(named.words, "+{past}")?;
    }
    Ok(Some(named.words))
}

/// The type of the static variable, the member or the element that has just these bytes and no parts, if there is one. A
/// bit field is none.
pub fn type_at(
    alloc: Global,
    units: &Units,
    data: &Spans,
    place: ByteRange,
) -> Result<Option<usize>, AllocError>
    ensures { IfOk result (λ its. OnSome its (IsSome (find (holds place.start) «data».now.items.items))) }
{
    let Some(named) = part_at(alloc, units, data, place.start, None)? else {
        return Ok(None);
    };
    if named.part.place == place && !named.has_bits {
        return Ok(Some(named.part.its_type));
    }
    Ok(None)
}
