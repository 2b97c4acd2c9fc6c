//! Parts of variables: a variable itself, its members, its elements, and theirs.

ghost use Rattle.std.specs.Prelude.{◌≡◌, IfOk, IfSome};

use crate::members::Member;
use crate::place::ByteRange;
use crate::sizes::{bare, dimensions};
use dwarf_units::{Tag, Units};
use std::alloc::{AllocError, Global};

/// What a part is made of.
#[derive(Clone, Copy)]
pub(crate) enum PartShape {
    Members,
    /// So many elements of so many bytes.
    Elements { count: u64, size: u64 },
    /// None that are known.
    Whole,
}

/// A part of a variable: its bytes, its type, and how many dimensions of this type the way to it has passed.
#[derive(Clone, Copy)]
pub(crate) struct VariablePart {
    pub place: ByteRange,
    pub its_type: usize,
    dimension: usize,
}

impl VariablePart {
    ghost use Rattle.dwarf_data.specs.Within.{LiesWithin};

    /// All of what has a place and a type.
    pub fn new(units: &Units, place: ByteRange, its_type: usize) -> Option<VariablePart>
        ensures { IfSome result (λ p. p.place ≡ place) }
    {
        Some(VariablePart {
            place,
            its_type: bare(units, its_type)?,
            dimension: 0,
        })
    }

    /// What it is made of.
    pub fn shape(self, alloc: Global, units: &Units) -> Result<PartShape, AllocError> {
        match units.tag(self.its_type) {
            Tag::StructureType | Tag::UnionType => Ok(PartShape::Members),
            Tag::ArrayType => {
                let counts = dimensions(alloc, units, self.its_type)?;
                match counts.get(self.dimension) {
                    Some(Some(count)) if *count > 0 => Ok(PartShape::Elements {
                        count: *count,
                        size: self.place.size / *count,
                    }),
                    _ => Ok(PartShape::Whole),
                }
            }
            _ => Ok(PartShape::Whole),
        }
    }

    /// A member.
    pub fn member(self, units: &Units, member: Member) -> Option<VariablePart>
        ensures { LiesWithin self.place result }
    {
        VariablePart::new(
            units,
            self.place.inner(member.place.start, member.place.size)?,
            member.its_type,
        )
    }

    /// One of its elements, which have so many bytes.
    pub fn element(
        self,
        alloc: Global,
        units: &Units,
        number: u64,
        size: u64,
    ) -> Result<Option<VariablePart>, AllocError>
        ensures { IfOk result (LiesWithin self.place) }
    {
        let Some(offset) = number.checked_mul(size) else {
            return Ok(None);
        };
        let Some(place) = self.place.inner(offset, size) else {
            return Ok(None);
        };
        let dimension = self.dimension.saturating_add(1);
        if dimension < dimensions(alloc, units, self.its_type)?.len() {
            return Ok(Some(VariablePart {
                place,
                its_type: self.its_type,
                dimension,
            }));
        }
        Ok(match units.type_of(self.its_type) {
            Some(its_type) => VariablePart::new(units, place, its_type),
            None => None,
        })
    }
}
