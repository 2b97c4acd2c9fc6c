//! Parts of a value that have no parts: a value itself, members, elements, and theirs.

ghost use Rattle.std.specs.Prelude.{◌+◌, ◌≤◌, All, IfOk};

use crate::members::{Bits, members};
use crate::parts::{PartShape, VariablePart};
use crate::place::ByteRange;
use dwarf_units::Units;
use std::alloc::{AllocError, Global};
use std::fmt::Write;

/// The most parts of a value that are told. One more is only said to be there.
const MOST_LEAVES: usize = 32;

/// The most steps from a value to its parts, and to theirs.
const MOST_STEPS: u32 = 64;

/// The most bytes of the words of a part that has parts which are told.
const MOST_WORDS: usize = 256;

/// A part of a value: the words behind the value's name, as `.next` or `[2].item`; its bytes, by their distance from the
/// value's first one; its type; and its bits, if it is a bit field.
#[derive(Drop)]
pub struct Leaf {
    pub words: String,
    pub place: ByteRange,
    pub its_type: usize,
    pub bits: Option<Bits>,
    /// Whether it has parts that aren't told.
    pub is_cut: bool,
}

/// A part of a value that may have parts.
#[derive(Drop)]
struct OpenPart {
    words: String,
    part: VariablePart,
    bits: Option<Bits>,
}

impl OpenPart {
    fn close(self, is_cut: bool) -> Leaf {
        Leaf {
            words: self.words,
            place: self.part.place,
            its_type: self.part.its_type,
            bits: self.bits,
            is_cut,
        }
    }

    /// Its members, those with a name and those without.
    fn members(&self, alloc: Global, units: &Units) -> Result<Vec<OpenPart>, AllocError> {
        let mut inner = Vec::new(alloc);
        for member in &members(alloc, units, self.part.its_type, MOST_LEAVES + 1)? {
            let Some(part) = self.part.member(units, *member) else {
                continue;
            };
            let (name, bits) = (member.name.unwrap_or(""), member.bits);
            if name.len() > MOST_WORDS {
                continue;
            }
            let mut words = self.words.clone()?;
            if !name.is_empty() {
                write!(words, ".{name}")?;
            }
            inner.push(OpenPart { words, part, bits })?;
        }
        Ok(inner)
    }

    /// Its first elements, which have so many bytes each.
    fn elements(
        &self,
        alloc: Global,
        units: &Units,
        count: u64,
        size: u64,
    ) -> Result<Vec<OpenPart>, AllocError> {
        let mut inner = Vec::new(alloc);
        for number in 0..count.min(MOST_LEAVES as u64 + 1) {
            let Some(part) = self.part.element(alloc, units, number, size)? else {
                break;
            };
            inner.push(OpenPart {
                words: format!(in alloc; "{}[{number}]", self.words)?,
                part,
                bits: None,
            })?;
        }
        Ok(inner)
    }
}

/// The parts of a value of a type and a size that have no parts, in the order of their places, as many as are told.
pub fn leaves_of(
    alloc: Global,
    units: &Units,
    its_type: usize,
    size: u64,
) -> Result<Vec<Leaf>, AllocError> {
    let mut leaves = Vec::new(alloc);
    let Some(part) = VariablePart::new(units, ByteRange { start: 0, size }, its_type) else {
        return Ok(leaves);
    };
    let mut open = Vec::new(alloc);
    open.push(OpenPart {
        words: String::new(alloc),
        part,
        bits: None,
    })?;
    for _ in 0..MOST_STEPS {
        let Some(next) = open.pop() else {
            return Ok(leaves);
        };
        if leaves.len() >= MOST_LEAVES || next.words.len() > MOST_WORDS {
            leaves.push(next.close(true))?;
            return Ok(leaves);
        }
        let mut inner = match next.part.shape(alloc, units)? {
            PartShape::Members => next.members(alloc, units)?,
            PartShape::Elements { count, size } => next.elements(alloc, units, count, size)?,
            PartShape::Whole => {
                leaves.push(next.close(false))?;
                continue;
            }
        };
        inner.reverse();
        open.append(&mut inner)?;
    }
    Ok(leaves)
}
