//! The values that a frame has: variables without parts, and the parts of those that have some.

use crate::inlined::Inlined;
use crate::kinds::{ValueKind, kind_of};
use crate::variables::Variable;
use crate::wording::type_words;
use dwarf_data::{Bits, Leaf, bare, leaves_of};
use dwarf_units::{Location, Units, ValueRoom};
use show_places::short_name;
use std::alloc::{AllocError, Global};
use std::fmt::Write;

/// The most bytes of a number.
const MOST_BYTES: u64 = 8;

/// The most bytes of a type and a name.
const MOST_LABEL: usize = 1024;

/// The most values of a frame.
const MOST_VALUES: usize = 257;

/// What stands for the values of a thread that aren't told.
const FURTHER: &str = "further variables of this thread";

/// A value: its type and its name, as `int items[2].count`, where it is, how many bytes it touches, how they are read,
/// and its bits in the number that they spell: the lowest one, and how many. One that has parts of its own stands for
/// those that aren't told.
#[derive(Drop)]
pub struct FrameValue {
    pub label: String,
    pub location: Location,
    pub size: u8,
    pub kind: ValueKind,
    /// The type of what it points to, if it does.
    pub target: Option<usize>,
    pub first_bit: u32,
    pub bits: u32,
}

fn all_bits(size: u64) -> Bits {
    Bits {
        first: 0,
        count: size.saturating_mul(8),
    }
}

/// How the bytes of a value are read, and the type of what it points to, if it does.
#[derive(Clone, Copy)]
struct ReadAs {
    kind: ValueKind,
    target: Option<usize>,
}

fn read_of(units: &Units, its_type: usize) -> ReadAs {
    let kind = kind_of(units, its_type);
    let target = if kind == ValueKind::Pointer {
        bare(units, its_type)
            .and_then(|pointer| units.type_of(pointer))
            .and_then(|target| bare(units, target))
    } else {
        None
    };
    ReadAs { kind, target }
}

/// A value, where its bytes are a number, or only that it is there is told.
fn told(label: String, place: Location, size: u64, read: ReadAs, bits: Bits) -> Option<FrameValue> {
    let ReadAs { kind, target } = read;
    let is_told = match kind {
        ValueKind::Signed | ValueKind::Unsigned | ValueKind::Pointer => size <= MOST_BYTES,
        ValueKind::Float | ValueKind::Other => false,
        ValueKind::Parts => true,
    };
    if !is_told {
        return None;
    }
    Some(FrameValue {
        label,
        location: place,
        size: u8::try_from(size).unwrap_or(u8::MAX),
        kind,
        target,
        first_bit: u32::try_from(bits.first).ok()?,
        bits: u32::try_from(bits.count).ok()?,
    })
}

/// The type and the name of a part of a variable, with the function that has it in front where that was put in the place
/// of a call.
fn label_of(
    alloc: Global,
    inlined: &[Inlined],
    variable: &Variable,
    words: &str,
    part: &str,
) -> Result<String, AllocError> {
    let mut label = String::new(alloc);
    if variable.depth > 0 {
        let at = inlined.len().checked_sub(variable.depth);
        if let Some(name) = at.and_then(|at| inlined.get(at)?.function) {
            let name = short_name(alloc, name)?;
            write!(label, "{name}: ")?;
        }
    }
    label.push_str(words)?;
    if !words.ends_with('*') {
        label.push(' ')?;
    }
    label.push_str(variable.name)?;
    label.push_str(part)?;
    Ok(label)
}

/// The value of a variable that has no parts, if it is told.
fn value_of(
    alloc: Global,
    units: &Units,
    inlined: &[Inlined],
    variable: &Variable,
) -> Result<Option<FrameValue>, AllocError> {
    let label = label_of(alloc, inlined, variable, variable.type_words.as_str(), "")?;
    let (size, read) = (variable.size, read_of(units, variable.its_type));
    Ok(told(label, variable.location, size, read, all_bits(size)))
}

/// The value of a part of a variable, if it has a place and a type that has words.
fn part_of(
    alloc: Global,
    units: &Units,
    inlined: &[Inlined],
    variable: &Variable,
    leaf: &Leaf,
) -> Result<Option<FrameValue>, AllocError> {
    let Some(location) = variable.location.farther(leaf.place.start) else {
        return Ok(None);
    };
    let Some(words) = type_words(alloc, units, Some(leaf.its_type))? else {
        return Ok(None);
    };
    let read = if leaf.is_cut {
        ReadAs {
            kind: ValueKind::Parts,
            target: None,
        }
    } else {
        read_of(units, leaf.its_type)
    };
    let label = label_of(alloc, inlined, variable, &words, &leaf.words)?;
    let size = leaf.place.size;
    let bits = leaf.bits.unwrap_or(all_bits(size));
    Ok(told(label, location, size, read, bits))
}

/// Adds a value, if there is one and there is room. For the first for which there isn't a mark is added.
fn add(
    alloc: Global,
    units: &Units,
    values: &mut Vec<FrameValue>,
    value: Option<FrameValue>,
) -> Result<(), AllocError> {
    let Some(value) = value else {
        return Ok(());
    };
    if values.len() >= MOST_VALUES || value.label.len() > MOST_LABEL {
        return Ok(());
    }
    match units.take_value() {
        ValueRoom::There => values.push(value)?,
        ValueRoom::ForMark => values.push(FrameValue {
            label: String::from_str(alloc, FURTHER)?,
            kind: ValueKind::Parts,
            ..value
        })?,
        ValueRoom::Nowhere => {}
    }
    Ok(())
}

/// The values of variables, in their order, as many as a frame has at most, and as there is room for.
pub(crate) fn values_of(
    alloc: Global,
    units: &Units,
    inlined: &[Inlined],
    variables: &[Variable],
) -> Result<Vec<FrameValue>, AllocError> {
    let mut values = Vec::new(alloc);
    for variable in variables {
        if values.len() >= MOST_VALUES {
            break;
        }
        if variable.kind != ValueKind::Parts {
            add(
                alloc,
                units,
                &mut values,
                value_of(alloc, units, inlined, variable)?,
            )?;
            continue;
        }
        for leaf in &leaves_of(alloc, units, variable.its_type, variable.size)? {
            add(
                alloc,
                units,
                &mut values,
                part_of(alloc, units, inlined, variable, leaf)?,
            )?;
        }
    }
    Ok(values)
}
