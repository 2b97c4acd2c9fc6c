//! From words to places.

ghost use Rattle.std.specs.Prelude.{IfOk, IfSome};
ghost use Rattle.dwarf_data.specs.Within.{LiesWithin, IsInSpan, NamesWithin};

use crate::members::members;
use crate::parts::{PartShape, VariablePart};
use crate::place::ByteRange;
use crate::sizes::MOST_TYPES;
use crate::static_data::whole;
use dwarf_units::{Spanned, Spans, Units};
use std::alloc::{AllocError, Global};

/// What words name.
#[derive(Clone, Copy, Debug, PartialEq, Eq)]
pub enum NamedBytes {
    Nothing,
    One(ByteRange),
    /// Variables at different places have the name.
    Several,
}

/// A step from a part to one right below.
#[derive(Clone, Copy)]
enum Step<'w> {
    Member(&'w str),
    Element(u64),
}

/// A name or a number up to the next `.` or `[`, and what is behind it.
fn split(words: &str) -> (&str, &str) {
    let end = words.find(['.', '[']).unwrap_or(words.len());
    match (words.get(..end), words.get(end..)) {
        (Some(name), Some(rest)) => (name, rest),
        _ => (words, ""),
    }
}

/// The step at the front of some words, and what is behind it.
fn next_step(words: &str) -> Option<(Step<'_>, &str)> {
    if let Some(rest) = words.strip_prefix('.') {
        let (name, rest) = split(rest);
        return Some((Step::Member(name), rest));
    }
    let (number, rest) = words.strip_prefix('[')?.split_once(']')?;
    Some((Step::Element(number.parse::<u64>().ok()?), rest))
}

/// The part of a name among the members of a part, those of members without a name included.
fn member_named(
    alloc: Global,
    units: &Units,
    part: VariablePart,
    name: &str,
) -> Result<Option<VariablePart>, AllocError>
    ensures { IfOk result (LiesWithin part.place) }
{
    let mut parts = Vec::new(alloc);
    parts.push(part)?;
    for next in 0..MOST_TYPES as usize {
        let Some(outer) = parts.get(next).copied() else {
            break;
        };
        if !matches!(outer.shape(alloc, units)?, PartShape::Members) {
            continue;
        }
        for member in &members(alloc, units, outer.its_type, units.len())? {
            let Some(inner) = outer.member(units, *member) else {
                continue;
            };
            match member.name {
                Some(its_name) if its_name == name => return Ok(Some(inner)),
                Some(_) => {}
                None => parts.push(inner)?,
            }
        }
    }
    Ok(None)
}

fn follow(
    alloc: Global,
    units: &Units,
    part: VariablePart,
    step: Step,
) -> Result<Option<VariablePart>, AllocError>
    ensures { IfOk result (LiesWithin part.place) }
{
    match (step, part.shape(alloc, units)?) {
        (Step::Member(name), PartShape::Members) => member_named(alloc, units, part, name),
        (Step::Element(number), PartShape::Elements { count, size }) if number < count => {
            part.element(alloc, units, number, size)
        }
        _ => Ok(None),
    }
}

/// The part that steps lead to.
fn follow_all(
    alloc: Global,
    units: &Units,
    part: VariablePart,
    steps: &str,
) -> Result<Option<VariablePart>, AllocError>
    ensures { IfOk result (LiesWithin part.place) }
{
    let mut reached = part;
    let mut left = steps;
    for _ in 0..MOST_TYPES {
        if left.is_empty() {
            return Ok(Some(reached));
        }
        let Some((step, rest)) = next_step(left) else {
            return Ok(None);
        };
        match follow(alloc, units, reached, step)? {
            Some(inner) => reached = inner,
            None => return Ok(None),
        }
        left = rest;
    }
    Ok(None)
}

impl NamedBytes {
    ghost use Rattle.dwarf_data.specs.Within.{NamesOneMore};

    /// With one more place that has the name.
    fn and(self, place: ByteRange) -> NamedBytes
        ensures { NamesOneMore place result }
    {
        match self {
            NamedBytes::Nothing => NamedBytes::One(place),
            NamedBytes::One(_) | NamedBytes::Several => NamedBytes::Several,
        }
    }
}

/// The place that steps lead to in a variable, where it has a name.
fn place_in(
    alloc: Global,
    units: &Units,
    span: Spanned,
    variable: &str,
    steps: &str,
) -> Result<Option<ByteRange>, AllocError>
    ensures { IfOk result (λ place. IfSome place (IsInSpan span)) }
{
    if units.name(span.entry) != Some(variable) {
        return Ok(None);
    }
    let Some(part) = whole(units, span) else {
        return Ok(None);
    };
    match follow_all(alloc, units, part, steps)? {
        Some(found) => Ok(Some(found.place)),
        None => Ok(None),
    }
}

/// The bytes of static data that words name, as `slots[3].item`.
pub fn place_of(
    alloc: Global,
    units: &Units,
    data: &Spans,
    words: &str,
) -> Result<NamedBytes, AllocError>
    ensures { IfOk result (NamesWithin «data».now.items.items) }
{
    let (variable, steps) = split(words);
    let mut sought = NamedBytes::Nothing;
    for span in data.items() {
        if let Some(place) = place_in(alloc, units, *span, variable, steps)? {
            sought = sought.and(place);
        }
    }
    Ok(sought)
}
