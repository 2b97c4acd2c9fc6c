//! Static variables.

ghost use Rattle.std.specs.Prelude.{◌≡◌, ◌+◌, ◌≤◌, IfSome};

use crate::parts::VariablePart;
use crate::place::ByteRange;
use crate::sizes::size_of;
use dwarf_reader::AttributeValue;
use dwarf_units::{Attribute, Location, Spanned, Spans, Tag, Units};
use std::alloc::{AllocError, Global};

/// What is behind the last address.
const MEMORY_END: u64 = 0x1_0000_0000;

/// The address of a variable that stands at one.
fn address_of(units: &Units, entry: usize) -> Option<u64> {
    let AttributeValue::Expression(place) = units.value(entry, Attribute::Location)? else {
        return None;
    };
    match units.location(entry, place, None)? {
        Location::Static(address) => Some(address),
        _ => None,
    }
}

/// The bytes of a variable that has a name and an address, and whose type has a size. What was left out of a module is said
/// to be at the end of memory, where nothing has room.
fn span_of(alloc: Global, units: &Units, entry: usize) -> Result<Option<Spanned>, AllocError> {
    let Some(start) = address_of(units, entry) else {
        return Ok(None);
    };
    let (Some(its_type), Some(_)) = (units.type_of(entry), units.name(entry)) else {
        return Ok(None);
    };
    let Some(size) = size_of(alloc, units, its_type)? else {
        return Ok(None);
    };
    Ok(match start.checked_add(size) {
        Some(end) if end < MEMORY_END => Some(Spanned { start, end, entry }),
        _ => None,
    })
}

/// The static variables of a module that have a name, an address and a size. Those of functions are among them.
pub fn read_data(alloc: Global, units: &Units) -> Result<Spans, AllocError> {
    let mut spans = Vec::new(alloc);
    for entry in 0..units.len() {
        if matches!(units.tag(entry), Tag::Variable)
            && let Some(span) = span_of(alloc, units, entry)?
        {
            spans.push(span)?;
        }
    }
    Spans::new(alloc, spans)
}

/// A variable as a part of itself.
pub(crate) fn whole(units: &Units, span: Spanned) -> Option<VariablePart>
    ensures start { IfSome result (λ p. p.place.start ≡ span.start) }
    ensures end { IfSome result (λ p. p.place.start + p.place.size ≡ span.end) }
{
    let place = ByteRange {
        start: span.start,
        size: span.end.checked_sub(span.start)?,
    };
    VariablePart::new(units, place, units.type_of(span.entry)?)
}
