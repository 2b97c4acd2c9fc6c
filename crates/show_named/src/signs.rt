//! Which data of the entries of a log is of signed integer types.

use dwarf_data::{ByteRange, type_at};
use dwarf_frames::{ValueKind, kind_of};
use dwarf_units::{Spanned, Spans, Units};
use selection::{NumberSpan, touched};
use std::alloc::{AllocError, Global};
use types::Entry;

/// The addresses that the entries touch, or at which they wait or wake, sorted.
fn touched_by(alloc: Global, log: &[Entry]) -> Result<Vec<NumberSpan>, AllocError> {
    let mut all = Vec::new(alloc);
    for entry in log {
        if let Some(addrs) = touched(entry.event) {
            all.push(addrs)?;
        }
    }
    all.sort_by_key(|addrs| (addrs.first, addrs.last))?;
    Ok(all)
}

/// Whether static data of a signed integer type has just these addresses.
fn is_signed(
    alloc: Global,
    units: &Units,
    data: &Spans,
    addrs: NumberSpan,
) -> Result<bool, AllocError> {
    let place = ByteRange {
        start: addrs.first,
        size: addrs.last.saturating_sub(addrs.first).saturating_add(1),
    };
    Ok(match type_at(alloc, units, data, place)? {
        Some(its_type) => kind_of(units, its_type) == ValueKind::Signed,
        None => false,
    })
}

/// The data of signed integer types of which the entries touch just the bytes, as far as each of them takes not more than
/// so many steps.
pub(crate) fn signed_in(
    alloc: Global,
    units: &Units,
    data: &Spans,
    log: &[Entry],
    steps: u64,
) -> Result<Spans, AllocError> {
    let mut signed = Vec::new(alloc);
    let mut last = None;
    for addrs in &touched_by(alloc, log)? {
        if last == Some(*addrs) {
            continue;
        }
        last = Some(*addrs);
        units.allow(steps);
        if is_signed(alloc, units, data, *addrs)? {
            signed.push(Spanned {
                start: addrs.first,
                end: addrs.last.saturating_add(1),
                entry: 0,
            })?;
        }
    }
    Spans::new(alloc, signed)
}
