//! The rules of segments.

ghost use Rattle.std.specs.Prelude.{◌≡◌, ◌+◌, nat_le};
ghost use Rattle.validate_module_rules.specs.Spaces.{IsSpacesOf};
ghost use Rattle.validate_module_rules.specs.Faults.{first_of, element_fault_in, element_fault, data_fault};

use crate::constants::{fault_of_constant, offset};
use crate::sizes::{are_below, unless};
use crate::spaces::{IndexSpaces, item};
use types::{DataSegment, ElementSegment, Limits, PAGE_SIZE, Parts, ValType};
use validate_typing::Fault;

/// Whether so many items from an offset on lie within a size.
fn is_within(offset: u32, len: usize, size: usize) -> bool
    ensures { result ≡ nat_le (offset + len) size }
{
    len <= size && offset as usize <= size - len
}

/// The fault of an element segment in a table, where there are so many functions.
fn fault_in_table(table: &Limits, functions: usize, segment: &ElementSegment) -> Option<Fault>
    ensures { result ≡ element_fault_in functions (Some table.now) segment.now }
{
    let code = segment.offset.as_slice();
    let fault = fault_of_constant(code, ValType::I32);
    if fault.is_some() {
        return fault;
    }
    let items = segment.functions.as_slice();
    if !are_below(items, functions) {
        return Some(Fault::UnknownFunction);
    }
    unless(
        is_within(offset(code), items.len(), table.min as usize),
        Fault::SegmentOutside,
    )
}

fn fault_of_element(parts: &Parts, spaces: &IndexSpaces, segment: &ElementSegment) -> Option<Fault>
    requires { IsSpacesOf parts.now spaces.now }
    ensures { result ≡ element_fault parts.now segment.now }
{
    match item(parts.tables.as_slice(), segment.table as usize) {
        Some(table) => fault_in_table(table, spaces.functions.len(), segment),
        None => Some(Fault::UnknownTable),
    }
}

/// The first fault of the element segments: an unknown table, an offset that isn't a constant of type i32, an unknown
/// function, or functions outside the table's minimum.
pub fn fault_of_elements(parts: &Parts, spaces: &IndexSpaces) -> Option<Fault>
    requires { IsSpacesOf parts.now spaces.now }
    ensures { result ≡ first_of (element_fault parts.now) parts.now.elements }
{
    for segment in parts.elements.as_slice() {
        let fault = fault_of_element(parts, spaces, segment);
        if fault.is_some() {
            return fault;
        }
    }
    None
}

fn fault_of_data_segment(
    parts: &Parts,
    spaces: &IndexSpaces,
    segment: &DataSegment,
) -> Option<Fault>
    requires { IsSpacesOf parts.now spaces.now }
    ensures { result ≡ data_fault parts.now segment.now }
{
    let Some(memory) = item(&spaces.memories, segment.memory as usize) else {
        return Some(Fault::UnknownMemory);
    };
    let code = segment.offset.as_slice();
    let fault = fault_of_constant(code, ValType::I32);
    if fault.is_some() {
        return fault;
    }
    unless(
        is_within(
            offset(code),
            segment.bytes.len(),
            PAGE_SIZE * memory.min as usize,
        ),
        Fault::SegmentOutside,
    )
}

/// The first fault of the data segments: an unknown memory, an offset that isn't a constant of type i32, or bytes
/// outside the opening pages.
pub fn fault_of_data(parts: &Parts, spaces: &IndexSpaces) -> Option<Fault>
    requires { IsSpacesOf parts.now spaces.now }
    ensures { result ≡ first_of (data_fault parts.now) parts.now.data }
{
    for segment in parts.data.as_slice() {
        let fault = fault_of_data_segment(parts, spaces, segment);
        if fault.is_some() {
            return fault;
        }
    }
    None
}
