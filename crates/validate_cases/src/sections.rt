//! What the reader says of the bytes of modules and of numbers.

use binary::read;
use binary_wire::{Fault, ReadFault, Reader, Refusal};
use std::alloc::{AllocError, Global};
use std::fmt::Write;

/// What stands in front of the sections.
const OPENING: &[u8] = b"\0asm\x01\0\0\0";

/// Why bytes are no module, if they are none.
fn fault_of(alloc: Global, bytes: &[u8]) -> Option<ReadFault> {
    read(alloc, bytes).err()
}

/// Writes why bytes were refused, with the number by which that is reported.
pub(crate) fn write_refusal(fault: ReadFault, given: &mut String) -> Result<(), AllocError> {
    let number = fault.number();
    writeln!(given, "refused {number}: {fault}")
}

/// Writes whether bytes are read as a module.
pub(crate) fn write_input(
    alloc: Global,
    bytes: &[u8],
    given: &mut String,
) -> Result<(), AllocError> {
    match fault_of(alloc, bytes) {
        None => writeln!(given, "read"),
        Some(fault) => write_refusal(fault, given),
    }
}

/// Writes whether sections are read as a module.
pub(crate) fn write_sections(
    alloc: Global,
    sections: &[u8],
    given: &mut String,
) -> Result<(), AllocError> {
    let mut bytes = Vec::from_slice(alloc, OPENING)?;
    bytes.extend_from_slice(sections)?;
    write_input(alloc, &bytes, given)
}

/// Writes whether the fronts of bytes are read as modules, but for those that end too early: refused at their end as
/// such.
pub(crate) fn write_fronts(
    alloc: Global,
    bytes: &[u8],
    given: &mut String,
) -> Result<(), AllocError> {
    for offset in 0..bytes.len() {
        let early = ReadFault::Malformed {
            kind: Fault::EndOfInput,
            offset,
        };
        if fault_of(alloc, &bytes[..offset]) != Some(early) {
            write!(given, "{offset} bytes: ")?;
            write_input(alloc, &bytes[..offset], given)?;
        }
    }
    Ok(())
}

/// Writes a number that was read, or why it was refused.
fn write_number(number: Result<u64, Refusal>, given: &mut String) -> Result<(), AllocError> {
    match number {
        Ok(number) => writeln!(given, "{number:x}"),
        Err(refusal) => write_refusal(ReadFault::from(refusal), given),
    }
}

pub(crate) fn write_u32(bytes: &[u8], given: &mut String) -> Result<(), AllocError> {
    write_number(Reader::new(bytes).read_u32().map(u64::from), given)
}

pub(crate) fn write_s32(bytes: &[u8], given: &mut String) -> Result<(), AllocError> {
    write_number(Reader::new(bytes).read_s32().map(u64::from), given)
}

pub(crate) fn write_s64(bytes: &[u8], given: &mut String) -> Result<(), AllocError> {
    write_number(Reader::new(bytes).read_s64(), given)
}
