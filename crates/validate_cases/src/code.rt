//! What the reader says of the bytes of instructions.

use crate::instrs::write_instr;
use crate::sections::write_refusal;
use binary_instructions::read_expression;
use binary_wire::{ReadFault, Reader};
use std::alloc::{AllocError, Global};
use std::fmt::Write;
use types::{Instr, Sequence};

/// The instructions that bytes spell, with the final `end`.
pub(crate) fn code_of(alloc: Global, bytes: &[u8]) -> Result<Sequence<Instr>, ReadFault> {
    read_expression(&mut Reader::new(bytes), alloc)
}

/// Writes instructions on one line.
fn write_instrs(code: &[Instr], given: &mut String) -> Result<(), AllocError> {
    for (place, instr) in code.iter().enumerate() {
        given.push_str(if place == 0 { "" } else { "; " })?;
        write_instr(instr, given)?;
    }
    writeln!(given, "")
}

/// Writes the instructions that bytes spell, or why they are refused.
pub(crate) fn write_code(
    alloc: Global,
    bytes: &[u8],
    given: &mut String,
) -> Result<(), AllocError> {
    match code_of(alloc, bytes) {
        Ok(code) => write_instrs(code.as_slice(), given),
        Err(fault) => write_refusal(fault, given),
    }
}

/// Writes how many instructions bytes spell, or why they are refused.
pub(crate) fn write_length(
    alloc: Global,
    bytes: &[u8],
    given: &mut String,
) -> Result<(), AllocError> {
    match code_of(alloc, bytes) {
        Ok(code) => writeln!(given, "{} instructions", code.len()),
        Err(fault) => write_refusal(fault, given),
    }
}
