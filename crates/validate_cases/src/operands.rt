//! The types of locals and operands that a valid module tells.

use crate::instrs::type_name;
use crate::modules::valid_of;
use std::alloc::{AllocError, Global};
use std::fmt::Write;
use types::ValType;
use validate::{ValidModule, operand_types};

/// Writes types in brackets, or `-` for none.
fn write_types(types: Option<&[ValType]>, given: &mut String) -> Result<(), AllocError> {
    let Some(types) = types else {
        return given.push_str(" -");
    };
    given.push_str(" [")?;
    for (place, val_type) in types.iter().enumerate() {
        let space = if place == 0 { "" } else { " " };
        given.push_str(space)?;
        given.push_str(type_name(*val_type))?;
    }
    given.push(']')?;
    Ok(())
}

/// Writes the types of the locals of an own function.
fn write_locals(
    alloc: Global,
    valid: &ValidModule,
    own: usize,
    given: &mut String,
) -> Result<(), AllocError> {
    write!(given, "function {own}, locals:")?;
    let types = valid.local_types(alloc, own)?;
    write_types(types.as_deref(), given)?;
    writeln!(given, "")
}

/// How many instructions an own function has.
fn size_of(valid: &ValidModule, own: usize) -> usize {
    match valid.body(own) {
        Some(body) => body.code.len(),
        None => 0,
    }
}

/// Writes the types of the operands before each instruction of an own function, and behind the last.
fn write_places(
    alloc: Global,
    valid: &ValidModule,
    own: usize,
    given: &mut String,
) -> Result<(), AllocError> {
    write!(given, "function {own}, operands:")?;
    for place in 0..=size_of(valid, own) {
        let types = operand_types(alloc, valid, own, place)?;
        write_types(types.as_deref(), given)?;
    }
    writeln!(given, "")
}

/// Writes the types of each own function, and of one more.
fn write_all(alloc: Global, valid: &ValidModule, given: &mut String) -> Result<(), AllocError> {
    for own in 0..=valid.parts().bodies.len() {
        write_locals(alloc, valid, own, given)?;
        write_places(alloc, valid, own, given)?;
    }
    Ok(())
}

/// Writes the types of locals and operands of the valid module that bytes spell.
pub(crate) fn write_operands(
    alloc: Global,
    bytes: &[u8],
    given: &mut String,
) -> Result<(), AllocError> {
    match valid_of(alloc, bytes) {
        Some(valid) => write_all(alloc, &valid, given),
        None => writeln!(given, "no valid module"),
    }
}
