//! What the validator says of a module.

use binary::read;
use binary_wire::ReadFault;
use std::alloc::{AllocError, Global};
use std::fmt::Write;
use types::Module;
use validate::{ValidModule, check_module, validate};
use validate_typing::ValidFault;

/// The module that bytes spell.
pub(crate) fn module_of(alloc: Global, bytes: &[u8]) -> Result<Box<Module>, ReadFault> {
    Ok(Box::new(alloc, read(alloc, bytes)?)?)
}

/// Why a module is not valid, by a check that keeps no tables.
fn fault_alone(alloc: Global, module: &Module) -> Option<ValidFault> {
    check_module(alloc, module).err()
}

/// Why a module is not valid, by a check that keeps tables.
fn fault_of(alloc: Global, module: Box<Module>) -> Option<ValidFault> {
    validate(alloc, Box::into_inner(module)).err()
}

/// Writes why a module isn't valid, or that it is.
fn write_fault(fault: Option<ValidFault>, given: &mut String) -> Result<(), AllocError> {
    match fault {
        None => writeln!(given, "valid"),
        Some(fault) => writeln!(given, "{fault}"),
    }
}

/// Writes what a check that keeps no tables says of a module, and what one that keeps tables says where that is
/// something else.
fn write_answers(alloc: Global, module: Box<Module>, given: &mut String) -> Result<(), AllocError> {
    let alone = fault_alone(alloc, &module);
    let fault = fault_of(alloc, module);
    write_fault(alone, given)?;
    if fault != alone {
        write_fault(fault, given)?;
    }
    Ok(())
}

/// Writes whether bytes are a valid module.
pub(crate) fn write_answer(
    alloc: Global,
    bytes: &[u8],
    given: &mut String,
) -> Result<(), AllocError> {
    match module_of(alloc, bytes) {
        Ok(module) => write_answers(alloc, module, given),
        Err(ReadFault::Malformed { .. }) => writeln!(given, "not read"),
        Err(ReadFault::OutOfMemory) => writeln!(given, "no memory"),
    }
}

/// The valid module that bytes spell, if they spell one.
pub(crate) fn valid_of(alloc: Global, bytes: &[u8]) -> Option<ValidModule> {
    let module = module_of(alloc, bytes).ok()?;
    validate(alloc, Box::into_inner(module)).ok()
}
