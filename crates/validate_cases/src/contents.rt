//! What is read of the sections of a module.

use crate::modules::module_of;
use crate::sections::write_refusal;
use std::alloc::{AllocError, Global};
use std::fmt::Write;
use types::Parts;

/// Writes how many items the sections have.
fn write_counts(parts: &Parts, given: &mut String) -> Result<(), AllocError> {
    for (section, count) in [
        ("types", parts.types.len()),
        ("imports", parts.imports.len()),
        ("functions", parts.functions.len()),
        ("tables", parts.tables.len()),
        ("memories", parts.memories.len()),
        ("globals", parts.globals.len()),
        ("exports", parts.exports.len()),
        ("elements", parts.elements.len()),
        ("bodies", parts.bodies.len()),
        ("data", parts.data.len()),
    ] {
        writeln!(given, "{section}: {count}")?;
    }
    Ok(())
}

/// Writes which function the start section has, and what the items are that aren't numbers alone.
fn write_items(parts: &Parts, given: &mut String) -> Result<(), AllocError> {
    writeln!(given, "start: {:?}", parts.start)?;
    for export in parts.exports.as_slice() {
        writeln!(given, "export: {} {:?}", export.name.as_str(), export.desc)?;
    }
    for body in parts.bodies.as_slice() {
        writeln!(given, "body: {} locals", body.locals.len())?;
    }
    for segment in parts.data.as_slice() {
        writeln!(given, "data: {:?}", segment.bytes.as_slice())?;
    }
    Ok(())
}

/// Writes what the module that bytes spell has.
pub(crate) fn write_contents(
    alloc: Global,
    bytes: &[u8],
    given: &mut String,
) -> Result<(), AllocError> {
    match module_of(alloc, bytes) {
        Ok(module) => {
            write_counts(module.parts(), given)?;
            write_items(module.parts(), given)
        }
        Err(fault) => write_refusal(fault, given),
    }
}
