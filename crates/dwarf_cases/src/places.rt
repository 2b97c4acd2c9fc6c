//! Places of instructions.

use show_places::{BodyPlaces, code_places, section_of};
use std::alloc::{AllocError, Global};
use std::fmt::Write;

/// The number of the code section.
const CODE: u8 = 10;

/// The contents of the code section, empty without one.
fn code_of(module: &[u8]) -> &[u8] {
    match section_of(module, CODE) {
        Some(section) => section.contents,
        None => &[],
    }
}

/// Writes where bodies begin and where each of their instructions stands, in base 16.
fn write_bodies(bodies: &[BodyPlaces], given: &mut String) -> Result<(), AllocError> {
    for body in bodies {
        write!(given, "{:x}:", body.start)?;
        for place in body.instrs.as_slice() {
            write!(given, " {:x}", *place)?;
        }
        writeln!(given, "")?;
    }
    Ok(())
}

/// Writes where the instructions of a module stand.
pub(crate) fn write_places(
    alloc: Global,
    module: &[u8],
    given: &mut String,
) -> Result<(), AllocError> {
    match code_places(alloc, code_of(module)) {
        Ok(bodies) => write_bodies(bodies.as_slice(), given),
        Err(fault) => writeln!(given, "{fault}"),
    }
}

/// Writes how many fronts of the code section are refused.
pub(crate) fn write_cut_places(
    alloc: Global,
    module: &[u8],
    given: &mut String,
) -> Result<(), AllocError> {
    let contents = code_of(module);
    for len in 0..contents.len() {
        if code_places(alloc, &contents[..len]).is_ok() {
            writeln!(given, "{len} bytes are not refused")?;
        }
    }
    writeln!(given, "each of {} fronts was tried", contents.len())
}
