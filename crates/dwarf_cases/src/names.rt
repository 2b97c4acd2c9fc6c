//! Names of functions.

use binary::read;
use show_places::{function_name, read_names};
use std::alloc::{AllocError, Global};
use std::fmt::Write;
use types::{Export, Module};

/// The module that bytes spell, if they spell one.
fn module_of(alloc: Global, bytes: &[u8]) -> Result<Option<Box<Module>>, AllocError> {
    match read(alloc, bytes) {
        Ok(module) => Ok(Some(Box::new(alloc, module)?)),
        Err(_) => Ok(None),
    }
}

/// Writes the names of functions with these numbers, by the section of names of these bytes or by the exports.
fn write_called(
    alloc: Global,
    bytes: &[u8],
    exports: &[Export],
    functions: &[u64],
    given: &mut String,
) -> Result<(), AllocError> {
    let names = read_names(alloc, bytes)?;
    for function in functions {
        let index = u32::try_from(*function).unwrap_or(u32::MAX);
        writeln!(given, "{}", function_name(names.as_slice(), exports, index))?;
    }
    Ok(())
}

/// Writes the names of functions by the section of names.
pub(crate) fn write_names(
    alloc: Global,
    bytes: &[u8],
    functions: &[u64],
    given: &mut String,
) -> Result<(), AllocError> {
    match module_of(alloc, bytes)? {
        Some(module) => {
            let exports = module.parts().exports.as_slice();
            write_called(alloc, bytes, exports, functions, given)
        }
        None => writeln!(given, "no module"),
    }
}

/// Writes the names of functions by the exports alone.
pub(crate) fn write_exports(
    alloc: Global,
    bytes: &[u8],
    functions: &[u64],
    given: &mut String,
) -> Result<(), AllocError> {
    match module_of(alloc, bytes)? {
        Some(module) => {
            let exports = module.parts().exports.as_slice();
            write_called(alloc, &[], exports, functions, given)
        }
        None => writeln!(given, "no module"),
    }
}
