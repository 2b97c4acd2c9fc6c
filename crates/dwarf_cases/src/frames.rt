//! Functions in the place of their calls, and variables in scope.

use dwarf_frames::{Inlined, Variable, inlined_at, read_functions, variables_at};
use dwarf_lines::DebugSections;
use dwarf_units::{Base, InfoSections, Location, read_units};
use std::alloc::{AllocError, Global};
use std::fmt::Write;

/// Writes a call as `take queue.c:31`.
fn write_call(inlined: &Inlined, given: &mut String) -> Result<(), AllocError> {
    let function = inlined.function.unwrap_or("?");
    let file = match inlined.file {
        Some(source) => source.name,
        None => "?",
    };
    match inlined.line {
        Some(line) => write!(given, " {function} {file}:{line}"),
        None => write!(given, " {function} {file}"),
    }
}

/// Writes the functions in the place of their calls at each of these offsets, the innermost first.
pub(crate) fn write_inlined(
    alloc: Global,
    module: &[u8],
    offsets: &[u64],
    given: &mut String,
) -> Result<(), AllocError> {
    let units = read_units(alloc, InfoSections::of(module))?;
    let functions = read_functions(alloc, &units)?;
    let lines = DebugSections::of(module);
    for offset in offsets {
        write!(given, "{offset}:")?;
        for (i, call) in inlined_at(alloc, &units, lines, &functions, *offset)?
            .iter()
            .enumerate()
        {
            if i > 0 {
                given.push_str(" <")?;
            }
            write_call(call, given)?;
        }
        writeln!(given, "")?;
    }
    Ok(())
}

/// Writes where a variable is.
fn write_location(location: Location, given: &mut String) -> Result<(), AllocError> {
    match location {
        Location::Local(index) => writeln!(given, "local {index}"),
        Location::Global(index) => writeln!(given, "global {index}"),
        Location::Operand(index) => writeln!(given, "operand {index}"),
        Location::Static(address) => writeln!(given, "at {address}"),
        Location::Memory { base, offset } => match base {
            Base::Local(index) => writeln!(given, "at local {index} + {offset}"),
            Base::Global(index) => writeln!(given, "at global {index} + {offset}"),
            Base::Operand(index) => writeln!(given, "at operand {index} + {offset}"),
        },
    }
}

/// Writes a variable, its size, how its bytes are read, how many calls lead to it, and where it is.
fn write_variable(variable: &Variable, given: &mut String) -> Result<(), AllocError> {
    let word = if variable.is_parameter {
        "parameter"
    } else {
        "local"
    };
    let (words, name) = (variable.type_words.as_str(), variable.name);
    let (size, kind, depth) = (variable.size, variable.kind, variable.depth);
    write!(
        given,
        " {word} {words} {name}: {size} bytes, {kind:?}, {depth} calls, "
    )?;
    write_location(variable.location, given)
}

/// Writes the variables in scope at each of these offsets.
pub(crate) fn write_variables(
    alloc: Global,
    module: &[u8],
    offsets: &[u64],
    given: &mut String,
) -> Result<(), AllocError> {
    let units = read_units(alloc, InfoSections::of(module))?;
    let functions = read_functions(alloc, &units)?;
    for offset in offsets {
        writeln!(given, "{offset}:")?;
        for variable in &variables_at(alloc, &units, &functions, *offset)? {
            write_variable(variable, given)?;
        }
    }
    Ok(())
}
