//! What a valid module tells of itself.

use crate::modules::valid_of;
use std::alloc::{AllocError, Global};
use std::fmt::Write;
use validate::ValidModule;
use validate_typing::Target;

/// Writes the sizes of the memory, and its opening image: the length, the first bytes and the last.
fn write_memory(alloc: Global, module: &ValidModule, given: &mut String) -> Result<(), AllocError> {
    let (opening, most) = (module.opening_pages(), module.pages_max());
    writeln!(given, "pages: {opening}, {most} at most")?;
    let image = module.image(alloc)?;
    let (length, front) = (image.len(), image.get(..8).unwrap_or(&[]));
    let back = image.last().copied().unwrap_or(0);
    writeln!(
        given,
        "image: {length} bytes, the first {front:?}, the last {back}"
    )
}

/// Writes which functions there are.
fn write_functions(module: &ValidModule, given: &mut String) -> Result<(), AllocError> {
    let imported = module.imported_functions();
    let starts_threads = module.starts_threads();
    writeln!(
        given,
        "imported functions: {imported}, starts threads: {starts_threads}"
    )?;
    let tables = module.tables().len();
    writeln!(given, "tables of branches: {tables}")
}

/// Writes which functions are exported by these names.
fn write_exported(module: &ValidModule, given: &mut String) -> Result<(), AllocError> {
    for name in ["wasi_thread_start", "memory"] {
        let own = module.exported(name);
        writeln!(given, "exported as {name}: {own:?}")?;
    }
    Ok(())
}

/// Writes what there is of the own function with this number.
fn write_own(module: &ValidModule, own: usize, given: &mut String) -> Result<(), AllocError> {
    match (module.func_type(own), module.body(own), module.table(own)) {
        (Some(func_type), Some(body), Some(_)) => {
            let (params, instrs) = (func_type.params.len(), body.code.len());
            writeln!(
                given,
                "own function {own}: {params} parameters, {instrs} instructions"
            )
        }
        (None, None, None) => writeln!(given, "own function {own}: none"),
        _ => writeln!(given, "own function {own}: not all of it"),
    }
}

/// Writes where the first targets of an instruction lead.
fn write_targets(
    module: &ValidModule,
    function: usize,
    instruction: usize,
    given: &mut String,
) -> Result<(), AllocError> {
    for which in 0..4 {
        if let Some(target) = module.target(function, instruction, which) {
            let Target {
                to,
                height,
                carried,
            } = target;
            write!(given, "function {function} at {instruction}: ")?;
            writeln!(given, "to {to}, height {height}, carried {carried}")?;
        }
    }
    Ok(())
}

/// Writes what there is of the first functions, and where the branches of their first instructions lead.
fn write_first(module: &ValidModule, given: &mut String) -> Result<(), AllocError> {
    for function in 0..3 {
        write_own(module, function, given)?;
        for instruction in 0..8 {
            write_targets(module, function, instruction, given)?;
        }
    }
    Ok(())
}

/// Writes all that is asked of a valid module.
fn write_whole(alloc: Global, module: &ValidModule, given: &mut String) -> Result<(), AllocError> {
    write_memory(alloc, module, given)?;
    write_functions(module, given)?;
    write_exported(module, given)?;
    write_first(module, given)
}

/// Writes what the valid module that bytes spell tells of itself.
pub(crate) fn write_portrait(
    alloc: Global,
    bytes: &[u8],
    given: &mut String,
) -> Result<(), AllocError> {
    match valid_of(alloc, bytes) {
        Some(module) => write_whole(alloc, &module, given),
        None => writeln!(given, "no valid module"),
    }
}
