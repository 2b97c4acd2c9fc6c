//! The rules of imports, and of function types by index.

ghost use Rattle.std.specs.Prelude.{◌≡◌};
ghost use Rattle.validate_module_rules.specs.Faults.{is_import, import_fault};
ghost use Rattle.types.specs.Equal.{are_types, has_type};
ghost use Rattle.validate_module_rules.specs.Faults.{imports_fault, functions_fault, spawn_type_fault};
ghost use Rattle.std.specs.List.{slice_get};

use crate::sizes::{are_below, unless};
use crate::spaces::item;
use types::{FuncType, Import, ImportDesc, Parts, ValType};
use validate_typing::Fault;

/// Whether these are the same types in the same order.
fn are_types(types: &[ValType], wanted: &[ValType]) -> bool
    ensures { result ≡ are_types types.now wanted.now }
{
    types == wanted
}

/// Whether a function type has exactly these parameters and results.
pub fn has_type(func_type: &FuncType, params: &[ValType], results: &[ValType]) -> bool
    ensures { result ≡ has_type func_type.now params.now results.now }
{
    are_types(func_type.params.as_slice(), params)
        && are_types(func_type.results.as_slice(), results)
}

fn is_import(import: &Import, from: &str, name: &str) -> bool
    ensures { result ≡ is_import from.now name.now import.now }
{
    import.module.as_str() == from && import.name.as_str() == name
}

/// The fault of the type of `thread-spawn`, by its index.
fn fault_of_spawn_type(types: &[FuncType], index: u32) -> Option<Fault>
    ensures { result ≡ spawn_type_fault (slice_get types.now index) }
{
    match item(types, index as usize) {
        None => Some(Fault::UnknownType),
        Some(func_type) => unless(
            has_type(func_type, &[ValType::I32], &[ValType::I32]),
            Fault::UnknownImport,
        ),
    }
}

fn fault_of_import(types: &[FuncType], import: &Import) -> Option<Fault>
    ensures { result ≡ import_fault types.now import.now }
{
    match import.desc {
        ImportDesc::Func(index) => {
            if !is_import(import, "wasi", "thread-spawn") {
                return Some(Fault::UnknownImport);
            }
            fault_of_spawn_type(types, index)
        }
        ImportDesc::Memory(_) => {
            unless(is_import(import, "env", "memory"), Fault::UnknownImport)
        }
        ImportDesc::Table(_) | ImportDesc::Global(_) => Some(Fault::UnknownImport),
    }
}

/// The first fault of the imports: other than the memory `env` `memory` and the function `wasi` `thread-spawn` of type
/// `[i32] to [i32]`, or with an unknown type.
pub fn fault_of_imports(parts: &Parts) -> Option<Fault>
    ensures { result ≡ imports_fault parts.now }
{
    let types = parts.types.as_slice();
    for import in parts.imports.as_slice() {
        let fault = fault_of_import(types, import);
        if fault.is_some() {
            return fault;
        }
    }
    None
}

/// The fault of the functions' types: an unknown index.
pub fn fault_of_functions(parts: &Parts) -> Option<Fault>
    ensures { result ≡ functions_fault parts.now }
{
    let types = parts.types.len();
    unless(
        are_below(parts.functions.as_slice(), types),
        Fault::UnknownType,
    )
}
