//! Tests of a module's parts for the limits on numbers of items.
ghost use Rattle.std.specs.Prelude.{◌≡◌, ◌+◌, ◌≤◌, length, count_by, nat_le};
ghost use Rattle.std.specs.List.{list_all, zip};
ghost use Rattle.types.specs.Within.{param_count, is_func};
ghost use Rattle.types.specs.Tests.{is_type_within, is_table_within, is_max_within, is_memory_within};
ghost use Rattle.types.specs.Tests.{is_desc_within, is_body_within, has_few_items, has_items_within};
ghost use Rattle.types.specs.Tests.{has_bodies_within};
ghost use Rattle.types.specs.declared.limits.TheConstants.{MOST_FUNCTIONS};

use crate::limits::{
    MOST_ELEMENTS, MOST_FUNCTIONS, MOST_ITEMS, MOST_LOCALS, MOST_MODULE_BYTES, MOST_PAGES,
    MOST_PARAMS,
};
use crate::parts::{Body, ElementSegment, FuncType, Import, ImportDesc, Limits, Parts};

fn is_type_in(func_type: &FuncType) -> bool
    ensures { result ≡ is_type_within func_type.now }
{
    func_type.params.len() <= MOST_PARAMS && func_type.results.len() <= MOST_PARAMS
}

fn is_table_in(limits: &Limits) -> bool
    ensures { result ≡ is_table_within limits.now }
{
    limits.min <= MOST_ELEMENTS
}

fn is_memory_in(limits: &Limits) -> bool
    ensures { result ≡ is_memory_within limits.now }
{
    limits.min <= MOST_PAGES
        && match limits.max {
            Some(max) => max <= MOST_PAGES,
            None => true,
        }
}

fn is_import_in(import: &Import) -> bool
    ensures { result ≡ is_desc_within import.now.desc }
{
    match &import.desc {
        ImportDesc::Func(_) | ImportDesc::Global(_) => true,
        ImportDesc::Table(limits) => is_table_in(limits),
        ImportDesc::Memory(limits) => is_memory_in(limits),
    }
}

fn is_imported_function(import: &Import) -> bool
    ensures { result ≡ is_func import.now.desc }
{
    match import.desc {
        ImportDesc::Func(_) => true,
        _ => false,
    }
}

/// How many functions are imported.
pub fn imported_functions(imports: &[Import]) -> usize
    ensures { result ≡ count_by (λ i. is_func i.desc) imports.now }
{
    let mut count = 0;
    for import in imports {
        if is_imported_function(import) {
            count += 1;
        }
    }
    count
}

/// The parameters of the type with this index, none if there is no such type.
pub fn param_count(types: &[FuncType], index: u32) -> usize
    ensures { result ≡ param_count types.now index }
{
    match types.get(index as usize) {
        Some(func_type) => func_type.params.len(),
        None => 0,
    }
}

fn is_body_in(types: &[FuncType], index: u32, body: &Body) -> bool
    ensures { result ≡ is_body_within types.now index body.now }
{
    let params = param_count(types, index);
    params <= MOST_LOCALS && body.locals.len() <= MOST_LOCALS - params
}

/// Whether there are as few functions as a module may have, with the imported ones.
fn has_few_functions_in(parts: &Parts) -> bool
    ensures { result ≡ nat_le (count_by (λ i. is_func i.desc) parts.now.imports + length parts.now.functions)
        MOST_FUNCTIONS }
{
    let imported = imported_functions(parts.imports.as_slice());
    imported <= MOST_FUNCTIONS && parts.functions.len() <= MOST_FUNCTIONS - imported
}

/// Whether each section has as few items as a module may have, and the module as few bytes.
pub fn has_few_items_in(parts: &Parts) -> bool
    ensures { result ≡ has_few_items parts.now }
{
    parts.types.len() <= MOST_ITEMS
        && parts.imports.len() <= MOST_ITEMS
        && has_few_functions_in(parts)
        && parts.tables.len() <= MOST_ITEMS
        && parts.memories.len() <= MOST_ITEMS
        && parts.globals.len() <= MOST_ITEMS
        && parts.exports.len() <= MOST_ITEMS
        && parts.elements.len() <= MOST_ITEMS
        && parts.data.len() <= MOST_ITEMS
        && parts.length as usize <= MOST_MODULE_BYTES
}

fn is_element_in(segment: &ElementSegment) -> bool
    ensures { result ≡ nat_le (length segment.now.functions) MOST_FUNCTIONS }
{
    segment.functions.len() <= MOST_FUNCTIONS
}

fn are_types_in(types: &[FuncType]) -> bool
    ensures { result ≡ list_all is_type_within types.now }
{
    types.iter().all(is_type_in)
}

fn are_imports_in(imports: &[Import]) -> bool
    ensures { result ≡ list_all (λ i. is_desc_within i.desc) imports.now }
{
    imports.iter().all(is_import_in)
}

fn are_tables_in(tables: &[Limits]) -> bool
    ensures { result ≡ list_all is_table_within tables.now }
{
    tables.iter().all(is_table_in)
}

fn are_memories_in(memories: &[Limits]) -> bool
    ensures { result ≡ list_all is_memory_within memories.now }
{
    memories.iter().all(is_memory_in)
}

fn are_elements_in(elements: &[ElementSegment]) -> bool
    ensures { result ≡ list_all (λ e. nat_le (length e.functions) MOST_FUNCTIONS) elements.now }
{
    elements.iter().all(is_element_in)
}

/// Whether each body has no more locals than it may have with the parameters of its function.
fn are_bodies_in(types: &[FuncType], functions: &[u32], bodies: &[Body]) -> bool
    requires { length functions.now ≡ length bodies.now }
    ensures { result ≡ list_all (λ f. is_body_within types.now f.0 f.1) (zip functions.now bodies.now) }
{
    for (i, index) in functions.iter().enumerate() {
        if !is_body_in(types, *index, &bodies[i]) {
            return false;
        }
    }
    true
}

/// Whether each item keeps the limits on it.
pub fn has_items_in(parts: &Parts) -> bool
    ensures { result ≡ has_items_within parts.now }
{
    are_types_in(parts.types.as_slice())
        && are_imports_in(parts.imports.as_slice())
        && are_tables_in(parts.tables.as_slice())
        && are_memories_in(parts.memories.as_slice())
        && are_elements_in(parts.elements.as_slice())
}

/// Whether each function has its body, with no more locals than a body may have.
pub fn has_bodies_in(parts: &Parts) -> bool
    ensures { result ≡ has_bodies_within parts.now }
{
    parts.functions.len() == parts.bodies.len()
        && are_bodies_in(
            parts.types.as_slice(),
            parts.functions.as_slice(),
            parts.bodies.as_slice(),
        )
}
