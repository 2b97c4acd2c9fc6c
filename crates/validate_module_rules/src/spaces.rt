//! What code names by an index.

ghost use Rattle.std.specs.Prelude.{◌≡◌, ◌++◌, [], IfOk, OnOk};
ghost use Rattle.std.specs.List.{slice_get};
ghost use Rattle.validate_typing.specs.Context.{function_of, memory_of};
ghost use Rattle.validate_module_rules.specs.Spaces.{FindsAs, IsSpacesOf, functions_in, memories_in};

use std::alloc::{AllocError, Global};
use types::{Import, ImportDesc, Limits, Parts};

/// What code names by an index, with the imported items first (Core specification 1.0, section 2.5).
#[derive(Drop)]
pub struct IndexSpaces {
    /// How many functions are imported.
    pub imported: usize,
    /// All functions, by the indices of their types.
    pub functions: Vec<u32>,
    /// All memories.
    pub memories: Vec<Limits>,
}

/// The item with this index, if there is one.
pub fn item<T>(items: &[T], index: usize) -> Option<&T>
    ensures { FindsAs (slice_get items.now index) result (λ found. found.now) }
{
    items.get(index)
}

/// Adds what is imported, where it is a function, as the index of its type, or a memory.
fn add_import(
    desc: ImportDesc,
    functions: &mut Vec<u32>,
    memories: &mut Vec<Limits>,
) -> Result<(), AllocError>
    ensures functions { OnOk result (functions.new.items ≡ functions.old.items ++ function_of desc) }
    ensures memories { OnOk result (memories.new.items ≡ memories.old.items ++ memory_of desc) }
{
    match desc {
        ImportDesc::Func(index) => functions.push(index)?,
        ImportDesc::Memory(limits) => memories.push(limits)?,
        ImportDesc::Table(_) | ImportDesc::Global(_) => {}
    }
    Ok(())
}

/// Adds all imported functions and memories.
fn add_imports(
    imports: &[Import],
    functions: &mut Vec<u32>,
    memories: &mut Vec<Limits>,
) -> Result<(), AllocError>
    requires functions { functions.old.items ≡ [] }
    requires memories { memories.old.items ≡ [] }
    ensures functions { OnOk result (functions.new.items ≡ functions_in imports.now) }
    ensures memories { OnOk result (memories.new.items ≡ memories_in imports.now) }
{
    for import in imports {
        add_import(import.desc, functions, memories)?;
    }
    Ok(())
}

impl IndexSpaces {
    /// The index spaces of a module.
    pub fn of(alloc: Global, parts: &Parts) -> Result<IndexSpaces, AllocError>
        ensures { IfOk result (λ s. IsSpacesOf parts.now s) }
    {
        let mut functions = Vec::new(alloc);
        let mut memories = Vec::new(alloc);
        add_imports(parts.imports.as_slice(), &mut functions, &mut memories)?;
        let imported = functions.len();
        functions.extend_from_slice(parts.functions.as_slice())?;
        memories.extend_from_slice(parts.memories.as_slice())?;
        Ok(IndexSpaces {
            imported,
            functions,
            memories,
        })
    }
}
