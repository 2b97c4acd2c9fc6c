//! A whole module.

ghost use Rattle.std.specs.Prelude.{◌≡◌, true, IfOk};
ghost use Rattle.binary_wire.specs.Reading.{Gives, GivesInMemory, GivesNextInMemory, read_at};
ghost use Rattle.binary.specs.Counts.{function_room};
ghost use Rattle.binary.specs.Grammar.{IsModuleText};
ghost use Rattle.binary.specs.Reading.{signatures_at, stores_at, contents_at, end_of_module_at, last_at, parts_of};
ghost use Rattle.binary.specs.Reading.{sections_at, module_at, FindsModule};
ghost use Rattle.types.specs.declared.parts.Parts.{Parts};

use crate::externals::{ExportItem, ImportItem};
use crate::limits::{FuncTypeItem, GlobalItem, MemoryItem, TableItem};
use crate::opening::read_opening;
use crate::sections::{read_code, read_customs, read_end, read_section, read_start};
use crate::segments::{DataItem, ElementItem};
use binary_wire::{Fault, IndexItem, ReadFault, Reader, Refusal};
use std::alloc::Global;
use types::{
    Body, DataSegment, ElementSegment, Export, FuncType, Import, Limits, MOST_FUNCTIONS,
    MOST_ITEMS, MOST_MODULE_BYTES, Parts, Sequence, imported_functions,
};

/// The most items of most sections.
const ITEMS_MAX: u32 = MOST_ITEMS as u32;

/// The sections that say which functions there are.
#[derive(Drop)]
struct Signatures {
    types: Sequence<FuncType>,
    imports: Sequence<Import>,
    functions: Sequence<u32>,
}

/// The sections that say what else there is.
#[derive(Drop)]
struct Stores {
    tables: Sequence<Limits>,
    memories: Sequence<Limits>,
    globals: Sequence<types::Global>,
    exports: Sequence<Export>,
    start: Option<u32>,
}

/// The sections with elements, bodies and bytes.
#[derive(Drop)]
struct Contents {
    elements: Sequence<ElementSegment>,
    bodies: Sequence<Body>,
    data: Sequence<DataSegment>,
}

/// How many functions a module with these imports may have of its own.
fn function_room(imports: &[Import]) -> u32
    ensures { result ≡ function_room imports.now }
{
    MOST_FUNCTIONS.saturating_sub(imported_functions(imports)) as u32
}

#[tactic(auto, unfolding(crate::specs::Reading::signatures_at))]
fn read_signatures(reader: &mut Reader, alloc: Global) -> Result<Signatures, ReadFault>
    ensures gives { GivesNextInMemory signatures_at reader.old reader.new result }
    ensures keeps { reader.new.bounds ≡ reader.old.bounds }
{
    let types = read_section::<FuncTypeItem>(reader, alloc, 1, ITEMS_MAX)?;
    let imports = read_section::<ImportItem>(reader, alloc, 2, ITEMS_MAX)?;
    let room = function_room(imports.as_slice());
    let functions = read_section::<IndexItem>(reader, alloc, 3, room)?;
    Ok(Signatures {
        types,
        imports,
        functions,
    })
}

#[tactic(auto, unfolding(crate::specs::Reading::stores_at))]
fn read_stores(reader: &mut Reader, alloc: Global) -> Result<Stores, ReadFault>
    ensures gives { GivesNextInMemory stores_at reader.old reader.new result }
    ensures keeps { reader.new.bounds ≡ reader.old.bounds }
{
    let tables = read_section::<TableItem>(reader, alloc, 4, ITEMS_MAX)?;
    let memories = read_section::<MemoryItem>(reader, alloc, 5, ITEMS_MAX)?;
    let globals = read_section::<GlobalItem>(reader, alloc, 6, ITEMS_MAX)?;
    let exports = read_section::<ExportItem>(reader, alloc, 7, ITEMS_MAX)?;
    let start = read_start(reader)?;
    Ok(Stores {
        tables,
        memories,
        globals,
        exports,
        start,
    })
}

/// The contents of a module with these types and functions.
#[tactic(auto, unfolding(crate::specs::Reading::contents_at))]
fn read_contents(
    reader: &mut Reader,
    alloc: Global,
    types: &[FuncType],
    functions: &[u32],
) -> Result<Contents, ReadFault>
    ensures gives { GivesNextInMemory (contents_at types.now functions.now) reader.old reader.new result }
    ensures keeps { reader.new.bounds ≡ reader.old.bounds }
{
    let elements = read_section::<ElementItem>(reader, alloc, 9, ITEMS_MAX)?;
    let bodies = read_code(reader, alloc, types, functions)?;
    let data = read_section::<DataItem>(reader, alloc, 11, ITEMS_MAX)?;
    Ok(Contents {
        elements,
        bodies,
        data,
    })
}

/// What is behind the last section, of a module with so many functions and so many bodies: custom sections, and then
/// the end of the input. There have to be as many functions as bodies.
fn read_rest(reader: &mut Reader, functions: usize, bodies: usize) -> Result<(), Refusal>
    ensures { Gives (λ _. true) result (read_at (end_of_module_at functions bodies) reader.old) }
{
    read_customs(reader)?;
    read_end(reader)?;
    if functions != bodies {
        return Err(reader.fault(Fault::CountsDiffer));
    }
    Ok(())
}

/// The contents of a module with these types and functions, behind which nothing is left. There have to be as many
/// bodies as functions.
#[tactic(auto, unfolding(crate::specs::Reading::last_at))]
fn read_last(
    reader: &mut Reader,
    alloc: Global,
    types: &[FuncType],
    functions: &[u32],
) -> Result<Contents, ReadFault>
    ensures { GivesInMemory (λ x. x) result (read_at (last_at types.now functions.now) reader.old) }
{
    let contents = read_contents(reader, alloc, types, functions)?;
    read_rest(reader, functions.len(), contents.bodies.len())?;
    Ok(contents)
}

/// The parts of a module of so many bytes, with these sections.
fn parts_of(length: u32, signatures: Signatures, stores: Stores, contents: Contents) -> Parts
    ensures { result ≡ parts_of length signatures stores contents }
{
    Parts {
        types: signatures.types,
        imports: signatures.imports,
        functions: signatures.functions,
        tables: stores.tables,
        memories: stores.memories,
        globals: stores.globals,
        exports: stores.exports,
        start: stores.start,
        elements: contents.elements,
        bodies: contents.bodies,
        data: contents.data,
        length,
    }
}

/// The sections of a module of so many bytes, behind the opening bytes: nothing is left behind them.
#[tactic(auto, unfolding(crate::specs::Reading::sections_at))]
fn read_sections(reader: &mut Reader, alloc: Global, length: u32) -> Result<Parts, ReadFault>
    ensures { GivesInMemory (λ m. m) result (read_at (sections_at length) reader.old) }
{
    let signatures = read_signatures(reader, alloc)?;
    let stores = read_stores(reader, alloc)?;
    let (types, functions) = (signatures.types.as_slice(), signatures.functions.as_slice());
    let contents = read_last(reader, alloc, types, functions)?;
    Ok(parts_of(length, signatures, stores, contents))
}

#[tactic(auto, unfolding(crate::specs::Reading::module_at))]
fn read_whole(alloc: Global, bytes: &[u8]) -> Result<Parts, ReadFault>
    ensures { GivesInMemory (λ m. m) result (module_at bytes.now) }
{
    if bytes.len() > MOST_MODULE_BYTES {
        return Err(ReadFault::Malformed {
            kind: Fault::Limit,
            offset: MOST_MODULE_BYTES,
        });
    }
    let mut reader = Reader::new(bytes);
    read_opening(&mut reader)?;
    read_sections(&mut reader, alloc, bytes.len() as u32)
}

/// The parts of the module that the bytes spell (Core specification 1.0, section 5.5.15).
pub fn read_parts(alloc: Global, bytes: &[u8]) -> Result<Parts, ReadFault>
    // What is read is spelled so.
    ensures found { IfOk result (λ m. IsModuleText bytes.now m) }
    // Where the bytes spell a module, it is that one, or memory ran out.
    ensures only { FindsModule bytes.now result }
    // It is what the reading gives, or memory ran out: a fault is the first one from front to back, at its offset.
    ensures first { GivesInMemory (λ m. m) result (module_at bytes.now) }
    // The bytes spell one module at most.
    ensures unique { (a b : Parts) → IsModuleText bytes.now a → IsModuleText bytes.now b → a ≡ b }
{
    read_whole(alloc, bytes)
}
