//! The module of an instance: a copy of the instance's own module that begins with the instance's memory.
ghost use Rattle.std.specs.Prelude.{◌≡◌, ◌<◌, map, length, None, IfOk, IfErr};
ghost use Rattle.report_memory.specs.Laid.{unlaid};
ghost use Rattle.host_calls.specs.declared.fault.HostFault.TheVariants as faults;
ghost use Rattle.host_instances.specs.Instances as specified;
ghost use Rattle.host_instances.specs.Instances.{CanHave, import_with, laid_first, module_of};

use host_calls::HostFault;
use host_copies::{Copied, all_copied, plain_copied};
use report_memory::laid;
use std::alloc::{AllocError, Global};
use types::{
    ElementSegment, Export, FuncType, Import, ImportDesc, Limits, Module, Parts, Sequence,
};
use validate::validate;
use validate_module::ValidModule;

/// Limits with so many pages at first.
fn with_min(pages: u32, limits: Limits) -> Limits
    ensures { result ≡ specified.with_min pages limits }
{
    Limits {
        min: pages,
        ..limits
    }
}

fn desc_with(pages: u32, desc: ImportDesc) -> ImportDesc
    ensures { result ≡ specified.desc_with pages desc }
{
    match desc {
        ImportDesc::Memory(limits) => ImportDesc::Memory(with_min(pages, limits)),
        _ => desc,
    }
}

fn import_with(alloc: Global, pages: u32, import: &Import) -> Result<Import, AllocError>
    ensures { IfOk result (λ copy. copy ≡ import_with pages import.now) }
{
    Ok(Import {
        module: import.module.copied(alloc)?,
        name: import.name.copied(alloc)?,
        desc: desc_with(pages, import.desc),
    })
}

fn imports_with(
    alloc: Global,
    pages: u32,
    imports: &Sequence<Import>,
) -> Result<Sequence<Import>, AllocError>
    ensures { IfOk result (λ copy. copy ≡ map (import_with pages) imports.now) }
{
    let mut copies = Vec::new(alloc);
    for import in imports.as_slice() {
        copies.push(import_with(alloc, pages, import)?)?;
    }
    Ok(Sequence::from_vec(copies))
}

fn memories_with(
    alloc: Global,
    pages: u32,
    memories: &Sequence<Limits>,
) -> Result<Sequence<Limits>, AllocError>
    ensures { IfOk result (λ copy. copy ≡ map (specified.with_min pages) memories.now) }
{
    let mut copies = Vec::new(alloc);
    for limits in memories.as_slice() {
        copies.push(with_min(pages, *limits))?;
    }
    Ok(Sequence::from_vec(copies))
}

/// What a module has by name.
#[derive(Drop)]
struct Named {
    types: Sequence<FuncType>,
    imports: Sequence<Import>,
    exports: Sequence<Export>,
}

fn named_with(alloc: Global, pages: u32, parts: &Parts) -> Result<Named, AllocError>
    ensures types { IfOk result (λ named. named.types ≡ parts.now.types) }
    ensures imports { IfOk result (λ named. named.imports ≡ map (import_with pages) parts.now.imports) }
    ensures exports { IfOk result (λ named. named.exports ≡ parts.now.exports) }
{
    Ok(Named {
        types: all_copied(alloc, &parts.types)?,
        imports: imports_with(alloc, pages, &parts.imports)?,
        exports: all_copied(alloc, &parts.exports)?,
    })
}

/// What its instructions read and write.
#[derive(Drop)]
struct Stores {
    tables: Sequence<Limits>,
    memories: Sequence<Limits>,
    globals: Sequence<types::Global>,
    elements: Sequence<ElementSegment>,
}

fn stores_with(alloc: Global, pages: u32, parts: &Parts) -> Result<Stores, AllocError>
    ensures tables { IfOk result (λ stores. stores.tables ≡ parts.now.tables) }
    ensures memories { IfOk result (λ stores. stores.memories ≡ map (specified.with_min pages) parts.now.memories) }
    ensures globals { IfOk result (λ stores. stores.globals ≡ parts.now.globals) }
    ensures elements { IfOk result (λ stores. stores.elements ≡ parts.now.elements) }
{
    Ok(Stores {
        tables: plain_copied(alloc, &parts.tables)?,
        memories: memories_with(alloc, pages, &parts.memories)?,
        globals: all_copied(alloc, &parts.globals)?,
        elements: all_copied(alloc, &parts.elements)?,
    })
}

/// A copy of a module whose memory has so many pages of zeros.
fn blank(alloc: Global, pages: u32, parts: &Parts) -> Result<Parts, AllocError>
    ensures { IfOk result (λ copy. copy ≡ specified.blank parts.now pages) }
{
    let named = named_with(alloc, pages, parts)?;
    let stores = stores_with(alloc, pages, parts)?;
    let functions = plain_copied(alloc, &parts.functions)?;
    Ok(Parts {
        types: named.types,
        imports: named.imports,
        functions,
        tables: stores.tables,
        memories: stores.memories,
        globals: stores.globals,
        exports: named.exports,
        start: parts.start,
        elements: stores.elements,
        bodies: all_copied(alloc, &parts.bodies)?,
        data: Sequence::from_vec(Vec::new(alloc)),
        length: parts.length,
    })
}

/// A module with bytes, if there are some, laid over its memory.
fn lay_first(alloc: Global, module: Module, bytes: &[u8]) -> Result<Module, AllocError>
    requires { 0 < length bytes.now → unlaid «module» 0 (length bytes.now) ≡ None }
    ensures { IfOk result (λ with_bytes. with_bytes ≡ laid_first «module» bytes.now) }
{
    if bytes.is_empty() {
        return Ok(module);
    }
    laid(alloc, module, 0, bytes)
}

/// A valid module with a memory of so many pages and these bytes, unvalidated.
fn unvalidated(
    alloc: Global,
    module: &ValidModule,
    pages: u32,
    bytes: &[u8],
) -> Result<Module, AllocError>
    requires { CanHave «module».now.parts pages bytes.now }
    ensures { IfOk result (λ m. m ≡ module_of
        (record { parts = «module».now.parts; pages = pages; bytes = bytes.now })) }
{
    let parts = blank(alloc, pages, module.parts())?;
    match Module::from_parts(parts) {
        Ok(module) => lay_first(alloc, module, bytes),
        Err(_) => unreachable!(),
    }
}

/// The module of an instance of this module, whose memory has so many pages and these bytes.
///
/// # Errors
/// Where memory is refused.
pub(crate) fn opened(
    alloc: Global,
    module: &ValidModule,
    pages: u32,
    bytes: &[u8],
) -> Result<ValidModule, HostFault>
    requires { CanHave «module».now.parts pages bytes.now }
    ensures opened { IfOk result (λ v. v.parts ≡ module_of
        (record { parts = «module».now.parts; pages = pages; bytes = bytes.now })) }
    ensures fault { IfErr result (λ fault. fault ≡ faults.NoMemory) }
{
    let Ok(module) = unvalidated(alloc, module, pages, bytes) else {
        return Err(HostFault::NoMemory);
    };
    match validate(alloc, module) {
        Ok(valid) => Ok(valid),
        Err(_) => Err(HostFault::NoMemory),
    }
}
