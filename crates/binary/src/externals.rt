//! Imports and exports.

ghost use Rattle.std.specs.Prelude.{◌≡◌};
ghost use Rattle.binary_wire.specs.Reading.{GivesNext, GivesNextInMemory, name_at};
ghost use Rattle.binary.specs.Reading.{described_at, import_desc_at, import_at, export_desc_at, export_at};

use crate::kinds::{ExternalKind, read_external_kind};
use crate::limits::{read_global_type, read_memory, read_table};
use binary_wire::{Item, ReadFault, Reader, Refusal};
use std::alloc::Global;
use types::{Export, ExportDesc, Import, ImportDesc, Name};

fn read_name(reader: &mut Reader, alloc: Global) -> Result<Name, ReadFault>
    ensures gives { GivesNextInMemory name_at reader.old reader.new result }
    ensures keeps { reader.new.bounds ≡ reader.old.bounds }
{
    let text = reader.read_name()?;
    Ok(Name::from_string(String::from_str(alloc, text)?))
}

/// What stands behind the kind of an import.
#[tactic(auto, unfolding(crate::specs::Reading::described_at))]
fn read_described(reader: &mut Reader, kind: ExternalKind) -> Result<ImportDesc, Refusal>
    ensures gives { GivesNext (described_at kind) reader.old reader.new result }
    ensures keeps { reader.new.bounds ≡ reader.old.bounds }
{
    match kind {
        ExternalKind::Func => Ok(ImportDesc::Func(reader.read_u32()?)),
        ExternalKind::Table => Ok(ImportDesc::Table(read_table(reader)?)),
        ExternalKind::Memory => Ok(ImportDesc::Memory(read_memory(reader)?)),
        ExternalKind::Global => Ok(ImportDesc::Global(read_global_type(reader)?)),
    }
}

#[tactic(auto, unfolding(crate::specs::Reading::import_desc_at))]
fn read_import_desc(reader: &mut Reader) -> Result<ImportDesc, Refusal>
    ensures gives { GivesNext import_desc_at reader.old reader.new result }
    ensures keeps { reader.new.bounds ≡ reader.old.bounds }
{
    let kind = read_external_kind(reader)?;
    read_described(reader, kind)
}

/// The item of an import section (Core specification 1.0, section 5.5.5).
pub struct ImportItem;

impl Item for ImportItem {
    type Value = Import;

    ghost at = { import_at };

    #[tactic(auto, unfolding(crate::specs::Reading::import_at))]
    fn read(reader: &mut Reader, alloc: Global) -> Result<Import, ReadFault> {
        let module = read_name(reader, alloc)?;
        let name = read_name(reader, alloc)?;
        let desc = read_import_desc(reader)?;
        Ok(Import { module, name, desc })
    }
}

#[tactic(auto, unfolding(crate::specs::Reading::export_desc_at))]
fn read_export_desc(reader: &mut Reader) -> Result<ExportDesc, Refusal>
    ensures gives { GivesNext export_desc_at reader.old reader.new result }
    ensures keeps { reader.new.bounds ≡ reader.old.bounds }
{
    let kind = read_external_kind(reader)?;
    let index = reader.read_u32()?;
    match kind {
        ExternalKind::Func => Ok(ExportDesc::Func(index)),
        ExternalKind::Table => Ok(ExportDesc::Table(index)),
        ExternalKind::Memory => Ok(ExportDesc::Memory(index)),
        ExternalKind::Global => Ok(ExportDesc::Global(index)),
    }
}

/// The item of an export section (Core specification 1.0, section 5.5.10).
pub struct ExportItem;

impl Item for ExportItem {
    type Value = Export;

    ghost at = { export_at };

    #[tactic(auto, unfolding(crate::specs::Reading::export_at))]
    fn read(reader: &mut Reader, alloc: Global) -> Result<Export, ReadFault> {
        let name = read_name(reader, alloc)?;
        let desc = read_export_desc(reader)?;
        Ok(Export { name, desc })
    }
}
