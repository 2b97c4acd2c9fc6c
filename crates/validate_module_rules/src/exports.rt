//! The rules of exports.

ghost use Rattle.std.specs.Prelude.{◌≡◌, length, [], find};
ghost use Rattle.std.specs.List.{list_any};
ghost use Rattle.std.specs.Option.{option_map};
ghost use Rattle.validate_typing.specs.Context.{imported_functions};
ghost use Rattle.validate_module_rules.specs.Spaces.{IsSpacesOf};
ghost use Rattle.validate_module_rules.specs.Faults.{is_named, desc_fault, export_fault, exports_fault, own_index};
ghost use Rattle.validate_module_rules.specs.Faults.{exported_in};

use crate::sizes::unless;
use crate::spaces::IndexSpaces;
use types::{Export, ExportDesc, Parts};
use validate_typing::Fault;

fn is_named(export: &Export, name: &str) -> bool
    ensures { result ≡ is_named name.now export.now }
{
    export.name.as_str() == name
}

/// What is exported by a name: that of the first export with the name.
fn find_export(exports: &[Export], name: &str) -> Option<ExportDesc>
    ensures { result ≡ option_map (λ e. e.desc) (find (is_named name.now) exports.now) }
{
    for export in exports {
        if is_named(export, name) {
            return Some(export.desc);
        }
    }
    None
}

fn has_name(exports: &[Export], name: &str) -> bool
    ensures { result ≡ list_any (is_named name.now) exports.now }
{
    find_export(exports, name).is_some()
}

/// The fault of what is exported: an index that nothing has.
fn fault_of_desc(parts: &Parts, spaces: &IndexSpaces, desc: ExportDesc) -> Option<Fault>
    requires { IsSpacesOf parts.now spaces.now }
    ensures { result ≡ desc_fault parts.now desc }
{
    match desc {
        ExportDesc::Func(index) => unless(
            (index as usize) < spaces.functions.len(),
            Fault::UnknownFunction,
        ),
        ExportDesc::Table(index) => {
            unless((index as usize) < parts.tables.len(), Fault::UnknownTable)
        }
        ExportDesc::Memory(index) => unless(
            (index as usize) < spaces.memories.len(),
            Fault::UnknownMemory,
        ),
        ExportDesc::Global(index) => {
            unless((index as usize) < parts.globals.len(), Fault::UnknownGlobal)
        }
    }
}

/// The first fault of the exports: a name that an export before it has, or an unknown index.
pub fn fault_of_exports(parts: &Parts, spaces: &IndexSpaces) -> Option<Fault>
    requires { IsSpacesOf parts.now spaces.now }
    ensures { result ≡ exports_fault parts.now [] parts.now.exports }
{
    let exports = parts.exports.as_slice();
    for (place, export) in exports.iter().enumerate() {
        if has_name(&exports[..place], export.name.as_str()) {
            return Some(Fault::DuplicateExport);
        }
        let fault = fault_of_desc(parts, spaces, export.desc);
        if fault.is_some() {
            return fault;
        }
    }
    None
}

/// The function of the module itself, from 0, that has this index.
fn own_index(imported: usize, own: usize, index: u32) -> Option<usize>
    ensures { result ≡ own_index imported own index }
{
    let index = index as usize;
    if imported <= index && index - imported < own {
        Some(index - imported)
    } else {
        None
    }
}

/// The function of the module itself, from 0, that is exported by a name: that of the first export with the name.
pub fn exported_function(parts: &Parts, imported: usize, name: &str) -> Option<usize>
    requires { imported ≡ length (imported_functions parts.now) }
    ensures { result ≡ exported_in parts.now name.now }
{
    match find_export(parts.exports.as_slice(), name) {
        Some(ExportDesc::Func(index)) => own_index(imported, parts.functions.len(), index),
        _ => None,
    }
}
