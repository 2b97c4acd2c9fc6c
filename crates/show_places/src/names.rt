//! Names of functions.

ghost use Rattle.std.specs.Prelude.{◌≡◌, find, option_map, IfOk};
ghost use Rattle.binary_wire.specs.Reading.{GivesInMemory, vector_at};
ghost use Rattle.show_places.specs.Names.{named_at, IsNames, is_of, exports_it, exported_as, IsCalled};

use crate::short::{MOST_NAME, short_name};
use crate::{custom_section, subsection_of};
use binary_wire::{Item, ReadFault, Reader, read_vector};
use std::alloc::{AllocError, Global};
use std::fmt::{self, Write};
use types::{Export, ExportDesc, Name, Sequence};

/// A function's name in the name section: its index, the imported functions counted, and the name, as it is shown.
#[derive(Drop)]
pub struct Named {
    pub function: u32,
    pub name: Name,
}

struct NamedItem;

impl Item for NamedItem {
    type Value = Named;

    ghost at = { named_at };

    #[tactic(auto, unfolding(crate::specs::Names::named_at))]
    fn read(reader: &mut Reader, alloc: Global) -> Result<Named, ReadFault> {
        let function = reader.read_u32()?;
        let text = reader.read_name()?;
        let name = Name::from_string(short_name(alloc, text)?);
        Ok(Named { function, name })
    }
}

/// The names of functions of a module's name section (Core specification 1.0, appendix "Custom sections"); none where
/// it has no such section, or where that is malformed.
pub fn read_names(alloc: Global, bytes: &[u8]) -> Result<Sequence<Named>, AllocError>
    ensures { IfOk result (IsNames bytes.now) }
{
    let none = Sequence::from_vec(Vec::new(alloc));
    let Some(section) = custom_section(bytes, b"name") else {
        return Ok(none);
    };
    let Some(functions) = subsection_of(section, 1) else {
        return Ok(none);
    };
    let mut reader = Reader::new(functions.contents);
    match read_vector::<NamedItem>(&mut reader, alloc, u32::MAX) {
        Ok(names) => Ok(names),
        Err(ReadFault::OutOfMemory) => Err(AllocError),
        Err(ReadFault::Malformed { .. }) => Ok(none),
    }
}

/// What a function is called.
#[derive(Clone, Copy, Debug, PartialEq, Eq)]
pub enum FunctionName<'a> {
    /// By the name section.
    Named(&'a str),
    /// By the first export of it whose name has at most `MOST_NAME` bytes.
    Exported(&'a str),
    /// By its index alone.
    Numbered(u32),
}

impl fmt::Display for FunctionName<'_> {
    fn fmt<W: Write>(&self, f: &mut fmt::Formatter<W>) -> fmt::Result {
        match self {
            FunctionName::Named(name) => write!(f, "{name}"),
            FunctionName::Exported(name) => write!(f, "{name}"),
            FunctionName::Numbered(index) => write!(f, "func {index}"),
        }
    }
}

fn exports_it(export: &Export, index: u32) -> bool
    ensures { result ≡ exports_it index export.now }
{
    match export.desc {
        ExportDesc::Func(function) => function == index && export.name.as_str().len() <= MOST_NAME,
        _ => false,
    }
}

fn name_in(names: &[Named], index: u32) -> Option<&str>
    ensures { option_map (λ t. t.now) result ≡ option_map (λ n. n.name) (find (is_of index) names.now) }
{
    for named in names {
        if named.function == index {
            return Some(named.name.as_str());
        }
    }
    None
}

fn exported_name(exports: &[Export], index: u32) -> Option<&str>
    ensures { option_map (λ t. t.now) result ≡ exported_as exports.now index }
{
    for export in exports {
        if exports_it(export, index) {
            return Some(export.name.as_str());
        }
    }
    None
}

/// What the function of an index is called, the imported functions counted: by the first of the names that has its
/// index, else by its first export with a name that is shown whole, else by its index.
pub fn function_name<'a>(names: &'a [Named], exports: &'a [Export], index: u32) -> FunctionName<'a>
    ensures { IsCalled names.now exports.now index result }
{
    if let Some(name) = name_in(names, index) {
        return FunctionName::Named(name);
    }
    match exported_name(exports, index) {
        Some(name) => FunctionName::Exported(name),
        None => FunctionName::Numbered(index),
    }
}
