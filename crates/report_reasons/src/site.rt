//! Where in a module's bytes an offset lies.

use binary_wire::Reader;
use show_places::{Section, function_name, next_section, read_names, section_of};
use show_text::Plain;
use std::alloc::{AllocError, Global};

/// The section that an offset lies in or before.
pub(crate) fn section_around(bytes: &[u8], offset: usize) -> Option<Section<'_>> {
    let mut reader = Reader::new(bytes);
    let _ = reader.read_part(8).ok()?;
    for _ in 0..bytes.len() {
        let section = next_section(&mut reader).ok()?;
        if offset < section.offset.saturating_add(section.contents.len()) {
            return Some(section);
        }
    }
    None
}

/// The number of the body that an offset in the code section lies in, from 0.
fn body_around(section: Section, offset: usize) -> Option<u32> {
    let mut reader = Reader::new(section.contents);
    let count = reader.read_u32().ok()?;
    for index in 0..count {
        let _ = reader.read_bytes().ok()?;
        if offset < section.offset.saturating_add(reader.offset()) {
            return Some(index);
        }
    }
    None
}

/// Goes past limits: a flag, and one or two numbers.
fn skip_limits(reader: &mut Reader) -> Option<()> {
    let flag = reader.read_byte().ok()?;
    reader.read_u32().ok()?;
    if flag % 2 == 1 {
        reader.read_u32().ok()?;
    }
    Some(())
}

/// The kinds of imports of which a module may have one (Core specification 1.0, section 5.5.5).
pub(crate) const FUNCTION: u8 = 0;

pub(crate) const MEMORY: u8 = 2;

/// An import: its names, and the byte that says of what kind it is.
#[derive(Clone, Copy)]
pub(crate) struct ImportNames<'a> {
    pub(crate) module: &'a str,
    pub(crate) name: &'a str,
    pub(crate) kind: u8,
}

/// Goes past what is imported, which is of this kind.
fn skip_description(reader: &mut Reader, kind: u8) -> Option<()> {
    match kind {
        FUNCTION => {
            reader.read_u32().ok()?;
        }
        1 => {
            reader.read_byte().ok()?;
            skip_limits(reader)?;
        }
        MEMORY => skip_limits(reader)?,
        3 => {
            reader.read_byte().ok()?;
            reader.read_byte().ok()?;
        }
        _ => return None,
    }
    Some(())
}

/// The import at the front of what is left.
pub(crate) fn next_import<'a>(reader: &mut Reader<'a>) -> Option<ImportNames<'a>> {
    let module = reader.read_name().ok()?;
    let name = reader.read_name().ok()?;
    let kind = reader.read_byte().ok()?;
    skip_description(reader, kind)?;
    Some(ImportNames { module, name, kind })
}

/// How many functions are imported.
pub(crate) fn imported_functions(bytes: &[u8]) -> Option<u32> {
    let Some(section) = section_of(bytes, 2) else {
        return Some(0);
    };
    let mut reader = Reader::new(section.contents);
    let count = reader.read_u32().ok()?;
    let mut functions = 0u32;
    for _ in 0..count {
        if next_import(&mut reader)?.kind == FUNCTION {
            functions = functions.saturating_add(1);
        }
    }
    Some(functions)
}

fn section_name(id: u8) -> &'static str {
    match id {
        0 => "custom",
        1 => "type",
        2 => "import",
        3 => "function",
        4 => "table",
        5 => "memory",
        6 => "global",
        7 => "export",
        8 => "start",
        9 => "element",
        10 => "code",
        11 => "data",
        12 => "data count",
        13 => "tag",
        _ => "unknown",
    }
}

/// Adds where an offset lies: its section, and the function where it lies in a body.
pub(crate) fn add_site(
    alloc: Global,
    out: &mut String,
    bytes: &[u8],
    offset: usize,
) -> Result<(), AllocError> {
    write!(out, "at {offset:#x}")?;
    let Some(section) = section_around(bytes, offset) else {
        return Ok(());
    };
    let name = section_name(section.id);
    write!(out, " in the {name} section")?;
    if section.id != 10 {
        return Ok(());
    }
    if let (Some(own), Some(imported)) = (body_around(section, offset), imported_functions(bytes)) {
        add_function(alloc, out, bytes, own.saturating_add(imported))?;
    }
    Ok(())
}

/// Adds the name of a function, by its index.
pub(crate) fn add_function(
    alloc: Global,
    out: &mut String,
    bytes: &[u8],
    index: u32,
) -> Result<(), AllocError> {
    let names = read_names(alloc, bytes)?;
    let name = function_name(names.as_slice(), &[], index);
    let text = format!(in alloc; "{name}")?;
    let name = Plain(text.as_str());
    write!(out, ", function {index}")?;
    if name.0.starts_with("func ") {
        return Ok(());
    }
    write!(out, " ({name})")
}
