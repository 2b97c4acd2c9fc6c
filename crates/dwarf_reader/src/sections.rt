//! Custom sections that may be missing.

ghost use Rattle.dwarf_reader.specs.Sections.{IsCustomOrEmpty};

use show_places::custom_section;

/// What stands behind the name in a module's first custom section of this name; nothing where there is no such section.
pub fn custom_or_empty<'a>(bytes: &'a [u8], name: &[u8]) -> &'a [u8]
    ensures { IsCustomOrEmpty bytes.now name.now result.now }
{
    match custom_section(bytes, name) {
        Some(contents) => contents,
        None => &[],
    }
}
