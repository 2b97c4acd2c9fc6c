//! Sections, and how they are found.

ghost use Rattle.std.specs.Prelude.{◌≡◌, [], drop, IfSome, IfNone, MatchOption};
ghost use Rattle.binary_wire.specs.Reading.{GivesNextAs};
ghost use Rattle.binary_wire.specs.Faults.{input};
ghost use Rattle.show_places.specs.Sections.{section_at, part_of, FindsPart, FindsSection, FindsSubsection, IsNamed};
ghost use Rattle.show_places.specs.Sections.{IsUnnamed, HasCustom, HasNoCustom};

use binary_wire::{Reader, Refusal};

/// A section: its id, the offset in the file of its contents, and the contents.
#[derive(Clone, Copy, Debug, PartialEq, Eq)]
pub struct Section<'a> {
    pub id: u8,
    pub offset: usize,
    pub contents: &'a [u8],
}

/// The section at the front of what is left.
#[tactic(auto, unfolding(crate::specs::Sections::section_at))]
pub fn next_section<'a>(reader: &mut Reader<'a>) -> Result<Section<'a>, Refusal>
    ensures gives { GivesNextAs part_of section_at reader.old reader.new result }
    ensures keeps { reader.new.bounds ≡ reader.old.bounds }
{
    let id = reader.read_byte()?;
    let contents = reader.read_bytes()?;
    let offset = reader.offset().saturating_sub(contents.len());
    Ok(Section {
        id,
        offset,
        contents,
    })
}

/// What is left of a module behind its first eight bytes.
fn behind_header(bytes: &[u8]) -> Option<Reader<'_>>
    ensures rest { IfSome result (λ r. r.rest.now ≡ drop 8 bytes.now) }
    ensures bounds { IfSome result (λ r. r.bounds ≡ input bytes.now) }
    ensures none { IfNone result (drop 8 bytes.now ≡ []) }
{
    let mut reader = Reader::new(bytes);
    let Ok(_) = reader.read_part(8) else {
        return None;
    };
    Some(reader)
}

fn find<'a>(reader: &mut Reader<'a>, id: u8) -> Option<Section<'a>>
    ensures { FindsPart reader.old.bounds reader.old.rest.now id result }
{
    while let Ok(section) = next_section(reader) {
        if section.id == id {
            return Some(section);
        }
    }
    None
}

/// The first section of an id.
pub fn section_of(bytes: &[u8], id: u8) -> Option<Section<'_>>
    ensures { FindsSection bytes.now id result }
{
    let Some(mut reader) = behind_header(bytes) else {
        return None;
    };
    find(&mut reader, id)
}

/// The first subsection of an id, in the contents of a section that is made of such, as the name section is.
pub fn subsection_of(bytes: &[u8], id: u8) -> Option<Section<'_>>
    ensures { FindsSubsection bytes.now id result }
{
    let mut subsections = Reader::new(bytes);
    find(&mut subsections, id)
}

/// The name at the front of a custom section's contents, and the bytes behind it.
fn name_of(contents: &[u8]) -> Option<(&[u8], &[u8])>
    ensures { MatchOption result (IsUnnamed contents.now) (λ r. IsNamed contents.now r.0.now r.1.now) }
{
    let mut reader = Reader::new(contents);
    let Ok(name) = reader.read_bytes() else {
        return None;
    };
    Some((name, &contents[reader.offset()..]))
}

/// What stands behind the name in the first custom section of this name.
pub fn custom_section<'a>(bytes: &'a [u8], name: &[u8]) -> Option<&'a [u8]>
    ensures some { IfSome result (λ contents. HasCustom bytes.now name.now contents.now) }
    ensures none { IfNone result (HasNoCustom bytes.now name.now) }
{
    let Some(mut reader) = behind_header(bytes) else {
        return None;
    };
    while let Ok(section) = next_section(&mut reader) {
        if section.id == 0 {
            if let Some((its_name, contents)) = name_of(section.contents) {
                if its_name == name {
                    return Some(contents);
                }
            }
        }
    }
    None
}
