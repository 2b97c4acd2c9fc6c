//! Debug information that is cut short, or that has another byte.

use dwarf_data::{name_at, place_of, read_data};
use dwarf_frames::{read_frame, read_functions};
use dwarf_lines::DebugSections;
use dwarf_units::{InfoSections, Spans, Units, read_units};
use std::alloc::{AllocError, Global};
use std::fmt::Write;

/// Asks for the names of data, and for what they name.
fn ask_data(alloc: Global, units: &Units) -> Result<(), AllocError> {
    let data = read_data(alloc, units)?;
    for span in data.items() {
        if let Some(words) = name_at(alloc, units, &data, span.start, None)? {
            place_of(alloc, units, &data, words.as_str())?;
        }
    }
    Ok(())
}

/// Asks for all that is said of the code at an offset.
fn ask_code(
    alloc: Global,
    units: &Units,
    lines: DebugSections,
    functions: &Spans,
    offset: u64,
) -> Result<(), AllocError> {
    let offset = usize::try_from(offset).ok();
    drop(read_frame(alloc, units, lines, functions, offset)?);
    Ok(())
}

/// Asks for all that is said of data and of code.
fn ask(alloc: Global, sections: InfoSections, lines: DebugSections) -> Result<(), AllocError> {
    let units = read_units(alloc, sections)?;
    ask_data(alloc, &units)?;
    let functions = read_functions(alloc, &units)?;
    for span in functions.items() {
        ask_code(alloc, &units, lines, &functions, span.start)?;
        ask_code(alloc, &units, lines, &functions, span.end.saturating_sub(2))?;
    }
    Ok(())
}

/// A section of debug information.
#[derive(Clone, Copy)]
enum Section {
    Info,
    Abbreviations,
    Texts,
    TextOffsets,
    Addresses,
    Ranges,
    RangeLists,
    Locations,
    LocationLists,
}

static SECTIONS: [Section; 9] = [
    Section::Info,
    Section::Abbreviations,
    Section::Texts,
    Section::TextOffsets,
    Section::Addresses,
    Section::Ranges,
    Section::RangeLists,
    Section::Locations,
    Section::LocationLists,
];

impl Section {
    fn of<'a>(self, sections: InfoSections<'a>) -> &'a [u8] {
        match self {
            Section::Info => sections.info,
            Section::Abbreviations => sections.abbreviations,
            Section::Texts => sections.texts,
            Section::TextOffsets => sections.text_offsets,
            Section::Addresses => sections.addresses,
            Section::Ranges => sections.ranges,
            Section::RangeLists => sections.range_lists,
            Section::Locations => sections.locations,
            Section::LocationLists => sections.location_lists,
        }
    }

    /// The sections with other bytes in place of this one.
    fn replaced<'a>(self, mut sections: InfoSections<'a>, bytes: &'a [u8]) -> InfoSections<'a> {
        match self {
            Section::Info => sections.info = bytes,
            Section::Abbreviations => sections.abbreviations = bytes,
            Section::Texts => sections.texts = bytes,
            Section::TextOffsets => sections.text_offsets = bytes,
            Section::Addresses => sections.addresses = bytes,
            Section::Ranges => sections.ranges = bytes,
            Section::RangeLists => sections.range_lists = bytes,
            Section::Locations => sections.locations = bytes,
            Section::LocationLists => sections.location_lists = bytes,
        }
        sections
    }
}

/// Asks for all where each section is cut behind any of its bytes.
pub(crate) fn write_cut_info(
    alloc: Global,
    module: &[u8],
    given: &mut String,
) -> Result<(), AllocError> {
    let (sections, lines) = (InfoSections::of(module), DebugSections::of(module));
    let mut fronts = 0u64;
    for section in &SECTIONS {
        let whole = section.of(sections);
        for len in 0..whole.len() {
            ask(alloc, section.replaced(sections, &whole[..len]), lines)?;
            fronts = fronts.wrapping_add(1);
        }
    }
    writeln!(given, "each of {fronts} fronts was tried")
}

/// Asks for all where each byte of a section has other bits.
fn ask_changed(
    alloc: Global,
    sections: InfoSections,
    lines: DebugSections,
    section: Section,
    bits: u8,
) -> Result<(), AllocError> {
    let whole = section.of(sections);
    for place in 0..whole.len() {
        let mut changed = Vec::from_slice(alloc, whole)?;
        if let Some(byte) = changed.get_mut(place) {
            *byte ^= bits;
        }
        ask(alloc, section.replaced(sections, &changed), lines)?;
    }
    Ok(())
}

/// Asks for all where any byte of a section has its lowest bit turned, or all of its bits.
pub(crate) fn write_changed_info(
    alloc: Global,
    module: &[u8],
    given: &mut String,
) -> Result<(), AllocError> {
    let (sections, lines) = (InfoSections::of(module), DebugSections::of(module));
    let mut bytes = 0u64;
    for section in &SECTIONS {
        ask_changed(alloc, sections, lines, *section, 0x01)?;
        ask_changed(alloc, sections, lines, *section, 0xff)?;
        bytes = bytes.wrapping_add(section.of(sections).len() as u64);
    }
    writeln!(given, "each of {bytes} bytes was changed")
}
