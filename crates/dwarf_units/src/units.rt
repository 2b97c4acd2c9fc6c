//! Units, and their entries read one after the other (DWARF 5, sections 7.5.1 and 7.5.2).

use crate::abbreviations::{Abbreviations, KindTable};
use crate::entries::{DebugEntry, Units};
use crate::room::Room;
use crate::sections::InfoSections;
use dwarf_reader::{Cursor, DebugFault};
use std::alloc::{AllocError, Global};

/// A unit: where it stands in its section, what its entries are, and what its root says of the other sections.
#[derive(Clone, Copy)]
pub(crate) struct Unit {
    /// Where its length stands.
    pub start: usize,
    /// What is behind it.
    pub end: usize,
    pub is_version_5: bool,
    pub abbreviations: KindTable,
    /// The index of its first entry.
    pub root: usize,
}

/// What stands in a unit behind its length: whether it is of version 5, and the offset of its abbreviations.
fn read_header(cursor: &mut Cursor) -> Result<(bool, u64), DebugFault> {
    match cursor.read_number(2)? {
        4 => {
            let abbreviations = cursor.read_number(4)?;
            if cursor.read_u8()? == 4 {
                return Ok((false, abbreviations));
            }
        }
        5 => {
            // a unit of code, or a part of one, and the size of an address
            if let &[1 | 3, 4] = cursor.read_bytes(2)? {
                return Ok((true, cursor.read_number(4)?));
            }
        }
        _ => {}
    }
    Err(DebugFault::Unreadable)
}

/// Passes over an entry. Gives the place of its kind and whether entries of its own follow, or nothing at the end of the
/// entries of a parent.
fn read_entry(
    cursor: &mut Cursor,
    abbreviations: &Abbreviations,
    table: KindTable,
) -> Result<Option<(usize, bool)>, DebugFault> {
    let code = cursor.read_unsigned()?;
    if code == 0 {
        return Ok(None);
    }
    let kind = abbreviations
        .place_of(table, code)
        .ok_or(DebugFault::Unreadable)?;
    let abbreviation = abbreviations.at(kind).ok_or(DebugFault::Unreadable)?;
    for spec in abbreviations.specs_of(abbreviation) {
        spec.form.read(cursor)?;
    }
    Ok(Some((kind, abbreviation.has_children)))
}

impl<'a> Units<'a> {
    /// The entries of a unit, up to the end of its root's. Those whose own entries aren't read to the end are left open.
    fn read_entries(
        &mut self,
        cursor: &mut Cursor<'a>,
        unit: Unit,
        open: &mut Vec<usize>,
    ) -> Result<(), DebugFault> {
        for _ in 0..cursor.len() {
            let offset = unit.end.saturating_sub(cursor.len());
            let kind = read_entry(cursor, &self.abbreviations, unit.abbreviations)?;
            if let Some((kind, has_children)) = kind {
                let index = self.entries.len();
                let entry = DebugEntry::new(offset, kind, self.units.len(), index)?;
                self.entries.push(entry)?;
                if has_children {
                    open.push(index)?;
                }
            } else if let Some(parent) = open.pop() {
                self.close(parent);
            }
            if open.is_empty() {
                break;
            }
        }
        Ok(())
    }

    /// A unit, as far as its entries can be read.
    fn read_unit(
        &mut self,
        alloc: Global,
        start: usize,
        contents: &'a [u8],
    ) -> Result<(), DebugFault> {
        let mut cursor = Cursor::new(contents);
        let (is_version_5, offset) = read_header(&mut cursor)?;
        let abbreviations = self
            .abbreviations
            .table_at(self.sections.abbreviations, offset)?;
        let unit = Unit {
            start,
            end: start.saturating_add(4).saturating_add(contents.len()),
            is_version_5,
            abbreviations,
            root: self.entries.len(),
        };
        let mut open = Vec::new(alloc);
        let outcome = self.read_entries(&mut cursor, unit, &mut open);
        for parent in &open {
            self.close(*parent);
        }
        self.units.push(unit)?;
        outcome
    }

    /// The next unit. Where it can't be read on it has the entries that were read.
    fn read_next(&mut self, alloc: Global, cursor: &mut Cursor<'a>) -> Result<(), DebugFault> {
        let start = self.sections.info.len().saturating_sub(cursor.len());
        let size = cursor.read_number(4)?;
        let contents = cursor.read_bytes(size)?;
        match self.read_unit(alloc, start, contents) {
            Err(DebugFault::OutOfMemory) => Err(DebugFault::OutOfMemory),
            _ => Ok(()),
        }
    }
}

/// The entries of a module, as far as they can be read. What is asked of them may take any number of steps.
pub fn read_units<'a>(alloc: Global, sections: InfoSections<'a>) -> Result<Units<'a>, AllocError> {
    let mut units = Units {
        sections,
        abbreviations: Abbreviations::new(alloc),
        units: Vec::new(alloc),
        entries: Vec::new(alloc),
        room: Room::endless(),
    };
    let mut cursor = Cursor::new(sections.info);
    // Each unit takes a byte at least.
    for _ in 0..cursor.len() {
        match units.read_next(alloc, &mut cursor) {
            Ok(()) => {}
            Err(DebugFault::Unreadable) => break,
            Err(DebugFault::OutOfMemory) => return Err(AllocError),
        }
    }
    Ok(units)
}
