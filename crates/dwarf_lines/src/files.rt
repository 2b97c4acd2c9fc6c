//! The files of a unit of lines, which debug information of other sections names by their numbers.

use crate::header::{Source, read_header};
use crate::table::DebugSections;
use dwarf_reader::{Cursor, DebugFault};
use std::alloc::{AllocError, Global};

/// The files of a unit.
#[derive(Drop)]
pub struct Files<'a> {
    sources: Vec<Source<'a>>,
    /// The number of the first.
    first: u64,
    /// How many bytes they were read from.
    size: usize,
}

impl<'a> Files<'a> {
    /// The file of a number.
    pub fn get(&self, number: u64) -> Option<Source<'a>> {
        let place = usize::try_from(number.checked_sub(self.first)?).ok()?;
        self.sources.get(place).copied()
    }

    /// How many bytes they were read from.
    pub fn size(&self) -> usize {
        self.size
    }
}

/// The files of the unit at an offset in the section of lines.
fn files_at<'a>(
    alloc: Global,
    sections: DebugSections<'a>,
    offset: u64,
) -> Result<Files<'a>, DebugFault> {
    let offset = usize::try_from(offset).map_err(|_| DebugFault::Unreadable)?;
    let mut cursor = Cursor::new(sections.lines.get(offset..).ok_or(DebugFault::Unreadable)?);
    let size = cursor.read_number(4)?;
    let mut unit = Cursor::new(cursor.read_bytes(size)?);
    let len = unit.len();
    let header = read_header(alloc, &mut unit, sections)?;
    Ok(Files {
        first: header.first_file,
        sources: header.files,
        // those of the version aren't counted
        size: len.saturating_sub(unit.len()).saturating_sub(2),
    })
}

/// The files of the unit at an offset in the section of lines; none where there is none that can be read.
pub fn read_files<'a>(
    alloc: Global,
    sections: DebugSections<'a>,
    offset: u64,
) -> Result<Files<'a>, AllocError> {
    match files_at(alloc, sections, offset) {
        Ok(files) => Ok(files),
        Err(DebugFault::OutOfMemory) => Err(AllocError),
        Err(DebugFault::Unreadable) => Ok(Files {
            sources: Vec::new(alloc),
            first: 0,
            size: 0,
        }),
    }
}
