//! A unit: its header, and its program run to the end.

ghost use Rattle.std.specs.Prelude.{All, IfSome, IfOk};
ghost use Rattle.dwarf_lines.specs.Names.{ComesOfShort, HasShortName, StayShort};

use crate::header::{LineHeader, read_header};
use crate::program::{Emitted, LineRegisters};
use crate::table::{DebugSections, Range};
use dwarf_reader::{Cursor, DebugFault};
use std::alloc::Global;

impl<'a> LineHeader<'a> {
    /// The code from a row up to an address, where there is a row and it has a line.
    fn range(&self, row: Option<LineRegisters>, end: u64) -> Option<Range<'a>>
        ensures { All HasShortName self.now.files.items → IfSome result ComesOfShort }
    {
        let row = row?;
        let number = usize::try_from(row.file.checked_sub(self.first_file)?).ok()?;
        let source = self.files.get(number)?;
        if row.line == 0 || row.address >= end {
            return None;
        }
        Some(Range {
            start: row.address,
            end,
            directory: source.directory,
            file: source.name,
            line: row.line,
        })
    }

    /// Runs the program. What it made before a fault stays.
    fn run(&self, program: &'a [u8], ranges: &mut Vec<Range<'a>>) -> Result<(), DebugFault>
        ensures { All HasShortName self.now.files.items → StayShort ranges.old.items ranges.new.items }
    {
        let mut instructions = Cursor::new(program);
        let mut place = LineRegisters::START;
        let mut row: Option<LineRegisters> = None;
        // Each instruction takes a byte at least.
        for _ in 0..program.len() {
            if instructions.is_empty() {
                break;
            }
            let made = self
                .machine
                .step(&mut place, self.lengths, &mut instructions)?;
            if made == Emitted::Nothing {
                continue;
            }
            if let Some(range) = self.range(row, place.address) {
                ranges.push(range)?;
            }
            if made == Emitted::Row {
                row = Some(place);
            } else {
                row = None;
                place = LineRegisters::START;
            }
        }
        Ok(())
    }
}

/// Reads the next unit. Where the unit itself can't be read it has no lines.
pub fn read_unit<'a>(
    alloc: Global,
    cursor: &mut Cursor<'a>,
    sections: DebugSections<'a>,
    ranges: &mut Vec<Range<'a>>,
) -> Result<(), DebugFault>
    ensures { StayShort ranges.old.items ranges.new.items }
{
    let size = cursor.read_number(4)?;
    let mut unit = Cursor::new(cursor.read_bytes(size)?);
    match read_program(alloc, &mut unit, sections, ranges) {
        Err(DebugFault::OutOfMemory) => Err(DebugFault::OutOfMemory),
        _ => Ok(()),
    }
}

fn read_program<'a>(
    alloc: Global,
    unit: &mut Cursor<'a>,
    sections: DebugSections<'a>,
    ranges: &mut Vec<Range<'a>>,
) -> Result<(), DebugFault>
    ensures { StayShort ranges.old.items ranges.new.items }
{
    let header = read_header(alloc, unit, sections)?;
    let program = unit.read_bytes(unit.len() as u64)?;
    header.run(program, ranges)
}
