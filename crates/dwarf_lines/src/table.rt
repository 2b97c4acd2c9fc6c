//! The table of lines of a module.

ghost use Rattle.std.specs.Prelude.{◌≡◌, ◌≤◌, ◌⊎◌, [], All, Contains, find, codes, vec_len, IfOk, OnOk};
ghost use Rattle.dwarf_lines.specs.Lines.{holds, source_of, IsSourceIn};
ghost use Rattle.dwarf_lines.specs.Names.{ComesOfShort};
ghost use Rattle.dwarf_reader.specs.Sections.{IsCustomOrEmpty};

use crate::header::Source;
use crate::unit::read_unit;
use dwarf_reader::{Cursor, DebugFault, custom_or_empty};
use std::alloc::{AllocError, Global};

/// Code that comes from one line of source: from an offset up to another, counted from the start of the code section's
/// contents.
#[derive(Clone, Copy, PartialEq, Eq)]
pub struct Range<'a> {
    pub start: u64,
    pub end: u64,
    /// As the compiler wrote it; empty where it isn't known.
    pub directory: &'a str,
    pub file: &'a str,
    /// From 1 on.
    pub line: u64,
}

impl<'a> Range<'a> {
    /// The file that has the line.
    pub fn source(&self) -> Source<'a>
        ensures { result ≡ source_of self.now }
    {
        Source {
            directory: self.directory,
            name: self.file,
        }
    }
}

/// The lines of a module's code.
#[derive(Drop)]
pub struct LineTable<'a> {
    pub ranges: Vec<Range<'a>>,
}

impl<'a> LineTable<'a> {
    /// The line of the code at an offset from the start of the code section's contents.
    pub fn at(&self, offset: u64) -> Option<Range<'a>>
        ensures { result ≡ find (holds offset) self.now.ranges.items }
    {
        for range in &self.ranges {
            if range.start <= offset && offset < range.end {
                return Some(*range);
            }
        }
        None
    }

    /// The files that have a line, each once, in the order of their first ranges, `most` at most.
    ///
    /// # Errors
    /// Where memory is refused.
    pub fn sources(&self, alloc: Global, most: usize) -> Result<Vec<Source<'a>>, AllocError>
        ensures few { IfOk result (λ sources. vec_len sources ≤ most) }
        ensures known { IfOk result (λ sources. All (IsSourceIn self.now.ranges.items) sources.items) }
    {
        let mut sources = Vec::new(alloc);
        for range in &self.ranges {
            add_source(&mut sources, most, range.source())?;
        }
        Ok(sources)
    }
}

/// Puts a file behind these, where it isn't among them and there are fewer than `most`.
fn add_source<'a>(
    sources: &mut Vec<Source<'a>>,
    most: usize,
    source: Source<'a>,
) -> Result<(), AllocError>
    ensures few { vec_len sources.old ≤ most → OnOk result (vec_len sources.new ≤ most) }
    ensures known { OnOk result (All (λ s. Contains sources.old.items s ⊎ (s ≡ source.entry)) sources.new.items) }
{
    if sources.len() < most && !sources.contains(&source) {
        sources.push(source)?;
    }
    Ok(())
}

/// The sections of a module that say where its code comes from; empty where there is none.
#[derive(Clone, Copy, PartialEq, Eq)]
pub struct DebugSections<'a> {
    /// `.debug_line`
    pub lines: &'a [u8],
    /// `.debug_line_str`
    pub line_texts: &'a [u8],
    /// `.debug_str`
    pub texts: &'a [u8],
}

impl<'a> DebugSections<'a> {
    /// Those of a module.
    pub fn of(bytes: &'a [u8]) -> DebugSections<'a>
        ensures lines { IsCustomOrEmpty bytes.now (codes ".debug_line") result.lines.now }
        ensures line_texts { IsCustomOrEmpty bytes.now (codes ".debug_line_str") result.line_texts.now }
        ensures texts { IsCustomOrEmpty bytes.now (codes ".debug_str") result.texts.now }
    {
        DebugSections {
            lines: custom_or_empty(bytes, b".debug_line"),
            line_texts: custom_or_empty(bytes, b".debug_line_str"),
            texts: custom_or_empty(bytes, b".debug_str"),
        }
    }
}

/// The lines of a module's code, as far as they can be read; none where there is no section of them. A unit that can't
/// be read has those that were read of it.
pub fn read_lines<'a>(
    alloc: Global,
    sections: DebugSections<'a>,
) -> Result<LineTable<'a>, AllocError>
    ensures none { sections.entry.lines.now ≡ [] → IfOk result (λ table. table.ranges.items ≡ []) }
    ensures names { IfOk result (λ table. All ComesOfShort table.ranges.items) }
{
    let mut ranges = Vec::new(alloc);
    if sections.lines.is_empty() {
        return Ok(LineTable { ranges });
    }
    let mut cursor = Cursor::new(sections.lines);
    // Each unit takes a byte at least.
    for _ in 0..cursor.len() {
        match read_unit(alloc, &mut cursor, sections, &mut ranges) {
            Ok(()) => {}
            Err(DebugFault::Unreadable) => break,
            Err(DebugFault::OutOfMemory) => return Err(AllocError),
        }
    }
    Ok(LineTable { ranges })
}
