//! Lines of source.

use dwarf_lines::{DebugSections, read_lines};
use std::alloc::{AllocError, Global};
use std::fmt::Write;

/// Writes the line at each of these offsets, or `-` where there is none.
pub(crate) fn write_lines(
    alloc: Global,
    module: &[u8],
    offsets: &[u64],
    given: &mut String,
) -> Result<(), AllocError> {
    let table = read_lines(alloc, DebugSections::of(module))?;
    for offset in offsets {
        match table.at(*offset) {
            Some(range) => writeln!(given, "{offset} {}:{}", range.file, range.line)?,
            None => writeln!(given, "{offset} -")?,
        }
    }
    Ok(())
}

/// Writes the directory of the line at each of these offsets, or `-` where there is none.
pub(crate) fn write_directories(
    alloc: Global,
    module: &[u8],
    offsets: &[u64],
    given: &mut String,
) -> Result<(), AllocError> {
    let table = read_lines(alloc, DebugSections::of(module))?;
    for offset in offsets {
        match table.at(*offset) {
            Some(range) => writeln!(given, "{offset} {}", range.directory)?,
            None => writeln!(given, "{offset} -")?,
        }
    }
    Ok(())
}

/// How many ranges of one line there are.
fn count(alloc: Global, sections: DebugSections) -> Result<usize, AllocError> {
    Ok(read_lines(alloc, sections)?.ranges.len())
}

/// Writes how many ranges there are in each front of a module of so many bytes.
pub(crate) fn write_short(
    alloc: Global,
    module: &[u8],
    lengths: &[u64],
    given: &mut String,
) -> Result<(), AllocError> {
    for length in lengths {
        let front = match usize::try_from(*length) {
            Ok(length) => module.get(..length).unwrap_or(module),
            Err(_) => module,
        };
        let ranges = count(alloc, DebugSections::of(front))?;
        writeln!(given, "{length} bytes: {ranges} ranges")?;
    }
    Ok(())
}

/// The most ranges where the section of lines is cut behind any of its bytes.
fn most_cut_lines(alloc: Global, whole: DebugSections) -> Result<usize, AllocError> {
    let mut most = 0;
    for len in 0..whole.lines.len() {
        let lines = &whole.lines[..len];
        most = most.max(count(alloc, DebugSections { lines, ..whole })?);
    }
    Ok(most)
}

/// The same of the section of the lines' texts.
fn most_cut_texts(alloc: Global, whole: DebugSections) -> Result<usize, AllocError> {
    let mut most = 0;
    for len in 0..whole.line_texts.len() {
        let line_texts = &whole.line_texts[..len];
        most = most.max(count(
            alloc,
            DebugSections {
                line_texts,
                ..whole
            },
        )?);
    }
    Ok(most)
}

/// Writes whether there are more ranges where a section of debug information is cut.
pub(crate) fn write_cut_lines(
    alloc: Global,
    module: &[u8],
    given: &mut String,
) -> Result<(), AllocError> {
    let whole = DebugSections::of(module);
    let ranges = count(alloc, whole)?;
    let (lines, texts) = (most_cut_lines(alloc, whole)?, most_cut_texts(alloc, whole)?);
    if lines > ranges || texts > ranges {
        return writeln!(given, "more lines");
    }
    writeln!(given, "never more lines")
}
