//! Files of source, by lines.

ghost use Rattle.std.specs.Prelude.{◌≡◌, [], find, option_map, IfOk};
ghost use Rattle.dwarf_lines.specs.Sources as specified;

use crate::header::Source;
use crate::table::Range;
use std::alloc::{AllocError, Global};

/// A file of source: what debug information calls it, and its text.
#[derive(Drop)]
pub struct SourceFile {
    pub directory: String,
    pub name: String,
    pub text: String,
}

/// The lines of a file of source.
#[derive(Drop)]
struct SourceLines<'a> {
    source: Source<'a>,
    lines: Vec<&'a str>,
}

/// Files of source, by lines.
#[derive(Drop)]
pub struct Sources<'a> {
    files: Vec<SourceLines<'a>>,
}

fn lines_of(alloc: Global, text: &str) -> Result<Vec<&str>, AllocError> {
    let mut lines = Vec::new(alloc);
    for line in text.lines() {
        lines.push(line)?;
    }
    Ok(lines)
}

impl<'a> Sources<'a> {
    /// No files.
    pub fn none(alloc: Global) -> Sources<'a>
        ensures { result.files.items ≡ [] }
    {
        Sources {
            files: Vec::new(alloc),
        }
    }

    /// Those of these files.
    ///
    /// # Errors
    /// Where memory is refused.
    pub fn new(alloc: Global, files: &'a [SourceFile]) -> Result<Sources<'a>, AllocError>
        ensures { IfOk result (λ s. specified.AreOf files.now s.files.items) }
    {
        let mut all = Vec::with_capacity(alloc, files.len())?;
        for file in files {
            all.push(SourceLines {
                source: Source {
                    directory: file.directory.as_str(),
                    name: file.name.as_str(),
                },
                lines: lines_of(alloc, file.text.as_str())?,
            })?;
        }
        Ok(Sources { files: all })
    }

    /// The file of a range of code.
    fn file_of(&self, range: Range) -> Option<&SourceLines<'a>>
        ensures { option_map (λ f. f.now) result ≡ find (specified.is_of range.entry) self.now.files.items }
    {
        for file in &self.files {
            if file.source == range.source() {
                return Some(file);
            }
        }
        None
    }

    /// The line of source that a range of code comes from, where its file is one of these.
    pub fn line(&self, range: Range) -> Option<&'a str>
        ensures { result ≡ specified.line_in self.now.files.items range.entry }
    {
        let place = range.line.checked_sub(1)?;
        let file = self.file_of(range)?;
        file.lines.get(place as usize).copied()
    }
}
