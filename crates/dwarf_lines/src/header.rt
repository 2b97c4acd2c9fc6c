//! The header of a unit (DWARF 5, section 6.2.4; DWARF 4, section 6.2.4).

ghost use Rattle.std.specs.Prelude.{◌≤◌, All, length, IfOk};
ghost use Rattle.dwarf_lines.specs.Names.{HasShortName};

use crate::program::LineMachine;
use crate::table::DebugSections;
use dwarf_reader::{AttributeForm, AttributeValue, Cursor, DebugFault, string_at};
use std::alloc::Global;

/// A file of source: the name of its directory, where it has one, and its own.
#[derive(Clone, Copy, Debug, PartialEq, Eq)]
pub struct Source<'a> {
    pub directory: &'a str,
    pub name: &'a str,
}

/// What stands in front of a unit's program, behind the unit's length.
#[derive(Drop)]
pub struct LineHeader<'a> {
    pub machine: LineMachine,
    /// How many operands the standard opcodes have, from 1 on.
    pub lengths: &'a [u8],
    /// Its files. In version 4 the first of them has the number 1, and else 0.
    pub files: Vec<Source<'a>>,
    pub first_file: u64,
}

/// An entry of a table of directories or of files: the name, and the number of its directory.
#[derive(Clone, Copy, Default)]
struct FileEntry<'a> {
    name: &'a str,
    directory: u64,
}

/// What each entry of a table of version 5 says: the code of a content type, and the form of its values.
#[derive(Clone, Copy)]
struct ContentFormat {
    content: u64,
    form: AttributeForm,
}

/// The content types of a name and of the number of a directory.
const PATH: u64 = 1;

const DIRECTORY_INDEX: u64 = 2;

/// The most bytes of a name that stands in another section.
const MOST_NAME: usize = 1024;

/// How many bytes a file's name has at most that is shown.
pub const MOST_FILE_NAME: usize = 256;

/// What a file is called whose name is longer.
const LONG_NAME: &str = "(a name of over 256 bytes)";

fn text_of(bytes: &[u8]) -> Result<&str, DebugFault> {
    std::str::from_utf8(bytes).map_err(|_| DebugFault::Unreadable)
}

/// What the entries of a table of version 5 say, and how it is spelled.
fn read_format(alloc: Global, cursor: &mut Cursor) -> Result<Vec<ContentFormat>, DebugFault> {
    let mut format = Vec::new(alloc);
    for _ in 0..cursor.read_u8()? {
        let content = cursor.read_unsigned()?;
        let form = AttributeForm::of(cursor.read_unsigned()?).ok_or(DebugFault::Unreadable)?;
        format.push(ContentFormat { content, form })?;
    }
    Ok(format)
}

impl<'a> FileEntry<'a> {
    /// Takes what a value of some content type says; what isn't known says nothing.
    fn take(
        &mut self,
        sections: DebugSections<'a>,
        content: u64,
        value: AttributeValue<'a>,
    ) -> Result<(), DebugFault> {
        let bytes = match value {
            AttributeValue::String(bytes) => bytes,
            AttributeValue::LineStringAt(at) => string_at(sections.line_texts, at, MOST_NAME)?,
            AttributeValue::StringAt(at) => string_at(sections.texts, at, MOST_NAME)?,
            AttributeValue::Constant(number) => {
                if content == DIRECTORY_INDEX {
                    self.directory = number;
                }
                return Ok(());
            }
            AttributeValue::Other => return Ok(()),
            _ => return Err(DebugFault::Unreadable),
        };
        let name = text_of(bytes)?;
        if content == PATH {
            self.name = name;
        }
        Ok(())
    }
}

/// An entry of a table of files of version 5.
fn read_entry<'a>(
    cursor: &mut Cursor<'a>,
    sections: DebugSections<'a>,
    format: &[ContentFormat],
) -> Result<FileEntry<'a>, DebugFault> {
    let mut entry = FileEntry::default();
    for part in format {
        entry.take(sections, part.content, part.form.read(cursor)?)?;
    }
    Ok(entry)
}

/// A table of directories or of files of version 5.
fn read_table<'a>(
    alloc: Global,
    cursor: &mut Cursor<'a>,
    sections: DebugSections<'a>,
) -> Result<Vec<FileEntry<'a>>, DebugFault> {
    let format = read_format(alloc, cursor)?;
    let count = cursor.read_unsigned()?;
    // Each entry has a byte at least, or it has no name.
    if count > cursor.len() as u64 {
        return Err(DebugFault::Unreadable);
    }
    let mut entries = Vec::new(alloc);
    for _ in 0..count {
        entries.push(read_entry(cursor, sections, format.as_slice())?)?;
    }
    Ok(entries)
}

/// The number of a file's directory in version 4, in front of its time and its size.
fn read_directory(cursor: &mut Cursor) -> Result<u64, DebugFault> {
    let directory = cursor.read_unsigned()?;
    cursor.read_unsigned()?;
    cursor.read_unsigned()?;
    Ok(directory)
}

/// Adds the entries of a table of version 4, of directories or of files. An empty name ends it.
fn add_table<'a>(
    entries: &mut Vec<FileEntry<'a>>,
    cursor: &mut Cursor<'a>,
    is_of_files: bool,
) -> Result<(), DebugFault> {
    for _ in 0..cursor.len() {
        let name = text_of(cursor.read_string()?)?;
        if name.is_empty() {
            break;
        }
        let directory = if is_of_files {
            read_directory(cursor)?
        } else {
            0
        };
        entries.push(FileEntry { name, directory })?;
    }
    Ok(())
}

/// What a file is called.
fn shown_name(name: &str) -> &str
    ensures { length result.now ≤ MOST_FILE_NAME }
{
    if name.len() <= MOST_FILE_NAME {
        name
    } else {
        LONG_NAME
    }
}

/// The files with the names of their directories.
fn sources<'a>(
    alloc: Global,
    directories: &[FileEntry<'a>],
    files: &[FileEntry<'a>],
) -> Result<Vec<Source<'a>>, DebugFault>
    ensures { IfOk result (λ sources. All HasShortName sources.items) }
{
    let mut sources = Vec::new(alloc);
    for file in files {
        let number = usize::try_from(file.directory).unwrap_or(usize::MAX);
        let directory = match directories.get(number) {
            Some(directory) => directory.name,
            None => "",
        };
        sources.push(Source {
            directory,
            name: shown_name(file.name),
        })?;
    }
    Ok(sources)
}

/// What stands between the length of the header and the tables of files.
fn read_machine<'a>(cursor: &mut Cursor<'a>) -> Result<(LineMachine, &'a [u8]), DebugFault> {
    let &[
        instruction,
        operations,
        _is_statement,
        line_base,
        line_range,
        opcode_base,
    ] = cursor.read_bytes(6)?
    else {
        return Err(DebugFault::Unreadable);
    };
    if operations != 1 || line_range == 0 || opcode_base == 0 {
        return Err(DebugFault::Unreadable);
    }
    let lengths = cursor.read_bytes(u64::from(opcode_base - 1))?;
    Ok((
        LineMachine {
            instruction,
            line_base: i64::from(line_base.cast_signed()).cast_unsigned(),
            line_range,
            opcode_base,
        },
        lengths,
    ))
}

/// The files of version 4. The directory 0 is that of the compilation, which stands elsewhere.
fn read_files<'a>(alloc: Global, cursor: &mut Cursor<'a>) -> Result<Vec<Source<'a>>, DebugFault>
    ensures { IfOk result (λ sources. All HasShortName sources.items) }
{
    let (mut directories, mut files) = (Vec::new(alloc), Vec::new(alloc));
    directories.push(FileEntry::default())?;
    add_table(&mut directories, cursor, false)?;
    add_table(&mut files, cursor, true)?;
    sources(alloc, directories.as_slice(), files.as_slice())
}

/// The header behind the unit's length.
pub fn read_header<'a>(
    alloc: Global,
    unit: &mut Cursor<'a>,
    sections: DebugSections<'a>,
) -> Result<LineHeader<'a>, DebugFault>
    ensures { IfOk result (λ header. All HasShortName header.files.items) }
{
    let is_version_5 = match unit.read_number(2)? {
        4 => false,
        5 => true,
        _ => return Err(DebugFault::Unreadable),
    };
    if is_version_5 {
        // the sizes of an address and of a segment's number
        unit.read_bytes(2)?;
    }
    let size = unit.read_number(4)?;
    let mut cursor = Cursor::new(unit.read_bytes(size)?);
    let (machine, lengths) = read_machine(&mut cursor)?;
    let files = if is_version_5 {
        let directories = read_table(alloc, &mut cursor, sections)?;
        let files = read_table(alloc, &mut cursor, sections)?;
        sources(alloc, directories.as_slice(), files.as_slice())?
    } else {
        read_files(alloc, &mut cursor)?
    };
    Ok(LineHeader {
        machine,
        lengths,
        files,
        first_file: u64::from(!is_version_5),
    })
}
