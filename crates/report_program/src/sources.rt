//! Files of source that debug information names.

use crate::{Unread, read_front};
use dwarf_lines::{DebugSections, Source, SourceFile, read_lines};
use show_text::Plain;
use std::alloc::{AllocError, Global};
use std::fs::{self, File};
use std::io;

/// How many files are read at most.
const MOST_FILES: usize = 1_000;

/// What is read of a file at most, and of all.
const MOST_BYTES: u64 = 4 << 20;

const MOST_IN_ALL: usize = 64 << 20;

/// How many folders of a path are left out at most.
const MOST_FOLDERS: usize = 32;

/// By how many seconds a file that is no newer than another may be the later one, as a copy of both may leave them.
const SLACK: u64 = 5;

/// Where files of source are looked for: the folder, and the path of the module that they are of.
#[derive(Clone, Copy)]
pub(crate) struct SourcePlace<'a> {
    pub(crate) folder: &'a str,
    pub(crate) module: &'a str,
}

/// Files of source, and what is to be said of them on standard error, in lines.
#[derive(Drop)]
pub(crate) struct FoundSources {
    pub(crate) files: Vec<SourceFile>,
    pub(crate) notes: String,
}

impl FoundSources {
    pub(crate) fn none(alloc: Global) -> FoundSources {
        FoundSources {
            files: Vec::new(alloc),
            notes: String::new(alloc),
        }
    }

    /// Says where nothing was found what was looked for: none of these sources.
    fn note_none(&mut self, place: SourcePlace, sources: &[Source]) -> Result<(), AllocError> {
        let (folder, module) = (Plain(place.folder), Plain(place.module));
        match sources.first() {
            Some(Source { name, .. }) => {
                let name = Plain(name);
                write!(
                    self.notes,
                    "no file of source of {module} is below {folder}: it names {name}\n"
                )
            }
            None => write!(
                self.notes,
                "{module} names no files of source: build it with -g\n"
            ),
        }
    }
}

#[derive(Drop)]
struct FoundText {
    path: String,
    text: String,
}

/// Whether a path leads below the folder where it begins.
fn leads_below(path: &str) -> bool {
    !path.is_empty() && !path.starts_with('/') && !path.split('/').any(|part| part == "..")
}

/// Whether the one file was changed after the other one, by more than some seconds.
fn is_newer(rt: &HostRuntime, path: &str, than: &str) -> bool {
    let (Ok(one), Ok(other)) = (fs::metadata(rt, path), fs::metadata(rt, than)) else {
        return false;
    };
    let (Ok(one), Ok(other)) = (one.modified(), other.modified()) else {
        return false;
    };
    match one.duration_since(other) {
        Ok(later) => later.as_secs() > SLACK,
        Err(_) => false,
    }
}

/// Whether there is a file at a path: who opens a pipe waits until somebody writes to it.
fn is_file(rt: &HostRuntime, path: &str) -> bool {
    match fs::metadata(rt, path) {
        Ok(found) => found.is_file(),
        Err(_) => false,
    }
}

/// The text of a file, where it is there and is text.
fn text_at(rt: &HostRuntime, path: &str) -> io::Result<Option<String>> {
    if !is_file(rt, path) {
        return Ok(None);
    }
    let Ok(file) = File::open(rt, path) else {
        return Ok(None);
    };
    match read_front(rt.alloc(), file, MOST_BYTES) {
        Ok(bytes) => Ok(String::from_utf8(bytes).ok()),
        Err(error) if error.kind() == io::ErrorKind::OutOfMemory => Err(error),
        Err(_) => Ok(None),
    }
}

/// The text of the file below this folder which has the longest end of the path.
fn text_below(rt: &HostRuntime, folder: &str, path: &str) -> io::Result<Option<FoundText>> {
    let mut end = path;
    for _ in 0..MOST_FOLDERS {
        if leads_below(end) {
            let path = format!(in rt.alloc(); "{folder}/{end}")?;
            if let Some(text) = text_at(rt, path.as_str())? {
                return Ok(Some(FoundText { path, text }));
            }
        }
        match end.split_once('/') {
            Some((_, rest)) => end = rest,
            None => return Ok(None),
        }
    }
    Ok(None)
}

/// Adds a file of source, where it is below the folder; it is said where it is newer than the module.
fn add_file(
    rt: &HostRuntime,
    place: SourcePlace,
    source: Source,
    found: &mut FoundSources,
) -> io::Result<()> {
    let alloc = rt.alloc();
    let Source { directory, name } = source;
    let path = format!(in alloc; "{directory}/{name}")?;
    let Some(FoundText { path, text }) = text_below(rt, place.folder, path.as_str())? else {
        return Ok(());
    };
    if is_newer(rt, path.as_str(), place.module) {
        let (path, module) = (Plain(path.as_str()), Plain(place.module));
        write!(
            found.notes,
            "{path} is newer than {module}: its lines may be others\n"
        )?;
    }
    found.files.push(SourceFile {
        directory: format!(in alloc; "{directory}")?,
        name: format!(in alloc; "{name}")?,
        text,
    })?;
    Ok(())
}

/// The files of source that a module's bytes name in their debug information, as far as they are below this folder: of
/// each the one with the longest end of its path. A file that can't be read, or is no text, is left out; what is behind
/// the first 4 MiB of one, and behind 64 MiB of all, isn't read. It is said where there are none, and which are newer
/// than the module.
///
/// # Errors
/// `NoMemory`.
pub(crate) fn read_sources(
    rt: &HostRuntime,
    place: SourcePlace,
    module: &[u8],
) -> Result<FoundSources, Unread> {
    let alloc = rt.alloc();
    let mut found = FoundSources::none(alloc);
    let table = read_lines(alloc, DebugSections::of(module))?;
    let sources = table.sources(alloc, MOST_FILES)?;
    let mut bytes = 0usize;
    for source in &sources {
        if bytes < MOST_IN_ALL {
            let before = found.files.len();
            add_file(rt, place, *source, &mut found)?;
            if let Some(file) = found.files.get(before) {
                bytes = bytes.saturating_add(file.text.len());
            }
        }
    }
    if found.files.is_empty() {
        found.note_none(place, &sources)?;
    }
    Ok(found)
}
