//! The file of a record.
ghost use Rattle.std.specs.Prelude.{◌≤◌, length, IfOk};

use crate::beside::Beside;
use crate::reading::STANDARD;
use std::fs::{self, File, OpenOptions, Permissions};
use std::io::{self, Error, ErrorKind, Write};
use std::os::unix::fs::MetadataExt;
use std::path::Path;

/// The path of standard output, where a file is.
const STANDARD_OUTPUT: &str = "/dev/stdout";

/// Whether two paths lead to one file.
pub fn is_one_file(rt: &HostRuntime, one: &str, other: &str) -> bool {
    let (Ok(one), Ok(other)) = (fs::metadata(rt, one), fs::metadata(rt, other)) else {
        return false;
    };
    one.is_file() && (one.dev(), one.ino()) == (other.dev(), other.ino())
}

/// The folder in which a file is or would be: its device, and its number there.
fn folder_of(rt: &HostRuntime, path: &str) -> Option<(u64, u64)> {
    let folder = Path::new(path).parent()?.as_str();
    let folder = if folder.is_empty() { "." } else { folder };
    let found = fs::metadata(rt, folder).ok()?;
    Some((found.dev(), found.ino()))
}

/// Whether two paths are of one name in one folder, so that files which are to be made there would be one.
pub fn is_one_place(rt: &HostRuntime, one: &str, other: &str) -> bool {
    if Path::new(one).file_name() != Path::new(other).file_name() {
        return false;
    }
    match (folder_of(rt, one), folder_of(rt, other)) {
        (Some(one), Some(other)) => one == other,
        _ => false,
    }
}

#[derive(Drop)]
enum RecordTarget {
    /// A file that takes the place of what has this path, once all of it is there.
    File {
        path: String,
        beside: Beside,
        /// Those of the file that is there, if there is one.
        permissions: Option<Permissions>,
    },
    /// What has this path and is no file, as a pipe, or standard output: it takes the record as it is written.
    Stream {
        path: String,
    },
}

/// Where a record goes, found before there is one: all memory that writing it takes is taken then.
#[derive(Drop)]
pub struct SavePlace {
    target: RecordTarget,
}

/// The place of a file at a path, if a file can be made beside it.
fn of_file(
    rt: &HostRuntime,
    path: String,
    permissions: Option<Permissions>,
) -> io::Result<SavePlace> {
    let mut beside = Beside::new(rt.alloc(), &path)?;
    beside.create(rt)?;
    beside.remove(rt)?;
    Ok(SavePlace {
        target: RecordTarget::File {
            path,
            beside,
            permissions,
        },
    })
}

/// Whether nothing has this path, and a file can get it.
fn is_free(rt: &HostRuntime, path: &str) -> bool {
    !path.is_empty() && !path.ends_with('/') && fs::symlink_metadata(rt, path).is_err()
}

impl SavePlace {
    /// Where a record with this path goes: links are followed, and what is there stays as it is. `-` is standard output.
    ///
    /// # Errors
    /// Where that is a folder, or can't be written, or nothing can be made beside it. Of the kind `OutOfMemory` where
    /// the system had too little memory left.
    pub fn new(rt: &HostRuntime, path: &str) -> io::Result<SavePlace> {
        if path == STANDARD {
            let path = String::from_str(rt.alloc(), STANDARD_OUTPUT)?;
            return Ok(SavePlace {
                target: RecordTarget::Stream { path },
            });
        }
        let found = match fs::metadata(rt, path) {
            Ok(found) => found,
            Err(error) if error.kind() == ErrorKind::NotFound && is_free(rt, path) => {
                return of_file(rt, String::from_str(rt.alloc(), path)?, None);
            }
            Err(error) => return Err(error),
        };
        if found.is_dir() {
            return Err(Error::from(ErrorKind::IsADirectory));
        }
        if !found.is_file() {
            let path = String::from_str(rt.alloc(), path)?;
            return Ok(SavePlace {
                target: RecordTarget::Stream { path },
            });
        }
        OpenOptions::new().write(true).open(rt, path)?;
        let path = fs::canonicalize(rt, path)?.into_string();
        of_file(rt, path, Some(found.permissions()))
    }

    /// Whether it is no file, and takes what is written as it is written.
    pub(crate) fn is_stream(&self) -> bool {
        matches!(self.target, RecordTarget::Stream { .. })
    }
}

/// A file that is being written, from the first write on. Where a write fails it takes the rest as if that were written, so
/// that who writes goes on, and `keep` says why it failed.
#[derive(Drop)]
pub struct SavedFile<'a> {
    rt: &'a HostRuntime,
    target: Option<RecordTarget>,
    file: Option<File>,
    fault: Option<ErrorKind>,
}

impl<'a> SavedFile<'a> {
    /// A record of which nothing is written yet; without a place none can be.
    pub fn new(rt: &'a HostRuntime, place: Option<SavePlace>) -> SavedFile<'a> {
        SavedFile {
            rt,
            target: place.map(|place| place.target),
            file: None,
            fault: None,
        }
    }

    /// Whether it is no file, and takes what is written as it is written.
    pub(crate) fn is_stream(&self) -> bool {
        matches!(self.target, Some(RecordTarget::Stream { .. }))
    }

    /// Whether nothing was written of it.
    pub(crate) fn is_untouched(&self) -> bool {
        self.file.is_none()
    }

    /// Makes the file, or opens what is there.
    fn open(&mut self) -> io::Result<File> {
        match &mut self.target {
            Some(RecordTarget::File { beside, .. }) => beside.create(self.rt),
            Some(RecordTarget::Stream { path }) => {
                OpenOptions::new().append(true).open(self.rt, path.as_str())
            }
            None => Err(Error::from(ErrorKind::NotFound)),
        }
    }

    /// Writes some of these bytes, the first ones to a file that is made then.
    fn write_some(&mut self, bytes: &[u8]) -> io::Result<usize>
        ensures { IfOk result (λ count. count ≤ length bytes.now) }
    {
        if self.file.is_none() {
            self.file = Some(self.open()?);
        }
        let count = match &mut self.file {
            Some(file) => file.write(bytes)?,
            None => 0,
        };
        if count == 0 {
            return Err(Error::from(ErrorKind::WriteZero));
        }
        Ok(count)
    }

    /// Gives a record its place, which is all there.
    ///
    /// # Errors
    /// The system's, also of a write before; then what was there before is there still, and nothing else.
    pub fn keep(self) -> io::Result<()> {
        if let Some(kind) = self.fault {
            self.give_up();
            return Err(Error::from(kind));
        }
        let SavedFile {
            rt,
            target,
            file,
            ..
        } = self;
        let (
            Some(file),
            Some(
                RecordTarget::File {
                    path,
                    beside,
                    permissions,
                },
            ),
        ) = (file, target)
        else {
            return Ok(());
        };
        let kept = put(rt, &file, &beside, &path, permissions);
        if kept.is_err() {
            let _ = beside.remove(rt);
        }
        kept
    }

    /// The same of a file to which nothing may have been written: it is empty then.
    ///
    /// # Errors
    /// As of `keep`.
    pub fn keep_even_empty(self) -> io::Result<()> {
        let mut saved = self;
        if saved.file.is_none() && saved.fault.is_none() && saved.target.is_some() {
            saved.file = Some(saved.open()?);
        }
        saved.keep()
    }

    /// Takes away what was written of a record that isn't all there.
    pub fn give_up(self) {
        let SavedFile {
            rt,
            target,
            file,
            ..
        } = self;
        if let (Some(_), Some(RecordTarget::File { beside, .. })) = (file, target) {
            let _ = beside.remove(rt);
        }
    }
}

/// Gives a file its path.
fn put(
    rt: &HostRuntime,
    file: &File,
    beside: &Beside,
    path: &str,
    permissions: Option<Permissions>,
) -> io::Result<()> {
    if let Some(permissions) = permissions {
        file.set_permissions(permissions)?;
    }
    file.sync_all()?;
    fs::rename(rt, beside.path(), path)
}

impl Write for SavedFile<'_> {
    fn write(&mut self, bytes: &[u8]) -> io::Result<usize> {
        if bytes.is_empty() || self.fault.is_some() {
            return Ok(bytes.len());
        }
        match self.write_some(bytes) {
            Err(error) if error.kind() != ErrorKind::Interrupted => {
                self.fault = Some(error.kind());
                Ok(bytes.len())
            }
            written => written,
        }
    }

    fn flush(&mut self) -> io::Result<()> {
        if self.fault.is_some() {
            return Ok(());
        }
        if let Some(file) = &mut self.file
            && let Err(error) = file.flush()
        {
            self.fault = Some(error.kind());
        }
        Ok(())
    }
}
