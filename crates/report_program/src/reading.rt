//! Files that are read to some length at most, so that neither an endless nor a large one takes more time or memory
//! than a file that can be accepted.
ghost use Rattle.std.specs.Prelude.{◌≡◌, IfOk, IfSome, take};
ghost use Rattle.std.specs.IoError.{error_kind};
ghost use Rattle.report_program.specs.Messages.{unread_by};
ghost use Rattle.report_program.specs.declared.reading.Unread.TheVariants as unreads;

use std::alloc::{AllocError, Global};
use std::fs::File;
use std::io::{self, Read};
use types::{
    MOST_LIMIT, MOST_MODULE_BYTES, MOST_PAGES, MOST_PARAMS, MOST_THREADS, PAGE_SIZE, PAST_LIMIT,
};

/// What is read of a module: one byte more than it may have, by which a longer one is told.
const MODULE_FRONT: u64 = MOST_MODULE_BYTES as u64 + 1;

/// What is read of the bytes that are laid over a memory: one more than any memory has, by which too many are told.
const MEMORY_FRONT: u64 = MOST_PAGES as u64 * PAGE_SIZE as u64 + 1;

/// How standard input is called among files that are read, and standard output among those that are written.
pub(crate) const STANDARD: &str = "-";

/// How each record begins.
const RECORD_HEAD: &[u8] = b"wathread-record ";

/// No line of an entry has more bytes, nor one of a number alone.
const LINE_BYTES: u64 = 100;

/// The bytes of an argument in a record, with the space before it: ` i64:` and twenty digits.
const ARG_BYTES: u64 = 25;

/// The lines of a record beside the entries: fewer than eight with one number, three more, and those of the ends.
const OTHER_LINES: u64 = 11 + MOST_THREADS as u64;

/// What is read of a record. No run's record is longer, with two digits for each byte of a name.
const RECORD_FRONT: u64 = 2 * MOST_MODULE_BYTES as u64
    + ARG_BYTES * MOST_PARAMS as u64
    + LINE_BYTES * (MOST_LIMIT as u64 + PAST_LIMIT as u64 + OTHER_LINES);

/// Why a file's bytes aren't there.
#[derive(Clone, Copy, PartialEq, Eq, Debug)]
pub enum Unread {
    /// The system had too little memory left.
    NoMemory,
    /// The file isn't there, or can't be read, for this reason.
    File(io::ErrorKind),
}

impl From<AllocError> for Unread {
    ghost from_gives = { λ _ e. e ≡ unreads.NoMemory };

    fn from(_: AllocError) -> Unread {
        Unread::NoMemory
    }
}

impl From<io::Error> for Unread {
    ghost from_gives = { λ error e. e ≡ unread_by (error_kind error) };

    fn from(error: io::Error) -> Unread {
        match error.kind() {
            io::ErrorKind::OutOfMemory => Unread::NoMemory,
            kind => Unread::File(kind),
        }
    }
}

/// The first `most` bytes of a reader, or all where it has fewer; what is behind them isn't read.
///
/// # Errors
/// The reader's, or of the kind `OutOfMemory`.
pub fn read_front<R: Read + Drop>(alloc: Global, reader: R, most: u64) -> io::Result<Vec<u8>>
    ensures { IfOk result (λ bytes. IfSome (R.remaining reader) (λ all. bytes.items ≡ take most all)) }
{
    let mut bytes = Vec::new(alloc);
    reader.take(most).read_to_end(&mut bytes)?;
    Ok(bytes)
}

/// The first `most` bytes of the file at a path, or of standard input, which is `-`.
fn front_of(rt: &HostRuntime, path: &str, most: u64) -> io::Result<Vec<u8>> {
    if path == STANDARD {
        return read_front(rt.alloc(), rt.stdin(), most);
    }
    read_front(rt.alloc(), File::open(rt, path)?, most)
}

/// The bytes of a module's file, or of one that is too long for a module the first 1,048,577.
///
/// # Errors
/// `File` where it can't be read, `NoMemory`.
pub fn read_module(rt: &HostRuntime, path: &str) -> Result<Vec<u8>, Unread> {
    Ok(front_of(rt, path, MODULE_FRONT)?)
}

/// The bytes of a file that are laid over a memory, or of one that is too long for any memory the first 16,777,217.
///
/// # Errors
/// `File` where it can't be read, `NoMemory`.
pub fn read_memory(rt: &HostRuntime, path: &str) -> Result<Vec<u8>, Unread> {
    Ok(front_of(rt, path, MEMORY_FRONT)?)
}

/// The bytes of a record, or of what is too long for the record of a run as many as the longest can have; where they don't
/// begin as a record does, only those that show it.
fn saved_front<R: Read + Drop>(alloc: Global, mut reader: R) -> io::Result<Vec<u8>> {
    let mut bytes = read_front(alloc, &mut reader, RECORD_HEAD.len() as u64)?;
    if bytes.as_slice() == RECORD_HEAD {
        reader.take(RECORD_FRONT).read_to_end(&mut bytes)?;
    }
    Ok(bytes)
}

/// The bytes of a record's file, or of standard input, which is `-`.
///
/// # Errors
/// `File` where it can't be read, `NoMemory`.
pub fn read_saved(rt: &HostRuntime, path: &str) -> Result<Vec<u8>, Unread> {
    if path == STANDARD {
        return Ok(saved_front(rt.alloc(), rt.stdin())?);
    }
    Ok(saved_front(rt.alloc(), File::open(rt, path)?)?)
}
