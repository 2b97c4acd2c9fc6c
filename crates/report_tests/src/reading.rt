//! How much is read.

use crate::room::{make_room, path_in};
use report_program::{Unread, read_front, read_module, read_saved};
use std::alloc::Global;
use std::fs;
use std::io::{self, ErrorKind, Read};
use std::path::PathBuf;
use std::test::Fail;
use test_cases::hold;

/// A reader without an end, and how many bytes it gave.
#[derive(Drop)]
struct Endless {
    gave: usize,
}

impl Read for Endless {
    fn read(&mut self, buf: &mut [u8]) -> io::Result<usize> {
        self.gave = self.gave.saturating_add(buf.len());
        Ok(buf.len())
    }
}

/// Whether as many bytes as asked are read of what has no end, and no more are taken from it.
fn reads_only(alloc: Global, most: u64) -> Result<bool, Fail> {
    let mut endless = Endless { gave: 0 };
    let bytes = read_front(alloc, &mut endless, most)?;
    Ok(bytes.len() as u64 == most && endless.gave as u64 == most)
}

#[test]
fn no_more_is_read_than_was_asked(rt: HostRuntime) -> Result<(), Fail> {
    for most in [0u64, 1, 31, 32, 33, 100_000] {
        if !reads_only(rt.alloc(), most)? {
            return Err(Fail::new(format_args!("{most} bytes")));
        }
    }
    Ok(())
}

/// Files by their length, and how much is read of each: as a module, and as a record that begins as none.
static LENGTHS: [(usize, usize, usize); 5] = [
    (0, 0, 0),
    (15, 15, 15),
    (17, 17, 16),
    (1_048_577, 1_048_577, 16),
    (2_000_000, 1_048_577, 16),
];

/// Writes a file of so many bytes.
fn write_sevens(rt: &HostRuntime, path: &str, length: usize) -> Result<(), Fail> {
    let mut bytes = Vec::new(rt.alloc());
    bytes.resize(length, b'7')?;
    Ok(fs::write(rt, path, bytes.as_slice())?)
}

/// How many bytes are read of a file as a module.
fn length_of_module(rt: &HostRuntime, path: &str) -> Result<usize, Unread> {
    read_module(rt, path).map(|it| it.len())
}

/// How many bytes are read of a file as a record.
fn length_of_saved(rt: &HostRuntime, path: &str) -> Result<usize, Unread> {
    read_saved(rt, path).map(|it| it.len())
}

/// Files at this path are read as far as their lengths say.
fn read_lengths(rt: &HostRuntime, path: &str) -> Result<(), Fail> {
    for (length, module, saved) in &LENGTHS {
        write_sevens(rt, path, *length)?;
        if length_of_module(rt, path) != Ok(*module) || length_of_saved(rt, path) != Ok(*saved) {
            return Err(Fail::new(format_args!("{length} bytes")));
        }
    }
    Ok(())
}

/// Reads files at this path in a room, which is taken away then.
fn read_all(rt: &HostRuntime, room: &PathBuf, path: &str) -> Result<(), Fail> {
    read_lengths(rt, path)?;
    fs::write(rt, path, "wathread-record 1\nand more\n")?;
    let record = length_of_saved(rt, path);
    fs::remove_dir_all(rt, room.as_path())?;
    hold(&[
        ("a record", record == Ok(27)),
        (
            "no module",
            length_of_module(rt, path) == Err(Unread::File(ErrorKind::NotFound)),
        ),
        (
            "a folder",
            length_of_saved(rt, "/") == Err(Unread::File(ErrorKind::IsADirectory)),
        ),
    ])
}

#[test]
fn files_are_read_in_part(rt: HostRuntime) -> Result<(), Fail> {
    let room = make_room(&rt, "reading")?;
    let path = path_in(&rt, &room, "file")?;
    read_all(&rt, &room, &path)
}
