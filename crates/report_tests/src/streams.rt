//! Whether a stream was closed.

use report_program::Noted;
use std::io::{self, ErrorKind, Write};
use std::test::Fail;
use test_cases::hold;

/// A stream that fails with this error.
#[derive(Drop)]
struct Failing(ErrorKind);

impl Write for Failing {
    fn write(&mut self, _: &[u8]) -> io::Result<usize> {
        Err(io::Error::from(self.0))
    }

    fn flush(&mut self) -> io::Result<()> {
        Ok(())
    }
}

/// Whether a stream that fails so is closed after a write; none where it has failed before, or hasn't then, or who writes
/// can't go on.
fn closed_by(kind: ErrorKind) -> Option<bool> {
    let mut stream = Noted::new(Failing(kind));
    if stream.has_failed() || stream.write_all(b"xy").is_err() || !stream.has_failed() {
        return None;
    }
    Some(stream.is_closed())
}

#[test]
fn a_closed_stream_is_told_from_a_full_one() -> Result<(), Fail> {
    hold(&[
        (
            "a closed one",
            closed_by(ErrorKind::BrokenPipe) == Some(true),
        ),
        (
            "a full one",
            closed_by(ErrorKind::StorageFull) == Some(false),
        ),
    ])
}

/// Whether a stream takes a text, and stays open.
fn takes(bytes: &mut Vec<u8>, text: &[u8]) -> Result<bool, Fail> {
    let mut stream = Noted::new(bytes);
    stream.write_all(text)?;
    Ok(!stream.has_failed())
}

#[test]
fn a_stream_takes_what_is_written(rt: HostRuntime) -> Result<(), Fail> {
    let mut bytes = Vec::new(rt.alloc());
    let open = takes(&mut bytes, b"text")?;
    hold(&[
        ("the stream is open", open),
        ("the bytes", bytes.as_slice() == b"text".as_slice()),
    ])
}
