//! The streams of a job that ended: what they hold back is handed on, or it is known that it wasn't.
ghost use Rattle.std.specs.Prelude.{◌≡◌, OnOk, None, true, false};
ghost use Rattle.report_program.specs.Closing.{HasAll, HasNoMore};

use std::io::{self, BufWriter, ErrorKind, Write};

/// What of a job that is done isn't where it belongs.
#[derive(Clone, Copy, PartialEq, Eq, Debug)]
pub struct Lost {
    /// Whether standard output didn't get all lines.
    pub lines: bool,
    /// Why the file that the job makes isn't there, if it isn't: a record, a page or a trace.
    pub file: Option<ErrorKind>,
    /// Why that of a run's memory isn't there, if it isn't.
    pub memory: Option<ErrorKind>,
}

/// The stream behind a buffer, and whether it got all that was written to that.
fn hand_on<W: Write + Drop>(buffer: BufWriter<W>) -> (W, io::Result<()>)
    ensures { OnOk result.1 (HasAll W.contents buffer result.0) }
{
    let mut buffer = buffer;
    let flushed = buffer.flush();
    let (stream, _) = buffer.into_parts();
    (stream, flushed)
}

/// Hands on what a buffer holds back, if it is to come, and answers the stream behind it, and why that failed, if it
/// did. Else the stream gets nothing more.
pub fn hand_on_if<W: Write + Drop>(comes: bool, buffer: BufWriter<W>) -> (W, Option<ErrorKind>)
    ensures all { comes ≡ true → result.1 ≡ None → HasAll W.contents buffer result.0 }
    ensures none { comes ≡ false → (result.1 ≡ None) × HasNoMore buffer result.0 }
{
    if !comes {
        let (stream, _) = buffer.into_parts();
        return (stream, None);
    }
    let (stream, handed) = hand_on(buffer);
    match handed {
        Ok(()) => (stream, None),
        Err(error) => (stream, Some(error.kind())),
    }
}
