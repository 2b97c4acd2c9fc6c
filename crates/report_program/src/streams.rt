//! Streams of the program.

use std::io::{self, ErrorKind, Write};

/// A stream, whether it took anything, and how it failed: from then on it takes what is written as if it were out, so
/// that who writes goes on, and keeps the files that a job makes.
#[derive(Drop)]
pub struct Noted<W> {
    stream: W,
    is_untouched: bool,
    fault: Option<ErrorKind>,
}

impl<W> Noted<W> {
    /// A stream to which nothing was written.
    pub fn new(stream: W) -> Noted<W> {
        Noted {
            stream,
            is_untouched: true,
            fault: None,
        }
    }

    /// Whether it took nothing yet.
    pub fn is_untouched(&self) -> bool {
        self.is_untouched
    }

    /// Whether something of what was written didn't get out.
    pub fn has_failed(&self) -> bool {
        self.fault.is_some()
    }

    /// Whether it failed since nobody is left to read it.
    pub fn is_closed(&self) -> bool {
        self.fault == Some(ErrorKind::BrokenPipe)
    }
}

impl<W: Write> Write for Noted<W> {
    fn write(&mut self, bytes: &[u8]) -> io::Result<usize> {
        if bytes.is_empty() || self.fault.is_some() {
            return Ok(bytes.len());
        }
        match self.stream.write(bytes) {
            Ok(0) => self.fault = Some(ErrorKind::WriteZero),
            Ok(count) => {
                self.is_untouched = false;
                return Ok(count);
            }
            Err(error) if error.kind() == ErrorKind::Interrupted => return Err(error),
            Err(error) => self.fault = Some(error.kind()),
        }
        Ok(bytes.len())
    }

    fn flush(&mut self) -> io::Result<()> {
        if self.fault.is_some() {
            return Ok(());
        }
        if let Err(error) = self.stream.flush() {
            self.fault = Some(error.kind());
        }
        Ok(())
    }
}
