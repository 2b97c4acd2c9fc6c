//! A record that is at its place while smaller ones are looked for.
ghost use Rattle.std.specs.Prelude.{IsTrue};
ghost use Rattle.std.specs.Io.Buffered.{writer_contents};
ghost use Rattle.std.specs.Io.KnownBytes.{Appends};
ghost use Rattle.replay_text.specs.Text.{record_text};

use crate::closing::hand_on_if;
use crate::{SavePlace, SavedFile};
use replay_text::Record;
use report_jobs::keep;
use std::io::{self, BufWriter, Error, ErrorKind, Write};

/// The bytes of a record that are written at once.
const PIECE: usize = 65_536;

/// Writes a record through a buffer. Answers what is behind that, and whether it got all of the record.
fn write_whole<S: Write + Drop>(record: &Record, buffer: BufWriter<S>) -> (S, bool)
    ensures { IsTrue result.1 → Appends (writer_contents S.contents buffer) (S.contents result.0)
        (record_text «record».now) }
{
    let mut buffer = buffer;
    let is_kept = keep(record, true, &mut buffer).is_ok();
    let (file, lost) = hand_on_if(is_kept, buffer);
    (file, is_kept && lost.is_none())
}

/// Writes a record to the file with this path, which has its place once all of it is there. What is no file, as a pipe,
/// takes one record alone: nothing is written to it.
///
/// # Errors
/// The system's; then what was there before is there still.
pub fn keep_early(rt: &HostRuntime, path: &str, record: &Record) -> io::Result<()> {
    let place = SavePlace::new(rt, path)?;
    if place.is_stream() {
        return Ok(());
    }
    let writer = BufWriter::with_capacity(rt.alloc(), PIECE, SavedFile::new(rt, Some(place)))?;
    let (file, is_whole) = write_whole(record, writer);
    if is_whole {
        return file.keep();
    }
    file.give_up();
    Err(Error::from(ErrorKind::Other))
}
