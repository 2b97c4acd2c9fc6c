//! What the threads of a run say.
ghost use Rattle.std.specs.Prelude.{IfOk};
ghost use Rattle.replay_forms.specs.Texts.{Wrote};
ghost use Rattle.report_jobs.specs.Prints.{IsSaid, said_line, said_lines};

use replay_text::Record;
use show_said::{Said, heard, last_words, read_ports};
use std::alloc::{AllocError, Global};
use std::io::{self, Write};
use types::{Entry, Sequence};

/// What the threads of a run say, by its record and the bytes of its module, where that is wanted; else nothing.
///
/// # Errors
/// Where memory is refused.
pub fn said_in(
    alloc: Global,
    bytes: &[u8],
    recorded: &Record,
    is_wanted: bool,
) -> Result<Vec<Said>, AllocError>
    ensures { IfOk result (λ all. IsSaid bytes.now recorded.now is_wanted all.items) }
{
    if !is_wanted {
        return Ok(Vec::new(alloc));
    }
    let ports = read_ports(alloc, bytes)?;
    let parts = recorded.parts();
    let first = parts.version.header_lines() + 1;
    heard(alloc, ports.as_slice(), first as u64, parts.log.as_slice())
}

/// What the threads of a recorded run said, and where.
#[derive(Drop)]
pub(crate) struct Spoken<'a> {
    ports: Sequence<u32>,
    said: Vec<Said>,
    log: &'a [Entry],
}

impl<'a> Spoken<'a> {
    /// By the bytes of its module and its record.
    ///
    /// # Errors
    /// Where memory is refused.
    pub(crate) fn read(
        alloc: Global,
        bytes: &[u8],
        recorded: &'a Record,
    ) -> Result<Spoken<'a>, AllocError> {
        let ports = read_ports(alloc, bytes)?;
        let log = recorded.parts().log.as_slice();
        let said = heard(alloc, ports.as_slice(), 0, log)?;
        Ok(Spoken { ports, said, log })
    }

    /// The last line of a thread, if the last thing that it did was to say something.
    pub(crate) fn last_words(&self, thread: usize) -> Option<&str> {
        match last_words(self.ports.as_slice(), self.log, &self.said, thread) {
            Some(line) => Some(line.text.as_str()),
            None => None,
        }
    }
}

/// Writes a line that a thread says: `t1 says: ` and the text.
///
/// # Errors
/// The writer's.
pub fn write_said_line<W: Write>(out: &mut W, said: &Said) -> io::Result<()>
    ensures { Wrote W.contents out.old out.new result (said_line said.now) }
{
    let Said { thread, text, .. } = said;
    let text = text.as_str();
    write!(out, "t{thread} says: {text}\n")
}

/// Writes what threads say, line by line.
pub(crate) fn write_said<W: Write>(out: &mut W, all: &[Said]) -> io::Result<()>
    ensures { Wrote W.contents out.old out.new result (said_lines all.now) }
{
    for said in all {
        write_said_line(out, said)?;
    }
    Ok(())
}
