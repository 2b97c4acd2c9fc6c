//! The lines of endings.
ghost use Rattle.std.specs.Prelude.{◌≡◌};
ghost use Rattle.replay_forms.specs.Texts.{Wrote};
ghost use Rattle.report_lines.specs.Lines.{numbered};
ghost use Rattle.report_lines.specs.Endings.{thread_part, bytes_part, ending_line, ending_lines};

use crate::lines::write_hex;
use search_endings::Ending;
use std::io::{self, Write};
use types::Outcome;

/// How a thread ended: `thread T: `, its outcome, and a semicolon.
fn write_thread_part<W: Write>(out: &mut W, thread: usize, outcome: Outcome) -> io::Result<()>
    ensures { Wrote W.contents out.old out.new result (thread_part thread outcome) }
{
    write!(out, "thread {thread}: {outcome}; ")
}

/// How threads ended, from thread 0 on.
fn write_thread_parts<W: Write>(out: &mut W, outcomes: &[Outcome]) -> io::Result<()>
    ensures { Wrote W.contents out.old out.new result (numbered thread_part 0 outcomes.now) }
{
    for (thread, outcome) in outcomes.iter().enumerate() {
        write_thread_part(out, thread, *outcome)?;
    }
    Ok(())
}

/// The bytes that are looked at, where there are some.
fn write_bytes_part<W: Write>(out: &mut W, bytes: &[u8]) -> io::Result<()>
    ensures { Wrote W.contents out.old out.new result (bytes_part bytes.now) }
{
    if bytes.is_empty() {
        return Ok(());
    }
    write!(out, "; bytes")?;
    write_hex(out, bytes)
}

/// Writes what an ending is, to the end of its line.
///
/// # Errors
/// That of the writer, and then what was written isn't said.
pub fn write_ending<W: Write>(out: &mut W, ending: &Ending) -> io::Result<()>
    ensures { Wrote W.contents out.old out.new result (ending_line ending.now) }
{
    write_thread_parts(out, ending.outcomes())?;
    let pages = ending.pages();
    write!(out, "pages {pages}")?;
    write_bytes_part(out, ending.bytes())?;
    write!(out, "\n")
}

/// Writes a line for each ending, in their order.
///
/// # Errors
/// That of the writer, and then what was written isn't said.
pub fn write_endings<W: Write>(out: &mut W, endings: &[Ending]) -> io::Result<()>
    ensures { Wrote W.contents out.old out.new result (ending_lines endings.now) }
{
    for ending in endings {
        write_ending(out, ending)?;
    }
    Ok(())
}
