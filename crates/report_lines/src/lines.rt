//! The lines on standard output.
ghost use Rattle.std.specs.Prelude.{◌≡◌, IfOk};
ghost use Rattle.std.specs.List.{list_all};
ghost use Rattle.replay_forms.specs.Texts.{Wrote};
ghost use Rattle.report_lines.specs.Lines.{thread_line, thread_lines, pages_line, bytes_line, hex_bytes, end_lines};
ghost use Rattle.search_endings.specs.Ends as specified;
ghost use Rattle.search_endings.specs.Ends.{status_of};

use search_endings::is_done;
use std::io::{self, Write};
use types::{Outcome, ThreadReport};

/// Whether all threads ended well.
fn all_done(reports: &[ThreadReport]) -> bool
    ensures { result ≡ list_all (λ r. specified.is_done r.outcome) reports.now }
{
    reports.iter().all(|report| is_done(report.outcome))
}

/// Writes the lines of a run: one a thread, the page count, and the first `dump` bytes (all, if there are fewer; no line
/// where `dump` is 0). Answers the run's status: 0 where all threads ended well, and otherwise 1.
///
/// # Errors
/// That of the writer, and then what was written isn't said.
pub fn write_run<W: Write>(
    out: &mut W,
    threads: &[ThreadReport],
    pages: u32,
    dump: u32,
    bytes: &[u8],
) -> io::Result<u8>
    ensures lines { Wrote W.contents out.old out.new result (end_lines threads.now pages dump bytes.now) }
    ensures status { IfOk result (λ status. status ≡ status_of threads.now) }
{
    match write_end(out, threads, pages, dump, bytes) {
        Ok(()) => Ok(u8::from(!all_done(threads))),
        Err(error) => Err(error),
    }
}

/// The lines of its end.
fn write_end<W: Write>(
    out: &mut W,
    threads: &[ThreadReport],
    pages: u32,
    dump: u32,
    bytes: &[u8],
) -> io::Result<()>
    ensures { Wrote W.contents out.old out.new result (end_lines threads.now pages dump bytes.now) }
{
    write_threads(out, threads)?;
    write_pages(out, pages)?;
    write_bytes(out, dump, bytes)?;
    out.flush()
}

/// The lines of threads, from thread 0 on.
fn write_threads<W: Write>(out: &mut W, reports: &[ThreadReport]) -> io::Result<()>
    ensures { Wrote W.contents out.old out.new result (thread_lines 0 reports.now) }
{
    for (thread, report) in reports.iter().enumerate() {
        write_thread(out, thread, report.outcome)?;
    }
    Ok(())
}

/// The line of a thread: `thread T: ` and its outcome.
fn write_thread<W: Write>(out: &mut W, thread: usize, outcome: Outcome) -> io::Result<()>
    ensures { Wrote W.contents out.old out.new result (thread_line thread outcome) }
{
    write!(out, "thread {thread}: {outcome}\n")
}

/// The line of the page count: `pages P`.
fn write_pages<W: Write>(out: &mut W, pages: u32) -> io::Result<()>
    ensures { Wrote W.contents out.old out.new result (pages_line pages) }
{
    write!(out, "pages {pages}\n")
}

/// The line of the first `dump` bytes, or of all if there are fewer; none where `dump` is 0.
fn write_bytes<W: Write>(out: &mut W, dump: u32, bytes: &[u8]) -> io::Result<()>
    ensures { Wrote W.contents out.old out.new result (bytes_line dump bytes.now) }
{
    if dump == 0 {
        return Ok(());
    }
    let count = bytes.len().min(dump as usize);
    write!(out, "bytes")?;
    write_hex(out, &bytes[..count])?;
    write!(out, "\n")
}

pub(crate) fn write_hex<W: Write>(out: &mut W, bytes: &[u8]) -> io::Result<()>
    ensures { Wrote W.contents out.old out.new result (hex_bytes bytes.now) }
{
    for byte in bytes {
        write!(out, " {byte:02x}")?;
    }
    Ok(())
}
