//! The lines of what a search found.
ghost use Rattle.replay_forms.specs.Texts.{Wrote};
ghost use Rattle.report_lines.specs.Found.{entries_text, after_text, found_run_line, found_ending_line};
ghost use Rattle.report_lines.specs.Found.{without_run_line, no_end_line, for_ever_line};

use crate::complete::form_of;
use std::io::{self, Write};

/// Writes the line of a run that was found, by its number.
///
/// # Errors
/// That of the writer, and then what was written isn't said. So of each function here.
pub fn write_found_run<W: Write>(out: &mut W, run: u64) -> io::Result<()>
    ensures { Wrote W.contents out.old out.new result (found_run_line run) }
{
    write!(out, "found in run {run}\n")
}

/// Writes the line of an ending that was found, by its number in the list, from 1 on.
pub fn write_found_ending<W: Write>(out: &mut W, number: usize) -> io::Result<()>
    ensures { Wrote W.contents out.old out.new result (found_ending_line number) }
{
    write!(out, "found as ending {number}\n")
}

/// Writes the line of an ending for which no run was made, by its number in the list, from 1 on.
pub fn write_without_run<W: Write>(out: &mut W, number: usize) -> io::Result<()>
    ensures { Wrote W.contents out.old out.new result (without_run_line number) }
{
    write!(out, "found as ending {number}; no run was made for it\n")
}

/// So many entries.
fn write_entries_count<W: Write>(out: &mut W, count: usize) -> io::Result<()>
    ensures { Wrote W.contents out.old out.new result (entries_text count) }
{
    let form = form_of(count, "entry", "entries");
    write!(out, "{count} {form}")
}

/// After how many entries something was found.
fn write_after<W: Write>(out: &mut W, entries: usize) -> io::Result<()>
    ensures { Wrote W.contents out.old out.new result (after_text entries) }
{
    write!(out, "found: after ")?;
    write_entries_count(out, entries)?;
    Ok(())
}

/// Writes the line of a run that comes after so many entries to where none ends.
pub fn write_no_end<W: Write>(out: &mut W, entries: usize) -> io::Result<()>
    ensures { Wrote W.contents out.old out.new result (no_end_line entries) }
{
    write_after(out, entries)?;
    write!(out, " no run ends\n")
}

/// Writes the line of a fair run that goes round for ever after so many entries.
pub fn write_for_ever<W: Write>(out: &mut W, entries: usize) -> io::Result<()>
    ensures { Wrote W.contents out.old out.new result (for_ever_line entries) }
{
    write_after(out, entries)?;
    write!(out, " a fair run goes round for ever\n")
}
