//! What threads say, of a record that is shown.
ghost use Rattle.std.specs.Prelude.{◌≡◌, OnOk};
ghost use Rattle.std.specs.Io.KnownBytes.{Appends};
ghost use Rattle.replay_forms.specs.Texts.{Wrote};
ghost use Rattle.report_looks.specs.Chosen as specified;
ghost use Rattle.report_looks.specs.Saying as of_record;
ghost use Rattle.report_looks.specs.Saying.{row_if, said_row, said_rows, WritesSaidIf};

use crate::wanted::Here;
use replay_text::RecordParts;
use report_jobs::write_said_line;
use selection::Choice;
use show_said::Said;
use show_text::Unwritten;
use std::io::{self, Write};

/// Which of what threads say is shown.
#[derive(Clone, Copy)]
pub(crate) enum SaidPart<'l> {
    /// What ended with the entries that are chosen.
    Chosen(&'l Choice),
    /// What was said before a moment.
    Before(Here),
}

/// Whether all entries are chosen.
pub(crate) fn chooses_all(choice: &Choice) -> bool
    ensures { result ≡ specified.chooses_all choice.now }
{
    choice.lines.is_none() && choice.addrs.is_none() && choice.threads.is_empty()
}

/// Whether what a thread says is shown where these entries are chosen: with the entry with which it ended, and where all
/// are, if nothing ended it.
fn is_shown(parts: &RecordParts, choice: &Choice, said: &Said) -> bool
    ensures { result ≡ of_record.is_shown parts.now choice.now said.now }
{
    let first = parts.version.header_lines() + 1;
    match parts
        .log
        .as_slice()
        .get((said.line as usize).saturating_sub(first))
    {
        Some(entry) => choice.has(said.line, entry),
        None => chooses_all(choice),
    }
}

/// Whether a thread said it before a moment, or that is the end.
fn is_before(parts: &RecordParts, here: Here, said: &Said) -> bool
    ensures { result ≡ of_record.is_before parts.now here said.now }
{
    let first = parts.version.header_lines() + 1;
    here.is_end || (said.line as usize).saturating_sub(first) < here.place
}

/// Whether what a thread says is shown.
fn is_told(parts: &RecordParts, part: SaidPart, said: &Said) -> bool
    ensures { result ≡ of_record.is_told parts.now part.entry said.now }
{
    match part {
        SaidPart::Chosen(choice) => is_shown(parts, choice, said),
        SaidPart::Before(here) => is_before(parts, here, said),
    }
}

/// Writes a row of what a thread says.
fn write_row<W: Write>(out: &mut W, said: &Said) -> io::Result<()>
    ensures { Wrote W.contents out.old out.new result (said_row said.now) }
{
    let line = said.line;
    write!(out, "{line}  ")?;
    write_said_line(out, said)
}

fn write_if<W: Write>(out: &mut W, is_told: bool, said: &Said) -> io::Result<()>
    ensures { Wrote W.contents out.old out.new result (row_if is_told said.now) }
{
    if !is_told {
        return Ok(());
    }
    write_row(out, said)
}

/// Writes a row for each line that is shown of what threads say.
fn write_each<W: Write>(
    out: &mut W,
    parts: &RecordParts,
    part: SaidPart,
    all: &[Said],
) -> io::Result<()>
    ensures { Wrote W.contents out.old out.new result
        (said_rows (of_record.is_told parts.now part.entry) all.now) }
{
    for said in all {
        write_if(out, is_told(parts, part, said), said)?;
    }
    Ok(())
}

/// The same, where memory may be refused to others.
pub(crate) fn write_told<W: Write>(
    out: &mut W,
    parts: &RecordParts,
    part: SaidPart,
    all: &[Said],
) -> Result<(), Unwritten>
    ensures { OnOk result (Appends (W.contents out.old) (W.contents out.new)
        (said_rows (of_record.is_told parts.now part.entry) all.now)) }
{
    match write_each(out, parts, part, all) {
        Ok(()) => Ok(()),
        Err(_) => Err(Unwritten::Output),
    }
}

/// Writes what was said before a moment, where that is wanted.
pub(crate) fn write_before<W: Write>(
    out: &mut W,
    parts: &RecordParts,
    here: Here,
    all: &[Said],
) -> Result<(), Unwritten>
    ensures { OnOk result (WritesSaidIf here.text (of_record.is_before parts.now here) all.now
        (W.contents out.old) (W.contents out.new)) }
{
    if !here.text {
        return Ok(());
    }
    write_told(out, parts, SaidPart::Before(here), all)
}
