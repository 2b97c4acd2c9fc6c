//! Writing a record.

ghost use Rattle.std.specs.Prelude.{[]};
ghost use Rattle.replay_forms.specs.Texts.{Wrote, line, spaced, lines_text};
ghost use Rattle.replay_text.specs.Text.{record_text, name_word, version_lines, header_lines};
ghost use Rattle.replay_text.specs.Words.{reply_words, outcome_words};

use crate::end::EndLine;
use crate::entry::EntryLine;
use crate::fault::WriteFault;
use crate::parts::RecordParts;
use crate::record::Record;
use crate::value::Argument;
use crate::version::Version;
use crate::words::EventWords;
use replay_forms::{HexByte, Printed, write_items};
use std::io::{self, Write};
use types::{Entry, Outcome, Reply, ThreadReport, Value};

fn write_reply<W: Write>(writer: &mut W, reply: Reply) -> io::Result<()>
    ensures { Wrote W.contents writer.old writer.new result (line (reply_words reply) []) }
{
    match reply {
        Reply::Value(value) => write!(writer, "= {value}\n"),
        Reply::Done => writer.write_all(b"= done\n"),
        Reply::OutOfBounds => writer.write_all(b"= out\n"),
        Reply::Again => writer.write_all(b"= again\n"),
        Reply::Full => writer.write_all(b"= full\n"),
    }
}

fn write_outcome<W: Write>(writer: &mut W, outcome: Outcome) -> io::Result<()>
    ensures { Wrote W.contents writer.old writer.new result (spaced (outcome_words outcome) []) }
{
    match outcome {
        Outcome::Done(None) => writer.write_all(b"ok - "),
        Outcome::Done(Some(value)) => write!(writer, "ok {value} "),
        Outcome::Trap(trap) => {
            let number = trap.number();
            write!(writer, "trap {number} ")
        }
        Outcome::Stop(stop) => {
            let number = stop.number();
            write!(writer, "stop {number} ")
        }
    }
}

impl Printed for EntryLine {
    ghost use Rattle.std.specs.Prelude.{[]};
    ghost use Rattle.replay_forms.specs.Texts.{line};
    ghost use Rattle.replay_text.specs.Words.{entry_words};

    type Value = Entry;

    ghost piece = { λ place entry. line (entry_words entry) [] };

    fn write<W: Write>(writer: &mut W, _place: usize, entry: Entry) -> io::Result<()> {
        let thread = entry.thread;
        let event = EventWords(entry.event);
        write!(writer, "{thread} {event} ")?;
        write_reply(writer, entry.reply)
    }
}

impl Printed for EndLine {
    ghost use Rattle.std.specs.Prelude.{[]};
    ghost use Rattle.replay_forms.specs.Texts.{line};
    ghost use Rattle.replay_text.specs.Words.{end_words};

    type Value = ThreadReport;

    ghost piece = { λ place report. line (end_words place report) [] };

    fn write<W: Write>(writer: &mut W, place: usize, report: ThreadReport) -> io::Result<()> {
        write!(writer, "end {place} ")?;
        write_outcome(writer, report.outcome)?;
        let spent = report.spent;
        write!(writer, "{spent}\n")
    }
}

impl Printed for Argument {
    ghost use Rattle.std.specs.Prelude.{◌∷◌};
    ghost use Rattle.types.specs.Values.{value_text};

    type Value = Value;

    ghost piece = { λ place value. 32 ∷ value_text value };

    fn write<W: Write>(writer: &mut W, _place: usize, value: Value) -> io::Result<()> {
        write!(writer, " {value}")
    }
}

fn write_invoke<W: Write>(writer: &mut W, name: &str) -> io::Result<()>
    ensures { Wrote W.contents writer.old writer.new result (name_word name.now) }
{
    if name.is_empty() {
        return writer.write_all(b"-");
    }
    write_items::<HexByte, W>(writer, name.as_bytes())
}

/// Writes the lines that the record's version begins with.
fn write_scale<W: Write>(writer: &mut W, parts: &RecordParts) -> io::Result<()>
    ensures { Wrote W.contents writer.old writer.new result (lines_text (version_lines parts.now)) }
{
    match parts.version {
        Version::One => writer.write_all(b"wathread-record 1\n"),
        Version::Two => {
            let module_len = parts.module_len;
            let threads = parts.threads;
            let max_pages = parts.max_pages;
            write!(
                writer,
                "wathread-record 2\nmodule {module_len}\nthreads {threads}\nmax-pages {max_pages}\n"
            )
        }
    }
}

fn write_header<W: Write>(writer: &mut W, parts: &RecordParts) -> io::Result<()>
    ensures { Wrote W.contents writer.old writer.new result (lines_text (header_lines parts.now)) }
{
    write_scale(writer, parts)?;
    writer.write_all(b"invoke ")?;
    write_invoke(writer, parts.invoke.as_str())?;
    writer.write_all(b"\nargs")?;
    write_items::<Argument, W>(writer, parts.args.as_slice())?;
    let fuel = parts.fuel;
    let limit = parts.limit;
    write!(writer, "\nfuel {fuel}\nlimit {limit}\n")
}

fn write_parts<W: Write>(writer: &mut W, parts: &RecordParts) -> io::Result<()>
    ensures { Wrote W.contents writer.old writer.new result (record_text parts.now) }
{
    write_header(writer, parts)?;
    write_items::<EntryLine, W>(writer, parts.log.as_slice())?;
    write_items::<EndLine, W>(writer, parts.ends.as_slice())?;
    let pages = parts.pages;
    write!(writer, "pages {pages}\nfinish\n")
}

/// Writes the text of the record. Where it answers no error, the writer took exactly that text.
pub fn write_record<W: Write>(of: &Record, writer: &mut W) -> Result<(), WriteFault>
    ensures { Wrote W.contents writer.old writer.new result (record_text of.now) }
{
    write_parts(writer, of.parts())?;
    Ok(())
}
