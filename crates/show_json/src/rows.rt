//! The entries of a record, row by row: there may be too many for one text in memory.
ghost use Rattle.std.specs.Prelude.{◌≡◌};
ghost use Rattle.replay_forms.specs.Texts.{Wrote};
ghost use Rattle.show_text.specs.Words.{words_text};
ghost use Rattle.show_json.specs.Rows.{row_json, rows_front, separator, row_text, rows_back, rows_json, AreWhole};
ghost use Rattle.show_json.specs.Json.{json_line, text};

use crate::object::{ToJson, given, put, put_if, write_text};
use crate::places::PlaceObject;
use serde::Serializer;
use show_text::{Unwritten, Words};
use std::alloc::Global;
use std::io::{self, Write};

/// An entry: its line of the record, its words, and where it was made, if that is known.
#[derive(Clone, Copy)]
pub struct RowObject<'a> {
    pub line: u64,
    pub words: Words<'a>,
    pub place: Option<PlaceObject<'a>>,
}

impl ToJson for Words<'_> {
    ghost json = { λ w. text (words_text w) };

    fn send<S: Serializer>(&self, alloc: Global, out: &mut S) -> Result<(), S::Error> {
        match self.to_string(alloc) {
            Ok(words) => out.str(words.as_str()),
            Err(_) => Err(out.custom("no memory")),
        }
    }
}

/// An entry, with what the static data is called that it is about, if that has a name.
#[derive(Drop)]
pub struct NamedRow<'a> {
    pub row: RowObject<'a>,
    pub name: Option<String>,
}

impl ToJson for NamedRow<'_> {
    ghost json = { row_json };

    fn send<S: Serializer>(&self, alloc: Global, out: &mut S) -> Result<(), S::Error> {
        let RowObject { line, words, place } = self.row;
        out.begin_map(Some(3 + given(&self.name) + given(&place)))?;
        put(alloc, out, "line", &line)?;
        put(alloc, out, "thread", &words.entry.thread)?;
        put(alloc, out, "words", &words)?;
        put_if(alloc, out, "data", &self.name)?;
        put_if(alloc, out, "at", &place)?;
        out.end_map()
    }
}

/// Begins the object of the entries of a record. Behind it come `write_row` for each row, and `end_rows`.
///
/// # Errors
/// That of the writer, and then what was written isn't said.
pub fn begin_rows<W: Write>(out: &mut W) -> io::Result<()>
    ensures { Wrote W.contents out.old out.new result rows_front }
{
    out.write_all(b"{\"status\":0,\"rows\":[")
}

/// Writes what separates a row from the one before it.
fn write_separator<W: Write>(out: &mut W, is_first: bool) -> io::Result<()>
    ensures { Wrote W.contents out.old out.new result (separator is_first) }
{
    if is_first {
        return Ok(());
    }
    out.write_all(b",")
}

/// Writes a row of the object.
///
/// # Errors
/// Where memory is refused; that of the writer, and then what was written isn't said.
pub fn write_row<W: Write>(
    alloc: Global,
    out: &mut W,
    is_first: bool,
    row: &NamedRow,
) -> Result<(), Unwritten>
    ensures { Wrote W.contents out.old out.new result (row_text is_first row.now) }
{
    write_separator(out, is_first)?;
    write_text(alloc, out, row)
}

/// Ends the object.
///
/// # Errors
/// That of the writer, and then what was written isn't said.
pub fn end_rows<W: Write>(out: &mut W) -> io::Result<()>
    ensures { Wrote W.contents out.old out.new result rows_back }
{
    out.write_all(b"]}\n")?;
    out.flush()
}

/// What is written so is the line of one object with all rows.
pub fn the_rows_are_one_object()
    ensures { AreWhole }
{}

/// Writes the object of these entries of a record.
///
/// # Errors
/// Where memory is refused; that of the writer, and then what was written isn't said.
pub fn write_rows<W: Write>(alloc: Global, out: &mut W, rows: &[NamedRow]) -> Result<(), Unwritten>
    ensures { Wrote W.contents out.old out.new result (json_line (rows_json rows.now)) }
{
    begin_rows(out)?;
    let mut is_first = true;
    for row in rows {
        write_row(alloc, out, is_first, row)?;
        is_first = false;
    }
    end_rows(out)?;
    Ok(())
}
