//! The races of a record.
ghost use Rattle.std.specs.Prelude.{◌≡◌, ◌&&◌, IfErr};
ghost use Rattle.replay_forms.specs.Texts.{Wrote};
ghost use Rattle.show_json.specs.Unwritten.{LeavesAs};
ghost use Rattle.show_json.specs.Rows as specified;
ghost use Rattle.show_json.specs.Rows.{entry_json, write_json, pair_json, races_json};
ghost use Rattle.show_json.specs.Json.{json_line};

use crate::object::{ToJson, given, put, put_if, put_list, send_two, write_line};
use crate::rows::RowObject;
use serde::Serializer;
use show_text::Unwritten;
use std::alloc::Global;
use std::io::Write;

/// An entry that races.
#[derive(Clone, Copy)]
pub struct RaceEntry<'a> {
    pub row: RowObject<'a>,
    /// Whether an atomic instruction made it.
    pub is_atomic: bool,
    /// The first byte that it touches, and how many; a grow touches none.
    pub addr: u64,
    pub width: u8,
}

/// The next atomic write of the thread whose entry comes first, of bytes or at another location.
#[derive(Clone, Copy)]
pub struct NextWrite {
    /// Its line of the record.
    pub line: u64,
    /// Whether it stands before the second entry.
    pub is_between: bool,
}

/// Two entries that race, the earlier one first.
#[derive(Clone, Copy)]
pub struct RacePair<'a> {
    /// Whether one looks at the number of pages, which the other changes.
    pub is_of_pages: bool,
    pub first: RaceEntry<'a>,
    pub second: RaceEntry<'a>,
    /// If the first one's thread makes one behind it.
    pub next_write: Option<NextWrite>,
}

/// The races of a record.
#[derive(Clone, Copy)]
pub struct RacePairs<'a> {
    pub pairs: &'a [RacePair<'a>],
    /// There may be more.
    pub is_cut: bool,
}

impl ToJson for RaceEntry<'_> {
    ghost json = { entry_json };

    fn send<S: Serializer>(&self, alloc: Global, out: &mut S) -> Result<(), S::Error> {
        let RowObject { line, words, place } = self.row;
        out.begin_map(Some(6 + given(&place)))?;
        put(alloc, out, "line", &line)?;
        put(alloc, out, "thread", &words.entry.thread)?;
        put(alloc, out, "words", &words)?;
        put(alloc, out, "atomic", &self.is_atomic)?;
        put(alloc, out, "address", &self.addr)?;
        put(alloc, out, "width", &self.width)?;
        put_if(alloc, out, "at", &place)?;
        out.end_map()
    }
}

impl ToJson for NextWrite {
    ghost json = { write_json };

    fn send<S: Serializer>(&self, alloc: Global, out: &mut S) -> Result<(), S::Error> {
        send_two(
            alloc,
            out,
            ("line", &self.line),
            ("between", &self.is_between),
        )
    }
}

fn both(one: bool, other: bool) -> bool
    ensures { result ≡ (one && other) }
{
    one && other
}

impl ToJson for RacePair<'_> {
    ghost json = { pair_json };

    fn send<S: Serializer>(&self, alloc: Global, out: &mut S) -> Result<(), S::Error> {
        let is_mixed = both(self.first.is_atomic, self.second.is_atomic);
        out.begin_map(Some(4 + given(&self.next_write)))?;
        put(alloc, out, "mixed", &is_mixed)?;
        put(alloc, out, "pages", &self.is_of_pages)?;
        put(alloc, out, "first", &self.first)?;
        put(alloc, out, "second", &self.second)?;
        put_if(alloc, out, "next_write", &self.next_write)?;
        out.end_map()
    }
}

/// The status of races: 1 where there is one, and else 0.
fn status_of(pairs: &[RacePair]) -> u8
    ensures { result ≡ specified.races_status pairs.now }
{
    if pairs.is_empty() { 0 } else { 1 }
}

impl ToJson for RacePairs<'_> {
    ghost json = { races_json };

    fn send<S: Serializer>(&self, alloc: Global, out: &mut S) -> Result<(), S::Error> {
        out.begin_map(Some(3))?;
        put(alloc, out, "status", &status_of(self.pairs))?;
        put_list(alloc, out, "races", self.pairs)?;
        put(alloc, out, "more", &self.is_cut)?;
        out.end_map()
    }
}

/// Writes the object of a record's races.
///
/// # Errors
/// Where memory is refused, and then nothing was written; that of the writer, and then what was written isn't said.
pub fn write_races<W: Write>(alloc: Global, out: &mut W, races: &RacePairs) -> Result<(), Unwritten>
    ensures object { Wrote W.contents out.old out.new result (json_line (races_json races.now)) }
    ensures left { IfErr result (LeavesAs out.old out.new) }
{
    write_line(alloc, out, races)
}
