//! A search of drawn runs.
ghost use Rattle.std.specs.Prelude.{◌≡◌, OnOk, IfErr};
ghost use Rattle.replay_forms.specs.Texts.{Wrote};
ghost use Rattle.report_lines.specs.Drawn.{way_text};
ghost use Rattle.show_json.specs.Unwritten.{LeavesAs};
ghost use Rattle.report_json.specs.Drawn as specified;
ghost use Rattle.report_json.specs.Drawn.{ending_json, met_json, runs_json, coverage_json, drawn_json};
ghost use Rattle.report_json.specs.Drawn.{verdict_words, end_field, ending_fields};
ghost use Rattle.show_json.specs.Json.{json_line, list_of, text};
ghost use Rattle.show_json.specs.Sent.{Sends, SendsField, SendsFields, count};

use crate::ends::{Outcomes, put_bytes};
use crate::found::FoundObject;
use crate::raced::{RunRaces, count_races, put_races};
use search_endings::Ending;
use selection::Way;
use serde::Serializer;
use show_json::{ToJson, put, put_list, send_two, write_line};
use show_text::Unwritten;
use std::alloc::Global;
use std::io::Write;

/// An ending of the table: in how many runs it was met, in the run of which number first, and by which strategy that was
/// drawn.
#[derive(Clone, Copy)]
pub struct MetEnding<'a> {
    pub times: u64,
    pub first: u64,
    pub way: Way,
    pub ending: &'a Ending,
}

/// How many runs were made of as many as were asked for, and how many were cut at so many entries.
#[derive(Clone, Copy)]
pub struct DrawnRuns {
    pub made: u64,
    pub asked: u64,
    pub cut: u64,
    pub limit: u32,
}

/// How many endings were met first in the last half of the runs, and how many in one run alone.
#[derive(Clone, Copy)]
pub struct Coverage {
    pub late: usize,
    pub singles: usize,
}

/// Why no further run was made.
#[derive(Clone, Copy)]
pub enum DrawnEnd<'a> {
    /// One was found that is looked for.
    Found(FoundObject<'a>),
    /// It was told to end.
    Told(Coverage),
    AllMade(Coverage),
}

/// What a search of drawn runs comes to.
#[derive(Clone, Copy)]
pub struct DrawnObject<'a> {
    /// 1 where a run was found, an ending has a trap or a stop, or no run was made, and else 0.
    pub status: u8,
    pub runs: DrawnRuns,
    /// In the order of their first runs.
    pub met: &'a [MetEnding<'a>],
    /// Where a run with a race is looked for: the race of the one that was found, or that it isn't known, where no run
    /// that was made has one.
    pub races: Option<RunRaces<'a>>,
    pub halt: DrawnEnd<'a>,
}

/// How a run was drawn.
#[derive(Clone, Copy)]
struct Strategy(Way);

impl ToJson for Strategy {
    ghost json = { λ s. text (way_text s.0) };

    fn send<S: Serializer>(&self, alloc: Global, out: &mut S) -> Result<(), S::Error> {
        match self.0 {
            Way::Mix => out.str("mix"),
            Way::Random => out.str("random"),
            Way::Spin => out.str("spin"),
            Way::Priorities(depth) => match format!(in alloc; "pct:{depth}") {
                Ok(text) => out.str(text.as_str()),
                Err(_) => Err(out.custom("no memory")),
            },
        }
    }
}

fn has_some(bytes: &[u8]) -> bool
    ensures { result ≡ specified.has_some bytes.now }
{
    !bytes.is_empty()
}

fn count_fields(ending: &Ending) -> usize
    ensures { result ≡ count (ending_fields ending.now) }
{
    2 + usize::from(has_some(ending.bytes()))
}

fn put_ending<S: Serializer>(alloc: Global, out: &mut S, ending: &Ending) -> Result<(), S::Error>
    ensures { OnOk result (SendsFields (ending_fields ending.now) (S.written out.old) (S.written out.new)) }
{
    let bytes = ending.bytes();
    put(alloc, out, "threads", &Outcomes(ending.outcomes()))?;
    put(alloc, out, "pages", &ending.pages())?;
    put_bytes(alloc, out, has_some(bytes), bytes)
}

/// Sends an ending: how its threads ended, the page count, and the bytes that are looked at.
fn send_ending<S: Serializer>(alloc: Global, out: &mut S, ending: &Ending) -> Result<(), S::Error>
    ensures { OnOk result (Sends (ending_json ending.now) (S.written out.old) (S.written out.new)) }
{
    out.begin_map(Some(count_fields(ending)))?;
    put_ending(alloc, out, ending)?;
    out.end_map()
}

/// Endings in their order.
#[derive(Clone, Copy)]
pub(crate) struct Endings<'a>(pub(crate) &'a [Ending]);

impl ToJson for Endings<'_> {
    ghost json = { λ e. list_of ending_json e.0.now };

    fn send<S: Serializer>(&self, alloc: Global, out: &mut S) -> Result<(), S::Error> {
        let endings = self.0;
        out.begin_seq(Some(endings.len()))?;
        for ending in endings {
            send_ending(alloc, out, ending)?;
        }
        out.end_seq()
    }
}

impl ToJson for MetEnding<'_> {
    ghost json = { met_json };

    fn send<S: Serializer>(&self, alloc: Global, out: &mut S) -> Result<(), S::Error> {
        out.begin_map(Some(3 + count_fields(self.ending)))?;
        put(alloc, out, "times", &self.times)?;
        put(alloc, out, "first", &self.first)?;
        put(alloc, out, "strategy", &Strategy(self.way))?;
        put_ending(alloc, out, self.ending)?;
        out.end_map()
    }
}

impl ToJson for DrawnRuns {
    ghost json = { runs_json };

    fn send<S: Serializer>(&self, alloc: Global, out: &mut S) -> Result<(), S::Error> {
        out.begin_map(Some(4))?;
        put(alloc, out, "made", &self.made)?;
        put(alloc, out, "asked", &self.asked)?;
        put(alloc, out, "cut", &self.cut)?;
        put(alloc, out, "limit", &self.limit)?;
        out.end_map()
    }
}

impl ToJson for Coverage {
    ghost json = { coverage_json };

    fn send<S: Serializer>(&self, alloc: Global, out: &mut S) -> Result<(), S::Error> {
        send_two(alloc, out, ("late", &self.late), ("singles", &self.singles))
    }
}

fn verdict_of(halt: &DrawnEnd) -> &'static str
    ensures { result.now ≡ verdict_words halt.now }
{
    match halt {
        DrawnEnd::Found(_) => "found",
        DrawnEnd::Told(_) => "told",
        DrawnEnd::AllMade(_) => "all made",
    }
}

/// Sends what was found, or else the coverage.
fn put_end<S: Serializer>(alloc: Global, out: &mut S, halt: &DrawnEnd) -> Result<(), S::Error>
    ensures { OnOk result (SendsField (end_field halt.now) (S.written out.old) (S.written out.new)) }
{
    match halt {
        DrawnEnd::Found(found) => put(alloc, out, "found", found),
        DrawnEnd::Told(coverage) | DrawnEnd::AllMade(coverage) => {
            put(alloc, out, "coverage", coverage)
        }
    }
}

impl ToJson for DrawnObject<'_> {
    ghost json = { drawn_json };

    fn send<S: Serializer>(&self, alloc: Global, out: &mut S) -> Result<(), S::Error> {
        out.begin_map(Some(5 + count_races(&self.races)))?;
        put(alloc, out, "status", &self.status)?;
        put(alloc, out, "verdict", &verdict_of(&self.halt))?;
        put(alloc, out, "runs", &self.runs)?;
        put_list(alloc, out, "endings", self.met)?;
        put_races(alloc, out, &self.races)?;
        put_end(alloc, out, &self.halt)?;
        out.end_map()
    }
}

/// Writes the object of a search of drawn runs.
///
/// # Errors
/// Where memory is refused, and then nothing was written; that of the writer, and then what was written isn't said.
pub fn write_drawn<W: Write>(
    alloc: Global,
    out: &mut W,
    drawn: &DrawnObject,
) -> Result<(), Unwritten>
    ensures object { Wrote W.contents out.old out.new result (json_line (drawn_json drawn.now)) }
    ensures left { IfErr result (LeavesAs out.old out.new) }
{
    write_line(alloc, out, drawn)
}
