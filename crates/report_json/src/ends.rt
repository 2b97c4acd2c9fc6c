//! How threads and runs end.
ghost use Rattle.std.specs.Prelude.{◌≡◌, [], ◌∷◌, OnOk, IfOk, take, nat_lt, IfErr};
ghost use Rattle.std.specs.List.{list_all};
ghost use Rattle.replay_forms.specs.Texts.{Wrote};
ghost use Rattle.search_endings.specs.Ends as specified;
ghost use Rattle.search_endings.specs.Ends.{status_of};
ghost use Rattle.show_json.specs.Unwritten.{LeavesAs};
ghost use Rattle.report_json.specs.Ends as ends;
ghost use Rattle.report_json.specs.Ends.{bytes_field, run_json};
ghost use Rattle.report_json.specs.Ends.{threads_json, outcomes_json, thread_fields, ended_json};
ghost use Rattle.show_json.specs.Json.{json_line, object_of};
ghost use Rattle.show_json.specs.Sent.{Sends, SendsField};

use crate::said::put_said;
use search_endings::is_done;
use serde::Serializer;
use show_json::{
    Hex, PlaceObject, ToJson, given, put, put_if, put_some, send_two, some, write_line,
};
use show_said::Said;
use show_text::Unwritten;
use std::alloc::Global;
use std::io::Write;
use types::{Outcome, ThreadReport};

/// Sends a thread of a run: its number, how it ended, what it spent, and where it stood, if that is known.
fn send_thread<S: Serializer>(
    alloc: Global,
    out: &mut S,
    thread: usize,
    report: ThreadReport,
    place: Option<PlaceObject>,
) -> Result<(), S::Error>
    ensures { OnOk result
        (Sends (object_of (thread_fields thread report place.entry)) (S.written out.old) (S.written out.new)) }
{
    out.begin_map(Some(3 + given(&place)))?;
    put(alloc, out, "thread", &thread)?;
    put(alloc, out, "outcome", &report.outcome)?;
    put(alloc, out, "units", &report.spent)?;
    put_if(alloc, out, "at", &place)?;
    out.end_map()
}

fn place_at<'a>(places: &[Option<PlaceObject<'a>>], thread: usize) -> Option<PlaceObject<'a>>
    ensures { result ≡ ends.place_at places.now thread }
{
    match places.get(thread) {
        Some(place) => *place,
        None => None,
    }
}

/// The threads of a run, from thread 0 on, and the places that are known of them.
#[derive(Clone, Copy)]
struct Threads<'a> {
    places: &'a [Option<PlaceObject<'a>>],
    reports: &'a [ThreadReport],
}

impl ToJson for Threads<'_> {
    ghost json = { λ t. threads_json t.places.now t.reports.now };

    fn send<S: Serializer>(&self, alloc: Global, out: &mut S) -> Result<(), S::Error> {
        let Threads { places, reports } = *self;
        out.begin_seq(Some(reports.len()))?;
        for (thread, report) in reports.iter().enumerate() {
            send_thread(alloc, out, thread, *report, place_at(places, thread))?;
        }
        out.end_seq()
    }
}

fn send_ended<S: Serializer>(
    alloc: Global,
    out: &mut S,
    thread: usize,
    outcome: Outcome,
) -> Result<(), S::Error>
    ensures { OnOk result (Sends (ended_json thread outcome) (S.written out.old) (S.written out.new)) }
{
    send_two(alloc, out, ("thread", &thread), ("outcome", &outcome))
}

/// How the threads of an ending have ended, from thread 0 on.
#[derive(Clone, Copy)]
pub(crate) struct Outcomes<'a>(pub(crate) &'a [Outcome]);

impl ToJson for Outcomes<'_> {
    ghost json = { λ o. outcomes_json o.0.now };

    fn send<S: Serializer>(&self, alloc: Global, out: &mut S) -> Result<(), S::Error> {
        let outcomes = self.0;
        out.begin_seq(Some(outcomes.len()))?;
        for (thread, outcome) in outcomes.iter().enumerate() {
            send_ended(alloc, out, thread, *outcome)?;
        }
        out.end_seq()
    }
}

/// Sends the field of bytes, where they are wanted.
pub(crate) fn put_bytes<S: Serializer>(
    alloc: Global,
    out: &mut S,
    is_wanted: bool,
    bytes: &[u8],
) -> Result<(), S::Error>
    ensures { OnOk result
        (SendsField (bytes_field is_wanted bytes.now) (S.written out.old) (S.written out.new)) }
{
    if !is_wanted {
        return Ok(());
    }
    put(alloc, out, "bytes", &Hex(bytes))
}

/// So many first bytes, or all if there are fewer.
fn first_bytes(dump: u32, bytes: &[u8]) -> &[u8]
    ensures { result.now ≡ take dump bytes.now }
{
    &bytes[..bytes.len().min(dump as usize)]
}

fn all_done(reports: &[ThreadReport]) -> bool
    ensures { result ≡ list_all (λ r. specified.is_done r.outcome) reports.now }
{
    reports.iter().all(|report| is_done(report.outcome))
}

/// The status of a run: 0 where all threads ended well, and otherwise 1.
pub fn status_of(reports: &[ThreadReport]) -> u8
    ensures { result ≡ status_of reports.now }
{
    u8::from(!all_done(reports))
}

/// How a run ended.
#[derive(Clone, Copy)]
pub struct RunEndObject<'a> {
    /// From thread 0 on.
    pub threads: &'a [ThreadReport],
    /// Where threads stood as they ended, as far as that is known, from thread 0 on.
    pub places: &'a [Option<PlaceObject<'a>>],
    pub pages: u32,
    /// How many first bytes are printed, or all if there are fewer; none and no field where it is 0.
    pub dump: u32,
    pub bytes: &'a [u8],
    /// What the threads said, where that is asked for; no field where it is nothing.
    pub said: &'a [Said],
    /// What to do about threads that were stopped.
    pub hints: &'a [&'a str],
}

impl ToJson for RunEndObject<'_> {
    ghost json = { run_json };

    fn send<S: Serializer>(&self, alloc: Global, out: &mut S) -> Result<(), S::Error> {
        let RunEndObject {
            threads: reports,
            places,
            pages,
            dump,
            bytes,
            said,
            hints,
        } = *self;
        let is_wanted = 0 < dump;
        out.begin_map(Some(3 + usize::from(is_wanted) + some(said) + some(hints)))?;
        put(alloc, out, "status", &status_of(reports))?;
        put(alloc, out, "threads", &Threads { places, reports })?;
        put(alloc, out, "pages", &pages)?;
        put_bytes(alloc, out, is_wanted, first_bytes(dump, bytes))?;
        put_said(alloc, out, said)?;
        put_some(alloc, out, "hints", hints)?;
        out.end_map()
    }
}

/// Writes the object of a run that ended, and answers its status: 0 where all threads ended well, and otherwise 1.
///
/// # Errors
/// Where memory is refused, and then nothing was written; that of the writer, and then what was written isn't said. So
/// of each function here.
pub fn write_run<W: Write>(alloc: Global, out: &mut W, end: &RunEndObject) -> Result<u8, Unwritten>
    ensures object { Wrote W.contents out.old out.new result (json_line (run_json end.now)) }
    ensures left { IfErr result (LeavesAs out.old out.new) }
    ensures status { IfOk result (λ status. status ≡ status_of end.now.threads.now) }
{
    write_line(alloc, out, end)?;
    Ok(status_of(end.threads))
}
