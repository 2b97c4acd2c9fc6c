//! A search through every order of entries.
ghost use Rattle.std.specs.Prelude.{◌≡◌, [], ◌∷◌, codes, OnOk, IfErr};
ghost use Rattle.replay_forms.specs.Texts.{Wrote};
ghost use Rattle.show_json.specs.Unwritten.{LeavesAs};
ghost use Rattle.report_json.specs.Complete.{cycle_json, fair_words, cycle_field, liveness_json, complete_json};
ghost use Rattle.report_json.specs.Complete.{levels_told, verdict_words};
ghost use Rattle.show_json.specs.Sent as counted;
ghost use Rattle.show_json.specs.Json.{is_given, json_line};
ghost use Rattle.show_json.specs.Sent.{SendsField};

use crate::drawn::Endings;
use crate::found::FoundObject;
use crate::raced::{RunRaces, count_races, put_races};
use search_endings::Ending;
use search_reach::{Ended, FairCycle, FairRuns, Liveness, Verdict};
use serde::Serializer;
use show_json::{ToJson, given, put, put_if, put_list, write_line};
use show_text::Unwritten;
use std::alloc::Global;
use std::io::Write;

/// What a search through every order of entries comes to.
#[derive(Clone, Copy)]
pub struct CompleteObject<'a> {
    /// 0 where there is an ending, all are there, all threads ended well, none is looked for, every state can end, every
    /// fair run ends, and no run has a race or races are allowed, and else 1.
    pub status: u8,
    /// How many states it might meet.
    pub most: u32,
    pub all: &'a Ended<Ending>,
    /// What is known of races, where that was asked.
    pub races: Option<RunRaces<'a>>,
    pub found: Option<FoundObject<'a>>,
}

/// A fair run that goes on for ever.
#[derive(Clone, Copy)]
struct CycleObject<'a>(&'a FairCycle);

impl ToJson for CycleObject<'_> {
    ghost json = { λ c. cycle_json c.0.now };

    fn send<S: Serializer>(&self, alloc: Global, out: &mut S) -> Result<(), S::Error> {
        let cycle = self.0;
        out.begin_map(Some(2))?;
        put_list(alloc, out, "threads", &cycle.threads)?;
        put(alloc, out, "states", &cycle.states)?;
        out.end_map()
    }
}

fn fair_of(fair_runs: &FairRuns) -> &'static str
    ensures { result.now ≡ fair_words fair_runs.now }
{
    match fair_runs {
        FairRuns::AllEnd => "end",
        FairRuns::GoOn(_) => "can go on",
        FairRuns::Unknown => "unknown",
    }
}

/// How many fields the fair run is that goes on for ever.
fn cycles(fair_runs: &FairRuns) -> usize
    ensures { result ≡ counted.count (cycle_field fair_runs.now ∷ []) }
{
    match fair_runs {
        FairRuns::GoOn(_) => 1,
        FairRuns::AllEnd | FairRuns::Unknown => 0,
    }
}

fn put_cycle<S: Serializer>(
    alloc: Global,
    out: &mut S,
    fair_runs: &FairRuns,
) -> Result<(), S::Error>
    ensures { OnOk result (SendsField (cycle_field fair_runs.now) (S.written out.old) (S.written out.new)) }
{
    match fair_runs {
        FairRuns::GoOn(cycle) => put(alloc, out, "cycle", &CycleObject(cycle)),
        FairRuns::AllEnd | FairRuns::Unknown => Ok(()),
    }
}

/// What never ends.
#[derive(Clone, Copy)]
struct LivenessObject<'a>(&'a Liveness);

impl ToJson for LivenessObject<'_> {
    ghost json = { λ l. liveness_json l.0.now };

    fn send<S: Serializer>(&self, alloc: Global, out: &mut S) -> Result<(), S::Error> {
        let liveness = self.0;
        out.begin_map(Some(2 + cycles(&liveness.fair_runs)))?;
        put(alloc, out, "endless", &liveness.endless.len())?;
        put(alloc, out, "fair_runs", &fair_of(&liveness.fair_runs))?;
        put_cycle(alloc, out, &liveness.fair_runs)?;
        out.end_map()
    }
}

/// Sends what never ends, where that was looked for.
fn put_liveness<S: Serializer>(
    alloc: Global,
    out: &mut S,
    liveness: &Option<Liveness>,
) -> Result<(), S::Error>
    ensures { OnOk result
        (SendsField (is_given (codes "liveness") liveness_json liveness.now) (S.written out.old) (S.written out.new)) }
{
    match liveness {
        Some(liveness) => put(alloc, out, "liveness", &LivenessObject(liveness)),
        None => Ok(()),
    }
}

fn verdict_of(verdict: Verdict) -> &'static str
    ensures { result.now ≡ verdict_words verdict }
{
    match verdict {
        Verdict::All => "all",
        Verdict::TooMany => "too many states",
        Verdict::CannotTell => "a thread spends its units without an entry",
        Verdict::Told => "told",
        Verdict::Sought => "found",
    }
}

/// Up to how many entries runs were all gone through, where not all states were met.
fn levels_of(all: &Ended<Ending>) -> Option<u32>
    ensures { result ≡ levels_told all.now.verdict all.now.levels }
{
    match all.verdict {
        Verdict::All => None,
        Verdict::TooMany | Verdict::CannotTell | Verdict::Told | Verdict::Sought => all.levels,
    }
}

impl ToJson for CompleteObject<'_> {
    ghost json = { complete_json };

    fn send<S: Serializer>(&self, alloc: Global, out: &mut S) -> Result<(), S::Error> {
        let all = self.all;
        let levels = levels_of(all);
        let more = given(&levels) + given(&all.liveness) + given(&self.found);
        out.begin_map(Some(5 + count_races(&self.races) + more))?;
        put(alloc, out, "status", &self.status)?;
        put(alloc, out, "verdict", &verdict_of(all.verdict))?;
        put(alloc, out, "states", &all.states)?;
        put(alloc, out, "most", &self.most)?;
        put_if(alloc, out, "gone_through", &levels)?;
        put(alloc, out, "endings", &Endings(all.endings.as_slice()))?;
        put_races(alloc, out, &self.races)?;
        put_liveness(alloc, out, &all.liveness)?;
        put_if(alloc, out, "found", &self.found)?;
        out.end_map()
    }
}

/// Writes the object of a search through every order of entries.
///
/// # Errors
/// Where memory is refused, and then nothing was written; that of the writer, and then what was written isn't said.
pub fn write_complete<W: Write>(
    alloc: Global,
    out: &mut W,
    complete: &CompleteObject,
) -> Result<(), Unwritten>
    ensures object { Wrote W.contents out.old out.new result (json_line (complete_json complete.now)) }
    ensures left { IfErr result (LeavesAs out.old out.new) }
{
    write_line(alloc, out, complete)
}
