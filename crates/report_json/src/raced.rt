//! What a search says of races.
ghost use Rattle.std.specs.Prelude.{◌≡◌, OnOk};
ghost use Rattle.report_json.specs.Raced as specified;
ghost use Rattle.report_json.specs.Raced.{racing_json, races_fields};
ghost use Rattle.show_json.specs.Sent.{SendsField, SendsFields, count};

use serde::Serializer;
use show_json::{RacePair, ToJson, put, send_two};
use std::alloc::Global;

/// Two threads that race in some run.
#[derive(Clone, Copy)]
pub struct RacingThreads {
    pub one: usize,
    pub other: usize,
}

/// What is known of the races of all runs.
#[derive(Clone, Copy)]
pub enum RunRaces<'a> {
    /// No run has one, and none waits with a timeout.
    Never,
    /// No run has one, but for what comes behind waits with a timeout.
    OnlyBehindTimeouts,
    /// A run that was made has this one.
    Found(RacePair<'a>),
    /// These threads race in some run; none was made in which they do.
    Between(RacingThreads),
    /// Whether one has isn't known.
    Unknown,
}

impl ToJson for RacingThreads {
    ghost json = { racing_json };

    fn send<S: Serializer>(&self, alloc: Global, out: &mut S) -> Result<(), S::Error> {
        send_two(
            alloc,
            out,
            ("thread", &self.one),
            ("other_thread", &self.other),
        )
    }
}

fn words_of(races: &RunRaces) -> &'static str
    ensures { result.now ≡ specified.races_words races.now }
{
    match races {
        RunRaces::Never => "never",
        RunRaces::OnlyBehindTimeouts => "only behind timeouts",
        RunRaces::Found(_) | RunRaces::Between(_) => "found",
        RunRaces::Unknown => "unknown",
    }
}

/// How many fields what is known of races is.
pub(crate) fn count_races(races: &Option<RunRaces>) -> usize
    ensures { result ≡ count (races_fields races.now) }
{
    match races {
        Some(RunRaces::Found(_)) | Some(RunRaces::Between(_)) => 2,
        Some(RunRaces::Never) | Some(RunRaces::OnlyBehindTimeouts) | Some(RunRaces::Unknown) => 1,
        None => 0,
    }
}

/// Sends whether there are races, where that is asked.
fn put_words<S: Serializer>(
    alloc: Global,
    out: &mut S,
    races: &Option<RunRaces>,
) -> Result<(), S::Error>
    ensures { OnOk result (SendsField (specified.words_field races.now) (S.written out.old) (S.written out.new)) }
{
    match races {
        Some(races) => put(alloc, out, "races", &words_of(races)),
        None => Ok(()),
    }
}

/// Sends the race that was found, where one was.
fn put_race<S: Serializer>(
    alloc: Global,
    out: &mut S,
    races: &Option<RunRaces>,
) -> Result<(), S::Error>
    ensures { OnOk result (SendsField (specified.race_field races.now) (S.written out.old) (S.written out.new)) }
{
    match races {
        Some(RunRaces::Found(pair)) => put(alloc, out, "race", pair),
        Some(RunRaces::Between(threads)) => put(alloc, out, "race", threads),
        Some(RunRaces::Never)
        | Some(RunRaces::OnlyBehindTimeouts)
        | Some(RunRaces::Unknown)
        | None => Ok(()),
    }
}

/// Sends what is known of races, where that is asked.
pub(crate) fn put_races<S: Serializer>(
    alloc: Global,
    out: &mut S,
    races: &Option<RunRaces>,
) -> Result<(), S::Error>
    ensures { OnOk result (SendsFields (races_fields races.now) (S.written out.old) (S.written out.new)) }
{
    put_words(alloc, out, races)?;
    put_race(alloc, out, races)
}
