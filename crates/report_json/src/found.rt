//! What a search found.
ghost use Rattle.std.specs.Prelude.{OnOk};
ghost use Rattle.report_json.specs.Found as specified;
ghost use Rattle.report_json.specs.Found.{size_json, shrunk_json, found_json};
ghost use Rattle.show_json.specs.Sent.{SendsField};

use crate::ends::RunEndObject;
use serde::Serializer;
use show_json::{ToJson, given, put, put_if, send_two};
use std::alloc::Global;

/// As what something was found.
#[derive(Clone, Copy)]
pub enum FoundAs {
    /// The drawn run of this number.
    Run(u64),
    /// The ending of this number in the list, from 1 on.
    Ending(usize),
    /// A run that comes after so many entries to where no run ends.
    NoEndAfter(usize),
    /// A fair run that goes round for ever after so many entries.
    ForEverAfter(usize),
}

/// How large a run is.
#[derive(Clone, Copy)]
pub struct RunSize {
    pub entries: usize,
    pub switches: usize,
}

/// How large a run was, and how large the one is that took its place.
#[derive(Clone, Copy)]
pub struct Shrunk {
    pub before: RunSize,
    pub after: RunSize,
}

/// What a search found.
#[derive(Clone, Copy)]
pub struct FoundObject<'a> {
    pub found_as: FoundAs,
    /// Where the run was shrunk.
    pub shrunk: Option<Shrunk>,
    /// How the run ended that was made of it, if one was made.
    pub run: Option<RunEndObject<'a>>,
}

fn put_found_as<S: Serializer>(
    alloc: Global,
    out: &mut S,
    found_as: FoundAs,
) -> Result<(), S::Error>
    ensures { OnOk result (SendsField (specified.found_as found_as) (S.written out.old) (S.written out.new)) }
{
    match found_as {
        FoundAs::Run(number) => put(alloc, out, "run", &number),
        FoundAs::Ending(number) => put(alloc, out, "ending", &number),
        FoundAs::NoEndAfter(entries) => put(alloc, out, "no_end_after", &entries),
        FoundAs::ForEverAfter(entries) => put(alloc, out, "for_ever_after", &entries),
    }
}

impl ToJson for RunSize {
    ghost json = { size_json };

    fn send<S: Serializer>(&self, alloc: Global, out: &mut S) -> Result<(), S::Error> {
        send_two(
            alloc,
            out,
            ("entries", &self.entries),
            ("switches", &self.switches),
        )
    }
}

impl ToJson for Shrunk {
    ghost json = { shrunk_json };

    fn send<S: Serializer>(&self, alloc: Global, out: &mut S) -> Result<(), S::Error> {
        send_two(alloc, out, ("before", &self.before), ("after", &self.after))
    }
}

impl ToJson for FoundObject<'_> {
    ghost json = { found_json };

    fn send<S: Serializer>(&self, alloc: Global, out: &mut S) -> Result<(), S::Error> {
        out.begin_map(Some(1 + given(&self.shrunk) + given(&self.run)))?;
        put_found_as(alloc, out, self.found_as)?;
        put_if(alloc, out, "shrunk", &self.shrunk)?;
        put_if(alloc, out, "end", &self.run)?;
        out.end_map()
    }
}
