//! The arguments of all commands, as they are read.

use crate::arguments::NamedArgument;
use crate::kinds::ArgumentKind;
use crate::limits::{
    MOST_DUMP, MOST_JOBS, MOST_RACES, MOST_RUNS, MOST_SECONDS, MOST_SEED, MOST_STATES, NARROWEST,
    WIDEST,
};
use types::{MOST_FUEL, MOST_LIMIT};

type Fixed = NamedArgument<'static>;

/// An argument: its name, what help calls its value, and its kind.
macro_rules! argument {
    ($name:literal $value:literal, $kind:expr) => {
        NamedArgument {
            name: $name,
            value_name: $value,
            kind: $kind,
        }
    };
}

pub(crate) const FILE: Fixed = argument!("file" "FILE", ArgumentKind::Text);

pub(crate) const RECORD: Fixed = argument!("record" "RECORD", ArgumentKind::Text);

pub(crate) const INVOKE: Fixed = argument!("invoke" "NAME", ArgumentKind::Text);

pub(crate) const MEMORY: Fixed =
    argument!("memory" "KIND", ArgumentKind::Word(&["locked", "words"]));

pub(crate) const MEMORY_IN: Fixed = argument!("memory-in" "FILE2[@ADDR]", ArgumentKind::MemoryFile);

pub(crate) const MEMORY_OUT: Fixed = argument!("memory-out" "OUT2", ArgumentKind::Text);

pub(crate) const RUN_RECORD: Fixed = argument!("record" "OUT", ArgumentKind::Text);

pub(crate) const RUNS: Fixed = argument!("runs" "N", ArgumentKind::Long(1, MOST_RUNS));

pub(crate) const FROM: Fixed = argument!("from" "I", ArgumentKind::Long(1, MOST_RUNS));

pub(crate) const SEED: Fixed = argument!("seed" "S", ArgumentKind::Long(0, MOST_SEED));

pub(crate) const STRATEGY: Fixed = argument!("strategy" "WAY", ArgumentKind::Way);

pub(crate) const JOBS: Fixed = argument!("jobs" "N", ArgumentKind::Number(1, MOST_JOBS));

pub(crate) const ALL: Fixed = argument!("all" "", ArgumentKind::Flag);

pub(crate) const STATES: Fixed = argument!("states" "N", ArgumentKind::Number(1, MOST_STATES));

pub(crate) const ORDERS: Fixed =
    argument!("orders" "WHICH", ArgumentKind::Word(&["needed", "all"]));

pub(crate) const DEEP: Fixed = argument!("deep" "", ArgumentKind::Flag);

pub(crate) const RACES: Fixed = argument!("races" "", ArgumentKind::Flag);

pub(crate) const ALLOW_RACES: Fixed = argument!("allow-races" "", ArgumentKind::Flag);

pub(crate) const ALLOW_RACE: Fixed = argument!("allow-race" "A[-B],..", ArgumentKind::Addresses);

pub(crate) const ALLOW_MIXED: Fixed = argument!("allow-mixed" "", ArgumentKind::Flag);

pub(crate) const FIND: Fixed = argument!("find" "WORDS", ArgumentKind::Words);

pub(crate) const EXPECT: Fixed = argument!("expect" "RESULT", ArgumentKind::Outcome);

pub(crate) const SEARCH_RECORD: Fixed = argument!("record" "OUT", ArgumentKind::Text);

pub(crate) const SHRINK: Fixed = argument!("shrink" "", ArgumentKind::Flag);

pub(crate) const SHRINK_TIME: Fixed =
    argument!("shrink-time" "SECONDS", ArgumentKind::Number(1, MOST_SECONDS));

pub(crate) const TIME: Fixed = argument!("time" "SECONDS", ArgumentKind::Number(1, MOST_SECONDS));

pub(crate) const UNTIL: Fixed = argument!("until" "PATH", ArgumentKind::Text);

pub(crate) const FUEL: Fixed = argument!("fuel" "N", ArgumentKind::Long(0, MOST_FUEL));

pub(crate) const LIMIT: Fixed = argument!("limit" "N", ArgumentKind::Number(1, MOST_LIMIT));

pub(crate) const DUMP: Fixed = argument!("dump" "N", ArgumentKind::Number(0, MOST_DUMP));

pub(crate) const UNITS: Fixed = argument!("units" "", ArgumentKind::Flag);

pub(crate) const TEXT: Fixed = argument!("text" "", ArgumentKind::Flag);

pub(crate) const LINES: Fixed = argument!("lines" "A-B,..", ArgumentKind::Spans);

pub(crate) const THREADS: Fixed = argument!("thread" "T,..", ArgumentKind::Threads);

pub(crate) const ADDRESSES: Fixed = argument!("addr" "A[-B],..", ArgumentKind::Addresses);

pub(crate) const UNFOLD: Fixed = argument!("unfold" "", ArgumentKind::Flag);

pub(crate) const MOST: Fixed = argument!("most" "N", ArgumentKind::Number(1, MOST_RACES));

pub(crate) const NAMES: Fixed = argument!("names" "FILE2", ArgumentKind::Text);

pub(crate) const SOURCE: Fixed = argument!("source" "DIR", ArgumentKind::Text);

pub(crate) const WIDTH: Fixed = argument!("width" "N", ArgumentKind::Number(NARROWEST, WIDEST));

pub(crate) const COLOR: Fixed =
    argument!("color" "WHEN", ArgumentKind::Word(&["auto", "always", "never"]));

pub(crate) const AT: Fixed = argument!("at" "LINE", ArgumentKind::Moment);

pub(crate) const BYTES: Fixed = argument!("dump" "A:N", ArgumentKind::Bytes);

pub(crate) const RAW: Fixed = argument!("raw" "", ArgumentKind::Flag);

pub(crate) const LAST_WRITE: Fixed = argument!("last-write" "A[:N]", ArgumentKind::Written);

pub(crate) const HTML: Fixed = argument!("html" "OUT", ArgumentKind::Text);

pub(crate) const TRACE: Fixed = argument!("trace" "OUT", ArgumentKind::Text);

pub(crate) const JSON: Fixed = argument!("json" "", ArgumentKind::Flag);

pub(crate) const EXPLAIN: Fixed = argument!("explain" "", ArgumentKind::Flag);

pub(crate) const NO_EXPLAIN: Fixed = argument!("no-explain" "", ArgumentKind::Flag);

pub(crate) const ARGS: Fixed = argument!("args" "ARG", ArgumentKind::Text);
