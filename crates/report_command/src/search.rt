//! The job of `search`.
ghost use Rattle.std.specs.Prelude.{◌≡◌, ◌≤◌, Bool, IfOk, IfSome, codes, true};
ghost use Rattle.clap.specs.Words.{found_of};
ghost use Rattle.report_command.specs.declared.limits.TheConstants.{MOST_STATES};
ghost use Rattle.report_command.specs.Found.{HasFlag, decimal_of, is_given};
ghost use Rattle.report_command.specs.Jobs.{IsInRange};
ghost use Rattle.report_command.specs.Searches.{IsSoughtInRange};
ghost use Rattle.report_command.specs.Options.{AsksAll, AsksEffort, AsksFind, AsksNamed, AsksResult, AsksSought, AsksStates};
ghost use Rattle.report_command.specs.Options.{AsksTarget, AsksWay, IsFindOf, IsWay, names_runs, stops_by};

use crate::allowance::{Allowance, allowance_of};
use crate::call::{CallWords, call_of};
use crate::command_line::{Job, Misuse};
use crate::form::{Form, form_of};
use crate::limits::{DEFAULT_SHRINK_SECONDS, DEFAULT_STATES, FIRST_STATES};
use crate::lines::{Standing, endless_of, result_of, standing_of};
use crate::options::{
    ALL, ALLOW_RACES, DEEP, DUMP, EXPECT, FILE, FIND, FROM, JOBS, LIMIT, ORDERS, RACES, RUNS,
    SEARCH_RECORD, SEED, SHRINK, SHRINK_TIME, STATES, STRATEGY, TIME, UNTIL,
};
use crate::places::{ValueReader, decimal_in};
use crate::refusal::CommandRefusal;
use clap::ArgMatches;
use selection::{Find, MOST_DEPTH, SearchTarget, Sought, Way};
use std::alloc::Global;
use types::Outcome;

/// A search through runs of a function of a module.
#[derive(Drop)]
pub struct Search<'a> {
    /// The path of the module.
    pub file: &'a str,
    pub call: CallWords<'a>,
    /// Which runs are made, and what is looked for: their limit is 1 to 1,000,000 entries, their number and that of the
    /// first 1 to 1,000,000,000,000; 0 to 4096 bytes of the memory are printed, and told apart.
    pub sought: Sought<'a>,
    /// Whether the words say how many entries the log of a run takes: else the module may ask for more.
    pub is_limit_said: bool,
    /// Whether of what is found a run with few switches of threads is looked for.
    pub shrink: bool,
    /// For how many seconds, 1 to 1,000,000.
    pub shrink_time: u32,
    /// After how many seconds the search is told to end, if it is.
    pub time: Option<u32>,
    /// How many threads make runs; without a number as many as there are processors.
    pub jobs: Option<u32>,
    /// Where every order of entries is gone through in place of drawn runs: how many states are met at most, 1 to
    /// 1,000,000,000.
    pub all: Option<u32>,
    /// Whether that is so before runs are drawn: they are, where it settles not all.
    pub first: bool,
    /// Whether every order is gone through at once: races aren't looked for.
    pub every_order: bool,
    /// Whether they are gone through depth first.
    pub deep: bool,
    /// Whether a run with a race is looked for: of every order, or the first drawn one.
    pub races: bool,
    /// Whether the status is that of the endings alone, where there are races or it isn't known.
    pub allow_races: bool,
    /// Which accesses may race.
    pub allow: Allowance<'a>,
    /// The path of the file at which the search ends, if there is one.
    pub until: Option<&'a str>,
    /// The path of the record of what is found, if one is wanted.
    pub save: Option<&'a str>,
    /// In which form it prints.
    pub form: Form,
}

/// Strategies: `mix`, `random`, `spin`, or `pct:` with a depth of 1 to 32.
struct WayReader;

impl<'a> ValueReader<'a> for WayReader {
    type Value = Way;

    ghost reads = { IsWay };

    fn read(text: &'a str) -> Option<Way> {
        match text {
            "mix" => Some(Way::Mix),
            "random" => Some(Way::Random),
            "spin" => Some(Way::Spin),
            _ => priorities_in(text),
        }
    }
}

/// A depth in its range.
fn depth_in(text: &str) -> Option<u32>
    ensures { IfSome result (λ depth. depth ≡ decimal_of text.now) }
{
    let depth = decimal_in(text)?;
    if depth >= 1 && depth <= MOST_DEPTH {
        Some(depth)
    } else {
        None
    }
}

/// The strategy `pct:` with a depth.
fn priorities_in(text: &str) -> Option<Way>
    ensures { IfSome result (IsWay text.now) }
{
    let depth = depth_in(text.strip_prefix("pct:")?)?;
    Some(Way::Priorities(depth))
}

fn way_of(matches: &ArgMatches) -> Result<Way, CommandRefusal<'static>>
    ensures { IfOk result (AsksWay (found_of matches.now)) }
{
    match STRATEGY.value::<WayReader>(matches)? {
        Some(way) => Ok(way),
        None => Err(STRATEGY.refusal("")),
    }
}

/// What a search through every order says by words that no line of a thread can have.
fn endless_find<'a>(words: &str, is_all: bool) -> Result<Find<'a>, CommandRefusal<'static>>
    ensures { IfOk result (IsFindOf words.now) }
{
    if is_all && let Some(find) = endless_of(words) {
        return Ok(find);
    }
    Err(FIND.refusal(words))
}

/// What is looked for by words. A search through every order spends no budget.
fn find_of<'a>(
    alloc: Global,
    words: &'a str,
    is_all: bool,
) -> Result<Find<'a>, CommandRefusal<'static>>
    ensures { IfOk result (IsFindOf words.now) }
{
    if words.is_empty() {
        return Err(FIND.refusal(words));
    }
    match standing_of(alloc, words)? {
        Standing::Nowhere => endless_find(words, is_all),
        Standing::WhereSpent if is_all => Err(CommandRefusal::Conflict(Misuse::FindsNoBudget)),
        Standing::WhereSpent | Standing::Somewhere => Ok(Find::Words(words)),
    }
}

fn expect_of(
    alloc: Global,
    matches: &ArgMatches,
) -> Result<Option<Outcome>, CommandRefusal<'static>>
    ensures { IfOk result (AsksResult (found_of matches.now)) }
{
    let Some(words) = EXPECT.text_if_any(matches) else {
        return Ok(None);
    };
    match result_of(alloc, words)? {
        Some(outcome) => Ok(Some(outcome)),
        None => Err(EXPECT.refusal(words)),
    }
}

/// What is looked for in the lines of threads: a trap or a stop, where nothing is said.
fn sought_words_of<'a>(
    alloc: Global,
    matches: &ArgMatches<'a>,
) -> Result<Find<'a>, CommandRefusal<'static>>
    ensures { IfOk result (AsksFind (found_of matches.now)) }
{
    match FIND.text_if_any(matches) {
        Some(words) => find_of(alloc, words, ALL.is_set(matches)),
        None if EXPECT.is_given(matches) => Ok(Find::Nothing),
        None => Ok(Find::Failure),
    }
}

fn target_of<'a>(
    alloc: Global,
    matches: &ArgMatches<'a>,
) -> Result<SearchTarget<'a>, CommandRefusal<'static>>
    ensures { IfOk result (AsksTarget (found_of matches.now)) }
{
    let expect = expect_of(alloc, matches)?;
    let find = sought_words_of(alloc, matches)?;
    Ok(SearchTarget { find, expect })
}

/// Whether a search stops at the first run that is looked for: where it is said what that is, or what becomes of it.
fn stops(matches: &ArgMatches, shrink: bool, races: bool) -> bool
    ensures { result ≡ stops_by (found_of matches.now) shrink races }
{
    FIND.is_given(matches)
        || EXPECT.is_given(matches)
        || SEARCH_RECORD.is_given(matches)
        || shrink
        || races
}

/// Which runs are drawn, and what is looked for.
fn sought_of<'a>(
    alloc: Global,
    matches: &ArgMatches<'a>,
    shrink: bool,
    races: bool,
) -> Result<Sought<'a>, CommandRefusal<'static>>
    ensures range { IfOk result IsSoughtInRange }
    ensures asks { IfOk result (AsksSought (found_of matches.now)) }
    ensures stops { IfOk result (λ s. s.stops ≡ stops_by (found_of matches.now) shrink races) }
{
    let way = way_of(matches)?;
    if races && shrink && ALL.is_set(matches) {
        return Err(CommandRefusal::Conflict(Misuse::ShrinksRace));
    }
    let target = target_of(alloc, matches)?;
    let seed = SEED.long(matches)?;
    let from = FROM.long(matches)?;
    let runs = RUNS.long(matches)?;
    let limit = LIMIT.number(matches)?;
    let dump = DUMP.number(matches)?;
    Ok(Sought {
        way,
        seed,
        from,
        runs,
        limit,
        dump,
        target,
        stops: stops(matches, shrink, races),
    })
}

/// Whether the words say which runs are drawn.
fn names_runs(matches: &ArgMatches) -> bool
    ensures { result ≡ names_runs (found_of matches.now) }
{
    RUNS.is_said(matches)
        || FROM.is_said(matches)
        || SEED.is_said(matches)
        || STRATEGY.is_said(matches)
}

/// Whether a run is looked for by words that only lines have of threads whose units or whose record's room ran out.
fn finds_spent(alloc: Global, matches: &ArgMatches) -> Result<bool, CommandRefusal<'static>>
    ensures { IfOk result (λ is. is ≡ true → is_given (found_of matches.now) (codes "find") ≡ true) }
{
    let Some(words) = FIND.text_if_any(matches) else {
        return Ok(false);
    };
    match standing_of(alloc, words)? {
        Standing::WhereSpent => Ok(true),
        Standing::Nowhere | Standing::Somewhere => Ok(false),
    }
}

/// How many states are met at most, where every order is gone through, and whether that is so before runs are drawn.
#[derive(Clone, Copy)]
struct Through {
    all: Option<u32>,
    first: bool,
}

/// That of the words, where runs are drawn at once or aren't.
fn through_of(matches: &ArgMatches, at_once: bool) -> Result<Through, CommandRefusal<'static>>
    ensures range { IfOk result (λ t. IfSome t.all (λ states. (1 ≤ states) × (states ≤ MOST_STATES))) }
    ensures asks { IfOk result (λ t. (is : Bool) × HasFlag (found_of matches.now) (codes "all") is
        × AsksStates (found_of matches.now) is at_once t.all t.first) }
{
    if ALL.is_set(matches) {
        let states = STATES.number_or(matches, DEFAULT_STATES)?;
        return Ok(Through {
            all: Some(states),
            first: false,
        });
    }
    if at_once {
        return Ok(Through {
            all: None,
            first: false,
        });
    }
    Ok(Through {
        all: Some(FIRST_STATES),
        first: true,
    })
}

/// Whether every order is gone through, and with how many states.
fn all_of(
    alloc: Global,
    matches: &ArgMatches,
    shrink: bool,
    races: bool,
) -> Result<Through, CommandRefusal<'static>>
    ensures range { IfOk result (λ t. IfSome t.all (λ states. (1 ≤ states) × (states ≤ MOST_STATES))) }
    ensures asks { IfOk result (λ t. AsksAll (found_of matches.now) shrink races t.all t.first) }
{
    let spent = finds_spent(alloc, matches)?;
    through_of(matches, names_runs(matches) || (shrink && races) || spent)
}

/// How long a search takes, and that of smaller runs, and by how many threads.
#[derive(Clone, Copy)]
struct Effort {
    shrink_time: u32,
    time: Option<u32>,
    jobs: Option<u32>,
}

/// That of the words.
fn effort_of(matches: &ArgMatches) -> Result<Effort, CommandRefusal<'static>>
    ensures { IfOk result (λ e. AsksEffort (found_of matches.now) e.shrink_time e.time e.jobs) }
{
    let shrink_time = SHRINK_TIME.number_or(matches, DEFAULT_SHRINK_SECONDS)?;
    let time = TIME.number_if_any(matches)?;
    let jobs = JOBS.number_if_any(matches)?;
    Ok(Effort {
        shrink_time,
        time,
        jobs,
    })
}

/// The job of `search`.
///
/// # Errors
/// `Value` where an argument can't be read, `FindsNoBudget`, `ShrinksRace`, and `NoMemory`.
pub(crate) fn search_job<'a>(
    alloc: Global,
    matches: &ArgMatches<'a>,
) -> Result<Job<'a>, CommandRefusal<'static>>
    ensures range { IfOk result IsInRange }
    ensures asks { IfOk result (AsksNamed (codes "search") (found_of matches.now)) }
{
    let (shrink, races) = (SHRINK.is_set(matches), RACES.is_set(matches));
    let sought = sought_of(alloc, matches, shrink, races)?;
    let file = FILE.text(matches)?;
    let effort = effort_of(matches)?;
    let Through { all, first } = all_of(alloc, matches, shrink, races)?;
    let allow = allowance_of(alloc, matches)?;
    let call = call_of(alloc, matches)?;
    Ok(Job::Search(Search {
        file,
        call,
        sought,
        is_limit_said: LIMIT.is_said(matches),
        shrink,
        shrink_time: effort.shrink_time,
        time: effort.time,
        jobs: effort.jobs,
        all,
        first,
        every_order: ORDERS.is_word(matches, "all"),
        deep: DEEP.is_set(matches),
        races,
        allow_races: ALLOW_RACES.is_set(matches),
        allow,
        until: UNTIL.text_if_any(matches),
        save: SEARCH_RECORD.text_if_any(matches),
        form: form_of(matches),
    }))
}
