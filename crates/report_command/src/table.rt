//! The table of arguments: which commands take each, and what help says of it, in the order of the help.

use crate::arguments::NamedArgument;
use crate::commands::CommandName;
use crate::options::{
    ADDRESSES, ALL, ALLOW_MIXED, ALLOW_RACE, ALLOW_RACES, ARGS, AT, BYTES, COLOR, DEEP, DUMP,
    EXPECT, EXPLAIN, FILE, FIND, FROM, FUEL, HTML, INVOKE, JOBS, JSON, LAST_WRITE, LIMIT, LINES,
    MEMORY, MEMORY_IN, MEMORY_OUT, MOST, NAMES, NO_EXPLAIN, ORDERS, RACES, RAW, RECORD, RUN_RECORD,
    RUNS, SEARCH_RECORD, SEED, SHRINK, SHRINK_TIME, SOURCE, STATES, STRATEGY, TEXT, THREADS, TIME,
    TRACE, UNFOLD, UNITS, UNTIL, WIDTH,
};

/// Where an argument stands among the words.
#[derive(Clone, Copy)]
pub(crate) enum Position {
    /// At a place of its own, which has to be filled.
    Own,
    /// At the last place: all words that are left.
    Rest,
    /// Behind its name.
    Option,
    /// Behind its name, and it has to be there.
    Required,
}

/// An argument of commands.
#[derive(Clone, Copy)]
pub(crate) struct CommandArgument<'r> {
    pub argument: NamedArgument<'r>,
    /// What help says of it.
    pub help: &'r str,
    pub position: Position,
    /// The commands that take it.
    pub commands: &'r [CommandName],
    /// Its values where it isn't given.
    pub defaults: &'r [&'r str],
    /// The arguments that can't stand beside it.
    pub conflicts: &'r [&'r str],
    /// The arguments without which it can't stand.
    pub needs: &'r [&'r str],
    /// Whether usage and the list of options leave it out.
    pub is_hidden: bool,
}

type OptionRow = CommandArgument<'static>;

/// An option that goes with all others, and that no command takes yet.
const OPTION: OptionRow = CommandArgument {
    argument: FILE,
    help: "",
    position: Position::Option,
    commands: &[],
    defaults: &[],
    conflicts: &[],
    needs: &[],
    is_hidden: false,
};

/// A row of the table: the argument, the commands that take it, what help says of it, and in what else it isn't as
/// `OPTION`.
macro_rules! row {
    ($argument:expr, for [$($command:ident),*], $help:expr $(, $field:ident: $is:expr)*) => {
        CommandArgument {
            argument: $argument,
            help: $help,
            commands: &[$(CommandName::$command),*],
            $($field: $is,)*
            ..OPTION
        }
    };
}

/// What the option is for that ends a search. The launcher adds this option to the words of every search: what is said of
/// words that are wrong is the same with it and without, since usage lines leave it out. So does the list of options, and
/// the help's last line has it.
pub(crate) const UNTIL_HELP: &str =
    "With --until PATH it ends once there is a file with this path, and prints what it met so far.";

/// What is run, and with what memory.
pub(crate) static OF_A_RUN: [OptionRow; 7] = [
    row!(FILE, for [Check, Run, Replay, Show, Races, Search],
    "The module, in the binary format; - is standard input", position: Position::Own),
    row!(RECORD, for [Replay, Show, Races],
    "The record of a run of the module", position: Position::Own),
    row!(INVOKE, for [Run, Search],
    "The exported function that thread 0 runs", position: Position::Required),
    row!(MEMORY, for [Run],
    "Which memory: one behind a lock, which records, or a row of atomic words", defaults: &["locked"]),
    row!(MEMORY_IN, for [Run],
    "Lay the bytes of FILE2 over the memory before the first turn, from ADDR on, else from 0; not with --record"),
    row!(MEMORY_OUT, for [Run],
    "Write the bytes of the memory to this file, all of them, as they are in the end"),
    row!(RUN_RECORD, for [Run],
    "Write a record of the run to this file, - is standard output; not with words"),
];

/// Which runs a search makes.
pub(crate) static OF_RUNS: [OptionRow; 13] = [
    row!(RUNS, for [Search],
    "Draw so many runs at most. Without this, --from, --seed and --strategy it goes through every order first, as \
    --all does, by up to 50000 states, and draws runs where that settles not all", defaults: &["10000"]),
    row!(FROM, for [Search],
    "The number of the first run", defaults: &["1"]),
    row!(SEED, for [Search],
    "The seed: run I of a seed is the same on every machine", defaults: &["1"]),
    row!(STRATEGY, for [Search],
    "Who goes on: random, pct:D for priorities that change at D - 1 points, D of 1 to 32, spin for long \
    turns, or mix for all of these in turn", defaults: &["mix"]),
    row!(JOBS, for [Search],
    "How many threads make runs, or go on from states with --all, 1 to 256; without it as many as there are \
    processors"),
    row!(ALL, for [Search],
    "In place of drawn runs, go through every order of the threads' entries, by each state once, and say how all \
    runs end, whether all do, and whether accesses race in any; nothing is said of timeouts that end while \
    somebody is awake, of what a weaker memory shows where there is a race, or of other arguments",
    conflicts: &["runs", "from", "seed", "strategy"]),
    row!(STATES, for [Search],
    "With --all: how many states are met at most, 1 to 1000000000; without it 1000000", needs: &["all"]),
    row!(ORDERS, for [Search],
    "With --all: needed looks for races first, and where there is none goes through the orders that matter then; \
    all goes through every order at once, and looks for no race",
    conflicts: &["races", "allow-race", "allow-mixed"], needs: &["all"]),
    row!(DEEP, for [Search],
    "With --all: go on each time from the state that was met last, so that what is looked for is met early where \
    there are too many states", needs: &["all"]),
    row!(RACES, for [Search],
    "Stop at the first run in which two accesses race, and tell them; with --all keep the run with a race, and \
    no other one", conflicts: &["find", "expect"]),
    row!(ALLOW_RACES, for [Search],
    "Races don't count where every order is gone through, so the status is 0 where all runs end well, also where \
    some have a race"),
    row!(ALLOW_RACE, for [Races, Search],
    "No race at these addresses, or at the data of these names: an access all of whose bytes are there counts as \
    atomic, and two of these don't race; may be given several times"),
    row!(ALLOW_MIXED, for [Races, Search],
    "No race of two atomic accesses of different widths"),
];

/// What a search looks for, how long, and within what.
pub(crate) static OF_A_SEARCH: [OptionRow; 13] = [
    row!(FIND, for [Search],
    "Stop at the first run with a thread's line that has these words; without it, and without --expect, a run is \
    looked for in which a thread traps or stops; with --all also 'from which no run ends' or 'a fair run can go \
    on for ever'"),
    row!(EXPECT, for [Search],
    "Stop at the first run in which thread 0 comes to another result: i32:2, ok, trap unreachable ..; with --all \
    also at one that never ends"),
    row!(SEARCH_RECORD, for [Search],
    "Write a record of the run that was found to this file; - is standard output"),
    row!(SHRINK, for [Search],
    "Look for a run that ends as the one that was found, with few switches of threads"),
    row!(SHRINK_TIME, for [Search],
    "With --shrink: for how many seconds; without it 10", needs: &["shrink"]),
    row!(TIME, for [Search],
    "End after so many seconds, and print what was met so far"),
    row!(UNTIL, for [Search],
    UNTIL_HELP, is_hidden: true),
    row!(FUEL, for [Run],
    "How many units each thread may spend, 0 to 1000000000000", defaults: &["1000000000"]),
    row!(FUEL, for [Search],
    "How many units each thread may spend, 0 to 1000000000000", defaults: &["10000000"]),
    row!(LIMIT, for [Run],
    "How many entries the log takes, 1 to 1000000", defaults: &["100000"]),
    row!(LIMIT, for [Search],
    "How many entries the log takes, 1 to 1000000", defaults: &["10000"]),
    row!(DUMP, for [Run, Replay, Search],
    "Print the first N bytes of the memory, 0 to 4096", defaults: &["0"]),
    row!(UNITS, for [Run, Replay],
    "Print behind how each thread ended how many units it spent"),
];

/// What of a run or a record is shown.
pub(crate) static OF_A_RECORD: [OptionRow; 9] = [
    row!(TEXT, for [Run, Replay],
    "Print what the threads say, a line each, in front of how they ended"),
    row!(LINES, for [Show],
    "Only the entries on these lines of the record; A- goes to its end; may be given several times"),
    row!(THREADS, for [Show],
    "Only the entries of these threads, 0 to 63, as 2 or t2; may be given several times"),
    row!(ADDRESSES, for [Show],
    "Only the entries at these addresses, decimal or behind 0x, or at the data of these names, as queue.head; may be \
    given several times"),
    row!(TEXT, for [Show],
    "What the threads say, a line each behind the line of the record, in place of entries; with --at, what they said \
    before",
    conflicts: &["last-write", "html", "trace", "json", "unfold"]),
    row!(UNFOLD, for [Show],
    "A row for each entry, also for rounds that a thread makes again and again, for answers, and in memory that a \
    library keeps for itself; with --at, that memory isn't left out",
    conflicts: &["last-write", "html", "trace"]),
    row!(MOST, for [Races],
    "Tell N races at most, 1 to 10000", defaults: &["10"]),
    row!(NAMES, for [Show, Races],
    "Names and lines of source from a build of the same code, as one with -g"),
    row!(SOURCE, for [Show],
    "Show what stands in each line of source, of the files below this folder"),
];

/// How it is shown.
pub(crate) static OF_A_VIEW: [OptionRow; 8] = [
    row!(WIDTH, for [Show],
    "How many characters a row has room for, 40 to 1000", defaults: &["120"]),
    row!(COLOR, for [Show],
    "Whether threads have colors; auto: on a terminal alone", defaults: &["auto"]),
    row!(AT, for [Show],
    "In place of rows, threads and memory before this line of the record, or at the `end`, or where the first `trap` is",
    conflicts: &["lines", "thread", "addr", "width", "color"]),
    row!(BYTES, for [Show],
    "With --at: print N bytes of the memory from address A on, N up to 4096", needs: &["at"]),
    row!(RAW, for [Show],
    "With --at: locals and operands as the module has them, also where the source's variables are shown",
    needs: &["at"]),
    row!(LAST_WRITE, for [Show],
    "In place of rows, who wrote these N bytes last, or this data by its name; with --at: before that",
    conflicts: &["lines", "thread", "addr", "width", "color", "dump", "raw", "html", "trace"]),
    row!(HTML, for [Show],
    "In place of rows, write the entries as a page of HTML to this file; - is standard output",
    conflicts: &["at"]),
    row!(TRACE, for [Show],
    "In place of rows, write the entries in the Trace Event Format to this file; - is standard output",
    conflicts: &["at", "html"]),
];

/// What all commands have.
pub(crate) static OF_ALL: [OptionRow; 5] = [
    row!(JSON, for [Check, Run, Replay, Races, Search],
    "Print one JSON object in place of lines, also of a refusal"),
    row!(JSON, for [Show],
    "Print one JSON object in place of rows or lines, also of a refusal",
    conflicts: &["html", "trace"]),
    row!(EXPLAIN, for [Check, Run, Replay, Show, Races, Search],
    "Say on standard error, behind a refusal, a trap or a stop, where and why it is, and what to do; on a terminal without it too"),
    row!(NO_EXPLAIN, for [Check, Run, Replay, Show, Races, Search],
    "Say no more than one line of it, on a terminal neither", conflicts: &["explain"]),
    row!(ARGS, for [Run, Search],
    "The function's arguments, as 5, -5 or 0x10", position: Position::Rest),
];
