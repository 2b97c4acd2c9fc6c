//! What is to be run.
ghost use Rattle.std.specs.Prelude.{◌<◌};

use types::{MOST_LIMIT, MOST_THREADS};

/// The most accesses over the row of words, which keeps no log.
const MOST_ON_WORDS: u32 = 100_000_000;

/// The most calls, or turns of each thread: a turn is five entries of a log, and two threads take turns.
const MOST_TIMES: u32 = 90_000;

/// Which memory the threads share.
#[derive(Clone, Copy)]
pub enum Shared {
    /// The recorder, which is called through the trait of a shared memory.
    Locked,
    /// The row of words, which is called by itself.
    Words,
}

/// What a thread does with a word of eight bytes, by the number of the round where it has a value.
#[derive(Clone, Copy)]
pub enum Update {
    /// It adds 1.
    Add,
    /// It adds 1 to the lower four bytes.
    AddNarrow,
    /// It stores.
    Store,
    /// It stores, and gets the value before.
    Swap,
    /// It makes the bitwise and.
    And,
    /// It makes the bitwise or.
    Or,
    /// It makes the bitwise exclusive or.
    Xor,
}

/// On which words the threads make their changes.
#[derive(Clone, Copy, PartialEq, Eq)]
pub enum Rounds {
    /// Each on its own, in turn with loads.
    InTurn,
    /// Each on its own.
    Apart,
    /// All on one.
    Together,
}

/// So many threads make so many accesses in all.
#[derive(Drop)]
pub struct MemoryPlan {
    pub shared: Shared,
    pub change: Update,
    pub rounds: Rounds,
    pub threads: u32,
    pub accesses: u32,
    /// Whether the time is printed.
    pub is_timed: bool,
    ghost some_threads: { 0 < threads },
    ghost some_accesses: { 0 < accesses },
}

/// What the threads at a desk do.
#[derive(Clone, Copy, PartialEq, Eq)]
pub enum Kind {
    /// One thread notifies, and nobody is asleep.
    Alone,
    /// Two threads take turns.
    Turns,
}

/// So many calls, or turns of each thread.
#[derive(Drop)]
pub struct DeskPlan {
    pub kind: Kind,
    pub times: u32,
    /// Whether the time is printed.
    pub is_timed: bool,
    ghost some: { 0 < times },
}

/// What is measured.
#[derive(Drop)]
pub enum Plan {
    Memory(MemoryPlan),
    Desk(DeskPlan),
}

impl Plan {
    /// Reads the arguments, of which the first is the program's name: `None` where they aren't `memory` or `desk` with
    /// what belongs to it.
    pub fn read(words: &[String]) -> Option<Plan> {
        match words.get(1)?.as_str() {
            "memory" => Some(Plan::Memory(MemoryPlan::read(&words[2..])?)),
            "desk" => Some(Plan::Desk(DeskPlan::read(&words[2..])?)),
            _ => None,
        }
    }
}

/// The memory of a word.
fn shared_of(word: &str) -> Option<Shared> {
    match word {
        "locked" => Some(Shared::Locked),
        "words" => Some(Shared::Words),
        _ => None,
    }
}

/// The change of a word.
fn change_of(word: &str) -> Option<Update> {
    match word {
        "adds" => Some(Update::Add),
        "narrow-adds" => Some(Update::AddNarrow),
        "stores" => Some(Update::Store),
        "swaps" => Some(Update::Swap),
        "ands" => Some(Update::And),
        "ors" => Some(Update::Or),
        "xors" => Some(Update::Xor),
        _ => None,
    }
}

/// The rounds of a word.
fn rounds_of(word: &str) -> Option<Rounds> {
    match word {
        "turns" => Some(Rounds::InTurn),
        "apart" => Some(Rounds::Apart),
        "together" => Some(Rounds::Together),
        _ => None,
    }
}

/// The calls of a word.
fn kind_of(word: &str) -> Option<Kind> {
    match word {
        "alone" => Some(Kind::Alone),
        "turns" => Some(Kind::Turns),
        _ => None,
    }
}

/// Whether this is the word that asks for the time.
fn is_time(word: &String) -> bool {
    word.as_str() == "time"
}

impl MemoryPlan {
    /// Reads what stands behind `memory`: `None` where it isn't `locked` or `words`, a change, on which words, 1 to 64
    /// threads, and 1 to 1,000,000 accesses, or 100,000,000 over words.
    fn read(words: &[String]) -> Option<MemoryPlan> {
        let shared = shared_of(words.first()?.as_str())?;
        let change = change_of(words.get(1)?.as_str())?;
        let rounds = rounds_of(words.get(2)?.as_str())?;
        let threads = words.get(3)?.parse::<u32>().ok()?;
        let accesses = words.get(4)?.parse::<u32>().ok()?;
        let most = match shared {
            Shared::Locked => MOST_LIMIT,
            Shared::Words => MOST_ON_WORDS,
        };
        if threads == 0 || threads as usize > MOST_THREADS || accesses == 0 || accesses > most {
            return None;
        }
        Some(MemoryPlan {
            shared,
            change,
            rounds,
            threads,
            accesses,
            is_timed: words.get(5).is_some_and(is_time),
        })
    }
}

impl DeskPlan {
    /// Reads what stands behind `desk`: `None` where it isn't a kind and 1 to 90,000 times.
    fn read(words: &[String]) -> Option<DeskPlan> {
        let kind = kind_of(words.first()?.as_str())?;
        let times = words.get(1)?.parse::<u32>().ok()?;
        if times == 0 || times > MOST_TIMES {
            return None;
        }
        Some(DeskPlan {
            kind,
            times,
            is_timed: words.get(2).is_some_and(is_time),
        })
    }
}
