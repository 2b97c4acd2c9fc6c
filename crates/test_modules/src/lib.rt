//! Modules for tests, each once: as bytes, with its text.
#![tactic(auto)]

mod examples;
mod module;
mod small;
mod threads;

pub use examples::{
    ATOMIC_ADD, BROKEN_LOCK, C_COUNTER, C_ONE_WORD_LOCK, C_TICKET_LOCK, CONDITION, COUNTING,
    RACING, TICKET_LOCK,
};
pub use module::Module;
pub use small::{
    ADDING, ENDLESS, GIVING_NOTHING, GROWING, I32, I64, OUTSIDE, OVER_THE_END, PLAIN, SHARED,
    Small, TWO_WORDS, WAITING, WAITING_FOR_GOOD,
};
pub use threads::{
    FOUR, SLEEPERS, SPAWNING_ALL, SUMMING, SUMMING_ALL, TABLE, TELLING, TIMEOUTS, TRAPPING, TREE,
};
