//! The parts of a state of a search: what a module's threads share, and each of them at rest, in few bytes; what an event
//! makes of them, and how they have ended. What is equal in a search is the same, and what is the same is equal.
//!
//! Proved: a thread at rest stands for its thread up to dead locals, has its event, and comes to rest where it does;
//! `make_event` and `rest_after` give what an event makes of memory, queue and threads, and `next_access` what it does with
//! the memory. It is given up only where a thread makes a million turns of its own. What is equal is the same, of threads up
//! to dead locals, and what is the same is equal, of threads with all their locals and at the same places (`same.rt`).
//! `ending_at` gives how a state has ended, where all threads that were started have left.
//!
//! `specs/Walkers.antt` says which thread without a budget (crate `search_threads`) a thread at rest stands for, and where
//! it comes to rest; `specs/Rests.antt` where threads do, whatever is called of the module, and `specs/RestsAfter.antt`
//! where those of a call do after an event.
#![tactic(auto)]

mod access;
mod beginning;
mod digest;
mod ended;
mod event;
mod opening;
mod plain;
mod rest;
mod resting;
mod same;
mod shared;
mod shared_walker;
mod stepping;
mod taking;
mod untouched;
mod walker;
mod wants;

pub use access::next_access;
pub use beginning::begin;
pub use ended::ending_at;
pub use event::{Begun, Effect};
pub use opening::{first_common, first_threads};
pub use resting::{MadeBy, rest_after};
pub use same::{
    equal_memories_are_the_same, equal_queues_are_the_same, equal_standings_are_the_same,
    the_same_memories_are_equal, the_same_queues_are_equal, the_same_standings_are_equal,
};
pub use shared::{Common, HashedThread};
pub use shared_walker::SharedWalker;
pub use stepping::make_event;
pub use untouched::is_untouched;
pub use walker::RestingThread;
