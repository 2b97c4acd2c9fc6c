//! The concrete thread: it runs flat code by its table of branches, and makes its turns as the thread machine does.
//!
//! Proved: `Thread` keeps the clauses of `TakesTurns`: each turn is the thread machine's, with its units. `place` is
//! where the instruction stands that comes next, or the one at which the thread ended, and `callers` are the calling
//! frames. A thread has room for what it may ever need, and for no more.
#![tactic(auto)]

mod called;
mod dispatch;
mod entry;
mod kept;
mod onward;
mod opening;
mod place;
mod thread;
mod trying;

pub use kept::Kept;
pub use place::CodePlace;
pub use thread::Thread;
