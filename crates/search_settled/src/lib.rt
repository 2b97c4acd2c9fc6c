//! Settled states: a search over the turns of threads needs to look only where no thread wants a turn of its own.
//!
//! Proved: at `Verdict::All` the list has the ending of every run of turns, in any order, and no other ending; from
//! which states none can be reached is exact, and so is what is said of fair runs.
//!
//! A thread's own turns change nobody else. So whoever goes through all runs of threads goes from settled state to
//! settled state: one thread makes the event that it wants, and then each makes its turns of its own. It is stated over
//! any system of threads (crate `schedule`), and searched by crate `search_reach`.
//!
//! - `specs/Settled.antt`: where threads come to rest, and what is asked of a system: answers go to who awaits them,
//!   and only some threads make turns.
//! - `specs/Accesses.antt`: what an event does with the memory, and when two of them race.
//! - `specs/Threads.antt`: what stands for settled states; `specs/Next.antt`: what a settled state stands for, and
//!   which settled states come next.
//! - `proofs/Resting.antt` and `proofs/Stepping.antt`: a turn from what comes to rest in a state stays there, or is the
//!   event of a thread that rests. `proofs/Reaching.antt`: where threads come to rest can be reached, by their own
//!   turns. `proofs/Orderly.antt`: a thread that can go on can until it makes a turn.
//! - `specs/Known.antt`: turns that are known, and the states of a table. `proofs/Knowing.antt`: what is known stays so as
//!   the table grows. `proofs/Nexting.antt`, `proofs/Putting.antt`: the rows of next states, and the moves to them.
//! - `RestingState` is a settled state as a value, `Moves` what a system supplies, whose threads are moved one by one,
//!   and `search_all` the search: at `Verdict::All` the list has the ending of each run, whatever the order of the
//!   turns.
#![tactic(auto)]

mod access;
mod flat;
mod met;
mod moves;
mod next;
mod states;
mod turns;

pub use access::NextAccess;
pub use flat::RestingState;
pub use met::{Known, NextRow, QuietTurn, make_room, note, recall};
pub use moves::Moves;
pub use next::{row_alone, row_of, threads_after, threads_of};
pub use states::{put_rows, search_all};
pub use turns::{ThreadTurn, turn_of};
