//! Replaying a recorded run by one thread: the walk along its log, entry by entry.
//!
//! Proved: `Walk::along_watched` takes all of a log or names the first entry that doesn't fit, and stands where the
//! machine does. A `Watch` is called before each entry, at each leave and each event, and behind the last, as often as
//! that and in this order (`specs/Seen.antt`), where the walk came along the entries before it.
//!
//! How the pieces go together:
//! - Crate `replay_rules` says what a recorded run is: some schedule without lost tries makes the log, and its
//!   scheduled run ends as the end lines and the pages line say. It says too which entry is the first that doesn't fit,
//!   and which end line the first that doesn't agree. All is over the machine of crate `schedule_runs`.
//! - `specs/Standing.antt` says where a walk stands (`IsStanding`): its memory, queue and threads are the scheduled
//!   machine's. A thread's place is where the queue has it. The scheduled machine gives a thread its answer as soon as
//!   that is due, the walk at the entry in which it is heard; till then the walk's thread waits for what the machine's
//!   has heard already.
//! - `Stage::tell` takes an entry that is an answer heard.
//! - An event is taken in steps: `Stage::is_going` says whether its thread may be taken, `settle_at` makes the thread's
//!   turns of its own, and `Stage::make` the event that it then wants: the memory gives the reply, the thread takes it,
//!   and `Stage::ask` puts a question to the queue and starts a spawned thread. `Stage::leave` is the leave of a thread
//!   that has ended. `proofs/Events.antt` shows where all stand after one event, `proofs/Made.antt`,
//!   `proofs/Spawned.antt` and `proofs/Asked.antt` after each kind of event, and `proofs/Leaving.antt` after a leave.
//! - Crate `replay_rules` has the walk's laws too: a schedule makes what a walk takes, all schedules of a log end
//!   alike, and the entry at which a walk stops is the first misfit.
//! - `specs/Walked.antt` says how far a walk has come (`HasWalked`), and what it is to take one more entry
//!   (`HasTaken`).
//! - `Walk::take` takes an entry: an answer heard, a leave, or another event. `proofs/Settled.antt` has the thread's
//!   turns of its own, `proofs/Taken.antt` an entry that is taken, and `proofs/Refused.antt` one that doesn't fit.
//! - `Walk::along_watched` walks along a log, to its end or to the first entry that doesn't fit (`proofs/Along.antt`),
//!   while a `Watch` looks on.
#![tactic(auto)]

mod equal;
mod settling;
mod stage;
mod turns;
mod walk;
mod watch;

pub use equal::{is_same_answer, is_same_event, is_same_reply};
pub use settling::settle;
pub use stage::Stage;
pub use turns::{settle_at, start_at, turn_at};
pub use walk::Walk;
pub use watch::{Unwatched, Watch};
