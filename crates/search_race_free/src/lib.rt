//! Threads that do not race: it is enough to go through the orders of what isn't plain.
//!
//! A turn of a thread is plain where it is one of its own, or an access within bounds that isn't atomic. Such turns a
//! thread makes at once, alone, and owns what it touched until its next turn after that; threads take turns at all else.
//! Who wants an access that conflicts with what another thread owns, or with another one's next access, races. A
//! compare-exchange that would write may be written over before it is made, and do something else then: so a thread owns it
//! too, as it would have been made, until its next turn.
//!
//! Proved: where `search_race_free` says `Verdict::All`, its list has the ending of every run of turns, in any order, and
//! no other ending; no threads race in any run; from which states no ending can be reached is exact, and so is what is
//! said of fair runs. A race that it gives is in some run. `races_meet`: where a next access conflicts with a plain one
//! before it, threads can come to where two next accesses race.
//!
//! - `specs/Races.antt`: what a race of some run is. `specs/Wanted.antt`: what a thread does next, and what is asked of
//!   plain accesses (`ArePlain`).
//! - `specs/Orders.antt`, `specs/Owned.antt` and `specs/Reduced.antt`: plain turns one after another, what is owned, and
//!   what a state with that stands for. `specs/Search.antt` and `specs/Touches.antt` have the words of the contracts.
//! - `proofs/Moving.antt`: plain turns in another order. `proofs/Racing.antt`: races and next accesses.
//!   `proofs/Overwriting.antt`: touches of what is written over. `proofs/Missing.antt`: where all states were met, nobody
//!   races with those; so there is no race.
//!   `proofs/Quiet.antt`, `proofs/Turning.antt`: turns of threads keep the laws of plain turns. `proofs/Reducing.antt`:
//!   the next states are those that are asked for. `proofs/Going.antt`, `proofs/Continuing.antt`: a thread alone, and
//!   after its turn. `proofs/Following.antt`: one thread after the other. `proofs/Beginning.antt`: the first state, and how a
//!   state has ended.
//! - `specs/Met.antt`: the states of a table, by their parts. `proofs/Held.antt`: such a state stands for the same.
//!   `proofs/Keeping.antt`: a table of them is what a search asks for.
//! - `specs/Known.antt`: turns that are known, by what is held and one thread. `proofs/Knowing.antt`: they lead there
//!   whatever the other threads are. `proofs/Rowing.antt`: the rows of next states by them.
//! - `specs/Ahead.antt`: turns that a crew of threads finds ahead. `proofs/Pieces.antt`: what is known stays right where the
//!   table grows.
#![tactic(auto)]

mod accesses;
mod ahead;
mod alone;
mod known;
mod laws;
mod met;
mod next;
mod onward;
mod owning;
mod race;
mod states;
mod timeouts;
mod touches;
mod trace;

pub use accesses::Accesses;
pub use ahead::{Ahead, Alone, KnownTables, MakesAhead, made_ahead};
pub use laws::races_meet;
pub use owning::{Owning, Touch};
pub use race::ThreadRace;
pub use states::{RaceFree, search_race_free};
pub use trace::{all_choices, race_choices};
