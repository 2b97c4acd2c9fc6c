//! Memories that lie on a table of seats, and what they have in common: the rule of one history, by which each seat
//! knows what its caller has seen; the seats, in order of name; and the meeting of two of them.
//!
//! Proved: each caller has seen a beginning of one history, which goes on by others' entries alone; meetings keep
//! that. Each name is there once at most, and the queue right exactly once.
//!
//! A memory says what its words are of the history (`History`), and adds the steps of its own on them.
#![tactic(auto)]

mod dealing;
mod naming;
mod rule;
mod seat;
mod steps;
mod view;

pub use dealing::take_seats;
pub use naming::Naming;
pub use rule::{History, OneHistory, Row};
pub use seat::{CallerSeat, StandingCaller, meet};
pub use steps::hand;
pub use view::{Caller, FirstOff, Meeting, TableSeat, Together, View};
