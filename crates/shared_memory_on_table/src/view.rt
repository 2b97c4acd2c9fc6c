//! Callers, the views of seats, and how views are cut, joined and met.
use atomic_table::{Join, Play, Seat, Split};
use std::collections::LinkedList;
use types::Entry;

/// What a caller knows. Contracts speak of it; no value of it is made.
pub struct Caller {
    /// The number under which it enters: 0 to 63 for threads, 64 for the desk.
    pub name: u32,
    /// Whether it may enter questions and answers.
    pub has_queue_right: bool,
    /// The entries that it has seen, a beginning of the history.
    pub seen: LinkedList<Entry>,
    /// How many of its tries were lost.
    pub lost: u64,
}

/// What a seat of the table knows. Contracts speak of it; no value of it is made.
///
/// A caller's seat has one caller, and none once it is spent; for the length of a move a seat has a second one.
pub struct View {
    /// Whether it is the keeper's, which knows the whole history.
    pub keeps: bool,
    /// The history, at the keeper's; elsewhere it is empty.
    pub log: LinkedList<Entry>,
    /// The callers that stand on the seat.
    pub callers: LinkedList<Caller>,
}

/// A seat of a table with no slots.
pub type TableSeat = Seat<u8, View>;

/// The first caller goes to a seat of its own, and the others stay.
pub struct FirstOff;

impl Split<View> for FirstOff {
    ghost use Rattle.shared_memory_on_table.specs.Moves.{others_stay, first_goes};

    ghost left = { others_stay };

    ghost right = { first_goes };
}

/// The callers of one seat come to another, before those that stand there.
pub struct Together;

impl Join<View> for Together {
    ghost use Rattle.shared_memory_on_table.specs.Moves.{together, nobody};

    ghost both = { together };

    ghost spent = { nobody };
}

/// Two callers on one seat meet in a step that changes no word: both have then seen the longer of their lists, and
/// the queue right is exchanged.
pub struct Meeting;

impl Play<u8, View> for Meeting {
    ghost use Rattle.shared_memory_on_table.specs.Moves.{MeetsAs};

    ghost then = { λ step before found after. MeetsAs before after };
}
