//! Which entries have one row, or the rows of one round.
ghost use Rattle.std.specs.Prelude.{◌≡◌, ◌+◌, ◌≤◌, ◌<◌, true, All, length, take, drop};
ghost use Rattle.show_rows.specs.Listing.{call_of, place_of, row_at};
ghost use Rattle.show_named.specs.Folds.{AreAlike, AreOfOne, AreToldAlike, IsAnswered, IsBy, IsPiece, IsRoundsOf, Repeats};

use crate::data_map::DataMap;
use crate::same::{is_same_context, is_same_entry, is_same_place, is_same_row};
use show_rows::{Row, Shown, Story};
use show_text::Context;
use std::alloc::Global;
use std::fmt::{self, Formatter};

/// The most entries of a round.
const MOST_ROUND: usize = 8;

/// Rounds of a thread in which it does the same again and again.
#[derive(Clone, Copy, PartialEq, Eq, Debug)]
pub(crate) struct FoldedRounds {
    /// How many entries each has, 1 at least.
    pub length: usize,
    /// How many there are.
    pub times: usize,
    /// How many entries they have together.
    pub count: usize,
}

/// The first of some entries, as rows have them.
#[derive(Clone, Copy, PartialEq, Eq, Debug)]
pub(crate) enum Piece {
    /// Rounds, of which the first one has rows.
    Rounds(FoldedRounds),
    /// A question and its answer, which have one row.
    Answered,
}

/// What stands behind the last row of a round.
#[derive(Clone, Copy)]
pub(crate) struct HowOften(pub(crate) FoldedRounds);

impl fmt::Display for HowOften {
    ghost use Rattle.std.specs.Prelude.{Some};
    ghost use Rattle.show_named.specs.Folds.{often_text};

    ghost output = { λ r. Some (often_text r.0.length r.0.times) };

    fn fmt<W: fmt::Write>(&self, f: &mut Formatter<W>) -> fmt::Result {
        let FoldedRounds { length, times, .. } = self.0;
        if times == 1 {
            return Ok(());
        }
        if length == 1 {
            write!(f, " .. {times} times")
        } else {
            write!(f, " .. these {length} rows {times} times")
        }
    }
}

/// What rows are made of.
#[derive(Clone, Copy)]
pub(crate) struct Listing<'l, 'd, 's, 'r, 'w, 'c, 'm, 'n> {
    pub alloc: Global,
    pub shown: Shown<'r, 'w, 'c, 'm, 'n>,
    pub map: &'l DataMap<'d>,
    pub story: &'s Story,
}

impl Listing<'_, '_, '_, '_, '_, '_, '_, '_> {
    /// Whether the rows of two entries differ in their lines alone.
    fn is_alike(&self, a: usize, b: usize) -> bool
        ensures { result ≡ true → AreAlike self.now.shown self.now.map.now self.now.story.now a b }
    {
        let log = self.shown.record.log.as_slice();
        let (Some(one), Some(other)) = (log.get(a), log.get(b)) else {
            return false;
        };
        is_same_entry(one, other) && self.is_told_alike(a, b)
    }

    /// The row of the entry at a place.
    fn row_at(&self, at: usize) -> Option<Row>
        ensures { result ≡ row_at self.now.shown at }
    {
        match self.shown.rows.get(at) {
            Some(row) => *row,
            None => None,
        }
    }

    /// Whether the rows of two entries that were made at one place have the same call behind it, or none has one. Which
    /// that is needn't be asked of the lines of source where the callers are the same.
    fn is_same_call(&self, a: usize, b: usize) -> bool
        requires { place_of self.now.shown self.now.story.now a ≡ place_of self.now.shown self.now.story.now b }
        ensures { result ≡ true →
            call_of self.now.shown self.now.story.now a ≡ call_of self.now.shown self.now.story.now b }
    {
        let (shown, story) = (self.shown, self.story);
        if is_same_place(shown.caller_at(story, a), shown.caller_at(story, b)) {
            return true;
        }
        is_same_place(shown.call_at(story, a), shown.call_at(story, b))
    }

    /// Whether the log and the rows say the same of two entries.
    fn is_told_alike(&self, a: usize, b: usize) -> bool
        ensures { result ≡ true → AreToldAlike self.now.shown self.now.story.now a b }
    {
        let (shown, story) = (self.shown, self.story);
        if !is_same_context(story.context_at(a), story.context_at(b)) {
            return false;
        }
        if !is_same_row(self.row_at(a), self.row_at(b)) {
            return false;
        }
        if !is_same_place(shown.place_at(story, a), shown.place_at(story, b)) {
            return false;
        }
        if !self.is_same_call(a, b) {
            return false;
        }
        story.wakes.by(a).is_empty() && story.wakes.by(b).is_empty()
    }

    /// Whether a round is made once more.
    fn repeats(&self, first: &[usize], next: &[usize]) -> bool
        requires { length next.now ≡ length first.now }
        ensures { result ≡ true → Repeats self.now.shown self.now.map.now self.now.story.now first.now next.now }
    {
        for at in 0..first.len() {
            if !self.is_alike(first[at], next[at]) {
                return false;
            }
        }
        true
    }

    /// Whether the entry at a place is of this thread.
    fn is_by(&self, at: usize, thread: u32) -> bool
        ensures { result ≡ true → IsBy self.now.shown thread at }
    {
        match self.shown.record.log.as_slice().get(at) {
            Some(entry) => entry.thread == thread,
            None => false,
        }
    }

    /// Whether the entries at these places are of this thread.
    fn are_by(&self, places: &[usize], thread: u32) -> bool
        ensures { result ≡ true → All (IsBy self.now.shown thread) places.now }
    {
        for at in 0..places.len() {
            if !self.is_by(places[at], thread) {
                return false;
            }
        }
        true
    }

    /// Whether entries are of one thread.
    fn is_of_one(&self, places: &[usize]) -> bool
        ensures { result ≡ true → AreOfOne self.now.shown places.now }
    {
        let Some(first) = places.first() else {
            return false;
        };
        match self.shown.record.log.as_slice().get(*first) {
            Some(entry) => self.are_by(places, entry.thread),
            None => false,
        }
    }

    /// The rounds of so many entries with which entries begin.
    fn rounds_of(&self, places: &[usize], size: usize) -> FoldedRounds
        requires some { 1 ≤ size }
        requires within { size ≤ length places.now }
        requires of_one { AreOfOne self.now.shown (take size places.now) }
        ensures { IsRoundsOf self.now.shown self.now.map.now self.now.story.now places.now result }
    {
        let mut rounds = FoldedRounds {
            length: size,
            times: 1,
            count: size,
        };
        for _ in 0..places.len() {
            if !self.goes_on(places, rounds) {
                return rounds;
            }
            rounds = FoldedRounds {
                length: size,
                times: rounds.times + 1,
                count: rounds.count + size,
            };
        }
        rounds
    }

    /// Whether a further round is behind these.
    fn goes_on(&self, places: &[usize], rounds: FoldedRounds) -> bool
        requires long { rounds.length ≤ length places.now }
        requires within { rounds.count ≤ length places.now }
        ensures within { result ≡ true → rounds.count + rounds.length ≤ length places.now }
        ensures repeats { result ≡ true → Repeats self.now.shown self.now.map.now self.now.story.now
            (take rounds.length places.now) (take rounds.length (drop rounds.count places.now)) }
    {
        let FoldedRounds { length, count, .. } = rounds;
        if places.len() - count < length {
            return false;
        }
        self.repeats(&places[..length], &places[count..count + length])
    }

    /// The rounds with which entries begin, those that have most of them.
    fn longest_rounds(&self, places: &[usize]) -> FoldedRounds
        requires known { All (λ at. at < length self.now.shown.record.now.log) places.now }
        requires some { 1 ≤ length places.now }
        ensures { IsRoundsOf self.now.shown self.now.map.now self.now.story.now places.now result }
    {
        let mut best = self.rounds_of(places, 1);
        for size in 2..=MOST_ROUND {
            if size > places.len() || !self.is_of_one(&places[..size]) {
                return best;
            }
            let rounds = self.rounds_of(places, size);
            if rounds.times > 1 && rounds.count > best.count {
                best = rounds;
            }
        }
        best
    }

    /// Whether the first of these entries is a question whose answer is the next one.
    fn is_answered(&self, places: &[usize]) -> bool
        ensures { result ≡ true → IsAnswered self.now.story.now places.now }
    {
        if places.len() < 2 {
            return false;
        }
        match self.story.context_at(places[1]) {
            Context::Asked(_, asked) => asked == places[0],
            _ => false,
        }
    }

    /// Which rows the first of these entries have.
    pub(crate) fn first_piece(&self, places: &[usize]) -> Piece
        requires known { All (λ at. at < length self.now.shown.record.now.log) places.now }
        requires some { 1 ≤ length places.now }
        ensures { IsPiece self.now.shown self.now.map.now self.now.story.now places.now result }
    {
        if self.is_answered(places) {
            return Piece::Answered;
        }
        Piece::Rounds(self.longest_rounds(places))
    }
}
