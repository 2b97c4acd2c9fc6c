//! Round and round.
ghost use Rattle.std.specs.Prelude.{◌≡◌, ◌<◌, [], length, IfSome};
ghost use Rattle.search_strategies.specs.Given.{rounds, next_choice};
ghost use Rattle.search_strategies.specs.Places.{ChoosesBy};

use crate::places::{next_place, place_within};
use crate::strategy::Strategy;
use std::marker::Model;
use types::Entry;

/// Takes the choices of a path one after another, and then those of a round again and again: each is a place among the
/// threads that can go on, the first place where there is no such place. Where the round has no choices, it goes on with
/// the next thread by its number, each in turn.
#[derive(Drop)]
pub struct Rounds<'a> {
    /// What is left of it.
    path: &'a [usize],
    round: &'a [usize],
    /// Which of the round's choices is the next one.
    turn: usize,
    /// Who made the last event.
    last: u32,
}

impl<'a> Model for Rounds<'a> {
    ghost use Rattle.search_strategies.specs.Given.{Rounding};

    ghost Value = { Rounding };

    ghost view = { λ r. record { path = r.path.now; round = r.round.now; turn = r.turn; last = r.last } };
}

impl<'a> Rounds<'a> {
    /// Before the first event.
    pub fn new(path: &'a [usize], round: &'a [usize]) -> Rounds<'a>
        ensures { result ≡ record { path = path.now; round = round.now; turn = 0; last = 0 } }
    {
        Rounds {
            path,
            round,
            turn: 0,
            last: 0,
        }
    }

    /// The next choice, if there is one.
    fn next_choice(&mut self) -> Option<usize>
        ensures { ChoosesBy (λ s ready. next_choice s s.path) self.old [] result self.new }
    {
        let path = self.path;
        if let Some((choice, rest)) = path.split_first() {
            self.path = rest;
            return Some(*choice);
        }
        let round = self.round;
        let turn = self.turn;
        let left = round.len().saturating_sub(turn);
        self.turn = if left > 1 { turn + 1 } else { 0 };
        round.get(turn).copied()
    }
}

impl Strategy for Rounds<'_> {
    ghost chooses = { ChoosesBy rounds };

    ghost hears = { λ before entry after. after ≡ before };

    fn choose(&mut self, ready: &[u32]) -> Option<usize> {
        let last = self.last;
        let place = match self.next_choice() {
            Some(choice) => place_within(choice, ready.len()),
            None => next_place(ready, last),
        };
        self.last = ready[place];
        Some(place)
    }

    fn hear(&mut self, _entry: &Entry) {}
}
