//! By choices.
ghost use Rattle.std.specs.Prelude.{◌≡◌};
ghost use Rattle.search_strategies.specs.Given.{chosen};
ghost use Rattle.search_strategies.specs.Places.{ChoosesBy};

use crate::places::place_within;
use crate::strategy::Strategy;
use std::marker::Model;
use types::Entry;

/// Takes choices one after another: each is a place among the threads that can go on, the first place where there is no
/// such place, and behind the choices. Contracts see it as the choices that are left.
#[derive(Drop)]
pub struct Chosen<'a> {
    choices: &'a [usize],
}

impl<'a> Model for Chosen<'a> {
    ghost use Rattle.std.specs.Prelude.{ℕ, List};

    ghost Value = { List ℕ };

    ghost view = { λ c. c.choices.now };
}

impl<'a> Chosen<'a> {
    /// Before the first event.
    pub fn new(choices: &'a [usize]) -> Chosen<'a>
        ensures { result ≡ choices.now }
    {
        Chosen { choices }
    }
}

impl Strategy for Chosen<'_> {
    ghost chooses = { ChoosesBy chosen };

    ghost hears = { λ before entry after. after ≡ before };

    fn choose(&mut self, ready: &[u32]) -> Option<usize> {
        let choices = self.choices;
        let Some((choice, rest)) = choices.split_first() else {
            return Some(0);
        };
        self.choices = rest;
        Some(place_within(*choice, ready.len()))
    }

    fn hear(&mut self, _entry: &Entry) {}
}
