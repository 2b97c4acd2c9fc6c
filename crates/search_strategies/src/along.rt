//! Along a schedule.
ghost use Rattle.std.specs.Prelude.{◌≡◌, ◌<◌, length, IfSome};
ghost use Rattle.search_strategies.specs.Given.{along, behind_schedule, first_among, stayed};
ghost use Rattle.search_strategies.specs.Places.{ChoosesBy};

use crate::places::{next_place, place_of};
use crate::strategy::Strategy;
use std::marker::Model;
use types::Entry;

/// How many events a thread makes in a row behind the schedule, while others could go on.
const PATIENCE: u32 = 200;

/// Follows a schedule, which has the threads of a run's events in order: one that can't go on is passed over. Behind it
/// the thread goes on that made the last event, as long as it can, and up to 200 events in a row; and then the next one
/// by its number.
#[derive(Drop)]
pub struct Along<'a> {
    /// What is left of it.
    schedule: &'a [u32],
    /// Who made the last event.
    last: u32,
    /// How many events it made in a row behind the schedule.
    in_a_row: u32,
}

impl<'a> Model for Along<'a> {
    ghost use Rattle.search_strategies.specs.Given.{Following};

    ghost Value = { Following };

    ghost view = { λ a. record { schedule = a.schedule.now; last = a.last; in_a_row = a.in_a_row } };
}

impl<'a> Along<'a> {
    /// Before the first event.
    pub fn new(schedule: &'a [u32]) -> Along<'a>
        ensures { result ≡ record { schedule = schedule.now; last = 0; in_a_row = 0 } }
    {
        Along {
            schedule,
            last: 0,
            in_a_row: 0,
        }
    }

    /// Who goes on behind the schedule.
    fn behind(&mut self, ready: &[u32]) -> Option<usize>
        requires { 0 < length ready.now }
        ensures place { IfSome result (λ place. place < length ready.now) }
        ensures chosen { ChoosesBy (λ s ready. behind_schedule s ready (stayed s ready)) self.old ready.now result self.new }
    {
        if let Some(place) = self.stayed(ready) {
            self.in_a_row += 1;
            return Some(place);
        }
        let place = next_place(ready, self.last);
        self.last = ready[place];
        self.in_a_row = 1;
        Some(place)
    }

    /// The place of the thread that made the last event, where it goes on behind the schedule.
    fn stayed(&self, ready: &[u32]) -> Option<usize>
        ensures place { IfSome result (λ place. (place < length ready.now) × (self.now.in_a_row < 200)) }
        ensures value { result ≡ stayed self.now ready.now }
    {
        if self.in_a_row >= PATIENCE {
            return None;
        }
        place_of(ready, self.last)
    }
}

/// The place of a schedule's first thread that can go on, if one can.
fn first_among(schedule: &[u32], ready: &[u32]) -> Option<usize>
    ensures place { IfSome result (λ at. at < length schedule.now) }
    ensures value { result ≡ first_among schedule.now ready.now }
{
    schedule
        .iter()
        .position(|thread| place_of(ready, *thread).is_some())
}

impl Strategy for Along<'_> {
    ghost chooses = { ChoosesBy along };

    ghost hears = { λ before entry after. after ≡ before };

    fn choose(&mut self, ready: &[u32]) -> Option<usize> {
        let schedule = self.schedule;
        if let Some(at) = first_among(schedule, ready) {
            self.schedule = &schedule[at + 1..];
            self.last = schedule[at];
            return place_of(ready, self.last);
        }
        self.schedule = &[];
        self.behind(ready)
    }

    fn hear(&mut self, _entry: &Entry) {}
}
