//! One thread, until it reads a word again.
ghost use Rattle.std.specs.Prelude.{◌≡◌, ◌<◌, length, IfSome};
ghost use Rattle.search_strategies.specs.Places.{ChoosesBy};
ghost use Rattle.search_strategies.specs.Spinning.{spinning_of, spin, spin_heard};
ghost use Rattle.search_strategies.specs.Spinning as specified;

use crate::draws::Draws;
use crate::places::place_of;
use crate::strategy::Strategy;
use arrayvec::ArrayVec;
use std::marker::Model;
use types::{Entry, Event};

/// In one of so many events another thread is drawn, whatever the last one has read.
const CHANCE: u32 = 16;

/// How many words are told apart.
const WORDS: usize = 32;

/// The thread that made the last event goes on, until it has read a word again that it read since it was drawn: then,
/// and in one of 16 events, who goes on is drawn, each thread that can alike.
#[derive(Drop)]
pub struct Spin {
    draws: Draws,
    /// Who made the last event.
    last: u32,
    /// The addresses that it has read since it was drawn.
    read: ArrayVec<u64, WORDS>,
    /// Whether it goes on, if it can.
    stays: bool,
}

impl Model for Spin {
    ghost use Rattle.search_strategies.specs.Spinning.{Spinning};

    ghost Value = { Spinning };

    ghost view = { λ s. record { draws = s.draws; last = s.last; read = s.read.items; stays = s.stays } };
}

/// The address that an event reads.
fn read_at(event: Event) -> Option<u64>
    ensures { result ≡ specified.read_at event }
{
    match event {
        Event::Load { addr, .. } | Event::Rmw { addr, .. } | Event::Cmpxchg { addr, .. } => {
            Some(addr)
        }
        _ => None,
    }
}

impl Spin {
    /// Run number `run` of a seed.
    pub fn new(seed: u64, run: u64) -> Spin
        ensures { result ≡ spinning_of seed run }
    {
        Spin {
            draws: Draws::new(seed, run),
            last: 0,
            read: ArrayVec::new(),
            stays: false,
        }
    }
}

impl Strategy for Spin {
    ghost chooses = { ChoosesBy spin };

    ghost hears = { λ before entry after. after ≡ spin_heard before (specified.read_at entry.event) };

    fn choose(&mut self, ready: &[u32]) -> Option<usize> {
        let is_drawn = self.draws.below(CHANCE) == 0;
        let stayed = if is_drawn || !self.stays {
            None
        } else {
            place_of(ready, self.last)
        };
        if let Some(place) = stayed {
            return Some(place);
        }
        let place = self.draws.below(ready.len() as u32) as usize;
        self.last = ready[place];
        self.read.clear();
        self.stays = true;
        Some(place)
    }

    /// A word is read again, or more than 32 are told apart no longer.
    fn hear(&mut self, entry: &Entry) {
        let Some(addr) = read_at(entry.event) else {
            return;
        };
        if self.read.contains(&addr) || self.read.is_full() {
            self.stays = false;
            return;
        }
        self.read.push(addr);
    }
}
