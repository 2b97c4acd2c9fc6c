//! Each thread alike.
ghost use Rattle.std.specs.Prelude.{◌≡◌};
ghost use Rattle.search_strategies.specs.Draws.{draws_of, at_random};
ghost use Rattle.search_strategies.specs.Places.{ChoosesBy};

use crate::draws::Draws;
use crate::strategy::Strategy;
use std::marker::Model;
use types::Entry;

/// Draws who goes on, each thread that can alike.
#[derive(Drop)]
pub struct Random {
    draws: Draws,
}

impl Model for Random {
    ghost use Rattle.rand_pcg.specs.Lcg.{Lcg};

    ghost Value = { Lcg };

    ghost view = { λ r. r.draws };
}

impl Random {
    /// Run number `run` of a seed.
    pub fn new(seed: u64, run: u64) -> Random
        ensures { result ≡ draws_of seed run }
    {
        Random {
            draws: Draws::new(seed, run),
        }
    }
}

impl Strategy for Random {
    ghost chooses = { ChoosesBy at_random };

    ghost hears = { λ before entry after. after ≡ before };

    fn choose(&mut self, ready: &[u32]) -> Option<usize> {
        Some(self.draws.below(ready.len() as u32) as usize)
    }

    fn hear(&mut self, _entry: &Entry) {}
}
