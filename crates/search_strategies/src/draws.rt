//! The numbers that a run draws.
ghost use Rattle.std.specs.Prelude.{◌≡◌, ◌<◌};
ghost use Rattle.search_strategies.specs.Draws.{draws_of, number_below, behind};

use rand_core::utils::NextWord;
use rand_pcg::Pcg32;
use std::marker::Model;

/// The words of a run: those of the PCG generator XSH RR 64/32 whose state is the seed, and whose stream is the run's
/// number.
#[derive(Drop)]
pub struct Draws {
    words: Pcg32,
}

impl Model for Draws {
    ghost use Rattle.rand_pcg.specs.Lcg.{Lcg};

    ghost Value = { Lcg };

    ghost view = { λ d. d.words };
}

impl Draws {
    /// The words of run number `run` of a seed. The highest bit of the number counts for nothing.
    pub fn new(seed: u64, run: u64) -> Draws
        ensures { result ≡ draws_of seed run }
    {
        Draws {
            words: Pcg32::new(seed, run),
        }
    }

    /// A number below `count`: of the next word the high half of its product with `count`.
    pub fn below(&mut self, count: u32) -> u32
        requires { 0 < count }
        ensures below { result < count }
        ensures number { result ≡ number_below count self.old }
        ensures next { self.new ≡ behind self.old }
    {
        let word = self.words.next_word();
        ((u64::from(word) * u64::from(count)) >> 32) as u32
    }
}
