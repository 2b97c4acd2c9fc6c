//! The strategy of a drawn run.
ghost use Rattle.std.specs.Prelude.{◌≡◌, ◌<◌};
ghost use Rattle.search_strategies.specs.Places.{ChoosesBy};
ghost use Rattle.search_strategies.specs.Runs.{strategy_of, drawn_choice, drawn_heard};

use crate::pct::Pct;
use crate::random::Random;
use crate::spin::Spin;
use crate::strategy::Strategy;
use selection::{MOST_DEPTH, Way};
use types::Entry;

/// The strategy by which a run is drawn.
#[derive(Drop)]
pub enum Drawn {
    Random(Random),
    Priorities(Pct),
    Spin(Spin),
}

impl Drawn {
    /// Of run number `run` of a seed. Points at which priorities change lie among the first `events` events, 1 at
    /// least; a depth above 32 is 32.
    pub fn new(way: Way, seed: u64, run: u64, events: u32) -> Drawn
        requires { 0 < events }
        ensures { result ≡ strategy_of way seed run events }
    {
        match way.of_run(run) {
            Way::Mix | Way::Random => Drawn::Random(Random::new(seed, run)),
            Way::Priorities(depth) => {
                Drawn::Priorities(Pct::new(seed, run, depth.min(MOST_DEPTH), events))
            }
            Way::Spin => Drawn::Spin(Spin::new(seed, run)),
        }
    }
}

impl Strategy for Drawn {
    ghost chooses = { ChoosesBy drawn_choice };

    ghost hears = { λ before entry after. after ≡ drawn_heard before entry.event };

    fn choose(&mut self, ready: &[u32]) -> Option<usize> {
        match self {
            Drawn::Random(random) => random.choose(ready),
            Drawn::Priorities(pct) => pct.choose(ready),
            Drawn::Spin(spin) => spin.choose(ready),
        }
    }

    fn hear(&mut self, entry: &Entry) {
        match self {
            Drawn::Random(random) => random.hear(entry),
            Drawn::Priorities(pct) => pct.hear(entry),
            Drawn::Spin(spin) => spin.hear(entry),
        }
    }
}
