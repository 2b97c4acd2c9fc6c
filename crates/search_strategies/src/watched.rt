//! A strategy that gives a run up.
ghost use Rattle.std.specs.Prelude.{◌≡◌, None, ◌⊎◌};

use crate::strategy::Strategy;
use types::Entry;

/// Before how many events it isn't asked whether it is time to end.
const PAUSE: u32 = 1000;

/// Says, to any thread that asks, whether it is time to end.
pub trait EndWatch {
    fn is_over(&self) -> bool;
}

/// It never is.
impl EndWatch for () {
    fn is_over(&self) -> bool {
        false
    }
}

/// Goes on by a strategy as long as it isn't time to end: that is asked before the first event and each 1000th behind
/// it, and in the middle of turns of a thread's own.
#[derive(Drop)]
pub struct Watched<'a, S, W> {
    strategy: S,
    watch: &'a W,
    /// Before how many events it isn't asked again.
    left: u32,
}

impl<'a, S, W> Watched<'a, S, W> {
    /// Before the first event, with this strategy.
    pub fn new(strategy: S, watch: &'a W) -> Watched<'a, S, W>
        ensures { result.strategy ≡ strategy }
    {
        Watched {
            strategy,
            watch,
            left: 0,
        }
    }
}

impl<S: Strategy, W: EndWatch> Strategy for Watched<'_, S, W> {
    ghost chooses = { λ before ready answer after.
        ((before.left ≡ 0) × (answer ≡ None)) ⊎ S.chooses before.strategy ready answer after.strategy };

    ghost hears = { λ before entry after. S.hears before.strategy entry after.strategy };

    ghost may_end = { λ _. Unit {0} };

    fn choose(&mut self, ready: &[u32]) -> Option<usize> {
        if self.left == 0 {
            if self.watch.is_over() {
                return None;
            }
            self.left = PAUSE;
        }
        self.left -= 1;
        self.strategy.choose(ready)
    }

    fn hear(&mut self, entry: &Entry) {
        self.strategy.hear(entry);
    }

    fn is_over(&self) -> bool {
        self.watch.is_over()
    }
}
