//! Which run a host wants.
ghost use Rattle.std.specs.Prelude.{◌≡◌, ◌↔◌, true};
ghost use Rattle.host_calls.specs.Hosts.{IsPlanInRange, sought_by};

use selection::{Find, SearchTarget, Sought, Way};
use types::{MOST_FUEL, MOST_LIMIT};

/// Which run a host wants: that of a number, by a seed and a strategy, as a search draws it.
#[derive(Clone, Copy, PartialEq, Eq)]
pub struct Plan {
    /// Who goes on.
    pub way: Way,
    /// The seed: it and the number say which run it is.
    pub seed: u64,
    /// The number of the run.
    pub run: u64,
    /// How many units each thread may spend, 0 to 1,000,000,000,000.
    pub fuel: u64,
    /// How many entries the log takes, 1 to 1,000,000.
    pub limit: u32,
}

impl Plan {
    /// Whether its numbers are in their ranges.
    pub(crate) fn is_in_range(&self) -> bool
        ensures { (result ≡ true) ↔ IsPlanInRange self.now }
    {
        self.fuel <= MOST_FUEL && 1 <= self.limit && self.limit <= MOST_LIMIT
    }

    /// The search whose run it is: nothing is looked for.
    pub(crate) fn sought(&self) -> Sought<'static>
        ensures { result ≡ sought_by self.now }
    {
        Sought {
            way: self.way,
            seed: self.seed,
            from: self.run,
            runs: 1,
            limit: self.limit,
            dump: 0,
            target: SearchTarget {
                find: Find::Nothing,
                expect: None,
            },
            stops: false,
        }
    }
}
