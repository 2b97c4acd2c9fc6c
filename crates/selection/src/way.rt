//! The strategies of a search along drawn schedules.
ghost use Rattle.std.specs.Prelude.{◌≡◌};
ghost use Rattle.selection.specs.Ways.{way_of};

/// The largest depth.
pub const MOST_DEPTH: u32 = 32;

/// The strategies of a mix: run 1 is drawn by the second.
pub const MIX: [Way; 6] = [
    Way::Spin,
    Way::Random,
    Way::Priorities(2),
    Way::Priorities(3),
    Way::Priorities(5),
    Way::Priorities(8),
];

/// The strategies by which runs are drawn.
#[derive(Clone, Copy, PartialEq, Eq, Debug)]
pub enum Way {
    /// One of the others, by the number of the run.
    Mix,
    /// Each thread that can go on alike.
    Random,
    /// The one with the highest priority; these change at one point less than the depth, which is 1 to 32.
    Priorities(u32),
    /// The one that made the last event, until it reads a word again or another one is drawn.
    Spin,
}

impl Way {
    /// The strategy by which the run of this number is drawn: of a mix that of `MIX` at the place of the number modulo
    /// 6, else itself.
    pub fn of_run(self, run: u64) -> Way
        ensures { result ≡ way_of self run }
    {
        match self {
            Way::Mix => MIX[(run % 6) as usize],
            Way::Random | Way::Priorities(_) | Way::Spin => self,
        }
    }
}
