//! Which runs are made ahead.
ghost use Rattle.std.specs.Prelude.{◌≡◌, ◌+◌, ◌<◌, ◌^◌};
ghost use Rattle.search_finds.specs.Shares.{first_behind};

/// Runs that are made ahead: so many from this number on, of which each job makes as many as another, or fewer.
#[derive(Clone, Copy)]
pub(crate) struct RunsAhead {
    pub(crate) from: u64,
    pub(crate) count: u64,
    pub(crate) piece: u64,
    ghost few: { from + count < 2 ^ 64 },
}

impl RunsAhead {
    /// The number of the first run behind those of so many jobs.
    pub(crate) fn first(self, jobs: usize) -> u64
        ensures { result ≡ first_behind self.from self.count self.piece jobs }
    {
        self.from + (jobs as u64).saturating_mul(self.piece).min(self.count)
    }

    /// How many runs a job makes.
    pub(crate) fn wanted(self, job: usize) -> u64
        requires { job + 1 < 2 ^ 64 }
        ensures { first_behind self.from self.count self.piece job + result
            ≡ first_behind self.from self.count self.piece (job + 1) }
    {
        self.first(job + 1) - self.first(job)
    }
}
