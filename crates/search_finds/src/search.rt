//! Runs of a search, and their endings.
ghost use Rattle.std.specs.Prelude.{IfOk, OnOk};
ghost use Rattle.search_finds.specs.Searching.{AreSparesIn, IsMadeIn};

use crate::maker::RunMaker;
use search_endings::Ending;
use search_scheduled::{MadeRun, SearchFault, Spares, run_with_spares};
use search_strategies::{Drawn, EndWatch, Watched};
use selection::Sought;
use std::alloc::Global;

/// The ending of a run, and whether the run is looked for.
#[derive(Drop)]
pub(crate) struct JudgedEnding {
    pub(crate) ending: Ending,
    pub(crate) is_sought: bool,
}

impl<'m> RunMaker<'m, '_> {
    /// Makes the run of this number, with the threads that the runs before it didn't start. Where that is asked for, it is
    /// heard where threads stand.
    pub(crate) fn run<W: EndWatch>(
        &self,
        alloc: Global,
        watch: &W,
        hears: bool,
        run: u64,
        spares: &mut Spares<'m>,
    ) -> Result<MadeRun, SearchFault>
        requires { AreSparesIn self.now spares.old }
        ensures made { IfOk result (IsMadeIn self.now run) }
        ensures spares { OnOk result (AreSparesIn self.now spares.new) }
    {
        let Sought {
            way,
            seed,
            limit,
            ..
        } = *self.sought;
        let drawn = Drawn::new(way, seed, run, self.entries);
        let mut watched = Watched::new(drawn, watch);
        run_with_spares(alloc, self.request, limit, hears, &mut watched, spares)
    }

    /// Makes the run of this number, with threads of its own.
    pub(crate) fn run_anew(
        &self,
        alloc: Global,
        hears: bool,
        run: u64,
    ) -> Result<MadeRun, SearchFault>
        ensures { IfOk result (IsMadeIn self.now run) }
    {
        let mut spares = Spares::new(alloc);
        self.run(alloc, &(), hears, run, &mut spares)
    }
}
