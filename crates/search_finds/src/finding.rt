//! The first run that is looked for.
ghost use Rattle.std.specs.Prelude.{◌≡◌, ◌+◌, ◌<◌, ◌^◌, IfOk, IfSome, IfNone, IsTrue};
ghost use Rattle.search_finds.specs.Drawing.{HasPointsAmong, IsPlainRun, IsRunOfNumber};
ghost use Rattle.search_finds.specs.Finds.{IsFound, HasNoneLookedFor};
ghost use Rattle.search_finds.specs.Judged.{IsFindBy, IsPassed};
ghost use Rattle.search_finds.specs.Noted.{AreMet, AreNoted, AreNotedBy};
ghost use Rattle.search_finds.specs.Searching.{IsMadeIn, IsFoundIn};
ghost use Rattle.search_finds.specs.Halts.{IfFound};

use crate::EndingTable;
use crate::finder::Finder;
use crate::hears::Hears;
use crate::judging::{EndsSo, Judges};
use crate::maker::RunMaker;
use crate::search::JudgedEnding;
use search_reach::Wish;
use search_scheduled::{MadeRun, SearchFault, run_along};
use search_strategies::{Along, EndWatch, Watched};
use selection::{Sought, Way};
use spawn_host::Request;
use std::alloc::Global;
use std::thread::Threads;

/// A run that was found, and its number.
#[derive(Drop)]
pub struct NumberedRun {
    pub run: u64,
    pub made: MadeRun,
}

/// Why no further run was made.
#[derive(Drop)]
pub enum Halt {
    /// The last that was noted is the one that is looked for.
    Found(NumberedRun),
    /// All were made, and none was found.
    AllMade,
    /// The follower told it to end, and none was found.
    Told,
}

/// The endings that were met, and why no further run was made.
#[derive(Drop)]
pub struct SearchResult {
    pub table: EndingTable,
    pub halt: Halt,
}

/// So many threads that make runs.
#[derive(Drop)]
pub struct Crew<'r, R> {
    pub rt: &'r R,
    pub jobs: usize,
}

/// How many entries the run has in which a thread goes on as long as it can, 1 to 1,000,000.
fn plain_entries<W: EndWatch>(
    alloc: Global,
    request: &Request,
    limit: u32,
    watch: &W,
) -> Result<u32, SearchFault>
    ensures some { IfOk result (λ entries. 0 < entries) }
    ensures plain { IfOk result (IsPlainRun request.now limit) }
{
    let mut along = Watched::new(Along::new(&[]), watch);
    let plain = run_along(alloc, request, limit, &mut along)?;
    let entries = plain.record.parts().log.as_slice().len();
    Ok((entries.min(1_000_000) as u32).max(1))
}

/// Among how many entries the points lie at which priorities change: those of that run, where a way has such points.
fn entries_of<W: EndWatch>(
    alloc: Global,
    request: &Request,
    sought: &Sought,
    watch: &W,
) -> Result<u32, SearchFault>
    ensures some { IfOk result (λ entries. 0 < entries) }
    ensures points { IfOk result (HasPointsAmong request.now sought.now.limit sought.now.way) }
{
    match sought.way {
        Way::Random | Way::Spin => Ok(1),
        Way::Priorities(_) | Way::Mix => plain_entries(alloc, request, sought.limit, watch),
    }
}

/// The same, whether or not runs are given up; none where the follower wishes an end then.
fn entries_unless_told<F: Hears>(
    alloc: Global,
    request: &Request,
    sought: &Sought,
    watch: &F::Watch,
    follower: &mut F,
) -> Result<Option<u32>, SearchFault>
    ensures some { IfOk result (λ entries. IfSome entries (λ count. 0 < count)) }
    ensures points { IfOk result
        (λ entries. IfSome entries (HasPointsAmong request.now sought.now.limit sought.now.way)) }
    ensures told { IfOk result (λ entries. IfNone entries (F.wish follower.new ≡ Wish.End)) }
{
    match entries_of(alloc, request, sought, watch) {
        Ok(entries) => return Ok(Some(entries)),
        Err(SearchFault::GivenUp) => {}
        Err(fault) => return Err(fault),
    }
    if let Wish::End = follower.given_up() {
        return Ok(None);
    }
    let entries = entries_of(alloc, request, sought, &())?;
    Ok(Some(entries))
}

impl<W: EndWatch + Sync, J: Judges + Sync> Finder<'_, '_, '_, '_, W, J> {
    /// Makes the runs and notes their endings, up to the first that is looked for, where the search stops there, or
    /// behind which the follower tells it to end.
    fn first<R: Threads + Sync, F: Hears>(
        &self,
        alloc: Global,
        crew: &Crew<R>,
        follower: &mut F,
    ) -> Result<SearchResult, SearchFault>
        requires few { self.now.maker.sought.now.from + self.now.maker.sought.now.runs < 2 ^ 64 }
        requires points { HasPointsAmong self.now.maker.request.now self.now.maker.sought.now.limit self.now.maker.sought.now.way
            self.now.maker.entries }
        ensures noted { IfOk result (λ s. AreNotedBy (IsPassed (J.judges self.now.judge.now self.now.maker.request.now) self.now.maker.sought.now s.halt)
            self.now.maker.request.now self.now.maker.sought.now s.table) }
        ensures found { IfOk result (λ s. IfFound s.halt
            (λ f. IsFoundIn (J.judges self.now.judge.now self.now.maker.request.now) self.now.maker f.made)) }
        ensures drawn { IfOk result (λ s. IfFound s.halt (λ f. IsMadeIn self.now.maker f.run f.made)) }
        ensures number { IfOk result
            (λ s. IfFound s.halt (λ f. f.run + 1 ≡ self.now.maker.sought.now.from + s.table.runs)) }
        ensures stops { IfOk result (λ s. IfFound s.halt (λ f. IsTrue self.now.maker.sought.now.stops)) }
        ensures all_made { IfOk result (λ s. s.halt ≡ Halt.AllMade → s.table.runs ≡ self.now.maker.sought.now.runs) }
        ensures told { IfOk result (λ s. s.halt ≡ Halt.Told → F.wish follower.new ≡ Wish.End) }
    {
        let sought = self.maker.sought;
        let mut table = EndingTable::new(alloc);
        let mut ahead = Vec::new(alloc);
        let end = sought.from + sought.runs;
        for run in sought.from..end {
            let next = self.noted_next(alloc, crew, run, &mut ahead, follower)?;
            let Some(JudgedEnding { ending, is_sought }) = next else {
                let halt = Halt::Told;
                return Ok(SearchResult { table, halt });
            };
            table.note(run, ending)?;
            let wish = follower.runs(table.runs, table.met.len());
            if is_sought && sought.stops {
                let found = self.found(alloc, run)?;
                let halt = Halt::Found(found);
                return Ok(SearchResult { table, halt });
            }
            if let Wish::End = wish {
                let halt = Halt::Told;
                return Ok(SearchResult { table, halt });
            }
        }
        let halt = Halt::AllMade;
        Ok(SearchResult { table, halt })
    }
}

/// Makes the runs of a call that is requested in the order of their numbers, by a crew, and notes the ending of each;
/// up to the first that is looked for, where the search stops there, or behind which the follower tells it to end. Of
/// each run the judge says whether it is looked for. Run number I of a seed is the same run, whoever makes it, and so
/// is what is found, which is made once more by itself. The follower hears of each how many were made, with how many
/// endings; and where a run is given up since there is something to be seen, it is asked.
///
/// The table has the endings of the runs of these numbers, in a row from the first on, each noted. What is found, where
/// the search stops at a find, is the last of them: the judge says of it that it is looked for, and of those before it
/// that they aren't. Where nothing is found, all runs were made, or the follower's last wish is that it ends; and where
/// the search stops, none of those that were made is looked for.
///
/// # Errors
/// As of `run_along`.
pub fn first_judged<R: Threads + Sync, F: Hears, J: Judges + Sync>(
    crew: &Crew<R>,
    alloc: Global,
    request: &Request,
    sought: &Sought,
    judge: &J,
    follower: &mut F,
) -> Result<SearchResult, SearchFault>
    requires { sought.now.from + sought.now.runs < 2 ^ 64 }
    ensures noted { IfOk result (λ s. AreNotedBy (IsPassed (J.judges judge.now request.now) sought.now s.halt) request.now sought.now
        s.table) }
    ensures found { IfOk result (λ s. IfFound s.halt
        (λ f. IsFindBy (J.judges judge.now request.now) request.now sought.now.limit f.made)) }
    ensures drawn { IfOk result (λ s. IfFound s.halt (λ f. IsRunOfNumber request.now sought.now f.run f.made)) }
    ensures number { IfOk result (λ s. IfFound s.halt (λ f. f.run + 1 ≡ sought.now.from + s.table.runs)) }
    ensures stops { IfOk result (λ s. IfFound s.halt (λ f. IsTrue sought.now.stops)) }
    ensures all_made { IfOk result (λ s. s.halt ≡ Halt.AllMade → s.table.runs ≡ sought.now.runs) }
    ensures told { IfOk result (λ s. s.halt ≡ Halt.Told → F.wish follower.new ≡ Wish.End) }
{
    let watch = follower.watch();
    let told = entries_unless_told(alloc, request, sought, &watch, follower)?;
    let Some(entries) = told else {
        let table = EndingTable::new(alloc);
        let halt = Halt::Told;
        return Ok(SearchResult { table, halt });
    };
    let maker = RunMaker {
        request,
        sought,
        entries,
    };
    let finder = Finder {
        maker,
        watch: &watch,
        judge,
    };
    let searched = finder.first(alloc, crew, follower)?;
    Ok(searched)
}

/// The same where a run is looked for by how it ends.
///
/// The table has the endings of the runs of these numbers, in a row from the first on, each noted. What is found, where
/// the search stops at a find, is the last of them: it ends as is looked for. Where nothing is found, all runs were made, and, where
/// the search stops, none is looked for; or the follower's last wish is that it ends.
///
/// # Errors
/// As of `run_along`.
pub fn first_found<R: Threads + Sync, F: Hears>(
    crew: &Crew<R>,
    alloc: Global,
    request: &Request,
    sought: &Sought,
    follower: &mut F,
) -> Result<SearchResult, SearchFault>
    requires { sought.now.from + sought.now.runs < 2 ^ 64 }
    ensures met { IfOk result (λ s. AreMet request.now sought.now s.table) }
    ensures noted { IfOk result (λ s. AreNoted request.now sought.now s.table) }
    ensures found { IfOk result (λ s. IfFound s.halt (λ f. IsFound request.now sought.now f.made)) }
    ensures drawn { IfOk result (λ s. IfFound s.halt (λ f. IsRunOfNumber request.now sought.now f.run f.made)) }
    ensures number { IfOk result (λ s. IfFound s.halt (λ f. f.run + 1 ≡ sought.now.from + s.table.runs)) }
    ensures stops { IfOk result (λ s. IfFound s.halt (λ f. IsTrue sought.now.stops)) }
    ensures all_made { IfOk result (λ s. s.halt ≡ Halt.AllMade → s.table.runs ≡ sought.now.runs) }
    ensures none { IfOk result (λ s. s.halt ≡ Halt.AllMade → IsTrue sought.now.stops
        → HasNoneLookedFor sought.now s.table) }
    ensures told { IfOk result (λ s. s.halt ≡ Halt.Told → F.wish follower.new ≡ Wish.End) }
{
    let judge = EndsSo { sought };
    let searched = first_judged(crew, alloc, request, sought, &judge, follower)?;
    Ok(searched)
}

/// The run of this number of a search: the same one, whoever makes it.
///
/// # Errors
/// As of `run_along`.
pub fn run_of_number(
    alloc: Global,
    request: &Request,
    sought: &Sought,
    run: u64,
) -> Result<MadeRun, SearchFault>
    ensures { IfOk result (IsRunOfNumber request.now sought.now run) }
{
    let entries = entries_of(alloc, request, sought, &())?;
    let maker = RunMaker {
        request,
        sought,
        entries,
    };
    maker.run_anew(alloc, false, run)
}
