//! Of a run one with fewer switches of threads that is looked for too.
ghost use Rattle.std.specs.Prelude.{◌≡◌, IfOk, IfSome, true, false};
ghost use Rattle.search_finds.specs.Endings.{HaveOneEnding};
ghost use Rattle.search_finds.specs.Finds.{IsFind};
ghost use Rattle.search_finds.specs.Judged.{IsFindBy};
ghost use Rattle.search_finds.specs.Sizes.{size_in, IsSmaller, IsNoLarger};

use crate::ending_of;
use crate::hears::Hears;
use crate::judging::{EndsAlike, Judges};
use crate::rounds::{moments_of, without_own_repeats, without_repeats};
use crate::size::{schedule_of, size_of};
use crate::spins::without_spins;
use search_reach::Wish;
use search_scheduled::{MadeRun, SearchFault, Spares, run_with_spares};
use search_strategies::{Along, EndWatch, Watched};
use spawn_host::Request;
use std::alloc::{AllocError, Global};

/// How many runs are made at most.
const TRIES: u32 = 10_000;

/// A part of a schedule that is left out: so many stretches in a row, from one on.
#[derive(Clone, Copy)]
struct Cut {
    at: usize,
    count: usize,
}

/// Of each turn of a schedule in which stretch it is, from 0 on: in each one thread alone goes on.
fn stretch_of_each(alloc: Global, schedule: &[u32]) -> Result<Vec<usize>, AllocError> {
    let mut all = Vec::with_capacity(alloc, schedule.len())?;
    let mut stretch = 0usize;
    let mut last = None;
    for thread in schedule {
        if last.is_some() && last != Some(*thread) {
            stretch = stretch.saturating_add(1);
        }
        last = Some(*thread);
        all.push(stretch)?;
    }
    Ok(all)
}

/// The schedule of a run without the stretches of a cut.
fn cut_schedule(alloc: Global, made: &MadeRun, cut: Cut) -> Result<Vec<u32>, AllocError> {
    let schedule = schedule_of(alloc, &made.record)?;
    let stretches = stretch_of_each(alloc, &schedule)?;
    let mut rest = Vec::with_capacity(alloc, schedule.len())?;
    for (thread, stretch) in schedule.iter().zip(stretches.iter()) {
        if *stretch < cut.at || *stretch - cut.at >= cut.count {
            rest.push(*thread)?;
        }
    }
    Ok(rest)
}

/// How many stretches the schedule of a run has.
fn stretches_of(alloc: Global, made: &MadeRun) -> Result<usize, AllocError> {
    let stretches = stretch_of_each(alloc, &schedule_of(alloc, &made.record)?)?;
    match stretches.last() {
        Some(last) => Ok(last.saturating_add(1)),
        None => Ok(0),
    }
}

/// Makes runs of a call along schedules, gives a run up where that is to be seen, and asks of each that it made whether it
/// is looked for.
#[derive(Drop)]
struct Trials<'m, 'a, 'w, 'j, W, J> {
    request: &'a Request<'m, 'a>,
    limit: u32,
    watch: &'w W,
    judge: &'j J,
}

impl<W: EndWatch, J: Judges> Trials<'_, '_, '_, '_, W, J> {
    /// The run along a schedule, where it is smaller than another and is looked for.
    fn smaller(
        &self,
        alloc: Global,
        schedule: &[u32],
        best: &MadeRun,
    ) -> Result<Option<MadeRun>, SearchFault>
        ensures find { IfOk result (λ o. IfSome o
            (IsFindBy (J.judges self.now.judge.now self.now.request.now) self.now.request.now self.now.limit)) }
        ensures smaller { IfOk result (λ o. IfSome o (λ m. IsSmaller (size_in m.record) (size_in best.now.record))) }
    {
        let mut along = Watched::new(Along::new(schedule), self.watch);
        let mut spares = Spares::new(alloc);
        let (request, hears) = (self.request, self.judge.hears());
        let made = match run_with_spares(
            alloc,
            request,
            self.limit,
            hears,
            &mut along,
            &mut spares,
        ) {
            Ok(made) => made,
            Err(SearchFault::GivenUp) => return Ok(None),
            Err(fault) => return Err(fault),
        };
        if size_of(&made.record).is_below(size_of(&best.record))
            && self.judge.is_sought(alloc, request, &made)?
        {
            return Ok(Some(made));
        }
        Ok(None)
    }

    /// The run along a schedule, where it is smaller than another and is looked for, and else that; and whether it is
    /// smaller.
    fn better(
        &self,
        alloc: Global,
        schedule: &[u32],
        best: MadeRun,
    ) -> Result<(MadeRun, bool), SearchFault>
        requires { IsFindBy (J.judges self.now.judge.now self.now.request.now) self.now.request.now self.now.limit best }
        ensures run { IfOk result (λ r.
            IsFindBy (J.judges self.now.judge.now self.now.request.now) self.now.request.now self.now.limit r.0) }
        ensures size { IfOk result (λ r. IsNoLarger (size_in r.0.record) (size_in best.record)) }
        ensures smaller { IfOk result (λ r. r.1 ≡ true → IsSmaller (size_in r.0.record) (size_in best.record)) }
        ensures kept { IfOk result (λ r. r.1 ≡ false → r.0 ≡ best) }
    {
        match self.smaller(alloc, schedule, &best)? {
            Some(smaller) => Ok((smaller, true)),
            None => Ok((best, false)),
        }
    }

    /// Of a run a smaller one that is looked for too, without what lies between two moments in which all is the same, or
    /// all that is one thread's; and without rounds in which a thread saw what it saw in the round before.
    fn without_waits(&self, alloc: Global, made: MadeRun) -> Result<MadeRun, SearchFault>
        requires { IsFindBy (J.judges self.now.judge.now self.now.request.now) self.now.request.now self.now.limit made }
        ensures run { IfOk result
            (IsFindBy (J.judges self.now.judge.now self.now.request.now) self.now.request.now self.now.limit) }
        ensures size { IfOk result (λ small. IsNoLarger (size_in small.record) (size_in made.record)) }
    {
        let short = without_repeats(alloc, &moments_of(alloc, self.request.module(), &made)?)?;
        let (made, _) = self.better(alloc, &short, made)?;
        let short = without_own_repeats(alloc, &moments_of(alloc, self.request.module(), &made)?)?;
        let (made, _) = self.better(alloc, &short, made)?;
        let short = without_spins(alloc, &made.record)?;
        let (made, _) = self.better(alloc, &short, made)?;
        Ok(made)
    }
}

/// Of a run that is looked for a smaller one that is too, found by leaving out parts of its schedule: first the rounds of
/// waits in loops, then halves, and single stretches last (delta debugging), and such rounds once more; in 10,000 runs at
/// most, and as long as the follower doesn't wish an end.
///
/// # Errors
/// As of `run_along`.
pub fn shrunk_by<F: Hears, J: Judges>(
    alloc: Global,
    request: &Request,
    limit: u32,
    judge: &J,
    made: MadeRun,
    follower: &mut F,
) -> Result<MadeRun, SearchFault>
    requires { IsFindBy (J.judges judge.now request.now) request.now limit made }
    ensures run { IfOk result (IsFindBy (J.judges judge.now request.now) request.now limit) }
    ensures size { IfOk result (λ small. IsNoLarger (size_in small.record) (size_in made.record)) }
{
    follower.found(&made.record);
    let watch = follower.watch();
    let trials = Trials {
        request,
        limit,
        watch: &watch,
        judge,
    };
    let mut best = trials.without_waits(alloc, made)?;
    let all = stretches_of(alloc, &best)?;
    let mut cut = Cut {
        at: 0,
        count: (all / 2).max(1),
    };
    let mut is_better = false;
    for tries in 0..TRIES {
        if let Wish::End = follower.tried(tries, size_of(&best.record)) {
            return Ok(best);
        }
        let rest = cut_schedule(alloc, &best, cut)?;
        let (next, is_smaller) = trials.better(alloc, &rest, best)?;
        best = next;
        if is_smaller {
            is_better = true;
        } else {
            cut.at = cut.at.saturating_add(cut.count);
        }
        if cut.at >= all {
            if cut.count == 1 && !is_better {
                let best = trials.without_waits(alloc, best)?;
                return Ok(best);
            }
            cut = Cut {
                at: 0,
                count: (cut.count / 2).max(1),
            };
            is_better = false;
        }
    }
    Ok(best)
}

/// The same where a run is looked for that ends alike, by so many first bytes of the memory.
///
/// # Errors
/// As of `run_along`.
pub fn shrunk<F: Hears>(
    alloc: Global,
    request: &Request,
    limit: u32,
    dump: u32,
    made: MadeRun,
    follower: &mut F,
) -> Result<MadeRun, SearchFault>
    requires { IsFind request.now limit made }
    ensures run { IfOk result (IsFind request.now limit) }
    ensures ending { IfOk result (λ small. HaveOneEnding dump made.end small.end) }
    ensures size { IfOk result (λ small. IsNoLarger (size_in small.record) (size_in made.record)) }
{
    let ending = ending_of(alloc, &made.end, dump)?;
    let judge = EndsAlike {
        ending: &ending,
        dump,
    };
    let small = shrunk_by(alloc, request, limit, &judge, made, follower)?;
    Ok(small)
}
