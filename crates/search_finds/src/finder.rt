//! Who makes the runs of a search, and says of each whether it is looked for.
ghost use Rattle.std.specs.Prelude.{◌≡◌, ◌+◌, ◌<◌, ◌^◌, length};
ghost use Rattle.std.specs.Prelude.{IfOk, OnOk, OnSome, IfSome, IfNone};
ghost use Rattle.search_finds.specs.Searching.{IsMadeIn, IsMetIn, IsFoundIn, AreMetIn, ArePiecesIn};
ghost use Rattle.search_finds.specs.Searching.{AreSparesIn, first_of};

use crate::ahead::RunsAhead;
use crate::ending_of;
use crate::finding::{Crew, NumberedRun};
use crate::hears::Hears;
use crate::judging::Judges;
use crate::maker::RunMaker;
use crate::search::JudgedEnding;
use search_reach::Wish;
use search_scheduled::{MadeRun, SearchFault, Spares};
use search_strategies::EndWatch;
use selection::Sought;
use std::alloc::Global;
use std::thread::{Threads, map_indices};

/// How many runs a job makes at most before the endings are looked at.
const PIECE: u64 = 128;

/// Makes the runs of a search, gives a run up where that is to be seen, and asks of each that it made whether it is
/// looked for.
#[derive(Drop)]
pub(crate) struct Finder<'m, 'a, 'w, 'j, W, J> {
    pub(crate) maker: RunMaker<'m, 'a>,
    pub(crate) watch: &'w W,
    pub(crate) judge: &'j J,
}

impl<'m, W: EndWatch + Sync, J: Judges + Sync> Finder<'m, '_, '_, '_, W, J> {
    /// The ending of a run, and whether it is looked for.
    fn judged(&self, alloc: Global, run: u64, made: &MadeRun) -> Result<JudgedEnding, SearchFault>
        requires { IsMadeIn self.now.maker run made.now }
        ensures { IfOk result (IsMetIn (J.judges self.now.judge.now self.now.maker.request.now) self.now.maker run) }
    {
        let _ = run;
        let ending = ending_of(alloc, &made.end, self.maker.sought.dump)?;
        let is_sought = self.judge.is_sought(alloc, self.maker.request, made)?;
        Ok(JudgedEnding { ending, is_sought })
    }

    /// The ending of the run of this number, with the threads that the runs before it didn't start; none where it was
    /// given up.
    fn ending(
        &self,
        alloc: Global,
        run: u64,
        spares: &mut Spares<'m>,
    ) -> Result<Option<JudgedEnding>, SearchFault>
        requires { AreSparesIn self.now.maker spares.old }
        ensures met { IfOk result (λ ending. IfSome ending (IsMetIn (J.judges self.now.judge.now self.now.maker.request.now) self.now.maker run)) }
        ensures spares { IfOk result (λ ending. OnSome ending (AreSparesIn self.now.maker spares.new)) }
    {
        let made = match self
            .maker
            .run(alloc, self.watch, self.judge.hears(), run, spares)
        {
            Ok(made) => made,
            Err(SearchFault::GivenUp) => return Ok(None),
            Err(fault) => return Err(fault),
        };
        let ending = self.judged(alloc, run, &made)?;
        Ok(Some(ending))
    }

    /// The ending of the run of this number, with threads of its own.
    fn ending_anew(&self, alloc: Global, run: u64) -> Result<JudgedEnding, SearchFault>
        ensures { IfOk result (IsMetIn (J.judges self.now.judge.now self.now.maker.request.now) self.now.maker run) }
    {
        let made = self.maker.run_anew(alloc, self.judge.hears(), run)?;
        self.judged(alloc, run, &made)
    }

    /// Makes the run of this number, which was made before and is looked for. It isn't given up: what was found is kept.
    ///
    /// # Errors
    /// `NoEnd` where it isn't looked for now, which none is.
    pub(crate) fn found(&self, alloc: Global, run: u64) -> Result<NumberedRun, SearchFault>
        ensures found { IfOk result (λ found. IsFoundIn (J.judges self.now.judge.now self.now.maker.request.now) self.now.maker found.made) }
        ensures drawn { IfOk result (λ found. IsMadeIn self.now.maker run found.made) }
        ensures number { IfOk result (λ found. found.run ≡ run) }
    {
        let made = self.maker.run_anew(alloc, self.judge.hears(), run)?;
        if self.judge.is_sought(alloc, self.maker.request, &made)? {
            Ok(NumberedRun { run, made })
        } else {
            Err(SearchFault::NoEnd)
        }
    }

    /// The endings of runs in a row, the last first: of all of them, or where one is given up of those before it.
    fn endings(
        &self,
        alloc: Global,
        from: u64,
        count: usize,
    ) -> Result<Vec<JudgedEnding>, SearchFault>
        requires { from + count < 2 ^ 64 }
        ensures { IfOk result (λ endings. AreMetIn (J.judges self.now.judge.now self.now.maker.request.now) self.now.maker from endings.items) }
    {
        let mut endings = Vec::new(alloc);
        let mut spares = Spares::new(alloc);
        for n in 0..count {
            let run = from + n as u64;
            let Some(ending) = self.ending(alloc, run, &mut spares)? else {
                return Ok(endings);
            };
            endings.insert(0, ending)?;
        }
        Ok(endings)
    }

    /// Drops the endings of later runs, where of those before them fewer were made than were wanted.
    fn drop_later(&self, endings: &mut Vec<JudgedEnding>, first: u64, made: usize, wanted: u64)
        requires { AreMetIn (J.judges self.now.judge.now self.now.maker.request.now) self.now.maker (first + wanted) endings.old.items }
        ensures { AreMetIn (J.judges self.now.judge.now self.now.maker.request.now) self.now.maker (first + made) endings.new.items }
    {
        if made as u64 != wanted {
            endings.clear();
        }
    }

    /// The endings of the runs that a job makes ahead, the last first: of all of them, or where one is given up of those
    /// before it.
    fn endings_of(
        &self,
        alloc: Global,
        ahead: RunsAhead,
        job: usize,
    ) -> Result<Vec<JudgedEnding>, SearchFault>
        requires { job + 1 < 2 ^ 64 }
        ensures { IfOk result (λ endings. AreMetIn (J.judges self.now.judge.now self.now.maker.request.now) self.now.maker (first_of ahead job) endings.items) }
    {
        let wanted = ahead.wanted(job) as usize;
        self.endings(alloc, ahead.first(job), wanted)
    }

    /// Puts the endings of the last piece, which is a job's, behind those of later runs, and takes it away. Where it
    /// hasn't as many as were wanted, the later ones are dropped.
    fn add(
        &self,
        endings: &mut Vec<JudgedEnding>,
        pieces: &mut Vec<Result<Vec<JudgedEnding>, SearchFault>>,
        ahead: RunsAhead,
        job: usize,
    ) -> Result<(), SearchFault>
        requires last { length pieces.old.items ≡ job + 1 }
        requires room { job + 1 < 2 ^ 64 }
        requires endings { AreMetIn (J.judges self.now.judge.now self.now.maker.request.now) self.now.maker (first_of ahead (job + 1)) endings.old.items }
        requires pieces { ArePiecesIn (J.judges self.now.judge.now self.now.maker.request.now) self.now.maker ahead pieces.old.items }
        ensures last { OnOk result (length pieces.new.items ≡ job) }
        ensures endings { OnOk result (AreMetIn (J.judges self.now.judge.now self.now.maker.request.now) self.now.maker (first_of ahead job) endings.new.items) }
        ensures pieces { OnOk result (ArePiecesIn (J.judges self.now.judge.now self.now.maker.request.now) self.now.maker ahead pieces.new.items) }
    {
        let Some(piece) = pieces.pop() else {
            return Ok(());
        };
        let mut made = piece?;
        let (first, wanted) = (ahead.first(job), ahead.wanted(job));
        self.drop_later(endings, first, made.len(), wanted);
        endings.append(&mut made)?;
        Ok(())
    }

    /// The endings of runs that are made ahead, the last first, up to one that is given up.
    fn endings_by<R: Threads + Sync>(
        &self,
        alloc: Global,
        crew: &Crew<R>,
        ahead: RunsAhead,
    ) -> Result<Vec<JudgedEnding>, SearchFault>
        ensures { IfOk result (λ endings. AreMetIn (J.judges self.now.judge.now self.now.maker.request.now) self.now.maker ahead.from endings.items) }
    {
        let (rt, jobs) = (crew.rt, crew.jobs);
        let mut pieces = map_indices(
            rt,
            alloc,
            jobs,
            &|job: usize| -> Result<Vec<JudgedEnding>, SearchFault>
                requires { job + 1 < 2 ^ 64 }
                ensures { IfOk result (λ endings. AreMetIn (J.judges self.entry.now.judge.now self.entry.now.maker.request.now) self.entry.now.maker
                    (first_of ahead job) endings.items) }
            { self.endings_of(alloc, ahead, job) },
        )?;
        let mut endings = Vec::new(alloc);
        for job in (0..jobs).rev() {
            self.add(&mut endings, &mut pieces, ahead, job)?;
        }
        Ok(endings)
    }

    /// The ending of the run of this number: one that was made ahead, or it is made, and others after it, the more the
    /// more were made before. None where it was given up.
    fn next_ending<R: Threads + Sync>(
        &self,
        alloc: Global,
        crew: &Crew<R>,
        run: u64,
        ahead: &mut Vec<JudgedEnding>,
    ) -> Result<Option<JudgedEnding>, SearchFault>
        requires few { self.now.maker.sought.now.from + self.now.maker.sought.now.runs < 2 ^ 64 }
        requires within { run < self.now.maker.sought.now.from + self.now.maker.sought.now.runs }
        requires ahead { AreMetIn (J.judges self.now.judge.now self.now.maker.request.now) self.now.maker run ahead.old.items }
        ensures met { IfOk result (λ ending. IfSome ending (IsMetIn (J.judges self.now.judge.now self.now.maker.request.now) self.now.maker run)) }
        ensures ahead { OnOk result (AreMetIn (J.judges self.now.judge.now self.now.maker.request.now) self.now.maker (run + 1) ahead.new.items) }
    {
        if let Some(ending) = ahead.pop() {
            return Ok(Some(ending));
        }
        let Sought { from, runs, .. } = *self.maker.sought;
        let made = run.saturating_sub(from);
        let share = made / (crew.jobs as u64).max(1);
        let piece = (share / 2).saturating_add(1).min(PIECE);
        let more = RunsAhead {
            from: run,
            count: from + runs - run,
            piece,
        };
        *ahead = self.endings_by(alloc, crew, more)?;
        Ok(ahead.pop())
    }

    /// The ending of the run of this number, which is made whether or not runs are given up; none where the follower
    /// wishes an end then.
    pub(crate) fn noted_next<R: Threads + Sync, F: Hears>(
        &self,
        alloc: Global,
        crew: &Crew<R>,
        run: u64,
        ahead: &mut Vec<JudgedEnding>,
        follower: &mut F,
    ) -> Result<Option<JudgedEnding>, SearchFault>
        requires few { self.now.maker.sought.now.from + self.now.maker.sought.now.runs < 2 ^ 64 }
        requires within { run < self.now.maker.sought.now.from + self.now.maker.sought.now.runs }
        requires ahead { AreMetIn (J.judges self.now.judge.now self.now.maker.request.now) self.now.maker run ahead.old.items }
        ensures met { IfOk result (λ ending. IfSome ending (IsMetIn (J.judges self.now.judge.now self.now.maker.request.now) self.now.maker run)) }
        ensures ahead { OnOk result (AreMetIn (J.judges self.now.judge.now self.now.maker.request.now) self.now.maker (run + 1) ahead.new.items) }
        ensures told { IfOk result (λ ending. IfNone ending (F.wish follower.new ≡ Wish.End)) }
    {
        if let Some(ending) = self.next_ending(alloc, crew, run, ahead)? {
            return Ok(Some(ending));
        }
        if let Wish::End = follower.given_up() {
            return Ok(None);
        }
        let ending = self.ending_anew(alloc, run)?;
        Ok(Some(ending))
    }
}
