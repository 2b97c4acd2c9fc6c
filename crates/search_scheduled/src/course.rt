//! A walk with the log that it makes.
ghost use Rattle.std.specs.Prelude.{◌≡◌, ◌≤◌, ◌+◌, ◌⊎◌, [], length, OnOk, IfOk, IfErr, IfSome};
ghost use Rattle.types.specs.declared.limits.TheConstants.{MOST_THREADS, PAST_LIMIT};
ghost use Rattle.replay_walk.specs.Standing.{MayBeTaken};
ghost use Rattle.search_scheduled.specs.Courses.{BeginsCourse, IsOnARun, StaysOnItsRuns};
ghost use Rattle.search_scheduled.specs.Courses.{IsEachReady, GoesOn, IsLed, IsGivenUp, Hears, HearsAt, Steps};
ghost use Rattle.search_scheduled.specs.Heard.{StaysHeard};
ghost use Rattle.search_scheduled.specs.Nowhere.{IsStranded, MakesNoEntry};
ghost use Rattle.search_scheduled.specs.declared.course.CourseFault.TheVariants as faults;

use crate::ear::{Ear, hear_at};
use crate::hearing::hear;
use crate::making::go_on;
use crate::settled::settle_going;
use arrayvec::ArrayVec;
use interp_trait::TakesTurns;
use replay_walk::Walk;
use search_strategies::Strategy;
use shared_memory_sequential::OneMemory;
use std::alloc::{AllocFailed, Global};
use thiserror::Error;
use types::{Entry, Event, MOST_THREADS, PAST_LIMIT, Reply};

/// Why a course came to no end.
#[derive(Clone, Copy, PartialEq, Eq, Debug, Error)]
pub enum CourseFault {
    /// The system had too little memory left for the log.
    #[error("no memory")]
    NoMemory,
    /// A thread that can go on makes no entry.
    #[error("no entry")]
    NoEntry,
    /// The strategy gave the run up.
    #[error("given up")]
    GivenUp,
}

impl<T: Drop> From<AllocFailed<T>> for CourseFault {
    ghost from_gives = { λ _ e. e ≡ faults.NoMemory };

    fn from(_: AllocFailed<T>) -> CourseFault {
        CourseFault::NoMemory
    }
}

/// A run on its way: a walk, the log that it has made, how many entries that takes, and how many units each thread may
/// spend.
#[derive(Drop)]
pub struct Course<T> {
    pub walk: Walk<T>,
    pub log: Vec<Entry>,
    pub fuel: u64,
    pub limit: u32,
}

impl<T: TakesTurns> Course<T> {
    /// Before the first turn: thread 0 is at its start, and the memory is the opening one. There may be 64 threads.
    pub fn new(
        alloc: Global,
        threads: Vec<T>,
        memory: OneMemory,
        fuel: u64,
        limit: u32,
    ) -> Course<T>
        ensures begins { BeginsCourse T.meaning threads.items memory fuel limit result }
        ensures log { result.log.items ≡ [] }
        ensures limit { result.limit ≡ limit }
    {
        Course {
            walk: Walk::new(threads, memory, MOST_THREADS as u32),
            log: Vec::new(alloc),
            fuel,
            limit,
        }
    }

    /// A thread takes the answer that is due to it, if one is, and is heard before.
    fn hear<E: Ear<T>>(&mut self, n: u32, ear: &mut E) -> Result<(), CourseFault>
        requires { IsOnARun T.meaning self.old }
        ensures heard { OnOk result (HearsAt T.meaning n self.old self.new) }
        ensures ear { OnOk result (StaysHeard T.meaning E.hears self.old ear.old self.new ear.new) }
        ensures fault { IfErr result (λ fault. fault ≡ faults.NoMemory) }
    {
        if self.walk.stage.queue.due(n).is_none() {
            return Ok(());
        }
        hear_at(&self.walk.threads, n, ear)?;
        if let Some(answer) = hear(&mut self.walk, n) {
            self.log.push(Entry {
                thread: n,
                event: Event::Told(answer),
                reply: Reply::Done,
            })?;
        }
        Ok(())
    }

    /// All threads take the answers that are due to them.
    fn hear_all<E: Ear<T>>(&mut self, ear: &mut E) -> Result<(), CourseFault>
        requires { IsOnARun T.meaning self.old }
        ensures heard { OnOk result (Hears T.meaning self.old self.new) }
        ensures ear { OnOk result (StaysHeard T.meaning E.hears self.old ear.old self.new ear.new) }
        ensures fault { IfErr result (λ fault. fault ≡ faults.NoMemory) }
    {
        for n in 0..self.walk.stage.started {
            self.hear(n, ear)?;
        }
        Ok(())
    }

    /// A thread that can go on makes its turns of its own, and then its event, whose entry is given.
    ///
    /// # Errors
    /// `NoEntry` where it can't go on, or makes none; `GivenUp` where the strategy gives the run up meanwhile;
    /// `NoMemory`.
    fn step<S: Strategy, E: Ear<T>>(
        &mut self,
        n: u32,
        strategy: &S,
        ear: &mut E,
    ) -> Result<Entry, CourseFault>
        requires { IsOnARun T.meaning self.old }
        ensures goes { IfOk result (λ e. Steps T.meaning n e self.old self.new) }
        ensures ear { OnOk result (StaysHeard T.meaning E.hears self.old ear.old self.new ear.new) }
        ensures none { IfErr result (λ fault. fault ≡ faults.NoEntry
            → MayBeTaken T.meaning self.old.walk.stage n → MakesNoEntry T.meaning self.old.walk n) }
        ensures over { IfErr result (λ fault. fault ≡ faults.GivenUp → S.may_end strategy.now) }
    {
        let turn = settle_going(&mut self.walk, n, self.fuel, strategy)?;
        hear_at(&self.walk.threads, n, ear)?;
        let Some(entry) = go_on(&mut self.walk, n, turn, self.log.len(), self.limit) else {
            return Err(CourseFault::NoEntry);
        };
        self.log.push(entry)?;
        Ok(entry)
    }

    /// A thread that can go on makes its next event, and its entry is given. All threads take the answers that are due
    /// by it.
    ///
    /// # Errors
    /// As of `step`.
    fn advance<S: Strategy, E: Ear<T>>(
        &mut self,
        n: u32,
        strategy: &S,
        ear: &mut E,
    ) -> Result<Entry, CourseFault>
        requires { IsOnARun T.meaning self.old }
        ensures goes { IfOk result (λ e. GoesOn T.meaning n e self.old self.new) }
        ensures ear { OnOk result (StaysHeard T.meaning E.hears self.old ear.old self.new ear.new) }
        ensures none { IfErr result (λ fault. fault ≡ faults.NoEntry
            → MayBeTaken T.meaning self.old.walk.stage n → MakesNoEntry T.meaning self.old.walk n) }
        ensures over { IfErr result (λ fault. fault ≡ faults.GivenUp → S.may_end strategy.now) }
    {
        let entry = self.step(n, strategy, ear)?;
        if let Event::Ask(_) = entry.event {
            self.hear_all(ear)?;
        }
        Ok(entry)
    }

    /// The threads that can go on, in order.
    fn ready(&self) -> ArrayVec<u32, MOST_THREADS>
        ensures few { length result.items ≤ MOST_THREADS }
        ensures each { IsEachReady T.meaning self.now.walk.stage result.items }
    {
        let mut ready = ArrayVec::new();
        let most = self.walk.stage.started.min(MOST_THREADS as u32);
        for n in 0..most {
            if self.walk.stage.is_going::<T>(n) {
                ready.push(n);
            }
        }
        ready
    }

    /// Goes on until nobody can: before each event the strategy says who makes it, and hears the entry then. It stops
    /// too where the log has 192 entries more than its limit, which no run comes to. The thread of each entry is heard.
    ///
    /// # Errors
    /// `NoMemory`; `GivenUp` where the strategy names nobody, or gives the run up while a thread makes turns of its own;
    /// and `NoEntry` where the thread that is named makes none, after which the course stands nowhere.
    pub fn go<S: Strategy, E: Ear<T>>(
        &mut self,
        strategy: &mut S,
        ear: &mut E,
    ) -> Result<(), CourseFault>
        requires { IsOnARun T.meaning self.old }
        ensures runs { OnOk result (StaysOnItsRuns T.meaning self.old self.new) }
        ensures ear { OnOk result (StaysHeard T.meaning E.hears self.old ear.old self.new ear.new) }
        ensures led { OnOk result
            (IsLed T.meaning S.chooses S.hears self.old strategy.old self.new strategy.new) }
        ensures ends { OnOk result (IsEachReady T.meaning self.new.walk.stage []
            ⊎ (self.old.limit + PAST_LIMIT ≤ length self.new.log.items)) }
        ensures given_up { IfErr result (λ fault. fault ≡ faults.GivenUp
            → IsGivenUp T.meaning S.chooses S.hears S.may_end self.old strategy.old strategy.new) }
        ensures stranded { IfErr result (λ fault. fault ≡ faults.NoEntry
            → IsStranded T.meaning S.chooses S.hears self.old strategy.old) }
    {
        let most = self.limit as usize + PAST_LIMIT;
        for _ in 0..most {
            let ready = self.ready();
            if ready.is_empty() {
                return Ok(());
            }
            let Some(place) = strategy.choose(&ready) else {
                return Err(CourseFault::GivenUp);
            };
            let entry = self.advance(ready[place], strategy, ear)?;
            strategy.hear(&entry);
        }
        Ok(())
    }
}
