//! A walk along a recorded log.
ghost use Rattle.std.specs.Prelude.{◌≡◌, ◌<◌, ◌≤◌, ℕ, true, false, length, Some, None, All};
ghost use Rattle.types.specs.declared.limits.TheConstants.{MOST_THREADS};
ghost use Rattle.types.specs.declared.event.Event.TheVariants as events;
ghost use Rattle.types.specs.declared.event.Question.TheVariants.{Leave};
ghost use Rattle.shared_memory.specs.Events.{is_exempt};
ghost use Rattle.replay_text.specs.Conditions.{IsEntry};
ghost use Rattle.replay_walk.specs.Walked.{BeginsWalk, StandsSomewhere, StandsReady, TakesEntry};
ghost use Rattle.replay_walk.specs.Walked.{RefusesEntry};
ghost use Rattle.replay_walk.specs.Seen.{SeesLeave, SeesEvent, SeesEntry, SeesWhole, SeesUpTo};
ghost use Rattle.replay_walk.specs.Walked.{RefusesLeave, TakesAnswer, RefusesAnswer, IsNewWalk, ComesAlong, StopsAt};

use crate::watch::show_event;
use crate::{Stage, Watch, is_same_event, settle_at};
use interp_trait::{TakesTurns, Turn};
use shared_memory_sequential::OneMemory;
use types::{Answer, Entry, Event, Outcome, Question, Stop};

/// A recorded run on its way along its log: its threads by their numbers, its memory, and what they ask of one another.
///
/// A program that starts threads has 64 here, though the run may have had fewer, of which those that weren't spawned
/// yet haven't made a turn; another program has one.
#[derive(Drop)]
pub struct Walk<T> {
    pub threads: Vec<T>,
    pub memory: OneMemory,
    pub stage: Stage,
}

impl<T: TakesTurns> Walk<T> {
    /// Begins a walk of so many threads at most, with thread 0 at its start, and the opening memory.
    pub fn new(threads: Vec<T>, memory: OneMemory, most: u32) -> Walk<T>
        requires some { 0 < most }
        requires few { most ≤ MOST_THREADS }
        ensures { BeginsWalk T.meaning threads.items memory most result }
    {
        Walk {
            threads,
            memory,
            stage: Stage::new(most),
        }
    }

    /// Takes the entry that stands behind `at` others, if it fits.
    fn take<W: Watch<T>>(&mut self, entry: &Entry, at: usize, limit: u32, watch: &mut W) -> bool
        requires entry { IsEntry MOST_THREADS entry.now }
        requires standing { StandsReady T.meaning self.old }
        ensures count { length self.new.threads.items ≡ length self.old.threads.items }
        ensures taken { result ≡ true → TakesEntry T.meaning self.old self.new limit at entry.now }
        ensures refused { result ≡ false → RefusesEntry T.meaning self.old limit at entry.now }
        ensures seen { SeesEntry T.meaning W.sees limit at self.old entry.now result watch.old watch.new }
    {
        match entry.event {
            Event::Told(answer) => self.take_told(entry.thread, answer),
            Event::Ask(Question::Leave) => self.take_leave(entry, at, limit, watch),
            _ => self.take_event(entry, at, limit, watch),
        }
    }

    /// A leave: the thread has ended, or it wants another event and the log is full.
    fn take_leave<W: Watch<T>>(
        &mut self,
        entry: &Entry,
        at: usize,
        limit: u32,
        watch: &mut W,
    ) -> bool
        requires entry { IsEntry MOST_THREADS entry.now }
        requires kind { entry.now.event ≡ events.Ask Leave }
        requires standing { StandsSomewhere T.meaning self.old }
        ensures count { length self.new.threads.items ≡ length self.old.threads.items }
        ensures taken { result ≡ true → TakesEntry T.meaning self.old self.new limit at entry.now }
        ensures refused { result ≡ false → RefusesLeave T.meaning self.old limit at entry.now }
        ensures seen { SeesLeave T.meaning W.sees self.old entry.now result watch.old watch.new }
    {
        let n = entry.thread;
        if !self.stage.is_going::<T>(n) {
            return false;
        }
        let turn = settle_at(&mut self.threads, n as usize);
        watch.settled(n, turn);
        let outcome = match turn {
            Turn::Ended(outcome) => outcome,
            Turn::Wants(_) => {
                if at < limit as usize {
                    return false;
                }
                Outcome::Stop(Stop::RecordFull)
            }
            _ => return false,
        };
        self.stage.leave::<T>(n, outcome);
        true
    }

    /// Another event, for which the log has room: the thread wants this very one, and the memory gives this reply.
    fn take_event<W: Watch<T>>(
        &mut self,
        entry: &Entry,
        at: usize,
        limit: u32,
        watch: &mut W,
    ) -> bool
        requires entry { IsEntry MOST_THREADS entry.now }
        requires kind { is_exempt entry.now.event ≡ false }
        requires standing { StandsReady T.meaning self.old }
        ensures count { length self.new.threads.items ≡ length self.old.threads.items }
        ensures taken { result ≡ true → TakesEntry T.meaning self.old self.new limit at entry.now }
        ensures refused { result ≡ false → RefusesEntry T.meaning self.old limit at entry.now }
        ensures seen { SeesEvent T.meaning W.sees limit at self.old entry.now result watch.old watch.new }
    {
        let Entry {
            thread: n,
            event,
            reply,
        } = *entry;
        if at >= limit as usize || !self.stage.is_going::<T>(n) {
            return false;
        }
        let threads = self.threads.as_mut_slice();
        let turn = settle_at(threads, n as usize);
        watch.settled(n, turn);
        let Turn::Wants(wanted) = turn else {
            return false;
        };
        if !is_same_event(wanted, event) {
            return false;
        }
        show_event(watch, entry, threads, &self.memory);
        self.stage.make(threads, &mut self.memory, n, event, reply)
    }

    /// An answer heard, which is the one that is due.
    fn take_told(&mut self, n: u32, answer: Answer) -> bool
        requires standing { StandsSomewhere T.meaning self.old }
        ensures count { length self.new.threads.items ≡ length self.old.threads.items }
        ensures taken { result ≡ true → TakesAnswer T.meaning self.old self.new n answer }
        ensures refused { result ≡ false → RefusesAnswer T.meaning self.old n answer }
    {
        self.stage.tell(&mut self.threads, n, answer)
    }

    /// Walks along a log from its beginning, to the first entry that doesn't fit, and gives that one's place, counted
    /// from 0; or to the end of the log. `watch` sees it at each entry.
    pub fn along_watched<W: Watch<T>>(
        &mut self,
        log: &[Entry],
        limit: u32,
        watch: &mut W,
    ) -> Option<usize>
        requires entries { All (IsEntry MOST_THREADS) log.now }
        requires new { IsNewWalk T.meaning self.old limit }
        ensures whole { result ≡ None → ComesAlong T.meaning self.old limit log.now self.new }
        ensures misfit { (k : ℕ) → result ≡ Some k → StopsAt T.meaning self.old limit log.now k }
        ensures seen { result ≡ None
            → SeesWhole T.meaning W.sees self.old limit log.now self.new watch.old watch.new }
        ensures stopped { (k : ℕ) → result ≡ Some k
            → SeesUpTo T.meaning W.sees self.old limit log.now k watch.old watch.new }
    {
        for (at, entry) in log.iter().enumerate() {
            watch.came(at, self);
            if !self.take(entry, at, limit, watch) {
                return Some(at);
            }
        }
        watch.came(log.len(), self);
        None
    }
}
