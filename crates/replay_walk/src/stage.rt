//! Where a walk along a log stands, and how it takes an entry.
ghost use Rattle.std.specs.Prelude.{◌≡◌, ◌≤◌, ◌<◌, ℕ, true, false, length, replicate, slice_set, Some, None};
ghost use Rattle.types.specs.declared.event.Event.TheVariants as events;
ghost use Rattle.types.specs.declared.event.Question.TheVariants.{Leave, Spawn};
ghost use Rattle.types.specs.declared.limits.TheConstants.{MOST_THREADS};
ghost use Rattle.shared_memory.specs.Memory.{reply_of, state_after};
ghost use Rattle.shared_memory.specs.Events.{IsEvent, is_exempt};
ghost use Rattle.shared_memory.specs.History.{queue_step};
ghost use Rattle.shared_memory.specs.WaitQueue.{first_queue, after_question, IsFree};
ghost use Rattle.replay_walk.specs.Standing.{Standing, IsAnswered, StageStands, is_spawn};
ghost use Rattle.replay_walk.specs.Standing.{Hands, IsNotDue, KeepsThreads, MayBeTaken, HasGoneIfFree, LeavesAs};
ghost use Rattle.replay_walk.specs.Standing.{MaySpawn, StartsSpawned, HasNoNumberLeft, StartsNobody, IsToMakeOn};
ghost use Rattle.replay_walk.specs.Standing.{MakesOn};

use crate::equal::{is_same_answer, is_same_reply};
use crate::turns::{start_at, turn_at};
use interp_trait::{Given, TakesTurns};
use shared_memory_sequential::OneMemory;
use types::{Answer, Event, MOST_THREADS, Outcome, Question, Reply};
use waiters::Queue;

/// The wait queue of a walk, how many threads were started, and how each has ended that asked to leave.
#[derive(Drop)]
pub struct Stage {
    pub queue: Queue,
    pub started: u32,
    pub ends: [Option<Outcome>; MOST_THREADS],
}

impl Stage {
    /// Of so many threads at most, thread 0 alone is there.
    pub fn new(most: u32) -> Stage
        requires some { 0 < most }
        requires few { most ≤ MOST_THREADS }
        ensures queue { result.queue ≡ first_queue most }
        ensures started { result.started ≡ 1 }
        ensures ends { result.ends ≡ replicate MOST_THREADS None }
    {
        Stage {
            queue: Queue::new(most),
            started: 1,
            ends: [None; MOST_THREADS],
        }
    }

    /// Takes an answer that a thread heard, if it is the one that is due. A thread that has left makes no more turns.
    /// Otherwise only the queue may have changed, and the walk is over.
    pub fn tell<T: TakesTurns>(&mut self, threads: &mut [T], n: u32, answer: Answer) -> bool
        requires standing { (s : Standing) × StageStands T.meaning s threads.old self.old }
        ensures count { length threads.new ≡ length threads.old }
        ensures told { result ≡ true → Hands T.meaning threads.old self.old n threads.new self.new answer }
        ensures refused { result ≡ false → IsNotDue T.meaning threads.old self.old n answer }
        ensures kept { result ≡ false → KeepsThreads self.old self.new threads.old threads.new }
    {
        let Some(due) = self.queue.told(n) else {
            return false;
        };
        if !is_same_answer(due, answer) {
            return false;
        }
        let place = n as usize;
        match self.ends[place] {
            None => {
                turn_at(threads, place, Given::Told(answer));
                true
            }
            Some(_) => true,
        }
    }

    /// Whether a thread may be taken: it was started, has no open question, and hasn't left. Who may be taken by its
    /// place alone, and isn't going, has left.
    pub fn is_going<T: TakesTurns>(&self, n: u32) -> bool
        ensures going { result ≡ true → MayBeTaken T.meaning self.now n }
        ensures gone { result ≡ false → HasGoneIfFree T.meaning self.now n }
    {
        if n >= self.started || self.queue.has_open_question(n) {
            return false;
        }
        let Some(end) = self.ends.get(n as usize) else {
            return false;
        };
        end.is_none()
    }

    /// A thread that has ended asks to leave, with its outcome.
    pub fn leave<T: TakesTurns>(&mut self, n: u32, outcome: Outcome)
        requires free { IsFree self.old.queue n }
        requires number { n < MOST_THREADS }
        ensures queue { self.new.queue ≡ after_question self.old.queue n Leave 0 }
        ensures started { self.new.started ≡ self.old.started }
        ensures ends { self.new.ends ≡ slice_set self.old.ends n (Some outcome) }
        ensures stands { LeavesAs T.meaning self.old self.new n outcome }
    {
        self.queue.ask(n, &Question::Leave, 0);
        self.ends[n as usize] = Some(outcome);
    }

    /// A thread's question goes to the queue, unless its reply was out of bounds. A spawn starts a thread, while there
    /// are fewer than there may be.
    pub fn ask<T: TakesTurns>(
        &mut self,
        threads: &mut [T],
        n: u32,
        question: Question,
        reply: Reply,
    )
        requires free { IsFree self.old.queue n }
        requires spawn { MaySpawn T.meaning threads.old self.old question }
        ensures count { length threads.new ≡ length threads.old }
        ensures queue { self.new.queue ≡ queue_step self.old.queue n (events.Ask question) reply }
        ensures ends { self.new.ends ≡ self.old.ends }
        ensures started { StartsSpawned T.meaning threads.old self.old question threads.new self.new }
        ensures full { HasNoNumberLeft self.old → StartsNobody self.old self.new threads.old threads.new }
        ensures other { is_spawn question ≡ false → StartsNobody self.old self.new threads.old threads.new }
    {
        let started = self.started;
        let most = self.queue.threads();
        match reply {
            Reply::OutOfBounds => {}
            Reply::Value(loaded) => {
                self.queue.ask(n, &question, loaded);
            }
            _ => {
                self.queue.ask(n, &question, 0);
            }
        }
        if let Question::Spawn { arg } = question
            && started < most
        {
            start_at(threads, started as usize, arg);
            self.started = started + 1;
        }
    }

    /// Makes the event that a thread wants, if the memory's reply to it is this one. Otherwise only the memory has
    /// changed, and the walk is over.
    pub fn make<T: TakesTurns>(
        &mut self,
        threads: &mut [T],
        memory: &mut OneMemory,
        n: u32,
        event: Event,
        reply: Reply,
    ) -> bool
        requires event { IsEvent event }
        requires kind { is_exempt event ≡ false }
        requires reply { IsAnswered reply }
        requires room { (arg : ℕ) → event ≡ events.Ask (Spawn arg) → length threads.old ≡ MOST_THREADS }
        requires settled { IsToMakeOn T.meaning threads.old self.old memory.old n event }
        ensures count { length threads.new ≡ length threads.old }
        ensures memory { memory.new ≡ state_after memory.old event }
        ensures made { result ≡ true
            → MakesOn T.meaning threads.old self.old memory.old n event reply threads.new self.new }
        ensures refused { result ≡ false → reply ≡ reply_of memory.old event → ⊥ }
        ensures kept { result ≡ false → (threads.new ≡ threads.old) × (self.new ≡ self.old) }
    {
        let answered = memory.step(&event);
        if !is_same_reply(answered, reply) {
            return false;
        }
        turn_at(threads, n as usize, Given::Reply(reply));
        if let Event::Ask(question) = event {
            self.ask(threads, n, question, reply);
        }
        true
    }
}
