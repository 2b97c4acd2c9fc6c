//! The state of the wait queue, and its steps.
ghost use Rattle.std.specs.Prelude.{◌≡◌, ◌<◌, ◌≤◌, ◌↔◌, [], length, replicate, None, false, nat_lt, if◌then◌else◌};
ghost use Rattle.std.specs.Prelude.{IsTrue, MatchOption};
ghost use Rattle.std.specs.List.{list_all};
ghost use Rattle.types.specs.declared.limits.TheConstants.{MOST_THREADS};
ghost use Rattle.shared_memory.specs.WaitQueue.{IsFree, after_answer, after_question, answer_due, asked, first_queue};
ghost use Rattle.shared_memory.specs.WaitQueue.{has_open_question};
ghost use Rattle.shared_memory.specs.WaitQueue.{is_alive, is_asleep, is_among, is_stuck, leaves, next_id, settled};
ghost use Rattle.shared_memory.specs.WaitQueue.{sleeps, starts, tells, wakes, woken_at};
ghost use Rattle.waiters.specs.Queue.{AreAsleep, TakesAnswerIfDue, arg_of, falls_asleep, id_of_spawned, notified};
ghost use Rattle.waiters.specs.Queue.{spawned};

use crate::waking::{ends_at_once, first_to_end, is_among, tell_each, woken_at};
use arrayvec::ArrayVec;
use shared_memory::Sleeper;
use std::marker::Model;
use types::{Answer, MOST_SPAWNED, MOST_THREADS, Question};

/// What a spawn answers where all threads were spawned that a run may have.
const NO_THREAD: u32 = 4_294_967_295;

/// The wait queue: who is alive, who sleeps, which answers are due, and the arguments of the spawned threads. It takes
/// no memory beyond itself, holds no lock and waits for nobody.
///
/// Threads are numbered 0 to 63. The answers of a wait are 0 where the thread was notified, 1 where the value differed
/// and 2 where its timeout ended (threads proposal, "Wait and notify operators"); the numbers of threads and the
/// settling are the profile's own.
#[derive(Drop)]
pub struct Queue {
    pub(crate) alive: ArrayVec<u32, MOST_THREADS>,
    pub(crate) sleepers: ArrayVec<Sleeper, MOST_THREADS>,
    pub(crate) due: ArrayVec<Option<Answer>, MOST_THREADS>,
    pub(crate) args: ArrayVec<u32, MOST_SPAWNED>,
}

impl Model for Queue {
    ghost use Rattle.shared_memory.specs.WaitQueue.{WaitQueue};
    ghost use Rattle.shared_memory.specs.Sound.{IsSound};

    ghost Value = { WaitQueue };

    ghost view = { λ a. record {
      alive = a.alive.items;
      sleepers = a.sleepers.items;
      due = a.due.items;
      args =
          a.args.items;
    } };

    ghost invariant = { λ a. IsSound (record {
      alive = a.alive.items;
      sleepers = a.sleepers.items;
      due = a.due.items;
      args = a.args.items;
    }) };
}

impl Queue {
    /// The first state of a run of so many threads at most, 1 to 64: thread 0 alone is alive.
    #[tactic(auto, unfolding(shared_memory::specs::WaitQueue::first_queue))]
    pub fn new(threads: u32) -> Queue
        requires some { 0 < threads }
        requires most { threads ≤ MOST_THREADS }
        ensures { result ≡ first_queue threads }
    {
        let mut alive = ArrayVec::new();
        alive.push(0);
        Queue {
            alive,
            sleepers: ArrayVec::new(),
            due: no_answers(threads),
            args: ArrayVec::new(),
        }
    }

    /// A live thread without an open question asks a question, and hears whether it falls asleep. `loaded` is the value
    /// of the word that a wait is at, and counts for nothing at another question. The answer of who falls asleep is due
    /// when it is woken, and any other answer at once. Then the queue settles: where each live thread is asleep, the
    /// least timeout ends, ties at the lowest thread, and where none has one, all sleep for good. So who falls asleep
    /// may be woken in this very call.
    #[tactic(auto, unfolding(shared_memory::specs::WaitQueue::after_question))]
    pub fn ask(&mut self, thread: u32, question: &Question, loaded: u64) -> bool
        requires { IsFree self.old thread }
        ensures after { self.new ≡ after_question self.old thread question.now loaded }
        ensures asleep { result ≡ falls_asleep question.now loaded }
    {
        let asleep = self.put_question(thread, question, loaded);
        self.settle();
        asleep
    }

    /// The answer that is due to the thread, which is then taken. It is `None`, with no change, where none is due, as
    /// for every number of no thread.
    #[tactic(auto, unfolding(shared_memory::specs::WaitQueue::after_answer))]
    pub fn told(&mut self, thread: u32) -> Option<Answer>
        ensures answer { result ≡ answer_due self.old thread }
        ensures after { TakesAnswerIfDue result thread self.old self.new }
    {
        let place = thread as usize;
        let Some(&answer) = self.due.get(place) else {
            return None;
        };
        if answer.is_some() {
            self.due.as_mut_slice()[place] = None;
        }
        answer
    }

    /// Whether the thread is alive: it is thread 0 or was spawned, and hasn't left.
    pub fn is_alive(&self, thread: u32) -> bool
        ensures { result ≡ is_alive self.now thread }
    {
        self.alive.contains(&thread)
    }

    /// Whether the thread sleeps. One that was woken and hasn't taken its answer yet doesn't.
    pub fn is_asleep(&self, thread: u32) -> bool
        ensures { result ≡ is_asleep self.now thread }
    {
        is_among(thread, self.sleepers.as_slice())
    }

    /// Whether the thread has an open question: it sleeps, or an answer is due to it.
    pub fn has_open_question(&self, thread: u32) -> bool
        ensures { result ≡ has_open_question self.now thread }
    {
        match self.due.get(thread as usize) {
            Some(Some(_)) => true,
            _ => self.is_asleep(thread),
        }
    }

    /// Whether the run is over: nobody is alive.
    pub fn is_over(&self) -> bool
        ensures { IsTrue result ↔ (self.now.alive ≡ []) }
    {
        self.alive.is_empty()
    }

    /// The argument that a spawned thread was given, or `None` where the thread is 0 or wasn't spawned.
    pub fn arg_of(&self, thread: u32) -> Option<u32>
        ensures { result ≡ arg_of self.now thread }
    {
        let place = thread.checked_sub(1)?;
        self.args.get(place as usize).copied()
    }

    /// How many threads a run may have: 64 at most.
    pub fn threads(&self) -> u32
        ensures count { result ≡ length self.now.due }
        ensures few { result ≤ MOST_THREADS }
    {
        self.due.len() as u32
    }

    /// What a question does before the queue settles, and whether the thread falls asleep.
    fn put_question(&mut self, thread: u32, question: &Question, loaded: u64) -> bool
        requires { IsFree self.old thread }
        ensures after { self.new ≡ asked self.old thread question.now loaded }
        ensures asleep { result ≡ falls_asleep question.now loaded }
    {
        // A live thread has a number that was given out.
        let _ = &self.alive;
        match *question {
            Question::Wait {
                addr,
                width: _,
                expected,
                timeout,
            } => {
                if loaded != expected {
                    self.tell(thread, Answer::Number(1));
                } else if ends_at_once(timeout) {
                    self.tell(thread, Answer::Number(2));
                } else {
                    self.sleep(Sleeper {
                        thread,
                        addr,
                        timeout,
                    });
                    return true;
                }
            }
            Question::Notify { addr, count } => {
                let woken = self.notify(addr, count);
                self.tell(thread, Answer::Number(woken));
            }
            Question::Spawn { arg } => {
                let id = self.spawn(arg);
                self.tell(thread, Answer::Number(id));
            }
            Question::Leave => {
                self.leave(thread);
                self.tell(thread, Answer::Number(0));
            }
        }
        false
    }

    /// The thread is given an answer, which is due until it takes it.
    fn tell(&mut self, thread: u32, answer: Answer)
        requires known { thread < next_id self.old }
        requires awake { is_asleep self.old thread ≡ false }
        ensures { self.new ≡ tells thread answer self.old }
    {
        self.due.as_mut_slice()[thread as usize] = Some(answer);
    }

    /// A thread falls asleep, behind those that sleep already.
    fn sleep(&mut self, s: Sleeper)
        requires { IsFree self.old s.thread }
        ensures { self.new ≡ sleeps s self.old }
    {
        self.sleepers.push(s);
    }

    /// Wakes those that have slept longest at the address, as many as are counted, and answers how many they are.
    fn notify(&mut self, addr: u64, count: u32) -> u32
        ensures after { self.new ≡ notified addr count self.old }
        ensures woken { result ≡ length (woken_at addr count self.old.sleepers) }
    {
        let woken = woken_at(self.sleepers.as_slice(), addr, count);
        self.wake(woken.as_slice(), Answer::Number(0));
        woken.len() as u32
    }

    /// A thread with the next number comes alive, unless each number has one.
    fn spawn(&mut self, arg: u32) -> u32
        ensures after { self.new ≡ spawned arg self.old }
        ensures id { result ≡ id_of_spawned self.old NO_THREAD }
    {
        let id = self.args.len() as u32 + 1;
        if id >= self.due.len() as u32 {
            return NO_THREAD;
        }
        self.alive.push(id);
        self.args.push(arg);
        id
    }

    /// The thread is alive no more.
    fn leave(&mut self, thread: u32)
        requires { is_asleep self.old thread ≡ false }
        ensures { self.new ≡ leaves thread self.old }
    {
        self.alive.retain(|m| *m != thread);
    }

    /// Each of these sleepers sleeps no more, and is given the answer.
    fn wake(&mut self, woken: &[Sleeper], answer: Answer)
        requires { AreAsleep woken.now self.old }
        ensures { self.new ≡ wakes woken.now answer self.old }
    {
        self.sleepers.retain(|s| !is_among(s.thread, woken));
        tell_each(self.due.as_mut_slice(), woken, answer);
    }

    /// All sleep for good.
    fn wake_all(&mut self)
        ensures { self.new ≡ wakes self.old.sleepers Answer.ForGood self.old }
    {
        tell_each(
            self.due.as_mut_slice(),
            self.sleepers.as_slice(),
            Answer::ForGood,
        );
        self.sleepers.clear();
    }

    /// Whether somebody is alive, and each live thread is asleep.
    fn is_stuck(&self) -> bool
        ensures { result ≡ is_stuck self.now }
    {
        let sleepers = self.sleepers.as_slice();
        !self.is_over() && are_among(&self.alive, sleepers)
    }

    /// Where each live thread is asleep, the first timeout ends; where there is none, all sleep for good.
    fn settle(&mut self)
        ensures { self.new ≡ settled self.old }
    {
        if !self.is_stuck() {
            return;
        }
        match first_to_end(self.sleepers.as_slice()) {
            Some(first) => self.wake(&[first], Answer::Number(2)),
            None => self.wake_all(),
        }
    }
}

/// So many threads, to none of which an answer is due.
pub(crate) fn no_answers(threads: u32) -> ArrayVec<Option<Answer>, MOST_THREADS>
    requires { threads ≤ MOST_THREADS }
    ensures { result.items ≡ replicate threads None }
{
    let mut due = ArrayVec::new();
    for _ in 0..threads {
        due.push(None);
    }
    due
}

/// Whether each of these threads is among the sleepers.
fn are_among(threads: &[u32], sleepers: &[Sleeper]) -> bool
    ensures { result ≡ list_all (λ n. is_among n sleepers.now) threads.now }
{
    threads.iter().all(|n| is_among(*n, sleepers))
}
