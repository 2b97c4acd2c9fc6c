//! The machine: all threads of a module over one memory and one wait queue, stepped mark by mark.
ghost use Rattle.std.specs.Prelude.{◌≡◌, ◌<◌, Some, false, length, OnOk, OnErr};
ghost use Rattle.types.specs.declared.event.Event.{Event};
ghost use Rattle.types.specs.declared.event.Event.TheVariants.{Ask};
ghost use Rattle.types.specs.declared.limits.TheConstants.{MOST_THREADS};
ghost use Rattle.shared_memory.specs.Events.{IsEvent, IsQuestion, is_of_queue};
ghost use Rattle.shared_memory.specs.Memory.{reply_of};
ghost use Rattle.shared_memory.specs.WaitQueue.{IsFree, next_id, after_question};
ghost use Rattle.shared_memory.specs.History.{entry};
ghost use Rattle.schedule.specs.System as systems;
ghost use Rattle.schedule_threads.specs.Shared.{without_dues};
ghost use Rattle.schedule_machine.specs.Runs.{next_after, opening_value};
ghost use Rattle.schedule_program.specs.Runs.{IsSomewhere, AtEach, StepsTo, after_kind, after_marks, event_called};
ghost use Rattle.schedule_program.specs.Runs.{kind_of};
ghost use Rattle.schedule_program.specs.Runs.{BeginsWith, MakesEntry, AddsEntries, CallsNothing, GoesByItself};
ghost use Rattle.schedule_program.specs.Runs.{IsToMake};
ghost use Rattle.schedule_program.specs.Runs.{MakesEvent, TakesDue, MayBeTold, OneHears, EachHears, HasSlots, IsToAsk};
ghost use Rattle.schedule_program.specs.Runs.{AsksQuestion, NextIsAbsent, StartsNext};

use crate::mark::{Kind, Mark};
use crate::stepped::Stepped;
use interp_trait::TakesTurns;
use shared_memory_sequential::OneMemory;
use std::alloc::AllocError;
use types::{Entry, Event, MOST_THREADS, Question, Reply};
use waiters::Queue;

/// The scheduled machine: threads 0 to 63 of a module, over one memory and one wait queue.
#[derive(Drop)]
pub struct Machine<T> {
    pub(crate) threads: Vec<Stepped<T>>,
    pub(crate) memory: OneMemory,
    queue: Queue,
    /// The number of the next thread that is spawned.
    next_id: u32,
}

/// A thread to which an answer is due hears it.
fn tell<T: TakesTurns>(queue: &mut Queue, threads: &mut Vec<Stepped<T>>, n: u32)
    requires { MayBeTold T.meaning threads.old.items queue.old }
    ensures queue { TakesDue queue.old queue.new n }
    ensures slots { length threads.new.items ≡ length threads.old.items }
    ensures threads { OneHears T.meaning queue.old n threads.old.items threads.new.items }
{
    if let Some(answer) = queue.told(n) {
        threads[n as usize].hear(answer);
    }
}

/// Each thread to which an answer is due hears it.
fn tell_all<T: TakesTurns>(queue: &mut Queue, threads: &mut Vec<Stepped<T>>)
    requires due { length queue.old.due ≡ MOST_THREADS }
    requires threads { MayBeTold T.meaning threads.old.items queue.old }
    ensures queue { queue.new ≡ without_dues queue.old }
    ensures slots { length threads.new.items ≡ length threads.old.items }
    ensures threads { EachHears T.meaning queue.old threads.old.items threads.new.items }
{
    for n in 0..64 {
        tell(queue, threads, n);
    }
}

impl<T: TakesTurns> Machine<T> {
    /// A machine before its first mark: of its threads, thread 0 is at its start, and the others aren't started. There
    /// are 64, or fewer where the program spawns none.
    pub fn new(threads: Vec<Stepped<T>>, memory: OneMemory) -> Machine<T>
        ensures { BeginsWith T.meaning threads.items memory result }
    {
        Machine {
            threads,
            memory,
            queue: Queue::new(MOST_THREADS as u32),
            next_id: 1,
        }
    }

    /// The event that a thread wants to make next, if it wants one. One that has ended wants to leave.
    pub fn wanted(&self, n: u32) -> Option<Event>
        ensures wanted { AtEach T.meaning self.now (λ s w. result ≡ event_called s w n) }
        ensures event { AtEach T.meaning self.now (λ s w. (e : Event) → result ≡ Some e → IsEvent e) }
    {
        let place = n as usize;
        if place < self.threads.len() {
            return self.threads[place].wanted();
        }
        None
    }

    /// Steps the machine by a mark, and gives the entry that this makes, if it makes one.
    pub fn step(&mut self, mark: Mark) -> Option<Entry>
        requires { IsSomewhere T.meaning self.old }
        ensures state { StepsTo T.meaning self.old self.new (after_kind mark.thread (kind_of mark.kind)) }
        ensures entry { MakesEntry T.meaning self.old result mark.thread (kind_of mark.kind) }
    {
        match mark.kind {
            Kind::Turn => return self.turn(mark.thread),
            Kind::Loses => self.lose(mark.thread),
            Kind::Fills => self.fill(mark.thread),
        }
        None
    }

    /// Steps the machine along a schedule, and puts the entries that this makes behind those in the list.
    ///
    /// # Errors
    /// Where memory for the entries is refused. Then nothing was stepped, and the list has the entries that it had.
    pub fn step_along(&mut self, marks: &[Mark], entries: &mut Vec<Entry>) -> Result<(), AllocError>
        requires { IsSomewhere T.meaning self.old }
        ensures state { OnOk result (StepsTo T.meaning self.old self.new (after_marks marks.now)) }
        ensures made { OnOk result (AddsEntries T.meaning self.old marks.now entries.old entries.new) }
        ensures unstepped { OnErr result (self.new ≡ self.old) }
        ensures unchanged { OnErr result (entries.new.items ≡ entries.old.items) }
    {
        entries.reserve(marks.len())?;
        for mark in marks {
            if let Some(entry) = self.step(*mark) {
                entries.push_reserved(entry);
            }
        }
        Ok(())
    }

    /// A thread loses a try of the event that it wants, if it can.
    fn lose(&mut self, n: u32)
        requires { IsSomewhere T.meaning self.old }
        ensures { StepsTo T.meaning self.old self.new (after_kind n systems.Loses) }
    {
        let place = n as usize;
        if place < self.threads.len() {
            self.threads[place].lose();
        }
    }

    /// A thread finds the log full, if it wants an event that needs room there.
    fn fill(&mut self, n: u32)
        requires { IsSomewhere T.meaning self.old }
        ensures { StepsTo T.meaning self.old self.new (after_kind n systems.Fills) }
    {
        let place = n as usize;
        if place < self.threads.len() {
            self.threads[place].fill();
        }
    }

    /// A thread makes its next turn: the event that it wants, or a turn of its own. It makes none where it awaits an
    /// answer, has left, or isn't there.
    fn turn(&mut self, n: u32) -> Option<Entry>
        requires { IsSomewhere T.meaning self.old }
        ensures state { StepsTo T.meaning self.old self.new (after_kind n systems.Turn) }
        ensures entry { MakesEntry T.meaning self.old result n systems.Turn }
    {
        let Some(event) = self.wanted(n) else {
            self.go(n);
            return None;
        };
        match event {
            Event::Ask(question) => Some(self.question(n, question)),
            _ => Some(self.access(n, event)),
        }
    }

    /// A thread that wants no event makes a turn of its own, if it wants that.
    fn go(&mut self, n: u32)
        requires { CallsNothing T.meaning self.old n }
        ensures { GoesByItself T.meaning self.old self.new n }
    {
        let place = n as usize;
        if place < self.threads.len() {
            self.threads[place].go();
        }
    }

    /// A thread makes the event that it wants, which is no question.
    fn access(&mut self, n: u32, event: Event) -> Entry
        requires event { IsEvent event }
        requires no_question { is_of_queue event ≡ false }
        requires there { n < length self.old.threads.items }
        requires state { IsToMake T.meaning self.old n event }
        ensures state { MakesEvent T.meaning self.old self.new n event }
        ensures entry { result ≡ entry n event (reply_of self.old.memory event) }
    {
        let reply = self.memory.step(&event);
        self.threads[n as usize].take(reply);
        Entry {
            thread: n,
            event,
            reply,
        }
    }

    /// A thread asks the question that it wants to ask. One out of bounds has its answer in its reply.
    fn question(&mut self, n: u32, question: Question) -> Entry
        requires question { IsQuestion question }
        requires there { n < length self.old.threads.items }
        requires state { IsToMake T.meaning self.old n (Ask question) }
        ensures state { MakesEvent T.meaning self.old self.new n (Ask question) }
        ensures entry { result ≡ entry n (Ask question) (reply_of self.old.memory (Ask question)) }
    {
        let asked = Event::Ask(question);
        let reply = self.memory.step(&asked);
        self.threads[n as usize].take(reply);
        if let Some(loaded) = loaded_by(reply) {
            self.ask(n, question, loaded);
        }
        Entry {
            thread: n,
            event: asked,
            reply,
        }
    }

    /// Asks a question of a thread that awaits its answer already. Who is given an answer by it hears that at once, and
    /// a spawn starts its thread.
    fn ask(&mut self, n: u32, question: Question, loaded: u64)
        requires due { length (after_question self.old.queue n question loaded).due ≡ MOST_THREADS }
        requires next { self.old.next_id ≡ next_id self.old.queue }
        requires free { IsFree self.old.queue n }
        requires slots { HasSlots question (length self.old.threads.items) }
        requires threads { IsToAsk T.meaning self.old n question loaded }
        ensures memory { self.new.memory ≡ self.old.memory }
        ensures queue { self.new.queue ≡ without_dues (after_question self.old.queue n question loaded) }
        ensures slots { length self.new.threads.items ≡ length self.old.threads.items }
        ensures next { self.new.next_id ≡ next_id self.new.queue }
        ensures threads { AsksQuestion T.meaning self.old self.new n question loaded }
    {
        self.queue.ask(n, &question, loaded);
        tell_all(&mut self.queue, &mut self.threads);
        if let Question::Spawn { arg } = question {
            self.start_next(arg);
        }
    }

    /// Starts the thread of the next number with an argument, unless all numbers are given out.
    fn start_next(&mut self, arg: u32)
        requires slots { length self.old.threads.items ≡ MOST_THREADS }
        requires threads { NextIsAbsent T.meaning self.old }
        ensures memory { self.new.memory ≡ self.old.memory }
        ensures queue { self.new.queue ≡ self.old.queue }
        ensures slots { length self.new.threads.items ≡ MOST_THREADS }
        ensures next { self.new.next_id ≡ next_after self.old.next_id (Question.Spawn arg) }
        ensures threads { StartsNext T.meaning self.old self.new arg }
    {
        if self.next_id < MOST_THREADS as u32 {
            self.threads[self.next_id as usize].start(self.next_id, arg);
            self.next_id += 1;
        }
    }
}

/// The value that a question loaded, where its reply leaves it open.
fn loaded_by(reply: Reply) -> Option<u64>
    ensures { result ≡ opening_value reply }
{
    match reply {
        Reply::Value(value) => Some(value),
        Reply::Done => Some(0),
        _ => None,
    }
}
