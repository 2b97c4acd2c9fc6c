//! One thread of the machine.
ghost use Rattle.std.specs.Prelude.{◌≡◌, Some};
ghost use Rattle.types.specs.declared.event.Event.{Event};
ghost use Rattle.shared_memory.specs.Events.{IsEvent, is_exempt, may_lose};
ghost use Rattle.schedule.specs.Machine.{Thread.Absent, Thread.Runs};
ghost use Rattle.interp_machine.specs.Config.{Config};
ghost use Rattle.interp_machine.specs.State.{At};
ghost use Rattle.interp_trait.specs.Turns.{Running, wants_of};
ghost use Rattle.schedule_machine.specs.Threads.{Setting, IsMadeReply, called};
ghost use Rattle.schedule_program.specs.Threads.{IsThread, IsPrepared, ForEach, StandsForSome, Becomes, BecomesWhere};
ghost use Rattle.schedule_program.specs.Threads.{report_of};
ghost use Rattle.schedule_program.specs.Threads.{CallsNone, CallsSome, AwaitsAnswer, own_turn_of, with_reply};
ghost use Rattle.schedule_program.specs.Threads.{with_answer};
ghost use Rattle.schedule_program.specs.Threads.{with_lost_try, with_full_log, IsRunningAs, IsSpawnedAs, LeftWithin};
ghost use Rattle.schedule_program.specs.Threads.{AwaitsGiven, TakesGiven, HasTurned, KeepsTurn};

use interp_trait::{Given, TakesTurns, Turn};
use types::{Answer, Event, Outcome, Question, Reply, ThreadReport, Value};

/// How far a thread is.
#[derive(Clone, Copy, PartialEq, Eq)]
pub(crate) enum Stage {
    /// It wasn't started.
    Absent,
    /// It runs. It was asked already what it wants, and answered so. By that it is a turn ahead, if it wants one of its
    /// own.
    Runs(Turn),
    /// It has ended, and hasn't asked to leave.
    Ended(Outcome),
    /// It has asked to leave.
    Leaves(Outcome),
    /// It has left.
    Left(Outcome),
}

/// A thread of the machine, and how far it is.
#[derive(Drop)]
pub struct Stepped<T> {
    thread: T,
    stage: Stage,
}

impl<T: TakesTurns> Stepped<T> {
    /// A thread that isn't started yet.
    pub fn absent(thread: T) -> Stepped<T>
        requires { (s : Setting) × IsPrepared T.meaning s thread }
        ensures { (s : Setting) → IsPrepared T.meaning s thread → IsThread T.meaning s result Absent }
    {
        Stepped {
            thread,
            stage: Stage::Absent,
        }
    }

    /// A thread that runs: it is at its start.
    pub fn running(thread: T) -> Stepped<T>
        requires { (c : Config) × (T.meaning thread).stands (Runs (At c) (T.meaning thread).fuel) }
        ensures { IsRunningAs T.meaning thread result }
    {
        let mut stepped = Stepped {
            thread,
            stage: Stage::Absent,
        };
        stepped.goes_on(Turn::Moved);
        stepped
    }

    /// The event that it wants, if it wants one. A thread that has ended wants to leave.
    pub(crate) fn wanted(&self) -> Option<Event>
        ensures wanted { ForEach T.meaning self.now (λ s t. result ≡ called (wants_of s.program t)) }
        ensures event { ForEach T.meaning self.now (λ s t. (e : Event) → result ≡ Some e → IsEvent e) }
    {
        match self.stage {
            Stage::Runs(Turn::Wants(event)) => Some(event),
            Stage::Ended(_) => Some(Event::Ask(Question::Leave)),
            _ => None,
        }
    }

    /// Its report, if it has left.
    pub(crate) fn report(&self) -> Option<ThreadReport>
        ensures report { ForEach T.meaning self.now (λ s t. result ≡ report_of s.fuel t) }
        ensures within { LeftWithin T.meaning self.now }
    {
        match self.stage {
            Stage::Left(outcome) => Some(ThreadReport {
                outcome,
                spent: self.thread.spent(),
            }),
            _ => None,
        }
    }

    /// Makes a turn of its own, if it wants one.
    pub(crate) fn go(&mut self)
        requires { StandsForSome T.meaning self.old CallsNone }
        ensures { BecomesWhere T.meaning self.old self.new CallsNone own_turn_of }
    {
        if let Stage::Runs(turn) = self.stage {
            self.goes_on(turn);
        }
    }

    /// Takes the reply to the event that it wants, which was made.
    pub(crate) fn take(&mut self, reply: Reply)
        requires made { IsMadeReply reply }
        requires wants { StandsForSome T.meaning self.old CallsSome }
        ensures { BecomesWhere T.meaning self.old self.new CallsSome (with_reply reply) }
    {
        match self.stage {
            Stage::Runs(_) => self.give(Given::Reply(reply)),
            Stage::Ended(outcome) => self.stage = Stage::Leaves(outcome),
            _ => {}
        }
    }

    /// Hears the answer to its open question. One that asked to leave has left by it.
    pub(crate) fn hear(&mut self, answer: Answer)
        requires { StandsForSome T.meaning self.old AwaitsAnswer }
        ensures { BecomesWhere T.meaning self.old self.new AwaitsAnswer (with_answer answer) }
    {
        match self.stage {
            Stage::Runs(_) => self.give(Given::Told(answer)),
            Stage::Leaves(outcome) => self.stage = Stage::Left(outcome),
            _ => {}
        }
    }

    /// Loses a try of the event that it wants, if that can be lost.
    pub(crate) fn lose(&mut self)
        requires { (s : Setting) × (t : Running) × IsThread T.meaning s self.old t }
        ensures { Becomes T.meaning self.old self.new with_lost_try }
    {
        if let Some(event) = self.wanted()
            && can_be_lost(&event)
        {
            self.give(Given::Reply(Reply::Again));
        }
    }

    /// Finds the log full, if it wants an event that needs room there.
    pub(crate) fn fill(&mut self)
        requires { (s : Setting) × (t : Running) × IsThread T.meaning s self.old t }
        ensures { Becomes T.meaning self.old self.new with_full_log }
    {
        if let Some(event) = self.wanted()
            && !needs_no_room(&event)
        {
            self.give(Given::Reply(Reply::Full));
        }
    }

    /// Starts as the thread of a number, with an argument.
    pub(crate) fn start(&mut self, id: u32, arg: u32)
        requires { (s : Setting) × IsThread T.meaning s self.old Absent }
        ensures { IsSpawnedAs T.meaning self.old self.new id arg }
    {
        self.thread.set_args(&[Value::I32(id), Value::I32(arg)]);
        self.goes_on(Turn::Moved);
    }

    /// Is given the reply or the answer that it waits for.
    fn give(&mut self, given: Given)
        requires { AwaitsGiven T.meaning self.old.thread given }
        ensures { TakesGiven T.meaning self.old.thread self.new given }
    {
        let turn = self.thread.turn(given);
        self.goes_on(turn);
    }

    /// Keeps how far it is after a turn, and asks it what it wants.
    fn goes_on(&mut self, turn: Turn)
        requires { HasTurned T.meaning self.old.thread turn }
        ensures { KeepsTurn T.meaning self.old.thread self.new turn }
    {
        self.stage = match turn {
            Turn::Ended(outcome) => Stage::Ended(outcome),
            _ => Stage::Runs(self.thread.turn(Given::Nothing)),
        };
    }
}

/// Whether a try of the event can be lost to another thread.
fn can_be_lost(event: &Event) -> bool
    ensures { result ≡ may_lose event.now }
{
    matches!(
        event,
        Event::Grow(_) | Event::Store { .. } | Event::Rmw { .. } | Event::Cmpxchg { .. }
    )
}

/// Whether a full log still takes the event.
fn needs_no_room(event: &Event) -> bool
    ensures { result ≡ is_exempt event.now }
{
    matches!(event, Event::Ask(Question::Leave) | Event::Told(_))
}
