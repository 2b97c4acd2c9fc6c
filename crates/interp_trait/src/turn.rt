//! A thread, turn by turn.

ghost use Rattle.interp_trait.specs.Turns.{Meaning, BeginsAlike, HasSpent, MayBeGiven, MayBeginWith, StartsWith};
ghost use Rattle.interp_trait.specs.Turns.{StaysAs, MakesTurn};
ghost use Rattle.interp_trait.specs.Turns.{MayRun};
ghost use Rattle.interp_trait.specs.Calls.{MakesOwnTurns};
ghost use Rattle.interp_trait.specs.Comes.{PausesAt};
ghost use Rattle.shared_memory.specs.Seats.{IsSameSeat};
ghost use Rattle.shared_memory.specs.WaitQueue.{IsFree};
ghost use Rattle.shared_memory.specs.History.{queue_after};

use crate::accessed::Accessed;
use crate::gate::Gate;
use types::{Answer, Event, Outcome, Reply, Value};

/// What a turn is given.
#[derive(Clone, Copy, PartialEq, Eq)]
pub enum Given {
    /// Nothing: the thread makes a turn of its own, or says what it wants.
    Nothing,
    /// The reply to the event that it wants.
    Reply(Reply),
    /// The answer to its open question.
    Told(Answer),
}

/// What a turn came to.
#[derive(Clone, Copy, PartialEq, Eq)]
pub enum Turn {
    /// The thread goes on.
    Moved,
    /// It wants an event, whose reply the next turn brings.
    Wants(Event),
    /// It asked a question, whose answer the next turn brings.
    Awaits,
    /// It has ended.
    Ended(Outcome),
}

/// A thread with a budget of units, which makes its turns one by one (Core specification 1.0, chapter 4, and the
/// threads proposal; the costs are this project's own).
pub trait TakesTurns {
    /// What it means: its program and its budget, which thread of the machine it stands for, and how it begins.
    ghost meaning: { Self → Meaning };

    /// Makes a turn. A reply is given where an event is wanted, and an answer where one is awaited.
    fn turn(&mut self, given: Given) -> Turn
        requires given { MayBeGiven (meaning self.old) given }
        ensures stays { StaysAs (meaning self.old) (meaning self.new) }
        ensures turned { MakesTurn (meaning self.old) given result (meaning self.new) };

    /// Makes turns of its own, one after the other, until it wants an event, awaits an answer or has ended, and says
    /// which. The gate is called before each of them, and before the event that is wanted.
    fn own_turns<G: Gate>(&mut self, name: u32, gate: &mut G) -> Turn
        requires { MayRun (meaning self.old) }
        ensures stays { StaysAs (meaning self.old) (meaning self.new) }
        ensures turned { MakesOwnTurns G.sees name (meaning self.old) result (meaning self.new) gate.old gate.new };

    /// Makes turns of its own and tries of the accesses that it wants, one after the other, until it wants an event that
    /// isn't made here, awaits an answer or has ended, and says which. A question is never made here. The gate is
    /// called before each turn, and before each event and each reply.
    fn turns_at<M: Accessed, G: Gate>(
        &mut self,
        memory: &M,
        seat: &mut M::Seat,
        gate: &mut G,
    ) -> Turn
        requires here { MayRun (meaning self.old) }
        requires alone { IsFree (queue_after (M.memory.seen seat.old)) (M.memory.name seat.old) }
        ensures stays { StaysAs (meaning self.old) (meaning self.new) }
        ensures same { IsSameSeat M.memory seat.old seat.new }
        ensures alone { IsFree (queue_after (M.memory.seen seat.new)) (M.memory.name seat.old) }
        ensures ran { PausesAt M.memory G.Gate memory.now (meaning self.old) (meaning self.new) seat.old seat.new
            gate.old gate.new result };

    /// Replaces the arguments before the first turn.
    fn set_args(&mut self, args: &[Value])
        requires begins { MayBeginWith (meaning self.old) args.now }
        ensures stays { StaysAs (meaning self.old) (meaning self.new) }
        ensures begins { BeginsAlike (meaning self.old) (meaning self.new) }
        ensures stands { StartsWith (meaning self.old) args.now (meaning self.new) };

    /// How many units it has spent so far.
    fn spent(&self) -> u64
        ensures { HasSpent (meaning self.now) result };

    /// Tells the gate which functions were under way where it trapped, if it has.
    fn tell_trap<G: Gate>(&self, name: u32, gate: &G);
}
