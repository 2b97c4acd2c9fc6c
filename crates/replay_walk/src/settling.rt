//! A thread's turns of its own.
ghost use Rattle.interp_trait.specs.Turns.{MayRun, StaysAs};
ghost use Rattle.replay_walk.specs.Standing.{SettlesInto};

use interp_trait::{OpenGate, TakesTurns, Turn};

/// Makes turns of the thread until it wants more than a turn of its own, and answers what that is. Each turn of its own
/// costs a unit, so it makes no more than it has units left.
pub fn settle<T: TakesTurns>(thread: &mut T) -> Turn
    requires { MayRun (T.meaning thread.old) }
    ensures stays { StaysAs (T.meaning thread.old) (T.meaning thread.new) }
    ensures settled { SettlesInto (T.meaning thread.old) result (T.meaning thread.new) }
{
    thread.own_turns(0, &mut OpenGate)
}
