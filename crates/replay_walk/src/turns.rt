//! Turns of one of the threads.
ghost use Rattle.std.specs.Prelude.{◌≡◌, ◌<◌, length, Some};
ghost use Rattle.std.specs.List.{slice_get};
ghost use Rattle.types.specs.declared.limits.TheConstants.{MOST_THREADS};
ghost use Rattle.interp_trait.specs.Turns.{MayBeSpawned, MayBeGiven};
ghost use Rattle.replay_walk.specs.Standing.{MayRunAt, SettlesThread, StartsAt, TurnsAt};

use crate::settling::settle;
use interp_trait::{Given, TakesTurns, Turn};
use types::Value;

/// A turn of the thread of this number.
pub fn turn_at<T: TakesTurns>(threads: &mut [T], n: usize, given: Given) -> Turn
    requires within { n < length threads.old }
    requires given { (x : T) → slice_get threads.old n ≡ Some x → MayBeGiven (T.meaning x) given }
    ensures count { length threads.new ≡ length threads.old }
    ensures turned { TurnsAt T.meaning threads.old n given result threads.new }
{
    threads[n].turn(given)
}

/// Turns of its own of the thread of this number, until it wants more.
pub fn settle_at<T: TakesTurns>(threads: &mut [T], n: usize) -> Turn
    requires within { n < length threads.old }
    requires here { MayRunAt T.meaning threads.old n }
    ensures count { length threads.new ≡ length threads.old }
    ensures settled { SettlesThread T.meaning threads.old n result threads.new }
{
    settle(&mut threads[n])
}

/// Starts the thread of this number, with the argument of its spawn.
pub fn start_at<T: TakesTurns>(threads: &mut [T], n: usize, arg: u32)
    requires within { n < length threads.old }
    requires number { n < MOST_THREADS }
    requires begins { (x : T) → slice_get threads.old n ≡ Some x → MayBeSpawned (T.meaning x) }
    ensures count { length threads.new ≡ length threads.old }
    ensures started { StartsAt T.meaning threads.old n arg threads.new }
{
    let args = [Value::I32(n as u32), Value::I32(arg)];
    threads[n].set_args(&args);
}
