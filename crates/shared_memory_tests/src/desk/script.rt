//! The seats of a trial's threads, and how it begins.
ghost use Rattle.std.specs.Prelude.{OnSome};
ghost use Rattle.shared_memory_tests.specs.Standing.{StandsFree, StandsNew};

use crate::desk::calls::{begins, spawns};
use shared_memory::SharedMemory;
use std::sync::Wait;
use waiters_desk::Desk;

/// The seats of threads 0 to 2.
#[derive(Drop)]
pub struct ThreadSeats<S> {
    pub zero: S,
    pub one: S,
    pub two: S,
}

/// Thread 0 spawns two threads, which begin: both ids, and both arguments. Gives `None` where a call answers in another
/// way.
pub fn spawn_two<M: SharedMemory, W: Wait + Drop>(
    desk: &Desk<M, W>,
    memory: &M,
    zero: &mut M::Seat,
    one: &mut M::Seat,
    two: &mut M::Seat,
) -> Option<[u32; 4]>
    requires zero { StandsFree (M.name zero.old) (M.seen zero.old) }
    requires one { StandsNew (M.name one.old) (M.seen one.old) }
    requires two { StandsNew (M.name two.old) (M.seen two.old) }
    ensures zero { OnSome result (StandsFree (M.name zero.new) (M.seen zero.new)) }
    ensures one { OnSome result (StandsFree (M.name one.new) (M.seen one.new)) }
    ensures two { OnSome result (StandsFree (M.name two.new) (M.seen two.new)) }
{
    let first = spawns(desk, memory, zero, 7).ok()?;
    let second = spawns(desk, memory, zero, 9).ok()?;
    let third = begins(desk, memory, one)?;
    let fourth = begins(desk, memory, two)?;
    Some([first, second, third, fourth])
}
