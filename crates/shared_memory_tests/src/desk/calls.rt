//! Calls of a desk, each with how the caller stands afterwards.
ghost use Rattle.std.specs.Prelude.{◌≡◌, ◌%◌, true, OnSome};
ghost use Rattle.types.specs.declared.event.Question.TheVariants.{Wait};
ghost use Rattle.shared_memory.specs.Events.{IsQuestion};
ghost use Rattle.shared_memory_tests.specs.Standing.{StandsFree, StandsNew, StandsWaiting};

use shared_memory::SharedMemory;
use std::sync::Wait;
use types::Answer;
use waiters_desk::{Asked, Desk, Full, Notified};

/// Whether the thread falls asleep at the word of so many bytes at 8, where it waits for 0.
pub fn sleeps<M: SharedMemory, W: Wait + Drop>(
    desk: &Desk<M, W>,
    memory: &M,
    seat: &mut M::Seat,
    width: u8,
    timeout: i64,
) -> bool
    requires width { IsQuestion (Wait 8 width 0 timeout) }
    requires free { StandsFree (M.name seat.old) (M.seen seat.old) }
    ensures name { M.name seat.new ≡ M.name seat.old }
    ensures asleep { result ≡ true → StandsWaiting (M.name seat.new) (M.seen seat.new) }
{
    match desk.wait(memory, seat, 8, width, 0, timeout) {
        Ok(Asked::Asleep) => true,
        Ok(Asked::Told(_) | Asked::OutOfBounds) | Err(Full) => false,
    }
}

/// A notify; the thread goes on.
pub fn notifies<M: SharedMemory, W: Wait + Drop>(
    desk: &Desk<M, W>,
    memory: &M,
    seat: &mut M::Seat,
    addr: u64,
    count: u32,
) -> Result<Notified, Full>
    requires address { addr % 4 ≡ 0 }
    requires free { StandsFree (M.name seat.old) (M.seen seat.old) }
    ensures name { M.name seat.new ≡ M.name seat.old }
    ensures free { StandsFree (M.name seat.new) (M.seen seat.new) }
{
    match desk.notify(memory, seat, addr, count) {
        Ok(Notified::OutOfBounds) => Ok(Notified::OutOfBounds),
        Ok(Notified::Woke(number)) => Ok(Notified::Woke(number)),
        Err(Full) => Err(Full),
    }
}

/// A spawn; the thread goes on.
pub fn spawns<M: SharedMemory, W: Wait + Drop>(
    desk: &Desk<M, W>,
    memory: &M,
    seat: &mut M::Seat,
    arg: u32,
) -> Result<u32, Full>
    requires free { StandsFree (M.name seat.old) (M.seen seat.old) }
    ensures name { M.name seat.new ≡ M.name seat.old }
    ensures free { StandsFree (M.name seat.new) (M.seen seat.new) }
{
    match desk.spawn(memory, seat, arg) {
        Ok(id) => Ok(id),
        Err(Full) => Err(Full),
    }
}

/// A thread that begins, with its argument.
pub fn begins<M: SharedMemory, W: Wait + Drop>(
    desk: &Desk<M, W>,
    memory: &M,
    seat: &mut M::Seat,
) -> Option<u32>
    requires new { StandsNew (M.name seat.old) (M.seen seat.old) }
    ensures name { M.name seat.new ≡ M.name seat.old }
    ensures free { OnSome result (StandsFree (M.name seat.new) (M.seen seat.new)) }
{
    match desk.begin(memory, seat) {
        Some(arg) => Some(arg),
        None => None,
    }
}

/// The answer of a thread whose question is open; it goes on.
pub fn collects<M: SharedMemory, W: Wait + Drop>(
    desk: &Desk<M, W>,
    memory: &M,
    seat: &mut M::Seat,
) -> Answer
    requires waiting { StandsWaiting (M.name seat.old) (M.seen seat.old) }
    ensures name { M.name seat.new ≡ M.name seat.old }
    ensures free { StandsFree (M.name seat.new) (M.seen seat.new) }
{
    desk.collect(memory, seat)
}
