//! What a thread's event comes to, at the memory or at the desk.
ghost use Rattle.std.specs.Prelude.{◌≡◌};
ghost use Rattle.types.specs.declared.event.Event.TheVariants.{Ask};
ghost use Rattle.shared_memory.specs.Events.{IsEvent, IsQuestion};
ghost use Rattle.shared_memory.specs.WaitQueue.{IsFree};
ghost use Rattle.shared_memory.specs.History.{queue_after};
ghost use Rattle.schedule_threads.specs.Threads.{IsOfThread};
ghost use Rattle.shared_memory.specs.Seats.{IsSameSeat};
ghost use Rattle.spawn_host_workers.specs.Serving.{lost_by};
ghost use Rattle.spawn_host_workers.specs.Seats.{SeatServes};

use shared_memory::SharedMemory;
use std::sync::Wait;
use types::{Answer, Event, Question, Reply};
use waiters_desk::{Asked, Desk, Full};

/// What an event came to.
#[derive(Clone, Copy, PartialEq, Eq)]
pub(crate) enum Served {
    /// It got this reply, and no answer follows.
    Replied(Reply),
    /// It's a question, which was answered in the same call.
    Answered(Answer),
    /// It's a question, which is open.
    Open,
}

/// Makes one try of an event of the caller's thread.
pub(crate) fn serve<M: SharedMemory, W: Wait + Drop>(
    memory: &M,
    seat: &mut M::Seat,
    desk: &Desk<M, W>,
    event: Event,
) -> Served
    requires event { IsEvent event }
    requires of_thread { IsOfThread event }
    requires free { IsFree (queue_after (M.seen seat.old)) (M.name seat.old) }
    ensures same { IsSameSeat M.SharedMemory seat.old seat.new }
    ensures tries { M.lost seat.new ≡ lost_by result (M.lost seat.old) }
    ensures served { SeatServes M.SharedMemory memory.now seat.old seat.new event result }
{
    match event {
        Event::Ask(question) => ask(memory, seat, desk, question),
        Event::Told(_) => unreachable!(),
        _ => Served::Replied(memory.access(seat, event)),
    }
}

/// Asks a question of the caller's thread.
fn ask<M: SharedMemory, W: Wait + Drop>(
    memory: &M,
    seat: &mut M::Seat,
    desk: &Desk<M, W>,
    question: Question,
) -> Served
    requires question { IsQuestion question }
    requires of_thread { IsOfThread (Ask question) }
    requires free { IsFree (queue_after (M.seen seat.old)) (M.name seat.old) }
    ensures same { IsSameSeat M.SharedMemory seat.old seat.new }
    ensures tries { M.lost seat.new ≡ lost_by result (M.lost seat.old) }
    ensures served { SeatServes M.SharedMemory memory.now seat.old seat.new (Ask question) result }
{
    match desk.ask(memory, seat, question) {
        Ok(Asked::OutOfBounds) => Served::Replied(Reply::OutOfBounds),
        Ok(Asked::Told(number)) => Served::Answered(Answer::Number(number)),
        Ok(Asked::Asleep) => Served::Open,
        Err(Full) => Served::Replied(Reply::Full),
    }
}
