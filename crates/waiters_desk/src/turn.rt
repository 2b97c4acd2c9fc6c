//! What a caller does at the desk while its seat has the queue right: it enters its question or answer, and puts it to
//! the wait queue.
ghost use Rattle.std.specs.Prelude.{◌≡◌, ◌≢◌, false, Some, None, IfOk, OnErr};
ghost use Rattle.types.specs.declared.event.Event.TheVariants.{Ask};
ghost use Rattle.shared_memory.specs.Events.{IsQuestion, is_exempt};
ghost use Rattle.shared_memory.specs.WaitQueue.{IsFree, after_answer, answer_due};
ghost use Rattle.shared_memory.specs.Seats.{SeatStays};
ghost use Rattle.waiters_desk.specs.Seats.{HasTurn, IsAsleepAfter, MakesStep, SeatAsks, SeatHears, SeatPuts};
ghost use Rattle.waiters_desk.specs.Seats.{SeatRefused};

use crate::answers::{Asked, Full};
use shared_memory::SharedMemory;
use types::{Answer, Event, Question, Reply};
use waiters::Queue;

/// A question that was entered and put to the wait queue.
#[derive(Clone, Copy)]
struct Entered {
    /// The value that it loaded, or 0 where it loads none.
    loaded: u64,
    /// Whether its thread falls asleep.
    asleep: bool,
}

/// Enters a question, and puts it to the wait queue, or answers `None` where it is out of bounds.
fn ask<M: SharedMemory>(
    memory: &M,
    seat: &mut M::Seat,
    queue: &mut Queue,
    question: Question,
) -> Result<Option<Entered>, Full>
    requires turn { HasTurn M.SharedMemory queue.old seat.old }
    requires question { IsQuestion question }
    requires free { IsFree queue.old (M.name seat.old) }
    ensures stays { SeatStays M.SharedMemory seat.old seat.new }
    ensures turn { HasTurn M.SharedMemory queue.new seat.new }
    ensures step { IfOk result (MakesStep question (M.name seat.old) queue.old queue.new) }
    ensures asleep { IfOk result (IsAsleepAfter question) }
    ensures asked { IfOk result (SeatAsks M.SharedMemory memory.now seat.old seat.new question) }
    ensures full { OnErr result (SeatRefused M.SharedMemory memory.now seat.old seat.new) }
    ensures unchanged { OnErr result (queue.new ≡ queue.old) }
    ensures exempt { OnErr result (is_exempt (Ask question) ≡ false) }
{
    let name = memory.name(seat);
    match memory.access(seat, Event::Ask(question)) {
        Reply::Value(loaded) => {
            let asleep = queue.ask(name, &question, loaded);
            Ok(Some(Entered { loaded, asleep }))
        }
        Reply::Done => {
            let asleep = queue.ask(name, &question, 0);
            Ok(Some(Entered { loaded: 0, asleep }))
        }
        Reply::OutOfBounds => Ok(None),
        Reply::Again => unreachable!(),
        Reply::Full => Err(Full),
    }
}

/// Takes the answer that is due, and enters it. Like `put`, it serves a desk under any lock.
pub fn hear<M: SharedMemory>(memory: &M, seat: &mut M::Seat, queue: &mut Queue) -> Answer
    requires turn { HasTurn M.SharedMemory queue.old seat.old }
    requires due { answer_due queue.old (M.name seat.old) ≢ None }
    ensures stays { SeatStays M.SharedMemory seat.old seat.new }
    ensures turn { HasTurn M.SharedMemory queue.new seat.new }
    ensures due { answer_due queue.old (M.name seat.old) ≡ Some result }
    ensures after { queue.new ≡ after_answer queue.old (M.name seat.old) }
    ensures heard { SeatHears M.SharedMemory seat.old seat.new result }
{
    let name = memory.name(seat);
    let Some(answer) = queue.told(name) else {
        unreachable!()
    };
    let _ = memory.access(seat, Event::Told(answer));
    answer
}

/// Asks a question, and takes the answer unless the thread falls asleep. The seat has the queue right, and the queue is
/// the one after what the seat has seen; so it serves a desk under any lock, whose seat met the caller's before.
///
/// # Errors
/// `Full` where the log has reached its limit: nothing of the caller is entered, and the queue is as it was.
pub fn put<M: SharedMemory>(
    memory: &M,
    seat: &mut M::Seat,
    queue: &mut Queue,
    question: Question,
) -> Result<Asked, Full>
    requires turn { HasTurn M.SharedMemory queue.old seat.old }
    requires question { IsQuestion question }
    requires free { IsFree queue.old (M.name seat.old) }
    ensures stays { SeatStays M.SharedMemory seat.old seat.new }
    ensures turn { HasTurn M.SharedMemory queue.new seat.new }
    ensures asked { IfOk result (SeatPuts M.SharedMemory memory.now seat.old seat.new question) }
    ensures full { OnErr result (SeatRefused M.SharedMemory memory.now seat.old seat.new) }
    ensures unchanged { OnErr result (queue.new ≡ queue.old) }
    ensures exempt { OnErr result (is_exempt (Ask question) ≡ false) }
{
    let Some(entered) = ask(memory, seat, queue, question)? else {
        return Ok(Asked::OutOfBounds);
    };
    if entered.asleep {
        return Ok(Asked::Asleep);
    }
    match hear(memory, seat, queue) {
        Answer::Number(number) => Ok(Asked::Told(number)),
        Answer::ForGood => unreachable!(),
    }
}
