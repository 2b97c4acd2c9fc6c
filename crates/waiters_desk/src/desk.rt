//! The desk.
ghost use Rattle.std.specs.Prelude.{◌≡◌, ◌%◌, [], true, false, IfOk, OnOk, OnErr};
ghost use Rattle.types.specs.declared.event.Event.TheVariants.{Ask};
ghost use Rattle.types.specs.declared.event.Question.TheVariants.{Wait};
ghost use Rattle.types.specs.declared.limits.TheConstants.{DESK_NAME};
ghost use Rattle.shared_memory.specs.Events.{IsQuestion, is_exempt};
ghost use Rattle.shared_memory.specs.WaitQueue.{IsFree, is_asleep};
ghost use Rattle.shared_memory.specs.History.{entries_of, of_queue, queue_after};
ghost use Rattle.shared_memory.specs.Legal.{IsQueueLegal};
ghost use Rattle.shared_memory.specs.Seats.{SeatStays};
ghost use Rattle.waiters_desk.specs.Calls.{IsToCome, IsWaiting, MayBegin};
ghost use Rattle.waiters_desk.specs.Locks.{WaitsReadWhatNotifiersSaw};
ghost use Rattle.waiters_desk.specs.Seats.{SeatBegins, SeatCollects, SeatLeaves, SeatNotifies, SeatNotifiesBehind};
ghost use Rattle.waiters_desk.specs.Seats.{SeatPuts};
ghost use Rattle.waiters_desk.specs.Seats.{SeatReads, SeatRefused, SeatSpawns, SeatWaits};

use crate::answers::{Asked, Full, Notified};
use crate::locked::Locked;
use crate::told::Bell;
use shared_memory::SharedMemory;
use std::sync::{Mutex, Wait};
use types::{Answer, Question};

/// Where threads that share one memory ask one another: they wait and notify, spawn threads and end.
///
/// Each call enters its question or its answer with the queue right, under one lock and between two meetings of the
/// caller's seat with the desk's. So a question and the place that it takes in the wait queue are one moment of the
/// history, and the caller knows afterwards all that earlier callers of the desk had seen. A call may wait for the
/// lock; `collect` and `begin` also wait until there is something to tell. No call takes memory.
pub struct Desk<M: SharedMemory, W: Wait + Drop> {
    state: Mutex<Locked<M>>,
    bell: Bell,
    rt: W,
}

impl<M: SharedMemory, W: Wait + Drop> Drop for Desk<M, W> {
    fn drop(self) {
        let Desk {
            state: _,
            bell: _,
            rt: _,
        } = self;
    }
}

impl<M: SharedMemory, W: Wait + Drop> Desk<M, W> {
    /// The desk of a memory, with the seat named 64, which has the queue right. That seat has entered nothing, and has
    /// seen no question and no answer.
    pub fn open(rt: W, _memory: &M, seat: M::Seat) -> Desk<M, W>
        requires right { M.has_queue_right seat ≡ true }
        requires name { M.name seat ≡ DESK_NAME }
        requires quiet { of_queue (M.seen seat) ≡ [] }
        requires silent { entries_of DESK_NAME (M.seen seat) ≡ [] }
    {
        let bell = Bell::of::<M>(&seat);
        Desk {
            state: Mutex::new(Locked::new(seat)),
            bell,
            rt,
        }
    }

    /// Gives the desk's seat back. What it has seen is legal for the wait queue, and it has entered nothing itself.
    pub fn close(self) -> M::Seat
        ensures right { M.has_queue_right result ≡ true }
        ensures name { M.name result ≡ DESK_NAME }
        ensures legal { IsQueueLegal (M.seen result) }
        ensures silent { entries_of DESK_NAME (M.seen result) ≡ [] }
    {
        let Desk {
            state,
            bell: _,
            rt: _,
        } = self;
        state.into_inner().into_seat()
    }

    /// Asks a question of the caller's thread, and takes the answer unless the thread falls asleep. Where it does, the
    /// question stays open, and `collect` gives its answer; this call doesn't sleep.
    pub fn ask(&self, memory: &M, seat: &mut M::Seat, question: Question) -> Result<Asked, Full>
        requires question { IsQuestion question }
        requires free { IsFree (queue_after (M.seen seat.old)) (M.name seat.old) }
        ensures stays { SeatStays M.SharedMemory seat.old seat.new }
        ensures asked { IfOk result (SeatPuts M.SharedMemory memory.now seat.old seat.new question) }
        ensures full { OnErr result (SeatRefused M.SharedMemory memory.now seat.old seat.new) }
        ensures exempt { OnErr result (is_exempt (Ask question) ≡ false) }
        ensures reads { WaitsReadWhatNotifiersSaw M.opening (M.seen seat.new) }
    {
        self.state
            .lock(&self.rt)
            .put(&self.bell, memory, seat, question)
    }

    /// Asks to sleep while the number in `width` bytes at `addr` is the expected one (threads proposal,
    /// `memory.atomic.wait32` and `wait64`). The width is 4 or 8 and divides the address, and `expected` fits it.
    ///
    /// The answer comes at once where another value is there (1), or the timeout is 0 (2). Otherwise the question
    /// stays open, and `collect` gives its answer; this call doesn't sleep.
    pub fn wait(
        &self,
        memory: &M,
        seat: &mut M::Seat,
        addr: u64,
        width: u8,
        expected: u64,
        timeout: i64,
    ) -> Result<Asked, Full>
        requires question { IsQuestion (Wait addr width expected timeout) }
        requires free { IsFree (queue_after (M.seen seat.old)) (M.name seat.old) }
        ensures stays { SeatStays M.SharedMemory seat.old seat.new }
        ensures asked { IfOk result
            (SeatWaits M.SharedMemory memory.now seat.old seat.new addr width expected timeout) }
        ensures full { OnErr result (SeatRefused M.SharedMemory memory.now seat.old seat.new) }
        ensures reads { IfOk result (SeatReads M.SharedMemory seat.old seat.new addr width expected timeout) }
        ensures others { WaitsReadWhatNotifiersSaw M.opening (M.seen seat.new) }
    {
        let question = Question::Wait {
            addr,
            width,
            expected,
            timeout,
        };
        self.ask(memory, seat, question)
    }

    /// Waits for the answer to the caller's open question, and takes it: 0 where it was notified, 2 where its timeout
    /// ended, and for good where nobody is left who could wake it.
    pub fn collect(&self, memory: &M, seat: &mut M::Seat) -> Answer
        requires waiting { IsWaiting (queue_after (M.seen seat.old)) (M.name seat.old) }
        ensures stays { SeatStays M.SharedMemory seat.old seat.new }
        ensures collected { SeatCollects M.SharedMemory seat.old seat.new result }
    {
        let name = memory.name(seat);
        let mut locked = self.bell.changed().wait_while(
            &self.rt,
            self.state.lock(&self.rt),
            |locked: &mut Locked<M>| -> bool
                ensures same { locked.new ≡ locked.old }
                ensures asleep { result ≡ is_asleep locked.new.queue name }
            { locked.is_asleep(name) },
        );
        locked.collect(&self.bell, memory, seat)
    }

    /// Wakes those that have slept longest at an address that 4 divides, as many as are counted (threads proposal,
    /// `memory.atomic.notify`), and answers how many they were.
    pub fn notify(
        &self,
        memory: &M,
        seat: &mut M::Seat,
        addr: u64,
        count: u32,
    ) -> Result<Notified, Full>
        requires address { addr % 4 ≡ 0 }
        requires free { IsFree (queue_after (M.seen seat.old)) (M.name seat.old) }
        ensures stays { SeatStays M.SharedMemory seat.old seat.new }
        ensures notified { IfOk result (SeatNotifies M.SharedMemory memory.now seat.old seat.new addr count) }
        ensures full { OnErr result (SeatRefused M.SharedMemory memory.now seat.old seat.new) }
        ensures reads { OnOk result (SeatNotifiesBehind M.SharedMemory seat.old seat.new addr count) }
        ensures others { WaitsReadWhatNotifiersSaw M.opening (M.seen seat.new) }
    {
        match self.ask(memory, seat, Question::Notify { addr, count })? {
            Asked::OutOfBounds => Ok(Notified::OutOfBounds),
            Asked::Told(number) => Ok(Notified::Woke(number)),
            Asked::Asleep => unreachable!(),
        }
    }

    /// Spawns a thread with this argument, and answers its id, 1 to 63, or 4294967295 where none is left.
    pub fn spawn(&self, memory: &M, seat: &mut M::Seat, arg: u32) -> Result<u32, Full>
        requires free { IsFree (queue_after (M.seen seat.old)) (M.name seat.old) }
        ensures stays { SeatStays M.SharedMemory seat.old seat.new }
        ensures spawned { IfOk result (SeatSpawns M.SharedMemory memory.now seat.old seat.new arg) }
        ensures full { OnErr result (SeatRefused M.SharedMemory memory.now seat.old seat.new) }
    {
        match self.ask(memory, seat, Question::Spawn { arg })? {
            Asked::Told(id) => Ok(id),
            Asked::OutOfBounds | Asked::Asleep => unreachable!(),
        }
    }

    /// Waits until a thread of the seat's name was spawned, and gives its argument, or `None` where nobody is alive any
    /// more who could spawn it. The seat has entered nothing, and enters nothing here.
    pub fn begin(&self, memory: &M, seat: &mut M::Seat) -> Option<u32>
        requires new { entries_of (M.name seat.old) (M.seen seat.old) ≡ [] }
        ensures stays { SeatStays M.SharedMemory seat.old seat.new }
        ensures begun { SeatBegins M.SharedMemory seat.old seat.new result }
    {
        let name = memory.name(seat);
        let mut locked = self.bell.changed().wait_while(
            &self.rt,
            self.state.lock(&self.rt),
            |locked: &mut Locked<M>| -> bool
                ensures same { locked.new ≡ locked.old }
                ensures waits { result ≡ true → IsToCome locked.new.queue name }
                ensures goes_on { result ≡ false → MayBegin locked.new.queue name }
            { locked.is_to_come(name) },
        );
        locked.begin(memory, seat)
    }

    /// Ends the caller's thread: it is alive no more.
    pub fn end(&self, memory: &M, seat: &mut M::Seat)
        requires free { IsFree (queue_after (M.seen seat.old)) (M.name seat.old) }
        ensures stays { SeatStays M.SharedMemory seat.old seat.new }
        ensures left { SeatLeaves M.SharedMemory memory.now seat.old seat.new }
    {
        match self.ask(memory, seat, Question::Leave) {
            Ok(Asked::Told(_)) => {}
            Ok(Asked::OutOfBounds | Asked::Asleep) | Err(Full) => unreachable!(),
        }
    }
}
