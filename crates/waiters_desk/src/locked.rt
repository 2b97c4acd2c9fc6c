//! What lies under the desk's lock.
ghost use Rattle.std.specs.Prelude.{◌≡◌, [], true, false, IfOk, OnErr};
ghost use Rattle.types.specs.declared.event.Event.TheVariants.{Ask};
ghost use Rattle.types.specs.declared.limits.TheConstants.{DESK_NAME};
ghost use Rattle.shared_memory.specs.Events.{IsQuestion, is_exempt};
ghost use Rattle.shared_memory.specs.WaitQueue.{IsFree, is_asleep};
ghost use Rattle.shared_memory.specs.History.{entries_of, of_queue, queue_after};
ghost use Rattle.shared_memory.specs.Legal.{IsQueueLegal};
ghost use Rattle.shared_memory.specs.Seats.{SeatStays};
ghost use Rattle.shared_memory.proofs.Props.{IsQueueLegal-prop};
ghost use Rattle.waiters_desk.specs.Calls.{IsToCome, IsWaiting, MayBegin};
ghost use Rattle.waiters_desk.specs.Seats.{SeatBegins, SeatCollects, SeatPuts, SeatRefused};
ghost use Rattle.waiters_desk.specs.Locks.{WaitsReadWhatNotifiersSaw};

use crate::answers::{Asked, Full};
use crate::told::{Bell, Told};
use crate::turn::{hear, put};
use shared_memory::SharedMemory;
use types::{Answer, MOST_THREADS, Question};
use waiters::Queue;

/// The desk's seat, which has the queue right, and the wait queue after what that seat has seen. All who wait at the
/// desk were told of that queue: so whoever changes it wakes them before the lock is given up.
pub(crate) struct Locked<M: SharedMemory> {
    seat: M::Seat,
    queue: Queue,
    told: Told,
    ghost right: { M.has_queue_right seat ≡ true },
    ghost named: { M.name seat ≡ DESK_NAME },
    ghost tied: { queue ≡ queue_after (M.seen seat) },
    ghost legal: { IsQueueLegal (M.seen seat) } by { IsQueueLegal-prop (M.seen seat) },
    ghost silent: { entries_of DESK_NAME (M.seen seat) ≡ [] },
    ghost all_told: { told ≡ queue },
}

impl<M: SharedMemory> Drop for Locked<M> {
    fn drop(self) {
        let Locked {
            seat: _,
            queue: _,
            told: _,
        } = self;
    }
}

impl<M: SharedMemory> Locked<M> {
    /// The first state, with a seat that has seen no question and no answer.
    pub(crate) fn new(seat: M::Seat) -> Locked<M>
        requires right { M.has_queue_right seat ≡ true }
        requires name { M.name seat ≡ DESK_NAME }
        requires quiet { of_queue (M.seen seat) ≡ [] }
        requires silent { entries_of DESK_NAME (M.seen seat) ≡ [] }
    {
        Locked {
            seat,
            queue: Queue::new(MOST_THREADS as u32),
            told: Told::first(),
        }
    }

    pub(crate) fn into_seat(self) -> M::Seat
        ensures right { M.has_queue_right result ≡ true }
        ensures name { M.name result ≡ DESK_NAME }
        ensures legal { IsQueueLegal (M.seen result) }
        ensures silent { entries_of DESK_NAME (M.seen result) ≡ [] }
    {
        let Locked {
            seat,
            queue: _,
            told: _,
        } = self;
        seat
    }

    /// Whether the thread sleeps.
    pub(crate) fn is_asleep(&self, name: u32) -> bool
        ensures { result ≡ is_asleep self.now.queue name }
    {
        self.queue.is_asleep(name)
    }

    /// Whether a thread of this name is still to come: it wasn't spawned, and somebody is alive who could spawn it.
    pub(crate) fn is_to_come(&self, name: u32) -> bool
        ensures waits { result ≡ true → IsToCome self.now.queue name }
        ensures goes_on { result ≡ false → MayBegin self.now.queue name }
    {
        self.queue.arg_of(name).is_none() && !self.queue.is_over()
    }

    /// Asks a question, and takes the answer unless the thread falls asleep. Then it tells all who wait.
    pub(crate) fn put(
        &mut self,
        bell: &Bell,
        memory: &M,
        seat: &mut M::Seat,
        question: Question,
    ) -> Result<Asked, Full>
        requires question { IsQuestion question }
        requires free { IsFree (queue_after (M.seen seat.old)) (M.name seat.old) }
        ensures stays { SeatStays M.SharedMemory seat.old seat.new }
        ensures asked { IfOk result (SeatPuts M.SharedMemory memory.now seat.old seat.new question) }
        ensures full { OnErr result (SeatRefused M.SharedMemory memory.now seat.old seat.new) }
        ensures unchanged { OnErr result (self.new.queue ≡ self.old.queue) }
        ensures exempt { OnErr result (is_exempt (Ask question) ≡ false) }
        ensures reads { WaitsReadWhatNotifiersSaw M.opening (M.seen seat.new) }
    {
        memory.meet(seat, &mut self.seat);
        let asked = put(memory, seat, &mut self.queue, question);
        memory.meet(seat, &mut self.seat);
        self.told = Told::tell_all(bell, &self.queue);
        asked
    }

    /// Takes the answer to an open question, and tells all who wait.
    pub(crate) fn collect(&mut self, bell: &Bell, memory: &M, seat: &mut M::Seat) -> Answer
        requires waiting { IsWaiting (queue_after (M.seen seat.old)) (M.name seat.old) }
        requires awake { is_asleep self.old.queue (M.name seat.old) ≡ false }
        ensures stays { SeatStays M.SharedMemory seat.old seat.new }
        ensures collected { SeatCollects M.SharedMemory seat.old seat.new result }
    {
        memory.meet(seat, &mut self.seat);
        let answer = hear(memory, seat, &mut self.queue);
        let told = Told::tell_all(bell, &self.queue);
        memory.meet(seat, &mut self.seat);
        self.told = told;
        answer
    }

    /// Shows a thread that has entered nothing what the desk has seen, and tells its argument.
    pub(crate) fn begin(&mut self, memory: &M, seat: &mut M::Seat) -> Option<u32>
        requires new { entries_of (M.name seat.old) (M.seen seat.old) ≡ [] }
        requires known { MayBegin self.old.queue (M.name seat.old) }
        ensures stays { SeatStays M.SharedMemory seat.old seat.new }
        ensures begun { SeatBegins M.SharedMemory seat.old seat.new result }
    {
        memory.meet(seat, &mut self.seat);
        memory.meet(seat, &mut self.seat);
        self.queue.arg_of(memory.name(seat))
    }
}
