//! The trait of a memory that threads share.
ghost use Rattle.std.specs.Prelude.{◌≡◌, ℕ, Bool, true, ◌≤◌, List, Option};
ghost use Rattle.types.specs.declared.event.Entry.{Entry};
ghost use Rattle.types.specs.declared.limits.TheConstants.{DESK_NAME};
ghost use Rattle.shared_memory.specs.Events.{IsEvent, is_of_queue};
ghost use Rattle.shared_memory.specs.Memory.{Memory, IsWhole};
ghost use Rattle.shared_memory.specs.Legal.{MayEnter};
ghost use Rattle.shared_memory.specs.Access.{Accesses, Meets, lost_after};

use types::{Event, Reply};

/// A memory that several threads share, each through a seat of its own.
///
/// What a seat has seen is a list of entries, the beginning of one history of the whole run. Contracts speak of the
/// list; no seat stores it. An access puts the caller's entry behind its whole list and behind entries of others
/// that came meanwhile, so a history never has an entry before anything that its thread had seen. Two seats that meet
/// have seen one list afterwards.
///
/// **For an author of another memory.** Say what each seat has seen (`seen`), under which name (`name`), and whether it
/// has the queue right (`has_queue_right`): the leave to enter questions and answers, which one seat alone has, at
/// first that of the desk. Then prove of `access` one of three things, by its reply: the event was answered as the
/// sequential memory answers it after the list; the try was lost, and an entry of another changed what the event
/// touches; or the log is full. Where the seat has the queue right, others enter no question and no answer meanwhile.
/// Say how many tries a seat has lost (`lost`), by the steps of the memory itself; `access` raises that by one exactly
/// where it answers `Again`, so it makes one try, and makes none again by itself. Prove of `meet` that both seats have
/// the longer of the two lists, and that the right is exchanged. Say that the memory before any entry is whole pages,
/// under the most pages that it may have. Which memory a seat belongs to is settled by its type. Everything above rests
/// on these clauses alone.
pub trait SharedMemory {
    /// A caller's place at this memory. It is made with the memory, and never twice.
    type Seat: Drop + Send;

    /// Whether a try can be lost to another thread.
    const LOSES: bool;

    ghost LOSES: { Bool };

    /// The memory before any entry.
    ghost opening: { Memory };

    /// How many entries the log takes, where there is a limit.
    ghost limit: { Self → Option ℕ };

    /// How many pages the memory may have.
    ghost pages_max: { Self → ℕ };

    /// The number under which a seat enters: 0 to 63 for threads, 64 for the desk.
    ghost name: { Self.Seat → ℕ };

    /// The entries that a seat has seen.
    ghost seen: { Self.Seat → List Entry };

    /// Whether a seat may enter questions and answers.
    ghost has_queue_right: { Self.Seat → Bool };

    /// How many of its tries were lost.
    ghost lost: { Self.Seat → ℕ };

    /// Makes one try of an event. An event of the queue takes the queue right, and is one that the wait queue allows
    /// after the list seen.
    fn access(&self, seat: &mut Self::Seat, event: Event) -> Reply
        requires event { IsEvent event }
        requires right { is_of_queue event ≡ true → has_queue_right seat.old ≡ true }
        requires allowed { is_of_queue event ≡ true → MayEnter (name seat.old) event (seen seat.old) }
        ensures name { name seat.new ≡ name seat.old }
        ensures right { has_queue_right seat.new ≡ has_queue_right seat.old }
        ensures outcome { Accesses LOSES opening (limit self.now) (name seat.old) (has_queue_right seat.old) event
            (seen seat.old) (seen seat.new) result }
        ensures tries { lost seat.new ≡ lost_after result (lost seat.old) };

    /// Two seats learn from each other, and exchange the queue right.
    fn meet(&self, a: &mut Self::Seat, b: &mut Self::Seat)
        ensures names { (name a.new ≡ name a.old) × (name b.new ≡ name b.old) }
        ensures rights { (has_queue_right a.new ≡ has_queue_right b.old)
            × (has_queue_right b.new ≡ has_queue_right a.old) }
        ensures one { seen b.new ≡ seen a.new }
        ensures longer { Meets opening (name a.old) (name b.old) (has_queue_right a.old) (has_queue_right b.old)
            (seen a.old) (seen b.old) (seen a.new) }
        ensures tries { (lost a.new ≡ lost a.old) × (lost b.new ≡ lost b.old) };

    /// The number under which a seat enters, 0 to 64.
    fn name(&self, seat: &Self::Seat) -> u32
        ensures { result ≡ name seat.now };

    /// How many entries the log takes, where there is a limit.
    fn limit(&self) -> Option<u32>
        ensures { result ≡ limit self.now };

    /// How many pages the memory may have.
    fn pages_max(&self) -> u32
        ensures { result ≡ pages_max self.now };

    /// A name is one of 65.
    ghost names: { (s : Self.Seat) → name s ≤ DESK_NAME };

    /// The pages that it may have are those of the memory before any entry.
    ghost most: { (m : Self) → pages_max m ≡ opening.max };

    /// That memory is whole pages.
    ghost whole: { Self → IsWhole opening };
}
