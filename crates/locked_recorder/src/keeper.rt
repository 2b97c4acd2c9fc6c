//! What lies under the lock.
ghost use Rattle.std.specs.Prelude.{◌≡◌, ◌<◌, ◌++◌, ◌∷◌, [], true, false, Some, if◌then◌else◌, All};
ghost use Rattle.shared_memory.specs.Events.{IsEvent, is_of_queue, is_exempt};
ghost use Rattle.shared_memory.specs.History.{entry};
ghost use Rattle.shared_memory.specs.Legal.{MayEnter};
ghost use Rattle.shared_memory_on_table.specs.Rule.{MakesTry};
ghost use Rattle.locked_recorder.specs.Promises.{is_full, is_held, log_after, Begins, IsRecord, IsBounded};

use crate::rule::Row;
use crate::{LockedSeat, steps};
use shared_memory_on_table::{Naming, StandingCaller, TableSeat};
use shared_memory_sequential::OneMemory;
use std::marker::{Model, PhantomData};
use types::{Entry, Event, PAGE_SIZE, Question, Reply};

/// The keeper's place on the table, the memory, and the log with its limit. Contracts see the log.
#[derive(Drop)]
pub struct Keeper<B: Naming> {
    pub(crate) place: TableSeat,
    pub(crate) memory: OneMemory,
    pub(crate) limit: u32,
    pub(crate) log: Vec<Entry>,
    pub(crate) of: PhantomData<B>,
}

impl<B: Naming> Model for Keeper<B> {
    ghost use Rattle.std.specs.Prelude.{List, vec_capacity};
    ghost use Rattle.types.specs.declared.event.Entry.{Entry};
    ghost use Rattle.locked_recorder.specs.Promises.{Logs};

    ghost Value = { List Entry };

    ghost view = { λ k. k.log.items };

    ghost invariant = { λ k. Logs B.table B.opening B.limit k.place.table_id k.place.me k.limit (vec_capacity k.log)
        k.memory k.log.items };
}

// Whether a full log still takes the event.
fn is_always_taken(event: Event) -> bool
    ensures { result ≡ is_exempt event }
{
    matches!(event, Event::Ask(Question::Leave) | Event::Told(_))
}

impl<B: Naming> Keeper<B> {
    /// Enters an event for a caller, or answers `Full` where the log has reached its limit and the event is held back.
    pub(crate) fn access(&mut self, row: &Row, seat: &mut StandingCaller<B>, event: Event) -> Reply
        requires row { (row.now.table_id ≡ B.table) × (0 < row.now.table_id.words) }
        requires event { IsEvent event }
        requires right { is_of_queue event ≡ true → seat.old.has_queue_right ≡ true }
        requires allowed { is_of_queue event ≡ true → MayEnter seat.old.name event seat.old.seen }
        ensures tried { MakesTry false B.opening (Some B.limit) event result seat.old seat.new }
        ensures full { is_full result ≡ is_held B.limit event self.old }
        ensures log { self.new ≡ log_after (is_full result) self.old (entry seat.old.name event result) }
    {
        if !is_always_taken(event) && self.log.len() >= self.limit as usize {
            steps::look(row, &mut self.place, &mut seat.place);
            return Reply::Full;
        }
        let reply = self.memory.step(&event);
        let entry = Entry {
            thread: seat.name,
            event,
            reply,
        };
        steps::record(row, &mut self.place, &mut seat.place, &entry);
        self.log.push_reserved(entry);
        reply
    }

    /// Gives the log up, and the memory after it.
    pub(crate) fn finish(self) -> Finished
        ensures log { result.log.items ≡ self }
        ensures record { IsRecord B.opening result.log.items result.pages result.bytes.items }
        ensures bounds { IsBounded B.limit result.log.items result.pages }
    {
        let Keeper {
            place: _,
            memory,
            limit: _,
            log,
            of: _,
        } = self;
        let pages = (memory.bytes().len() / PAGE_SIZE) as u32;
        Finished {
            log,
            pages,
            bytes: memory.into_bytes(),
        }
    }
}

// Shows that the caller's list begins the log.
fn check<B: Naming>(row: &Row, keeper: &mut Keeper<B>, mut seat: StandingCaller<B>)
    requires row { (row.now.table_id ≡ B.table) × (0 < row.now.table_id.words) }
    ensures begins { Begins seat keeper.old }
    ensures same { keeper.new ≡ keeper.old }
{
    steps::look(row, &mut keeper.place, &mut seat.place);
}

/// Shows that the list of each caller begins the log.
pub(crate) fn check_all<B: Naming>(row: &Row, keeper: &mut Keeper<B>, seats: Vec<LockedSeat<B>>)
    requires row { (row.now.table_id ≡ B.table) × (0 < row.now.table_id.words) }
    ensures begins { All (λ s. Begins s.caller keeper.old) seats.items }
    ensures same { keeper.new ≡ keeper.old }
{
    for seat in seats {
        check(row, keeper, seat.caller);
    }
}

/// What a recorder leaves.
#[derive(Drop)]
pub struct Finished {
    /// All entries, in order.
    pub log: Vec<Entry>,
    /// The page count after the last of them; a page has 65,536 bytes.
    pub pages: u32,
    /// The memory's bytes after the last of them.
    pub bytes: Vec<u8>,
}
