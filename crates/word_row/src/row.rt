//! The row.
ghost use Rattle.std.specs.Prelude.{◌≡◌, ◌≢◌, ◌<◌, ◌≤◌, true, None, IfOk, IsOkUnless, All, map, vec_capacity};
ghost use Rattle.types.specs.declared.event.Reply.TheVariants.{Again};
ghost use Rattle.types.specs.declared.limits.TheConstants.{MOST_PAGES, SEATS};
ghost use Rattle.shared_memory.specs.Events.{IsEvent, is_of_queue};
ghost use Rattle.shared_memory_on_table.specs.Callers.{GoesOn, fresh_from};
ghost use Rattle.shared_memory_on_table.specs.Rule.{MakesTry, MeetsIn};
ghost use Rattle.word_row.specs.Answers.{is_access, is_single};
ghost use Rattle.word_row.specs.Rule.{AllCome, EndsWithin, IsRow, TakesIn};
ghost use Rattle.word_row.specs.Rows.{EndsAfter, HasPages};

use crate::changes::{Change, Next, by_size, by_word, is_within, single_of};
use crate::closed::ClosedRow;
use crate::prepared::Prepared;
use crate::seat::{WordSeat, take_seats};
use crate::{Arrive, Board, Making, Row, steps};
use shared_memory::SharedMemory;
use shared_memory_on_table::{Naming, StandingCaller, TableSeat, hand, meet};
use shared_memory_sequential::{OpenFault, lane};
use std::alloc::Global;
use std::marker::{Brand, PhantomData};
use types::{Event, Reply};

// The caller of a seat goes to another, for good.
fn give_up<B: Naming>(row: &Row, host: &mut TableSeat, seat: StandingCaller<B>)
    requires row { (row.now.table_id ≡ B.table) × (0 < row.now.table_id.words) }
    requires host { host.old.table_id ≡ B.table }
    ensures host { TakesIn B.table seat host.old host.new }
{
    let StandingCaller {
        name: _,
        mut place,
        of: _,
    } = seat;
    hand(row, &mut place, host);
}

// All callers come to one seat: a history that goes on from what is seen there goes on from the list of each.
fn gather<B: Naming>(row: &Row, host: &mut TableSeat, seats: Vec<WordSeat<B>>)
    requires row { (row.now.table_id ≡ B.table) × (0 < row.now.table_id.words) }
    requires host { host.old.table_id ≡ B.table }
    ensures host { host.new.table_id ≡ B.table }
    ensures all { AllCome (λ s. s.caller) seats.items host.new }
{
    for seat in seats {
        give_up(row, host, seat.caller);
    }
}

/// A memory that threads share word by word, and wait for nobody. It is shared by reference.
#[derive(Drop)]
pub struct WordRow<B: Naming> {
    board: Board,
    pages_max: u32,
    of: PhantomData<B>,
    ghost row: { IsRow B.table B.opening board.shared.table_id board.shared.key },
    ghost sized: { pages_max ≡ B.opening.max },
}

impl<B: Naming> WordRow<B> {
    /// Opens a prepared row under its name, with 65 seats in order of name: 0 to 63 for threads, and 64 for the desk,
    /// which alone has the queue right. No seat has seen an entry.
    ///
    /// # Errors
    /// `NoMemory` where the room for the seats can't be had.
    pub fn open(
        alloc: Global,
        prepared: Prepared,
    ) -> Result<(WordRow<B>, Vec<WordSeat<B>>), OpenFault>
        requires table { prepared.table ≡ B.table }
        requires opening { prepared.opening ≡ B.opening }
        ensures seats { IfOk result (λ r. map (λ s. s.caller) r.1.items ≡ fresh_from SEATS 0) }
        ensures room { IfOk result (λ r. vec_capacity r.1 ≡ SEATS) }
        ensures fault { IsOkUnless result OpenFault.NoMemory }
    {
        let Prepared {
            board,
            mut all,
            pages_max,
        } = prepared;
        let Ok(seats) = take_seats(alloc, &board.shared, &mut all) else {
            return Err(OpenFault::NoMemory);
        };
        Ok((
            WordRow {
                board,
                pages_max,
                of: PhantomData,
            },
            seats,
        ))
    }

    /// Makes one try of an event, and waits for nobody. A try that another thread's change of the word overtook is
    /// answered `Again`, and may be made again; no try of an event is that a single step on its word makes. An exchange
    /// that wasn't made counts as a lost try of the seat, so the event isn't tried again here. An event of the queue
    /// takes the queue right. An access that lies within the page count remembered needs no load of it.
    #[inline(always)]
    pub fn access(&self, seat: &mut WordSeat<B>, event: Event) -> Reply
        requires event { IsEvent event }
        requires right { is_of_queue event ≡ true → seat.old.caller.has_queue_right ≡ true }
        ensures tried { MakesTry true B.opening None event result seat.old.caller seat.new.caller }
        ensures single { is_single event ≡ true → result ≢ Again }
    {
        if is_within(event, seat.pages) {
            return self.touch::<Brand>(&mut seat.caller, event);
        }
        let (pages, reply) = self.note::<Brand>(&mut seat.caller, event);
        seat.pages = pages;
        reply
    }

    /// Two seats learn from each other, and exchange the queue right. It waits for nobody.
    pub fn meet(&self, a: &mut WordSeat<B>, b: &mut WordSeat<B>)
        ensures names { (a.new.caller.name ≡ a.old.caller.name) × (b.new.caller.name ≡ b.old.caller.name) }
        ensures right_of_a { a.new.caller.has_queue_right ≡ b.old.caller.has_queue_right }
        ensures right_of_b { b.new.caller.has_queue_right ≡ a.old.caller.has_queue_right }
        ensures one { b.new.caller.seen ≡ a.new.caller.seen }
        ensures longer { MeetsIn B.opening a.old.caller b.old.caller a.new.caller.seen }
        ensures tries { (a.new.caller.lost ≡ a.old.caller.lost) × (b.new.caller.lost ≡ b.old.caller.lost) }
    {
        meet(&self.board.shared, &mut a.caller, &mut b.caller);
    }

    /// Gives up the row and all its seats for the memory after one history. The list of each seat begins the history,
    /// which has of its name what it has.
    pub fn close(self, seats: Vec<WordSeat<B>>) -> ClosedRow
        ensures { EndsAfter B.opening (λ log. All (λ s. GoesOn s.caller log) seats.items) result }
    {
        let WordRow {
            board,
            pages_max,
            of: _,
        } = self;
        let (_, mut host) = board.shared.load_new_seat::<Arrive>(0);
        gather(&board.shared, &mut host, seats);
        ClosedRow {
            closed: board.close_with(host),
            pages_max,
        }
    }

    // One try of an event that loads the page count first, which it answers with the reply.
    #[inline(always)]
    fn note<M: Making>(&self, caller: &mut StandingCaller<B>, event: Event) -> (u64, Reply)
        requires making { M.event ≡ event }
        requires event { IsEvent event }
        requires right { is_of_queue event ≡ true → caller.old.has_queue_right ≡ true }
        ensures tried { MakesTry true B.opening None event result.1 caller.old caller.new }
        ensures single { is_single event ≡ true → result.1 ≢ Again }
        ensures few { result.0 ≤ MOST_PAGES }
        ensures counted { HasPages B.opening caller.new.seen result.0 }
    {
        let pages = steps::note::<B, M>(&self.board.shared, caller, event);
        if let Some(reply) = by_size(self.pages_max, event, pages) {
            return (pages, reply);
        }
        if let Event::Grow(more) = event {
            let change = Change {
                new: pages + u64::from(more),
                reply: Reply::Value(pages),
            };
            let row = &self.board.shared;
            return (
                pages,
                steps::exchange::<B, M>(row, caller, event, pages, change),
            );
        }
        (pages, self.touch::<M>(caller, event))
    }

    // An access that lies within the memory seen: by a single step on its word where that makes the event, whatever
    // the word is; otherwise by a load of its word and, where it changes that, an exchange.
    #[inline(always)]
    fn touch<M: Making>(&self, caller: &mut StandingCaller<B>, event: Event) -> Reply
        requires making { M.event ≡ event }
        requires event { IsEvent event }
        requires right { is_of_queue event ≡ true → caller.old.has_queue_right ≡ true }
        requires access { is_access event ≡ true }
        requires within { EndsWithin B.opening event caller.old }
        ensures tried { MakesTry true B.opening None event result caller.old caller.new }
        ensures single { is_single event ≡ true → result ≢ Again }
    {
        let row = &self.board.shared;
        match event {
            Event::Store { width, value, .. } if width == 8 => {
                steps::store::<B, M>(row, caller, event, value);
                return Reply::Done;
            }
            Event::Rmw {
                op,
                addr,
                width,
                value,
            } => {
                if let Some(single) = single_of(op, addr, width, value) {
                    let word = steps::fetch::<B, M>(row, caller, event, single);
                    return Reply::Value(lane(word, addr, width));
                }
            }
            _ => {}
        }
        let word = steps::read::<B, M>(row, caller, event);
        match by_word(event, word) {
            Next::Answer(reply) => reply,
            Next::Exchange(change) => steps::exchange::<B, M>(row, caller, event, word, change),
        }
    }
}

impl<B: Naming + Send + Sync> SharedMemory for WordRow<B> {
    type Seat = WordSeat<B>;

    ghost use Rattle.std.specs.Prelude.{true, None};
    ghost use Rattle.std.proofs.Common.{refl};

    const LOSES: bool = true;

    ghost LOSES = { true };

    ghost opening = { B.opening };

    ghost limit = { λ m. None };

    ghost pages_max = { λ m. B.opening.max };

    ghost name = { λ s. s.caller.name };

    ghost seen = { λ s. s.caller.seen };

    ghost has_queue_right = { λ s. s.caller.has_queue_right };

    ghost lost = { λ s. s.caller.lost };

    ghost names = { λ s. s.known };

    ghost most = { λ m. refl };

    ghost whole = { λ m. m.row.stored.sized.whole };

    #[inline(always)]
    fn access(&self, seat: &mut WordSeat<B>, event: Event) -> Reply {
        WordRow::access(self, seat, event)
    }

    fn meet(&self, a: &mut WordSeat<B>, b: &mut WordSeat<B>) {
        WordRow::meet(self, a, b);
    }

    fn name(&self, seat: &WordSeat<B>) -> u32 {
        seat.caller.name()
    }

    fn limit(&self) -> Option<u32> {
        None
    }

    fn pages_max(&self) -> u32 {
        self.pages_max
    }
}
