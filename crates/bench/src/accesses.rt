//! The accesses of one thread.
ghost use Rattle.std.specs.Prelude.{◌≡◌, ◌≤◌, ◌%◌, false};
ghost use Rattle.types.specs.declared.limits.TheConstants.{DESK_NAME};
ghost use Rattle.shared_memory.specs.Events.{IsEvent, is_of_queue};

use crate::plan::{Rounds, Update};
use shared_memory::SharedMemory;
use types::{Event, Reply, RmwOp};
use word_row::{Naming, WordRow, WordSeat};

/// How often an access is tried where its tries are lost to other threads.
const MOST_TRIES: u32 = 1_000_000;

/// What one thread is to do.
#[derive(Clone, Copy)]
pub struct Task {
    pub change: Update,
    pub rounds: Rounds,
    pub times: u32,
}

/// The first byte of the word that a seat of this name uses: the one word of all, or the seat's own.
fn word_of(rounds: Rounds, name: u32) -> u64
    requires { name ≤ DESK_NAME }
    ensures aligned { result % 8 ≡ 0 }
    ensures near { result ≤ 4096 }
{
    match rounds {
        Rounds::Together => 0,
        Rounds::InTurn | Rounds::Apart => 64 * u64::from(name),
    }
}

/// Whether a round has a load: where loads go in turn with changes, each odd one.
#[inline(always)]
fn is_load(rounds: Rounds, round: u32) -> bool {
    rounds == Rounds::InTurn && round % 2 == 1
}

/// The load of the word at an address.
#[inline(always)]
fn load_at(addr: u64) -> Event
    requires aligned { addr % 8 ≡ 0 }
    requires near { addr ≤ 4096 }
    ensures event { IsEvent result }
    ensures plain { is_of_queue result ≡ false }
{
    Event::Load {
        addr,
        width: 8,
        reach: addr + 8,
    }
}

/// A kind of change as a type: a loop over it has an event of one kind alone.
trait Kind {
    /// The change of the word at an address, by this number where it has a value.
    fn event(addr: u64, number: u64) -> Event
        requires aligned { addr % 8 ≡ 0 }
        requires near { addr ≤ 4096 }
        ensures event { IsEvent result }
        ensures plain { is_of_queue result ≡ false };
}

/// It stores.
struct Stores;

impl Kind for Stores {
    #[inline(always)]
    fn event(addr: u64, number: u64) -> Event {
        Event::Store {
            addr,
            width: 8,
            reach: addr + 8,
            value: number,
        }
    }
}

/// It swaps.
struct Swaps;

impl Kind for Swaps {
    #[inline(always)]
    fn event(addr: u64, number: u64) -> Event {
        Event::Rmw {
            op: RmwOp::Xchg,
            addr,
            width: 8,
            value: number,
        }
    }
}

/// It adds 1.
struct Adds;

impl Kind for Adds {
    #[inline(always)]
    fn event(addr: u64, _: u64) -> Event {
        Event::Rmw {
            op: RmwOp::Add,
            addr,
            width: 8,
            value: 1,
        }
    }
}

/// It adds 1 to the lower four bytes.
struct NarrowAdds;

impl Kind for NarrowAdds {
    #[inline(always)]
    fn event(addr: u64, _: u64) -> Event {
        Event::Rmw {
            op: RmwOp::Add,
            addr,
            width: 4,
            value: 1,
        }
    }
}

/// It makes the bitwise and.
struct Ands;

impl Kind for Ands {
    #[inline(always)]
    fn event(addr: u64, number: u64) -> Event {
        Event::Rmw {
            op: RmwOp::And,
            addr,
            width: 8,
            value: number,
        }
    }
}

/// It makes the bitwise or.
struct Ors;

impl Kind for Ors {
    #[inline(always)]
    fn event(addr: u64, number: u64) -> Event {
        Event::Rmw {
            op: RmwOp::Or,
            addr,
            width: 8,
            value: number,
        }
    }
}

/// It makes the bitwise exclusive or.
struct Xors;

impl Kind for Xors {
    #[inline(always)]
    fn event(addr: u64, number: u64) -> Event {
        Event::Rmw {
            op: RmwOp::Xor,
            addr,
            width: 8,
            value: number,
        }
    }
}

/// The change of the word at an address, by this number where it has a value.
fn change_at(change: Update, addr: u64, number: u64) -> Event
    requires aligned { addr % 8 ≡ 0 }
    requires near { addr ≤ 4096 }
    ensures event { IsEvent result }
    ensures plain { is_of_queue result ≡ false }
{
    match change {
        Update::Add => Adds::event(addr, number),
        Update::AddNarrow => NarrowAdds::event(addr, number),
        Update::Store => Stores::event(addr, number),
        Update::Swap => Swaps::event(addr, number),
        Update::And => Ands::event(addr, number),
        Update::Or => Ors::event(addr, number),
        Update::Xor => Xors::event(addr, number),
    }
}

/// What the accesses of one thread came to.
#[derive(Clone, Copy)]
pub struct Tally {
    /// How many were not answered: their tries were lost, or refused by a full log.
    pub unanswered: u32,
    /// The sum of the values in the replies, modulo 2^64.
    pub sum: u64,
}

impl Tally {
    /// One more access.
    #[inline(always)]
    fn note(&mut self, reply: Reply) {
        match reply {
            Reply::Value(value) => self.sum = self.sum.wrapping_add(value),
            Reply::Done | Reply::OutOfBounds => {}
            Reply::Again | Reply::Full => self.unanswered = self.unanswered.saturating_add(1),
        }
    }
}

/// No access.
const NONE: Tally = Tally {
    unanswered: 0,
    sum: 0,
};

/// Makes the accesses over any shared memory; answers the seat, and what they came to.
pub fn perform<M: SharedMemory>(memory: &M, mut seat: M::Seat, task: Task) -> (M::Seat, Tally) {
    let addr = word_of(task.rounds, memory.name(&seat));
    let mut tally = NONE;
    for round in 0..task.times {
        let event = if is_load(task.rounds, round) {
            load_at(addr)
        } else {
            change_at(task.change, addr, u64::from(round))
        };
        tally.note(memory.access(&mut seat, event));
    }
    (seat, tally)
}

/// Makes an access over a row of words, by the call that waits for nobody, again and again while its tries are lost.
#[inline(always)]
fn make<B: Naming>(row: &WordRow<B>, seat: &mut WordSeat<B>, event: Event) -> Reply
    requires event { IsEvent event }
    requires plain { is_of_queue event ≡ false }
{
    for _ in 0..MOST_TRIES {
        let reply = row.access(seat, event);
        if reply != Reply::Again {
            return reply;
        }
    }
    Reply::Again
}

/// Changes and loads in turn over a row of words.
fn make_in_turn<B: Naming, K: Kind>(
    row: &WordRow<B>,
    mut seat: WordSeat<B>,
    times: u32,
) -> (WordSeat<B>, Tally) {
    let addr = word_of(Rounds::InTurn, seat.caller.name());
    let mut tally = NONE;
    for round in 0..times {
        let reply = if is_load(Rounds::InTurn, round) {
            make(row, &mut seat, load_at(addr))
        } else {
            make(row, &mut seat, K::event(addr, u64::from(round)))
        };
        tally.note(reply);
    }
    (seat, tally)
}

/// Changes over a row of words, and no loads.
fn make_changes<B: Naming, K: Kind>(
    row: &WordRow<B>,
    mut seat: WordSeat<B>,
    task: Task,
) -> (WordSeat<B>, Tally) {
    let addr = word_of(task.rounds, seat.caller.name());
    let mut tally = NONE;
    for round in 0..task.times {
        tally.note(make(row, &mut seat, K::event(addr, u64::from(round))));
    }
    (seat, tally)
}

/// The accesses of a task over a row of words, of which the changes are all of one kind.
fn make_all<B: Naming, K: Kind>(
    row: &WordRow<B>,
    seat: WordSeat<B>,
    task: Task,
) -> (WordSeat<B>, Tally) {
    match task.rounds {
        Rounds::InTurn => make_in_turn::<B, K>(row, seat, task.times),
        Rounds::Apart | Rounds::Together => make_changes::<B, K>(row, seat, task),
    }
}

/// Makes the accesses over a row of words; answers the seat, and what they came to.
pub fn perform_on_words<B: Naming>(
    row: &WordRow<B>,
    seat: WordSeat<B>,
    task: Task,
) -> (WordSeat<B>, Tally) {
    match task.change {
        Update::Add => make_all::<B, Adds>(row, seat, task),
        Update::AddNarrow => make_all::<B, NarrowAdds>(row, seat, task),
        Update::Store => make_all::<B, Stores>(row, seat, task),
        Update::Swap => make_all::<B, Swaps>(row, seat, task),
        Update::And => make_all::<B, Ands>(row, seat, task),
        Update::Or => make_all::<B, Ors>(row, seat, task),
        Update::Xor => make_all::<B, Xors>(row, seat, task),
    }
}
