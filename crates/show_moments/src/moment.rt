//! A moment of a walk along a log.

ghost use Rattle.std.specs.Prelude.{◌≡◌, ◌↔◌, replicate, false, take, drop, Some, None, slice_set, option_map, IsTrue, IfOk, OnOk};
ghost use Rattle.std.specs.List.{slice_get, AllZip};
ghost use Rattle.types.specs.declared.limits.TheConstants.{MOST_THREADS};
ghost use Rattle.show_moments.specs.Moments as specified;
ghost use Rattle.show_moments.specs.Moments.{bytes_of, StandsIn, Sees, SeesLeave, SeesCame, SeesWanted, IsRound};
ghost use Rattle.show_moments.specs.Moments.{IsOfSame, KeepsRound, standing_at};

use crate::standing::{ThreadSnapshot, standing_of};
use interp::Thread;
use interp_trait::Turn;
use replay_walk::{Walk, Watch};
use shared_memory_sequential::OneMemory;
use std::alloc::{AllocError, Global};
use types::{Entry, Event, MOST_THREADS, Question};
use waiters::KeptQueue;

/// Bytes of a memory: the first one's address, and how many.
#[derive(Clone, Copy, PartialEq, Eq)]
pub struct Bytes {
    pub addr: u64,
    pub count: u32,
}

/// Before the entry of a log that has a number. Before a walk all is empty; a walk along the whole log fills it.
#[derive(Drop)]
pub struct Moment<'a> {
    alloc: Global,
    pub log: &'a [Entry],
    /// How many entries are before it.
    pub at: usize,
    pub wanted: Bytes,
    /// How many entries the walk has come along.
    pub came: usize,
    /// Where each thread stands as it comes to its first entry from here on.
    pub next: Vec<Option<ThreadSnapshot>>,
    /// Where each thread stood here behind its last entry, without the turns of its own that follow.
    pub here: Vec<Option<ThreadSnapshot>>,
    pub queue: Option<KeptQueue>,
    /// Those of the bytes that lie in memory.
    pub bytes: Vec<u8>,
    /// All bytes of the memory.
    pub memory: Vec<u8>,
    /// Whether memory was refused for any of this.
    pub is_short: bool,
}

/// So many seats, all of them empty.
fn empty_seats(alloc: Global) -> Result<Vec<Option<ThreadSnapshot>>, AllocError>
    ensures { IfOk result (λ seats. seats.items ≡ replicate MOST_THREADS None) }
{
    let mut seats = Vec::with_capacity(alloc, MOST_THREADS)?;
    for _ in 0..MOST_THREADS {
        seats.push(None)?;
    }
    Ok(seats)
}

/// What is from an address on.
fn behind(memory: &[u8], addr: u64) -> &[u8]
    ensures { result.now ≡ drop addr memory.now }
{
    if addr > memory.len() as u64 {
        return &[];
    }
    &memory[addr as usize..]
}

/// So many bytes, or all where there are fewer.
fn front(bytes: &[u8], count: usize) -> &[u8]
    ensures { result.now ≡ take count bytes.now }
{
    if count > bytes.len() {
        return bytes;
    }
    &bytes[..count]
}

/// Those of the bytes that there are.
fn bytes_in(alloc: Global, memory: &[u8], wanted: Bytes) -> Result<Vec<u8>, AllocError>
    ensures { IfOk result (λ bytes. bytes.items ≡ bytes_of memory.now wanted) }
{
    Vec::from_slice(
        alloc,
        front(behind(memory, wanted.addr), wanted.count as usize),
    )
}

/// Where each of the threads stands.
#[tactic(auto, using(show_rows::proofs::Zipped::zip_next))]
fn standings(alloc: Global, threads: &[Thread]) -> Result<Vec<Option<ThreadSnapshot>>, AllocError>
    ensures { IfOk result (λ all. AllZip StandsIn threads.now all.items) }
{
    let mut all = Vec::with_capacity(alloc, threads.len())?;
    for n in 0..threads.len() {
        let standing = standing_of(alloc, &threads[n])?;
        all.push(Some(standing))?;
    }
    Ok(all)
}

/// Whether there is a seat with this number, and nothing is kept there.
fn is_free(seats: &[Option<ThreadSnapshot>], n: usize) -> bool
    ensures { IsTrue result ↔ (slice_get seats.now n ≡ Some None) }
{
    match seats.get(n) {
        Some(seat) => seat.is_none(),
        None => false,
    }
}

/// Keeps where a thread stands, if there is a seat with this number.
fn put(seats: &mut [Option<ThreadSnapshot>], n: usize, standing: ThreadSnapshot)
    ensures { seats.new ≡ slice_set seats.old n (Some standing) }
{
    if n < seats.len() {
        seats[n] = Some(standing);
    }
}

/// Keeps what a thread comes to, if it is the first thing.
fn see(
    alloc: Global,
    seats: &mut [Option<ThreadSnapshot>],
    n: usize,
    thread: &Thread,
) -> Result<(), AllocError>
    ensures { OnOk result (Sees thread.now n seats.old seats.new) }
{
    if is_free(seats, n) {
        let standing = standing_of(alloc, thread)?;
        put(seats, n, standing);
    }
    Ok(())
}

/// The thread that leaves, if an entry is a leave.
fn leaving<'w, 'm>(entry: &Entry, walk: &'w Walk<Thread<'m>>) -> Option<&'w Thread<'m>>
    ensures { option_map (λ t. t.now) result
        ≡ specified.leaving walk.now.threads.items entry.now.thread entry.now.event }
{
    match entry.event {
        Event::Ask(Question::Leave) => walk.threads.get(entry.thread as usize),
        _ => None,
    }
}

impl<'a> Moment<'a> {
    /// Of a log, before the entry with so many before it; with these bytes.
    ///
    /// # Errors
    /// Where memory is refused.
    pub fn new(
        alloc: Global,
        log: &'a [Entry],
        at: usize,
        wanted: Bytes,
    ) -> Result<Moment<'a>, AllocError>
        ensures of { IfOk result (λ m. (m.log.now ≡ log.now) × (m.at ≡ at) × (m.wanted ≡ wanted)) }
        ensures none { IfOk result (λ m. (m.came ≡ 0) × (m.next.items ≡ replicate MOST_THREADS None)) }
        ensures short { IfOk result (λ m. m.is_short ≡ false) }
    {
        Ok(Moment {
            alloc,
            log,
            at,
            wanted,
            came: 0,
            next: empty_seats(alloc)?,
            here: empty_seats(alloc)?,
            queue: None,
            bytes: Vec::new(alloc),
            memory: Vec::new(alloc),
            is_short: false,
        })
    }
}

impl Moment<'_> {
    /// Sees where all threads stand, the queue and the bytes.
    fn look_round<'m>(&mut self, walk: &Walk<Thread<'m>>) -> Result<(), AllocError>
        ensures round { OnOk result (IsRound self.new walk.now) }
        ensures same { IsOfSame self.old self.new }
        ensures short { self.new.is_short ≡ self.old.is_short }
        ensures came { self.new.came ≡ self.old.came }
        ensures next { self.new.next ≡ self.old.next }
    {
        self.here = standings(self.alloc, &walk.threads)?;
        self.queue = Some(walk.stage.queue.keep(self.alloc)?);
        self.bytes = bytes_in(self.alloc, walk.memory.bytes(), self.wanted)?;
        self.memory = Vec::from_slice(self.alloc, walk.memory.bytes())?;
        Ok(())
    }

    /// Sees all this, or notes that memory was refused.
    fn look<'m>(&mut self, walk: &Walk<Thread<'m>>)
        ensures round { self.new.is_short ≡ false → IsRound self.new walk.now }
        ensures same { IsOfSame self.old self.new }
        ensures came { self.new.came ≡ self.old.came }
        ensures next { self.new.next ≡ self.old.next }
    {
        match self.look_round(walk) {
            Ok(()) => {}
            Err(_) => self.is_short = true,
        }
    }

    /// Sees a thread where it has ended, if this entry is its leave.
    fn see_left<'m>(&mut self, entry: &Entry, walk: &Walk<Thread<'m>>)
        ensures same { IsOfSame self.old self.new }
        ensures round { KeepsRound self.old self.new }
        ensures came { self.new.came ≡ self.old.came }
        ensures left { self.new.is_short ≡ false → SeesLeave walk.now.threads.items entry.now.thread entry.now.event
            self.old.next.items self.new.next.items }
    {
        let Some(thread) = leaving(entry, walk) else {
            return;
        };
        match see(self.alloc, &mut self.next, entry.thread as usize, thread) {
            Ok(()) => {}
            Err(_) => self.is_short = true,
        }
    }

    /// Where the thread stands that comes to this entry from here on: where it comes to its very next one, or, as long as
    /// this is an answer, which is to come, where it is.
    pub fn standing(&self, first: &Entry) -> Option<&ThreadSnapshot>
        ensures { option_map (λ s. s.now) result ≡ standing_at self.now first.now }
    {
        let seats = match first.event {
            Event::Told(_) => &self.here,
            _ => &self.next,
        };
        seats.get(first.thread as usize)?.as_ref()
    }
}

impl<'a, 'm> Watch<Thread<'m>> for Moment<'a> {
    ghost use Rattle.show_moments.specs.Moments.{MomentSees};

    ghost sees = { MomentSees };

    fn came(&mut self, entries: usize, walk: &Walk<Thread<'m>>)
        ensures { SeesCame self.old entries walk.now self.new }
    {
        self.came = entries;
        if entries < self.at {
            return;
        }
        if entries == self.at {
            self.look(walk);
            return;
        }
        let Some(entry) = self.log.get(entries - 1) else {
            return;
        };
        self.see_left(entry, walk);
    }

    fn event(&mut self, entry: &Entry, thread: &Thread<'m>, _memory: &OneMemory)
        ensures { SeesWanted self.old entry.now.thread thread.now self.new }
    {
        if self.came < self.at {
            return;
        }
        match see(self.alloc, &mut self.next, entry.thread as usize, thread) {
            Ok(()) => {}
            Err(_) => self.is_short = true,
        }
    }

    fn settled(&mut self, _thread: u32, _turn: Turn)
        ensures { self.new ≡ self.old }
    {}
}
