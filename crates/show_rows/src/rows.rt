//! A row for each entry of a log.

ghost use Rattle.std.specs.Prelude.{◌≡◌, ◌≤◌, length, replicate, None, IfOk};
ghost use Rattle.std.specs.List.{slice_get};
ghost use Rattle.shared_memory.specs.Numbers.{le_number};
ghost use Rattle.show_rows.specs.Rows as found;
ghost use Rattle.show_rows.specs.Rows.{StandsThere, SetsRow, SeesThread, SeesLast, SeesRound, SeesWanted};

use interp::{CodePlace, Thread};
use interp_state::Caller;
use interp_trait::Turn;
use replay_walk::{Walk, Watch};
use shared_memory_sequential::OneMemory;
use std::alloc::{AllocError, Global};
use types::{Entry, Event, Question};

/// Of an entry: where its thread stands, from where its function was called, and what an access finds in memory.
#[derive(Clone, Copy, PartialEq, Eq)]
pub struct Row {
    /// The function of the module itself, and the number of the instruction in its flat code.
    pub place: CodePlace,
    /// The call of the function that runs; a thread's first function has none.
    pub caller: Option<CodePlace>,
    /// The number in the bytes of an access before it, where it lies within the memory.
    pub before: Option<u64>,
}

/// The rows of a log. Before a walk all are empty; a walk fills them up to the first entry that doesn't fit.
#[derive(Drop)]
pub struct Rows<'a> {
    pub log: &'a [Entry],
    pub rows: Vec<Option<Row>>,
    /// How many entries the walk has come along.
    pub came: usize,
}

impl<'a> Rows<'a> {
    pub fn new(alloc: Global, log: &'a [Entry]) -> Result<Rows<'a>, AllocError>
        ensures log { IfOk result (λ r. r.log.now ≡ log.now) }
        ensures rows { IfOk result (λ r. r.rows.items ≡ replicate (length log.now) None) }
    {
        let rows = vec![in alloc; None; log.len()]?;
        Ok(Rows { log, rows, came: 0 })
    }
}

/// The call of the last of these functions: the instruction before the one where it goes on.
fn last_call(callers: &[Caller]) -> Option<CodePlace>
    ensures { result ≡ found.last_call callers.now }
{
    let caller = callers.last()?;
    Some(CodePlace {
        function: caller.function,
        instr: caller.pc.saturating_sub(1),
    })
}

/// Where a thread stands, from where its function was called, and what it finds.
fn row_of(thread: &Thread, before: Option<u64>) -> Row
    ensures stands { StandsThere thread.now result }
    ensures before { result.before ≡ before }
{
    Row {
        place: thread.place(),
        caller: last_call(thread.callers()),
        before,
    }
}

/// The bytes that an event touches: the first one's address, and how many.
fn touched(event: Event) -> Option<(u64, u8)>
    ensures { result ≡ found.touched event }
{
    match event {
        Event::Load { addr, width, .. }
        | Event::Store { addr, width, .. }
        | Event::Rmw { addr, width, .. }
        | Event::Cmpxchg { addr, width, .. } => Some((addr, width)),
        _ => None,
    }
}

/// The number in at most 8 bytes.
#[tactic(auto, using(crate::proofs::Words::le_word))]
fn number_of(bytes: &[u8]) -> u64
    requires { length bytes.now ≤ 8 }
    ensures { result ≡ le_number bytes.now }
{
    let mut word = [0; 8];
    word[..bytes.len()].copy_from_slice(bytes);
    u64::from_le_bytes(word)
}

/// The number in so many bytes, if they lie within the memory.
pub fn number_in(bytes: &[u8], addr: u64, width: u8) -> Option<u64>
    ensures { result ≡ found.number_in bytes.now (addr, width) }
{
    if width > 8 {
        return None;
    }
    let touched = bytes.get(addr as usize..)?.get(..usize::from(width))?;
    Some(number_of(touched))
}

/// The number in the bytes that an event touches, if they lie within the memory.
fn number_before(bytes: &[u8], event: Event) -> Option<u64>
    ensures { result ≡ found.number_before bytes.now event }
{
    let (addr, width) = touched(event)?;
    number_in(bytes, addr, width)
}

/// Gives the entry of this number a row: where its thread stands.
fn see(rows: &mut [Option<Row>], log: &[Entry], at: usize, threads: &[Thread])
    ensures { SeesThread threads.now (slice_get log.now at) at rows.old rows.new }
{
    let Some(entry) = log.get(at) else {
        return;
    };
    let Some(thread) = threads.get(entry.thread as usize) else {
        return;
    };
    set_row(rows, at, thread, None);
}

/// Sets the row of this number, if there is one, to where the thread stands and what it finds.
fn set_row(rows: &mut [Option<Row>], at: usize, thread: &Thread, before: Option<u64>)
    ensures { SetsRow thread.now before at rows.old rows.new }
{
    let row = row_of(thread, before);
    if at < rows.len() {
        rows[at] = Some(row);
    }
}

/// Gives the last of so many entries a row, if it is a leave: where its thread has ended.
fn see_last(rows: &mut [Option<Row>], log: &[Entry], entries: usize, threads: &[Thread])
    ensures { SeesLast threads.now log.now entries rows.old rows.new }
{
    if let Some(last) = entries.checked_sub(1)
        && let Some(entry) = log.get(last)
        && let Event::Ask(Question::Leave) = entry.event
    {
        see(rows, log, last, threads);
    }
}

impl<'a, 'm> Watch<Thread<'m>> for Rows<'a> {
    ghost use Rattle.show_rows.specs.Rows.{RowsSee};

    ghost sees = { RowsSee };

    /// An answer that is heard stands where the thread stood before it, and a leave where the thread ended.
    fn came(&mut self, entries: usize, walk: &Walk<Thread<'m>>)
        ensures { SeesRound self.old entries walk.now.threads.items self.new }
    {
        self.came = entries;
        see(&mut self.rows, self.log, entries, &walk.threads);
        see_last(&mut self.rows, self.log, entries, &walk.threads);
    }

    fn event(&mut self, entry: &Entry, thread: &Thread<'m>, memory: &OneMemory)
        ensures { SeesWanted self.old entry.now.event thread.now memory.now.bytes self.new }
    {
        let before = number_before(memory.bytes(), entry.event);
        set_row(&mut self.rows, self.came, thread, before);
    }

    fn settled(&mut self, _thread: u32, _turn: Turn)
        ensures { self.new ≡ self.old }
    {}
}
