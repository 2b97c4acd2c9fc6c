//! The next states: of each thread that wants an event, what comes of it.
ghost use Rattle.std.specs.Prelude.{◌≡◌, ◌+◌, ◌^◌, ◌<◌, List, [], ◌∷◌, ◌++◌, length, slice_get, slice_set, true, false, Some, None, IfOk, IfSome, OnOk};
ghost use Rattle.search_table.specs.Tables.{AreThreads, Grows};
ghost use Rattle.search_settled.specs.Next.{IsStuckAfter};
ghost use Rattle.search_settled.specs.Known.{
  AreKnown,
  IsRowOfEqual,
  IsRowAfter,
  IsTurn,
  OfNumbers,
  IsSomeRow,
  OfRow,
  OfThread,
  OfThreads,
  OfSomeThreads,
  HasThread,
  AddsNext,
  AreNextRows,
};
ghost use Rattle.search_settled.specs.Flat.{
  AreSomewhere,
  RestsBehind,
  IsStuckBehind,
  MovesSomewhere,
  AllComeAfter,
  IsStuckByMove,
};

use crate::met::{MetParts, NextRow, QuietTurn};
use crate::turns::{EventOutcome, made_by};
use crate::{Moves, RestingState};
use search_table::StateParts;
use std::alloc::{AllocError, Global};
use std::hash::Hash;

/// Where thread m comes to rest after an event of thread n: it is one of these threads, or the event starts it.
fn thread_after<M: Moves>(
    alloc: Global,
    system: &M,
    made: &M::Effect,
    n: usize,
    threads: &[M::Thread],
    m: usize,
) -> Result<Option<M::Thread>, AllocError>
    requires event { AreSomewhere (M.threads system.now) made.now n threads.now }
    requires few { m < (M.threads system.now).most }
    ensures rests { IfOk result (λ o. IfSome o (RestsBehind (M.threads system.now) made.now n threads.now m)) }
    ensures gives_up { IfOk result (λ o. o ≡ None
        → IsStuckBehind (M.threads system.now) (M.stuck system.now) made.now n threads.now) }
{
    match threads.get(m) {
        Some(thread) => system.after(alloc, made, n, thread, m),
        None => system.first_after(alloc, made, n, m),
    }
}

/// Where all threads come to rest after an event of thread n, those that it starts too, or nothing where it cannot tell
/// that.
///
/// # Errors
/// Where memory is refused.
pub fn threads_after<M: Moves>(
    alloc: Global,
    system: &M,
    shared: &M::Shared,
    made: &M::Effect,
    n: usize,
    threads: &[M::Thread],
) -> Result<Option<Vec<M::Thread>>, AllocError>
    requires { MovesSomewhere (M.threads system.now) shared.now made.now n threads.now }
    ensures rests { IfOk result
        (λ o. IfSome o (λ v. AllComeAfter (M.threads system.now) shared.now made.now n threads.now v.items)) }
    ensures gives_up { IfOk result (λ o. o ≡ None
        → IsStuckByMove (M.threads system.now) (M.stuck system.now) shared.now made.now n threads.now) }
{
    let count = system.started(shared);
    let mut rested = Vec::with_capacity(alloc, count)?;
    for m in 0..count {
        let Some(thread) = thread_after(alloc, system, made, n, threads, m)? else {
            return Ok(None);
        };
        rested.push(thread)?;
    }
    Ok(Some(rested))
}

/// The number of the part at a place.
fn part_at(numbers: &[u32], n: usize) -> u32
    requires { n < length numbers.now }
    ensures { slice_get numbers.now n ≡ Some result }
{
    numbers[n]
}

/// The threads of these numbers.
///
/// # Errors
/// Where memory is refused, or no more states can have a thread.
pub fn threads_of<M: Moves, S: Eq + Hash + Drop>(
    alloc: Global,
    system: &M,
    parts: &StateParts<S, M::Thread>,
    numbers: &[u32],
) -> Result<Vec<M::Thread>, AllocError>
    ensures { IfOk result (λ v. (xs : List M.Thread) → AreThreads parts.now numbers.now xs → v.items ≡ xs) }
{
    let mut all = Vec::with_capacity(alloc, numbers.len())?;
    for n in 0..numbers.len() {
        let number = part_at(numbers, n);
        let Some(thread) = parts.threads.get_index(number as usize) else {
            continue;
        };
        all.push(system.share(thread)?)?;
    }
    Ok(all)
}

/// The row of a state, whose parts are put into the table.
///
/// # Errors
/// Where memory is refused, or there are too many parts.
pub fn row_of<S: Eq + Hash + Drop, T: Eq + Hash + Drop>(
    alloc: Global,
    parts: &mut StateParts<S, T>,
    flat: RestingState<S, T>,
) -> Result<Vec<u32>, AllocError>
    ensures grows { OnOk result (Grows parts.old parts.new) }
    ensures row { IfOk result (λ row. IsRowOfEqual S.eq T.eq parts.new flat row.items) }
{
    let RestingState { shared, threads } = flat;
    let mut row = Vec::with_capacity(alloc, threads.len().saturating_add(1))?;
    let first = parts.put_shared(shared)?;
    row.push(first)?;
    for thread in threads {
        let number = parts.put_thread(thread)?;
        row.push(number)?;
    }
    Ok(row)
}

/// Thread n of a state, by the numbers of what is shared, of all threads, and of that one.
#[derive(Clone, Copy)]
struct ThreadOf<'r> {
    shared: u32,
    threads: &'r [u32],
    n: usize,
    thread: u32,
}

/// The row of the state after an event of thread n of which others hear, or nothing where it can't be told.
fn row_after<M: Moves>(
    alloc: Global,
    system: &M,
    parts: &mut StateParts<M::Shared, M::Thread>,
    of: &ThreadOf,
    shared: M::Shared,
    made: &M::Effect,
) -> Result<Option<Vec<u32>>, AllocError>
    requires { OfSomeThreads parts.old of.now.threads.now
        (MovesSomewhere (M.threads system.now) shared made.now of.now.n) }
    ensures grows { OnOk result (Grows parts.old parts.new) }
    ensures row { IfOk result (λ o. IfSome o (λ r. OfThreads parts.old of.now.threads.now
        (λ xs. IsRowAfter (M.threads system.now) M.Shared.eq M.Thread.eq parts.new shared made.now of.now.n xs r.items))) }
    ensures gives_up { IfOk result (λ o. o ≡ None → OfThreads parts.old of.now.threads.now
        (IsStuckByMove (M.threads system.now) (M.stuck system.now) shared made.now of.now.n)) }
{
    let threads = threads_of(alloc, system, parts, of.threads)?;
    let Some(rested) = threads_after(alloc, system, &shared, made, of.n, threads.as_slice())? else {
        return Ok(None);
    };
    let row = row_of(
        alloc,
        parts,
        RestingState {
            shared,
            threads: rested,
        },
    )?;
    Ok(Some(row))
}

/// The row with this shared, and this thread in the place of the n-th one.
///
/// # Errors
/// Where memory is refused.
pub fn row_alone(
    alloc: Global,
    numbers: &[u32],
    n: usize,
    shared: u32,
    thread: u32,
) -> Result<Vec<u32>, AllocError>
    requires { n < length numbers.now }
    ensures { IfOk result (λ row. row.items ≡ shared ∷ slice_set numbers.now n thread) }
{
    let mut row = Vec::with_capacity(alloc, numbers.len().saturating_add(1))?;
    row.push(shared)?;
    row.extend_from_slice(numbers)?;
    row[n + 1] = thread;
    Ok(row)
}

/// Puts the row of a next state by the event of thread n behind the others.
fn put(all: &mut Vec<NextRow>, n: usize, row: Vec<u32>) -> Result<(), AllocError>
    requires { n < 2 ^ 32 }
    ensures { OnOk result (all.new.items ≡ all.old.items ++ record { thread = n; row = row } ∷ []) }
{
    all.push(NextRow {
        thread: n as u32,
        row,
    })?;
    Ok(())
}

/// Puts the row of the next state by this turn of a thread, if it makes one, behind those of the threads before it.
fn put_turn<M: Moves>(
    alloc: Global,
    system: &M,
    parts: &StateParts<M::Shared, M::Thread>,
    of: &ThreadOf,
    turn: QuietTurn,
    all: &mut Vec<NextRow>,
) -> Result<(), AllocError>
    requires at { HasThread (M.threads system.now) parts.now of.now }
    requires turn { OfNumbers (M.threads system.now) parts.now of.now.shared of.now.thread
        (λ g h. IsTurn (M.threads system.now) parts.now g h of.now.n turn) }
    ensures { OnOk result (OfThread (M.threads system.now) parts.now of.now
        (AddsNext (M.threads system.now) parts.now parts.now of.now all.old.items all.new.items)) }
{
    match turn {
        QuietTurn::Still => Ok(()),
        QuietTurn::Alone { shared, thread } => {
            let next = row_alone(alloc, of.threads, of.n, shared, thread)?;
            put(all, of.n, next)?;
            Ok(())
        }
    }
}

/// Puts the row of the next state by the event of a thread, if it wants one, behind those of the threads before it. It
/// answers no where it cannot tell that state.
fn put_next<M: Moves>(
    alloc: Global,
    system: &M,
    met: &mut MetParts<M::Shared, M::Thread>,
    of: &ThreadOf,
    all: &mut Vec<NextRow>,
) -> Result<bool, AllocError>
    requires known { AreKnown (M.threads system.now) met.old }
    requires at { HasThread (M.threads system.now) met.old.parts of.now }
    ensures grows { OnOk result (Grows met.old.parts met.new.parts) }
    ensures known { OnOk result (AreKnown (M.threads system.now) met.new) }
    ensures next { IfOk result (λ told. told ≡ true → OfThread (M.threads system.now) met.old.parts of.now
        (AddsNext (M.threads system.now) met.old.parts met.new.parts of.now all.old.items all.new.items)) }
    ensures gives_up { IfOk result (λ told. told ≡ false → OfThread (M.threads system.now) met.old.parts of.now
        (IsStuckAfter (M.threads system.now) (M.stuck system.now))) }
{
    let turn = made_by(alloc, system, met, of.shared, of.thread, of.n)?;
    match turn {
        EventOutcome::Told(turn) => {
            put_turn(alloc, system, &met.parts, of, turn, all)?;
            Ok(true)
        }
        EventOutcome::Heard(shared, made) => {
            let parts = &mut met.parts;
            let Some(next) = row_after(alloc, system, parts, of, shared, &made)? else {
                return Ok(false);
            };
            put(all, of.n, next)?;
            Ok(true)
        }
        EventOutcome::Unknown => Ok(false),
    }
}

/// The rows of the next states of the one of these numbers, each with the thread whose event leads there.
pub(crate) fn next_rows<M: Moves>(
    alloc: Global,
    system: &M,
    met: &mut MetParts<M::Shared, M::Thread>,
    shared: u32,
    threads: &[u32],
) -> Result<Option<Vec<NextRow>>, AllocError>
    requires known { AreKnown (M.threads system.now) met.old }
    requires of { IsSomeRow (M.threads system.now) met.old.parts (shared ∷ threads.now) }
    ensures grows { OnOk result (Grows met.old.parts met.new.parts) }
    ensures known { OnOk result (AreKnown (M.threads system.now) met.new) }
    ensures next { IfOk result (λ o. IfSome o (λ v. OfRow (M.threads system.now) met.old.parts (shared ∷ threads.now)
        (λ c. AreNextRows (M.threads system.now) met.new.parts c v.items))) }
    ensures gives_up { IfOk result (λ o. o ≡ None → OfRow (M.threads system.now) met.old.parts (shared ∷ threads.now)
        (IsStuckAfter (M.threads system.now) (M.stuck system.now))) }
{
    let mut all = Vec::new(alloc);
    for n in 0..threads.len() {
        let thread = part_at(threads, n);
        let of = ThreadOf {
            shared,
            threads,
            n,
            thread,
        };
        if !put_next(alloc, system, met, &of, &mut all)? {
            return Ok(None);
        }
    }
    Ok(Some(all))
}
