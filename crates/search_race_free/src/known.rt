//! Turns that are known, and the next states by them: from numbers to numbers, without a state's values.
ghost use Rattle.std.specs.Prelude.{◌≡◌, ◌+◌, ◌<◌, ◌∷◌, length, slice_get, true, Some, IfOk, IfSome, OnOk};
ghost use Rattle.schedule.specs.System.{State};
ghost use Rattle.search_table.specs.Tables.{Grows};
ghost use Rattle.search_settled.specs.Flat.{IsThreadOf};
ghost use Rattle.search_race_free.specs.declared.owning.Touch.{Touch as OwnedTouch};
ghost use Rattle.search_race_free.specs.Touches.{IsOver};
ghost use Rattle.search_race_free.specs.Known.{
  IsLoneTurn,
  GoesOnAlone,
  AnyTurn,
  AreKnownTurns,
  HasTurn,
  IsFoundTurn,
  IsTurnOf,
  RestsInRow,
  IsKnownRow,
  OfHeldRow,
  IsClear,
  WantsInRow,
  AddsRow,
  AreRowsOf,
};

use crate::met::Held;
use crate::onward::next_of;
use crate::touches::{are_plain, first_race, of_others, over_at, put, struck};
use crate::{Accesses, Touch};
use search_settled::{
    Known, NextAccess, NextRow, QuietTurn, ThreadTurn, note, recall, row_alone, turn_of,
};
use search_table::StateParts;
use std::alloc::{AllocError, Global};

/// What is held, and where one thread rests.
#[derive(Drop)]
pub(crate) struct LoneThread<S, T> {
    held: Held<S>,
    thread: T,
}

/// What one turn of a thread comes to, by what is held and the thread alone.
#[derive(Drop)]
pub(crate) enum LoneTurn<S, T> {
    /// Its next turn isn't plain, or it can't go on.
    Stops(LoneThread<S, T>),
    /// It made a plain one.
    GoesOn(LoneThread<S, T>),
    /// Others may be in its way, or hear of it, or it can't be told.
    Unknown,
}

/// Thread n makes its next turn, if that is plain.
fn lone_turn<M: Accesses>(
    alloc: Global,
    system: &M,
    from: LoneThread<M::Shared, M::Thread>,
    n: usize,
) -> Result<LoneTurn<M::Shared, M::Thread>, AllocError>
    requires of { (z : State M.X M.T) × IsThreadOf (M.threads system.now) from.held.shared from.thread n z }
    requires few { n < (M.threads system.now).most }
    ensures { IfOk result (IsLoneTurn (M.threads system.now) from n) }
{
    let LoneThread { held, thread } = from;
    let Some(access) = system.access(alloc, &held.shared, &thread, n)? else {
        return Ok(LoneTurn::Stops(LoneThread { held, thread }));
    };
    if !access.plain {
        return Ok(LoneTurn::Stops(LoneThread { held, thread }));
    }
    if !are_plain(held.owned.as_slice(), n) {
        return Ok(LoneTurn::Stops(LoneThread { held, thread }));
    }
    if let Some(_) = struck(held.owned.as_slice(), n, access) {
        return Ok(LoneTurn::Unknown);
    }
    let turn = turn_of(alloc, system, &held.shared, &thread, n)?;
    let ThreadTurn::Alone(shared, thread) = turn else {
        return Ok(LoneTurn::Unknown);
    };
    let mut owned = held.owned;
    put(&mut owned, Touch { thread: n, access })?;
    let held = Held { shared, owned };
    Ok(LoneTurn::GoesOn(LoneThread { held, thread }))
}

/// Where the turn of thread n and plain ones after it lead, by what is held and the thread alone; or nothing, where
/// others may be in its way, or hear of it, or it can't be told.
fn lone_stretch<M: Accesses>(
    alloc: Global,
    system: &M,
    held: &Held<M::Shared>,
    thread: &M::Thread,
    n: usize,
    most: u32,
) -> Result<Option<LoneThread<M::Shared, M::Thread>>, AllocError>
    requires { AnyTurn (M.threads system.now) held.now thread.now n }
    ensures { IfOk result (λ o. IfSome o (λ to.
        GoesOnAlone (M.threads system.now) held.now thread.now n to.held to.thread)) }
{
    let Some(_) = system.access(alloc, &held.shared, thread, n)? else {
        return Ok(None);
    };
    let turn = turn_of(alloc, system, &held.shared, thread, n)?;
    let ThreadTurn::Alone(shared, rested) = turn else {
        return Ok(None);
    };
    let owned = of_others(alloc, held.owned.as_slice(), n)?;
    let mut at = LoneThread {
        held: Held { shared, owned },
        thread: rested,
    };
    for _ in 0..most {
        match lone_turn(alloc, system, at, n)? {
            LoneTurn::GoesOn(next) => at = next,
            LoneTurn::Stops(last) => return Ok(Some(last)),
            LoneTurn::Unknown => return Ok(None),
        }
    }
    Ok(Some(at))
}

/// Whose turn it is, by numbers: of what is held, and of thread n.
#[derive(Clone, Copy)]
pub(crate) struct TurnOf {
    pub(crate) held: u32,
    pub(crate) thread: u32,
    pub(crate) n: usize,
}

/// Where a turn leads, by numbers: to what is held, and to where its thread rests. All others rest where they did.
#[derive(Clone, Copy)]
pub(crate) struct LeadsTo {
    held: u32,
    thread: u32,
}

/// A turn that was found: whose it is, and where it leads, by what is held and the thread alone.
#[derive(Drop)]
pub struct FoundTurn<S, T> {
    pub(crate) of: TurnOf,
    pub(crate) to: LoneThread<S, T>,
}

/// Where the turn of a thread leads; or nothing, where that isn't the thread's own affair.
pub(crate) fn found_turn<M: Accesses>(
    alloc: Global,
    system: &M,
    parts: &StateParts<Held<M::Shared>, M::Thread>,
    of: TurnOf,
    most: u32,
) -> Result<Option<FoundTurn<M::Shared, M::Thread>>, AllocError>
    requires { HasTurn (M.threads system.now) parts.now of }
    ensures found { IfOk result (λ o. IfSome o (IsFoundTurn (M.threads system.now) parts.now)) }
    ensures of { IfOk result (λ o. IfSome o (λ f. f.of ≡ of)) }
{
    let Some(from) = parts.shared.get_index(of.held as usize) else {
        return Ok(None);
    };
    let Some(own) = parts.threads.get_index(of.thread as usize) else {
        return Ok(None);
    };
    let Some(to) = lone_stretch(alloc, system, from, own, of.n, most)? else {
        return Ok(None);
    };
    Ok(Some(FoundTurn { of, to }))
}

/// Notes a turn that was found, and answers where it leads.
pub(crate) fn keep_turn<M: Accesses>(
    _system: &M,
    parts: &mut StateParts<Held<M::Shared>, M::Thread>,
    known: &mut Vec<Option<Known>>,
    turn: FoundTurn<M::Shared, M::Thread>,
) -> Result<LeadsTo, AllocError>
    requires known { AreKnownTurns (M.threads _system.now) parts.old known.old.items }
    requires found { IsFoundTurn (M.threads _system.now) parts.old turn }
    ensures grows { OnOk result (Grows parts.old parts.new) }
    ensures known { OnOk result (AreKnownTurns (M.threads _system.now) parts.new known.new.items) }
    ensures turn { IfOk result (IsTurnOf (M.threads _system.now) parts.old parts.new turn.of) }
{
    let FoundTurn { of, to } = turn;
    let held = parts.put_shared(to.held)?;
    let thread = parts.put_thread(to.thread)?;
    let turn = QuietTurn::Alone {
        shared: held,
        thread,
    };
    note(
        known,
        Known {
            shared: of.held,
            thread: of.thread,
            n: of.n as u32,
            turn,
        },
    );
    Ok(LeadsTo { held, thread })
}

/// The turn of a thread, where it is known or found now, which is then noted; or nothing, where it isn't the thread's
/// own affair.
fn turn_by<M: Accesses>(
    alloc: Global,
    system: &M,
    parts: &mut StateParts<Held<M::Shared>, M::Thread>,
    known: &mut Vec<Option<Known>>,
    of: TurnOf,
    most: u32,
) -> Result<Option<LeadsTo>, AllocError>
    requires known { AreKnownTurns (M.threads system.now) parts.old known.old.items }
    requires of { HasTurn (M.threads system.now) parts.old of }
    ensures grows { OnOk result (Grows parts.old parts.new) }
    ensures known { OnOk result (AreKnownTurns (M.threads system.now) parts.new known.new.items) }
    ensures turn { IfOk result (λ o. IfSome o (IsTurnOf (M.threads system.now) parts.old parts.new of)) }
{
    let n = of.n as u32;
    if let Some(turn) = recall(known.as_slice(), of.held, of.thread, n) {
        if let QuietTurn::Alone { shared, thread } = turn {
            let held = shared;
            return Ok(Some(LeadsTo { held, thread }));
        }
    }
    let Some(found) = found_turn(alloc, system, parts, of, most)? else {
        return Ok(None);
    };
    let to = keep_turn(system, parts, known, found)?;
    Ok(Some(to))
}

/// What each thread of a row does next, or nothing where it has no such parts.
pub(crate) fn wanted_in<M: Accesses>(
    alloc: Global,
    system: &M,
    parts: &StateParts<Held<M::Shared>, M::Thread>,
    held: u32,
    threads: &[u32],
) -> Result<Option<Vec<Option<NextAccess>>>, AllocError>
    requires { RestsInRow (M.threads system.now) parts.now (held ∷ threads.now) }
    ensures { IfOk result (λ o. IfSome o (λ v.
        WantsInRow (M.threads system.now) parts.now (held ∷ threads.now) v.items)) }
{
    let Some(held) = parts.shared.get_index(held as usize) else {
        return Ok(None);
    };
    let mut wanted = Vec::with_capacity(alloc, threads.len())?;
    for n in 0..threads.len() {
        let number = number_at(threads, n);
        let Some(thread) = parts.threads.get_index(number as usize) else {
            return Ok(None);
        };
        let access = system.access(alloc, &held.shared, thread, n)?;
        wanted.push(access)?;
    }
    Ok(Some(wanted))
}

/// The number at a place.
pub(crate) fn number_at(numbers: &[u32], n: usize) -> u32
    requires { n < length numbers.now }
    ensures { slice_get numbers.now n ≡ Some result }
{
    numbers[n]
}

/// Whether no thread is in another's way in the state of this row; it answers no where that can't be told.
fn is_clear<M: Accesses>(
    alloc: Global,
    system: &M,
    parts: &StateParts<Held<M::Shared>, M::Thread>,
    row: &[u32],
) -> Result<bool, AllocError>
    requires { RestsInRow (M.threads system.now) parts.now row.now }
    ensures { IfOk result (λ b. b ≡ true → OfHeldRow parts.now row.now (IsClear (M.threads system.now))) }
{
    let Some((number, threads)) = row.split_first() else {
        return Ok(false);
    };
    let Some(held) = parts.shared.get_index(*number as usize) else {
        return Ok(false);
    };
    let Some(wanted) = wanted_in(alloc, system, parts, *number, threads)? else {
        return Ok(false);
    };
    match first_race(wanted.as_slice(), held.owned.as_slice()) {
        Some(_) => Ok(false),
        None => Ok(true),
    }
}

/// Whether this access of thread n writes over no other thread's next one.
pub(crate) fn is_over_none(wanted: &[Option<NextAccess>], n: usize, access: NextAccess) -> bool
    ensures { result ≡ true → (x : OwnedTouch) → IsOver wanted.now n access x → ⊥ }
{
    for other in 0..wanted.len() {
        if let Some(_) = over_at(wanted[other], other, n, access) {
            return false;
        }
    }
    true
}

/// The state of a row, by the numbers of what is held and of its threads, with what each of these does next.
#[derive(Clone, Copy)]
pub(crate) struct RowFrom<'r> {
    pub(crate) held: u32,
    pub(crate) threads: &'r [u32],
    pub(crate) wanted: &'r [Option<NextAccess>],
    pub(crate) most_plain: u32,
}

/// Puts the row of the next state by the turn of thread n, if it can go on, behind those of the threads before it. It
/// answers no where that turn isn't the thread's own affair, or a thread may be in another's way.
fn put_known<M: Accesses>(
    alloc: Global,
    system: &M,
    parts: &mut StateParts<Held<M::Shared>, M::Thread>,
    known: &mut Vec<Option<Known>>,
    from: &RowFrom,
    n: usize,
    all: &mut Vec<NextRow>,
) -> Result<bool, AllocError>
    requires known { AreKnownTurns (M.threads system.now) parts.old known.old.items }
    requires row { IsKnownRow (M.threads system.now) parts.old (from.now.held ∷ from.now.threads.now) }
    requires wanted { WantsInRow (M.threads system.now) parts.old (from.now.held ∷ from.now.threads.now)
        from.now.wanted.now }
    requires there { n < length from.now.threads.now }
    ensures grows { OnOk result (Grows parts.old parts.new) }
    ensures known { OnOk result (AreKnownTurns (M.threads system.now) parts.new known.new.items) }
    ensures next { IfOk result (λ b. b ≡ true → OfHeldRow parts.old (from.now.held ∷ from.now.threads.now)
        (AddsRow (M.threads system.now) M.Shared.eq M.Thread.eq parts.old parts.new n all.old.items all.new.items)) }
{
    let Some(access) = next_of(from.wanted, n) else {
        return Ok(true);
    };
    if !is_over_none(from.wanted, n, access) {
        return Ok(false);
    }
    let thread = number_at(from.threads, n);
    let of = TurnOf {
        held: from.held,
        thread,
        n,
    };
    let Some(to) = turn_by(alloc, system, parts, known, of, from.most_plain)? else {
        return Ok(false);
    };
    let row = row_alone(alloc, from.threads, n, to.held, to.thread)?;
    if !is_clear(alloc, system, parts, row.as_slice())? {
        return Ok(false);
    }
    all.push(NextRow {
        thread: n as u32,
        row,
    })?;
    Ok(true)
}

/// The rows of the next states of the one of these numbers, each with the thread whose turn leads there; or nothing,
/// where a turn isn't its thread's own affair, or a thread may be in another's way.
///
/// # Errors
/// Where memory is refused, or there are too many parts.
pub(crate) fn known_rows<M: Accesses>(
    alloc: Global,
    system: &M,
    parts: &mut StateParts<Held<M::Shared>, M::Thread>,
    known: &mut Vec<Option<Known>>,
    row: &[u32],
    most_plain: u32,
) -> Result<Option<Vec<NextRow>>, AllocError>
    requires known { AreKnownTurns (M.threads system.now) parts.old known.old.items }
    requires row { IsKnownRow (M.threads system.now) parts.old row.now }
    ensures grows { OnOk result (Grows parts.old parts.new) }
    ensures known { OnOk result (AreKnownTurns (M.threads system.now) parts.new known.new.items) }
    ensures rows { IfOk result (λ o. IfSome o (λ v. OfHeldRow parts.old row.now
        (AreRowsOf (M.threads system.now) M.Shared.eq M.Thread.eq parts.new v.items))) }
{
    let Some((held, threads)) = row.split_first() else {
        return Ok(None);
    };
    let held = *held;
    let Some(wanted) = wanted_in(alloc, system, parts, held, threads)? else {
        return Ok(None);
    };
    let from = RowFrom {
        held,
        threads,
        wanted: wanted.as_slice(),
        most_plain,
    };
    let mut all = Vec::new(alloc);
    for n in 0..threads.len() {
        if !put_known(alloc, system, parts, known, &from, n, &mut all)? {
            return Ok(None);
        }
    }
    Ok(Some(all))
}
