//! Turns of states that wait, found ahead by several threads.
ghost use Rattle.std.specs.Prelude.{◌≡◌, ◌<◌, [], ◌∷◌, length, IfOk, IfSome, OnOk};
ghost use Rattle.search_reach.specs.Meeting.{HasSound};
ghost use Rattle.search_table.specs.Tables.{Grows};
ghost use Rattle.search_race_free.specs.Turns.{reduced};
ghost use Rattle.search_race_free.specs.Met.{HasOwning};
ghost use Rattle.search_race_free.specs.Known.{AreKnownTurns, HasTurn, IsKnownRow, WantsInRow};
ghost use Rattle.search_race_free.specs.Ahead.{AreFound, AreFoundIn, AreTurns, IsFoundIn};

use crate::Accesses;
use crate::known::{
    FoundTurn, RowFrom, TurnOf, found_turn, is_over_none, keep_turn, number_at, wanted_in,
};
use crate::met::{Held, StateTable};
use crate::onward::next_of;
use search_settled::{Known, QuietTurn, note, recall};
use search_table::StateParts;
use std::alloc::{AllocError, Global};
use std::hash::Hash;
use std::thread::{Threads, map_indices};

/// Turns that were found ahead, of states before a place.
#[derive(Drop)]
pub struct Ahead<S, T> {
    pub(crate) turns: Vec<FoundTurn<S, T>>,
    /// The place behind the last one of these states.
    pub(crate) end: usize,
}

/// The states that were met, the turns that are known, and before which place they were found ahead.
#[derive(Drop)]
pub struct KnownTables<S: Eq + Hash, T: Eq + Hash> {
    pub(crate) met: StateTable<S, T>,
    pub(crate) known: Vec<Option<Known>>,
    pub(crate) ahead: usize,
}

/// Who finds turns ahead, of states that wait.
pub trait MakesAhead<M: Accesses> {
    /// What its threads need.
    ghost ready: { Self → Type 0 };

    /// That is a fact, of which there is one proof.
    ghost fact: { (c : Self) → ∥ ready c ∥₁ → ready c };

    /// Turns of some states from this place on, or none.
    ///
    /// # Errors
    /// Where memory is refused.
    fn ahead(
        &self,
        alloc: Global,
        system: &M,
        tables: &KnownTables<M::Shared, M::Thread>,
        from: usize,
        most_plain: u32,
    ) -> Result<Ahead<M::Shared, M::Thread>, AllocError>
        requires ready { ready self.now }
        requires sound { HasSound (reduced M.Moves system.now) (HasOwning tables.now.met) }
        ensures { IfOk result (λ a. AreFound (M.threads system.now) tables.now.met.parts a.turns.items) };
}

/// The thread alone that searches: it finds nothing ahead.
#[derive(Clone, Copy)]
pub struct Alone;

impl<M: Accesses> MakesAhead<M> for Alone {
    ghost ready = { λ a. Unit {0} };

    ghost fact = { λ a t. tt };

    fn ahead(
        &self,
        alloc: Global,
        _system: &M,
        _tables: &KnownTables<M::Shared, M::Thread>,
        from: usize,
        _most_plain: u32,
    ) -> Result<Ahead<M::Shared, M::Thread>, AllocError> {
        Ok(Ahead::none(alloc, from))
    }
}

impl<S: Drop, T: Drop> Ahead<S, T> {
    /// None, up to this place.
    fn none(alloc: Global, end: usize) -> Ahead<S, T>
        ensures { result.turns.items ≡ [] }
    {
        Ahead {
            turns: Vec::new(alloc),
            end,
        }
    }
}

/// The states of a table, and the system whose threads go on from them.
#[derive(Drop)]
struct WaitingStates<'s, M: Accesses> {
    system: &'s M,
    tables: &'s KnownTables<M::Shared, M::Thread>,
    most_plain: u32,
}

/// Whose turns are wanted, of states before a place.
#[derive(Drop)]
struct WantedTurns {
    turns: Vec<TurnOf>,
    end: usize,
}

/// For how many turns it is noted that they are wanted: of more, some may be found twice.
const SEEN: usize = 16_384;

/// Of fewer turns none are found ahead: threads would take longer to start.
const FEW: usize = 64;

/// How many turns a thread finds at once, or some more.
const PIECE: usize = 1024;

/// Whether the turn is known, or was seen; it is then.
fn was_seen(
    known: &[Option<Known>],
    seen: &mut Vec<Option<Known>>,
    shared: u32,
    thread: u32,
    n: u32,
) -> bool {
    if recall(known, shared, thread, n).is_some() {
        return true;
    }
    if recall(seen.as_slice(), shared, thread, n).is_some() {
        return true;
    }
    let turn = QuietTurn::Still;
    let new = Known {
        shared,
        thread,
        n,
        turn,
    };
    note(seen, new);
    false
}

impl<M: Accesses> WaitingStates<'_, M> {
    /// The turn of thread n of a state, if it can go on and that is neither known nor seen.
    fn turn_from(&self, from: &RowFrom, n: usize, seen: &mut Vec<Option<Known>>) -> Option<TurnOf>
        requires row { IsKnownRow (M.threads self.now.system.now) self.now.tables.now.met.parts
            (from.now.held ∷ from.now.threads.now) }
        requires wanted { WantsInRow (M.threads self.now.system.now) self.now.tables.now.met.parts
            (from.now.held ∷ from.now.threads.now) from.now.wanted.now }
        requires there { n < length from.now.threads.now }
        ensures { IfSome result (HasTurn (M.threads self.now.system.now) self.now.tables.now.met.parts) }
    {
        let Some(access) = next_of(from.wanted, n) else {
            return None;
        };
        if !is_over_none(from.wanted, n, access) {
            return None;
        }
        let thread = number_at(from.threads, n);
        let known = self.tables.known.as_slice();
        if was_seen(known, seen, from.held, thread, n as u32) {
            return None;
        }
        Some(TurnOf {
            held: from.held,
            thread,
            n,
        })
    }

    /// Puts the turns of a state behind others.
    fn put_turns(
        &self,
        alloc: Global,
        row: &[u32],
        seen: &mut Vec<Option<Known>>,
        all: &mut Vec<TurnOf>,
    ) -> Result<(), AllocError>
        requires row { IsKnownRow (M.threads self.now.system.now) self.now.tables.now.met.parts row.now }
        requires turns { AreTurns (M.threads self.now.system.now) self.now.tables.now.met.parts all.old.items }
        ensures { OnOk result (AreTurns (M.threads self.now.system.now) self.now.tables.now.met.parts all.new.items) }
    {
        let Some((held, threads)) = row.split_first() else {
            return Ok(());
        };
        let Some(wanted) = wanted_in(alloc, self.system, &self.tables.met.parts, *held, threads)?
        else {
            return Ok(());
        };
        let from = RowFrom {
            held: *held,
            threads,
            wanted: wanted.as_slice(),
            most_plain: self.most_plain,
        };
        for n in 0..threads.len() {
            let Some(turn) = self.turn_from(&from, n, seen) else {
                continue;
            };
            all.push(turn)?;
        }
        Ok(())
    }

    /// The turns of states from a place on, up to so many or some more.
    fn turns_from(&self, alloc: Global, from: usize, most: usize) -> Result<WantedTurns, AllocError>
        requires { HasSound (reduced M.Moves self.now.system.now) (HasOwning self.now.tables.now.met) }
        ensures { IfOk result (λ w. AreTurns (M.threads self.now.system.now) self.now.tables.now.met.parts w.turns.items) }
    {
        let mut seen = vec![in alloc; None; SEEN]?;
        let mut turns = Vec::new(alloc);
        for end in from..self.tables.met.states.len() {
            if most <= turns.len() {
                return Ok(WantedTurns { turns, end });
            }
            let Some(row) = self.tables.met.states.row(end) else {
                return Ok(WantedTurns { turns, end });
            };
            self.put_turns(alloc, row, &mut seen, &mut turns)?;
        }
        let end = self.tables.met.states.len();
        Ok(WantedTurns { turns, end })
    }

    /// Where those of the turns lead that stand from a place up to another one.
    fn found_of(
        &self,
        alloc: Global,
        turns: &[TurnOf],
        from: usize,
        to: usize,
    ) -> Result<Vec<FoundTurn<M::Shared, M::Thread>>, AllocError>
        requires { AreTurns (M.threads self.now.system.now) self.now.tables.now.met.parts turns.now }
        ensures { IfOk result (IsFoundIn (M.threads self.now.system.now) self.now.tables.now.met.parts) }
    {
        let parts = &self.tables.met.parts;
        let mut all = Vec::new(alloc);
        for n in from..to {
            let Some(turn) = turns.get(n) else {
                break;
            };
            let Some(found) = found_turn(alloc, self.system, parts, *turn, self.most_plain)? else {
                continue;
            };
            all.push(found)?;
        }
        Ok(all)
    }

    /// All pieces in one.
    fn joined(
        &self,
        alloc: Global,
        pieces: Vec<Result<Vec<FoundTurn<M::Shared, M::Thread>>, AllocError>>,
    ) -> Result<Vec<FoundTurn<M::Shared, M::Thread>>, AllocError>
        requires { AreFoundIn (M.threads self.now.system.now) self.now.tables.now.met.parts pieces.items }
        ensures { IfOk result (IsFoundIn (M.threads self.now.system.now) self.now.tables.now.met.parts) }
    {
        let mut pieces = pieces;
        let mut all = Vec::new(alloc);
        while let Some(piece) = pieces.pop() {
            let mut turns = piece?;
            all.append(&mut turns)?;
        }
        Ok(all)
    }
}

/// Turns of states from this place on: each of so many threads finds as many of those that are wanted. Where few are,
/// there are none.
///
/// # Errors
/// Where memory is refused.
pub fn made_ahead<R: Threads + Sync, M: Accesses + Sync>(
    rt: &R,
    jobs: usize,
    alloc: Global,
    system: &M,
    tables: &KnownTables<M::Shared, M::Thread>,
    from: usize,
    most_plain: u32,
) -> Result<Ahead<M::Shared, M::Thread>, AllocError>
where
    M::Shared: Send + Sync,
    M::Thread: Send + Sync,
    M::Effect: Send,
    M::Ending: Send,
    requires { HasSound (reduced M.Moves system.now) (HasOwning tables.now.met) }
    ensures { IfOk result (λ a. AreFound (M.threads system.now) tables.now.met.parts a.turns.items) }
{
    if jobs < 2 || tables.met.states.len().saturating_sub(from) < FEW {
        return Ok(Ahead::none(alloc, from));
    }
    let met = WaitingStates {
        system,
        tables,
        most_plain,
    };
    let WantedTurns { turns, end } = met.turns_from(alloc, from, PIECE.saturating_mul(jobs))?;
    let turns = turns.as_slice();
    if turns.len() < FEW {
        return Ok(Ahead::none(alloc, end));
    }
    let count = turns.len().div_ceil(jobs);
    let pieces = map_indices(
        rt,
        alloc,
        jobs,
        &|job: usize| -> Result<Vec<FoundTurn<M::Shared, M::Thread>>, AllocError>
            requires { AreTurns (M.threads met.system.now) met.tables.now.met.parts turns.now }
            ensures { IfOk result (IsFoundIn (M.threads met.entry.system.now) met.entry.tables.now.met.parts) }
        {
            let first = count.saturating_mul(job);
            met.found_of(alloc, turns, first, first.saturating_add(count))
        },
    )?;
    let turns = met.joined(alloc, pieces)?;
    Ok(Ahead { turns, end })
}

/// Keeps turns that were found.
///
/// # Errors
/// Where memory is refused, or there are too many parts.
pub(crate) fn keep_turns<M: Accesses>(
    system: &M,
    parts: &mut StateParts<Held<M::Shared>, M::Thread>,
    known: &mut Vec<Option<Known>>,
    turns: Vec<FoundTurn<M::Shared, M::Thread>>,
) -> Result<(), AllocError>
    requires known { AreKnownTurns (M.threads system.now) parts.old known.old.items }
    requires found { AreFound (M.threads system.now) parts.old turns.items }
    ensures grows { OnOk result (Grows parts.old parts.new) }
    ensures known { OnOk result (AreKnownTurns (M.threads system.now) parts.new known.new.items) }
{
    let mut turns = turns;
    while let Some(turn) = turns.pop() {
        keep_turn(system, parts, known, turn)?;
    }
    Ok(())
}
