//! All endings of threads of which none race, and races of those of which some do.
ghost use Rattle.std.specs.Prelude.{◌≡◌, false, true, IfOk, IfSome, OnOk, option_map, vec_len};
ghost use Rattle.indexmap.specs.IndexSet.{index_set_len};
ghost use Rattle.search_reach.specs.Meeting.{HasMetAt, HasSound};
ghost use Rattle.search_reach.specs.Found.{AreEndings};
ghost use Rattle.search_reach.specs.Liveness.{IsCount, IsLiveWhereAll, HasWays};
ghost use Rattle.search_reach.specs.Sought.{SeeksIn};
ghost use Rattle.search_reach.specs.Told.{Obeys};
ghost use Rattle.search_reach.specs.declared.search.Verdict.TheVariants as verdicts;
ghost use Rattle.search_race_free.specs.Turns.{reduced, IsRaceOf, HasNoRace, HasNoTimeout, HasTimeout};
ghost use Rattle.search_race_free.specs.Same.{owning_eq};
ghost use Rattle.search_race_free.specs.Met.{HasOwning};
ghost use Rattle.search_table.specs.Tables.{Grows};
ghost use Rattle.search_race_free.specs.Ahead.{ComesOfPlace, HasKnown};
ghost use Rattle.search_race_free.specs.Known.{AreKnownTurns, HasRowsAt};

use crate::ahead::{Ahead, KnownTables, MakesAhead, keep_turns};
use crate::alone::Arrival;
use crate::known::known_rows;
use crate::met::{StateTable, held_row, held_rows, state_at};
use crate::next::{first_state, next_states};
use crate::timeouts::waits_timed;
use crate::{Accesses, Owning, ThreadRace};
use search_graph::Move;
use search_reach::{
    Ended, Follows, Meets, NextState, Reached, SearchPlan, Seeks, Verdict, conclude, reach,
};
use search_settled::{NextRow, RestingState, make_room, put_rows, threads_of};
use search_table::{StateParts, States};
use std::alloc::{AllocError, Global};
use std::hash::Hash;

/// The turns of threads that do not race, in any order.
#[derive(Drop)]
struct RaceFreeTurns<'s, M: Accesses, C: MakesAhead<M>> {
    system: &'s M,
    crew: &'s C,
    most_plain: u32,
    ghost ready: { ∥ C.ready crew.now ∥₁ },
}

impl<M: Accesses, C: MakesAhead<M>> RaceFreeTurns<'_, M, C> {
    /// What comes of the state at this place.
    fn came(
        &self,
        alloc: Global,
        table: &StateTable<M::Shared, M::Thread>,
        at: usize,
    ) -> Result<Arrival<Vec<NextState<Owning<RestingState<M::Shared, M::Thread>>>>>, AllocError>
        requires { HasMetAt (reduced M.Moves self.now.system.now) (HasOwning table.now) at }
        ensures { IfOk result (ComesOfPlace (M.threads self.now.system.now) (M.stuck self.now.system.now)
            table.now at) }
    {
        let Some(state) = state_at(alloc, self.system, table, at)? else {
            return Ok(Arrival::Unknown);
        };
        next_states(alloc, self.system, &state, self.most_plain)
    }

    /// Has turns found ahead of states from this place on, and keeps them, unless that was done. Where memory for that
    /// is refused it isn't done any more.
    fn find_ahead(
        &self,
        alloc: Global,
        tables: &mut KnownTables<M::Shared, M::Thread>,
        at: usize,
    ) -> Result<(), AllocError>
        requires sound { HasSound (reduced M.Moves self.now.system.now) (HasOwning tables.old.met) }
        requires known { AreKnownTurns (M.threads self.now.system.now) tables.old.met.parts tables.old.known.items }
        ensures grows { OnOk result (Grows tables.old.met.parts tables.new.met.parts) }
        ensures states { OnOk result (tables.new.met.states ≡ tables.old.met.states) }
        ensures known { OnOk result (AreKnownTurns (M.threads self.now.system.now)
            tables.new.met.parts tables.new.known.items) }
    {
        if at < tables.ahead {
            return Ok(());
        }
        match self
            .crew
            .ahead(alloc, self.system, tables, at, self.most_plain)
        {
            Ok(Ahead { turns, end }) => {
                tables.ahead = end;
                keep_turns(self.system, &mut tables.met.parts, &mut tables.known, turns)
            }
            Err(_) => {
                tables.ahead = usize::MAX;
                Ok(())
            }
        }
    }

    /// The rows of the next states of the one at this place by turns that are known, or found now; or nothing, where
    /// a turn isn't its thread's own affair, or a thread may be in another's way.
    fn rows_by_known(
        &self,
        alloc: Global,
        tables: &mut KnownTables<M::Shared, M::Thread>,
        at: usize,
    ) -> Result<Option<Vec<NextRow>>, AllocError>
        requires at { HasMetAt (reduced M.Moves self.now.system.now)
            (HasKnown (M.threads self.now.system.now) tables.old) at }
        requires sound { HasSound (reduced M.Moves self.now.system.now)
            (HasKnown (M.threads self.now.system.now) tables.old) }
        ensures grows { OnOk result (Grows tables.old.met.parts tables.new.met.parts) }
        ensures states { OnOk result (tables.new.met.states ≡ tables.old.met.states) }
        ensures known { OnOk result (AreKnownTurns (M.threads self.now.system.now)
            tables.new.met.parts tables.new.known.items) }
        ensures rows { IfOk result (λ o. IfSome o (λ v.
            HasRowsAt (M.threads self.now.system.now) M.Shared.eq M.Thread.eq
            tables.old.met tables.new.met.parts at v.items)) }
    {
        self.find_ahead(alloc, tables, at)?;
        let Some(row) = tables.met.states.row(at) else {
            return Ok(None);
        };
        known_rows(
            alloc,
            self.system,
            &mut tables.met.parts,
            &mut tables.known,
            row,
            self.most_plain,
        )
    }
}

impl<M: Accesses, C: MakesAhead<M>> Meets for RaceFreeTurns<'_, M, C> {
    ghost use Rattle.schedule.specs.System.{State as SystemState};
    ghost use Rattle.search_settled.specs.declared.flat.RestingState.{RestingState as StateAtRest};
    ghost use Rattle.search_settled.specs.Same.{flat_alike};
    ghost use Rattle.search_race_free.specs.declared.owning.Owning.{Owning as OwningState};
    ghost use Rattle.search_race_free.specs.Turns.{reduced};
    ghost use Rattle.search_race_free.specs.Same.{owning_eq, owning_eq_back, owning_alike};
    ghost use Rattle.search_race_free.specs.Ahead.{HasKnown};

    type Table = KnownTables<M::Shared, M::Thread>;

    type Ending = M::Ending;

    ghost State = { OwningState (StateAtRest M.Shared M.Thread) };

    ghost World = { SystemState M.X M.T };

    ghost system = { λ t. reduced M.Moves t.system.now };

    ghost equal = { λ t. owning_eq M.Shared.eq M.Thread.eq };

    ghost holds = { λ t. HasKnown (M.threads t.system.now) };

    ghost alike = { λ t x y e. owning_alike M.Shared.eq M.Thread.eq M.Shared.Eq.laws M.Thread.Eq.laws
        (M.threads t.system.now) (M.same_shared t.system.now) (M.same_thread t.system.now) x y e };

    ghost symmetric = { λ t. owning_eq_back M.Shared.eq M.Thread.eq M.Shared.Eq.laws M.Thread.Eq.laws };

    fn table(&self, alloc: Global) -> KnownTables<M::Shared, M::Thread> {
        KnownTables {
            met: StateTable {
                parts: StateParts::new(alloc),
                states: States::new(alloc),
            },
            known: Vec::new(alloc),
            ahead: 0,
        }
    }

    fn count(&self, tables: &KnownTables<M::Shared, M::Thread>) -> usize {
        // No two parts are equal, as they say where they are asked for their number.
        let _ = tables.met.parts.len();
        tables.met.states.len()
    }

    fn first(
        &self,
        alloc: Global,
        tables: &mut KnownTables<M::Shared, M::Thread>,
    ) -> Result<bool, AllocError> {
        match first_state(alloc, self.system)? {
            Arrival::To(state) => {
                let row = held_row(alloc, &mut tables.met.parts, state)?;
                tables.met.states.put(row.as_slice())?;
                Ok(true)
            }
            Arrival::Races(_) => Ok(false),
            Arrival::Unknown => Ok(false),
        }
    }

    fn next(
        &self,
        alloc: Global,
        tables: &mut KnownTables<M::Shared, M::Thread>,
        at: u32,
        moves: &mut Vec<Move>,
    ) -> Result<bool, AllocError> {
        if let Some(rows) = self.rows_by_known(alloc, tables, at as usize)? {
            put_rows(&tables.met.parts, &mut tables.met.states, moves, at, rows)?;
            let count = tables.met.states.len();
            make_room(alloc, &mut tables.known, count)?;
            return Ok(true);
        }
        match self.came(alloc, &tables.met, at as usize)? {
            Arrival::To(next) => {
                let rows = held_rows(alloc, &mut tables.met.parts, next)?;
                put_rows(&tables.met.parts, &mut tables.met.states, moves, at, rows)?;
                Ok(true)
            }
            Arrival::Races(_) => Ok(false),
            Arrival::Unknown => Ok(false),
        }
    }

    fn ending(
        &self,
        alloc: Global,
        tables: &KnownTables<M::Shared, M::Thread>,
        at: usize,
    ) -> Result<Option<M::Ending>, AllocError> {
        let Some(row) = tables.met.states.row(at) else {
            return Ok(None);
        };
        let Some((number, numbers)) = row.split_first() else {
            return Ok(None);
        };
        let Some(held) = tables.met.parts.shared.get_index(*number as usize) else {
            return Ok(None);
        };
        let threads = threads_of(alloc, self.system, &tables.met.parts, numbers)?;
        self.system.ending(alloc, &held.shared, threads.as_slice())
    }
}

/// What a search of threads found: their endings, and a race.
#[derive(Drop)]
pub struct RaceFree<E: Eq + Hash> {
    /// The endings of the states that it met.
    pub ended: Ended<E>,
    /// Two threads that race, where it came to that.
    pub race: Option<ThreadRace>,
    /// The threads whose turns lead to a state from which one more leads to the race. No clause says that they do: they
    /// are a hint for `race_choices`.
    pub way: Vec<usize>,
    /// Whether a thread waits with a timeout in some run; where not all was met it is not looked for.
    pub timed: bool,
}

/// A race, and the place among the states that were met of the one from which a turn leads to it.
#[derive(Clone, Copy)]
struct RaceBehind {
    race: ThreadRace,
    place: usize,
}

/// A race that is found at one of the states of a table, from this place on.
fn race_among<M: Accesses>(
    alloc: Global,
    system: &M,
    table: &StateTable<M::Shared, M::Thread>,
    from: usize,
    most_plain: u32,
) -> Result<Option<RaceBehind>, AllocError>
    requires { HasSound (reduced M.Moves system.now) (HasOwning table.now) }
    ensures { IfOk result (λ o. IfSome o (λ r. IsRaceOf M.Moves system.now r.race)) }
{
    for place in from..table.states.len() {
        if let Some(state) = state_at(alloc, system, table, place)? {
            if let Arrival::Races(race) = next_states(alloc, system, &state, most_plain)? {
                return Ok(Some(RaceBehind { race, place }));
            }
        }
    }
    Ok(None)
}

/// A race that is found in the beginning.
fn race_at_first<M: Accesses>(alloc: Global, system: &M) -> Result<Option<RaceBehind>, AllocError>
    ensures { IfOk result (λ o. IfSome o (λ r. IsRaceOf M.Moves system.now r.race)) }
{
    match first_state(alloc, system)? {
        Arrival::Races(race) => Ok(Some(RaceBehind { race, place: 0 })),
        Arrival::To(_) => Ok(None),
        Arrival::Unknown => Ok(None),
    }
}

/// The race for which a search gave up, if it was one.
fn race_in<M: Accesses>(
    alloc: Global,
    system: &M,
    reached: &Reached<KnownTables<M::Shared, M::Thread>>,
    most_plain: u32,
) -> Result<Option<RaceBehind>, AllocError>
    requires { HasSound (reduced M.Moves system.now) (HasOwning reached.now.table.met) }
    ensures { IfOk result (λ o. IfSome o (λ r. IsRaceOf M.Moves system.now r.race)) }
{
    let Verdict::CannotTell = reached.verdict else {
        return Ok(None);
    };
    let table = &reached.table.met;
    if table.states.len() == 0 {
        return race_at_first(alloc, system);
    }
    let from = reached.last as usize;
    race_among(alloc, system, table, from, most_plain)
}

/// The threads whose turns lead to the state of this place, by the moves that were noted: one to a state stands before
/// those from it, so one walk back meets a move to each state of the way.
fn way_to(alloc: Global, moves: &[Move], place: usize) -> Result<Vec<usize>, AllocError> {
    let mut way = Vec::new(alloc);
    let mut at = place;
    for n in (0..moves.len()).rev() {
        let m = moves[n];
        if m.next as usize == at && (m.from as usize) < at {
            way.push(m.thread as usize)?;
            at = m.from as usize;
        }
    }
    way.reverse();
    Ok(way)
}

/// The threads whose turns lead to where a race is found, if one is.
fn way_behind(
    alloc: Global,
    moves: &[Move],
    behind: Option<RaceBehind>,
) -> Result<Vec<usize>, AllocError> {
    match behind {
        Some(behind) => way_to(alloc, moves, behind.place),
        None => Ok(Vec::new(alloc)),
    }
}

/// Who races there.
fn racing(behind: Option<RaceBehind>) -> Option<ThreadRace>
    ensures { result ≡ option_map (λ b. b.race) behind }
{
    match behind {
        Some(behind) => Some(behind.race),
        None => None,
    }
}

/// The endings of all runs of threads, whatever the order of their turns, where no threads race in any run: at
/// `Verdict::All` none do. It meets no more than the plan's most states and a few, those before an ending that is looked
/// for, and those before it is told to end. At `Verdict::CannotTell` there may be a race, which is then given. A thread makes at
/// most `most_plain` plain turns in a row before others have theirs, whatever comes of it. The crew may find turns
/// ahead: whoever it is, all that is said is said.
///
/// Where it met all, it says of which states no run ends, and whether every fair run ends, as
/// `search_settled::search_all` does of its own.
///
/// # Errors
/// Where memory is refused.
pub fn search_race_free<M: Accesses, C: MakesAhead<M>, Q: Seeks<M::Ending>, F: Follows>(
    alloc: Global,
    system: &M,
    crew: &C,
    plan: &SearchPlan<Q>,
    most_plain: u32,
    follower: &mut F,
) -> Result<RaceFree<M::Ending>, AllocError>
    requires { C.ready crew.now }
    ensures found { IfOk result
        (λ r. AreEndings (reduced M.Moves system.now) M.Ending.eq plan.now.most (F.wish follower.new) r.ended) }
    ensures paths { IfOk result (λ r. vec_len r.ended.paths ≡ index_set_len r.ended.endings) }
    ensures ways { IfOk result
        (λ r. HasWays (reduced M.Moves system.now) (owning_eq M.Shared.eq M.Thread.eq) r.ended) }
    ensures count { IfOk result
        (λ r. IsCount (reduced M.Moves system.now) (owning_eq M.Shared.eq M.Thread.eq) r.ended.states) }
    ensures live { IfOk result
        (λ r. IsLiveWhereAll (reduced M.Moves system.now) (owning_eq M.Shared.eq M.Thread.eq)
        r.ended.states r.ended.verdict r.ended.liveness) }
    ensures seeks { IfOk result (λ r. SeeksIn (Q.sought plan.now.sought) M.Ending.eq r.ended.verdict r.ended.endings.keys) }
    ensures obeys { IfOk result (λ r.
        Obeys (F.wish follower.old) (F.wish follower.new) (F.told_at follower.new) r.ended.verdict r.ended.states) }
    ensures none { IfOk result (λ r. r.ended.verdict ≡ verdicts.All → HasNoRace M.Moves system.now) }
    ensures race { IfOk result (λ r. IfSome r.race (IsRaceOf M.Moves system.now)) }
    ensures untimed { IfOk result (λ r. r.ended.verdict ≡ verdicts.All → r.timed ≡ false
        → HasNoTimeout M.Moves system.now) }
    ensures timed { IfOk result (λ r. r.timed ≡ true → HasTimeout M.Moves system.now) }
{
    let turns = RaceFreeTurns {
        system,
        crew,
        most_plain,
    };
    let reached = reach(alloc, &turns, plan, follower)?;
    let behind = race_in(alloc, system, &reached, most_plain)?;
    let way = way_behind(alloc, reached.moves.as_slice(), behind)?;
    let timed = waits_timed(alloc, system, &reached)?;
    let ended = conclude(alloc, &turns, plan, reached, follower)?;
    Ok(RaceFree {
        ended,
        race: racing(behind),
        way,
        timed,
    })
}
