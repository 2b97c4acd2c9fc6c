//! All endings of threads that are moved one by one.
ghost use Rattle.std.specs.Prelude.{◌≡◌, IfOk, IfSome, OnOk, vec_len};
ghost use Rattle.indexmap.specs.IndexSet.{index_set_len};
ghost use Rattle.search_reach.specs.Found.{AreEndings};
ghost use Rattle.search_reach.specs.Levels.{IsLeveled};
ghost use Rattle.search_reach.specs.Liveness.{IsCount, IsLiveWhereAll, HasWays};
ghost use Rattle.search_reach.specs.Sought.{SeeksIn};
ghost use Rattle.search_reach.specs.Told.{Obeys};
ghost use Rattle.search_table.specs.Tables.{AreStates};
ghost use Rattle.search_settled.specs.Turns.{turns};
ghost use Rattle.search_settled.specs.Levels.{HasEndsBehind};
ghost use Rattle.search_settled.specs.Same.{flat_eq};
ghost use Rattle.search_settled.specs.Known.{PutsRows};

use crate::Moves;
use crate::met::{MetParts, NextRow, Tables, make_room};
use crate::next::{next_rows, row_of, threads_of};
use search_graph::Move;
use search_reach::{Ended, Follows, Meets, SearchPlan, Seeks, all_endings};
use search_table::{StateParts, States};
use std::alloc::{AllocError, Global};
use std::hash::Hash;

/// The turns of threads, in any order, gone through by their settled states.
#[derive(Drop)]
struct Turns<'s, M> {
    system: &'s M,
}

/// Puts the rows of the next states of the one at this place, and notes the move to each. These parts say of which states
/// they are.
///
/// # Errors
/// Where memory is refused.
pub fn put_rows<S: Eq + Hash + Drop, T: Eq + Hash + Drop>(
    parts: &StateParts<S, T>,
    states: &mut States,
    moves: &mut Vec<Move>,
    at: u32,
    next: Vec<NextRow>,
) -> Result<(), AllocError>
    requires { AreStates states.old }
    ensures are { OnOk result (AreStates states.new) }
    ensures puts { OnOk result (PutsRows S.eq T.eq parts.now states.old states.new at next.items moves.old.items moves.new.items) }
{
    for one in next {
        let place = states.put(one.row.as_slice())?;
        moves.push(Move {
            from: at,
            thread: one.thread,
            next: place.min(u32::MAX as usize) as u32,
        })?;
    }
    Ok(())
}

impl<M: Moves> Meets for Turns<'_, M> {
    ghost use Rattle.schedule.specs.System.{State as SystemState};
    ghost use Rattle.search_settled.specs.declared.flat.RestingState.{RestingState as StateAtRest};
    ghost use Rattle.search_settled.specs.Known.{HasStates};
    ghost use Rattle.search_settled.specs.Turns.{turns};
    ghost use Rattle.search_settled.specs.Same.{flat_eq, flat_eq_back, flat_alike, stands_alike};

    type Table = Tables<M::Shared, M::Thread>;

    type Ending = M::Ending;

    ghost State = { StateAtRest M.Shared M.Thread };

    ghost World = { SystemState M.X M.T };

    ghost system = { λ t. turns M.Moves t.system.now };

    ghost equal = { λ t. flat_eq M.Shared.eq M.Thread.eq };

    ghost holds = { λ t. HasStates (M.threads t.system.now) };

    ghost alike = { λ t x y e. stands_alike (M.threads t.system.now) x y
        (flat_alike M.Shared.eq M.Thread.eq (M.threads t.system.now)
        (M.same_shared t.system.now) (M.same_thread t.system.now) x y e) };

    ghost symmetric = { λ t. flat_eq_back M.Shared.eq M.Thread.eq M.Shared.Eq.laws M.Thread.Eq.laws };

    fn table(&self, alloc: Global) -> Tables<M::Shared, M::Thread> {
        Tables {
            met: MetParts {
                parts: StateParts::new(alloc),
                known: Vec::new(alloc),
            },
            states: States::new(alloc),
        }
    }

    fn count(&self, tables: &Tables<M::Shared, M::Thread>) -> usize {
        // No two parts are equal, as they say where they are asked for their number.
        let _ = tables.met.parts.len();
        tables.states.len()
    }

    fn first(
        &self,
        alloc: Global,
        tables: &mut Tables<M::Shared, M::Thread>,
    ) -> Result<bool, AllocError> {
        let Some(flat) = self.system.first(alloc)? else {
            return Ok(false);
        };
        let row = row_of(alloc, &mut tables.met.parts, flat)?;
        tables.states.put(row.as_slice())?;
        Ok(true)
    }

    fn next(
        &self,
        alloc: Global,
        tables: &mut Tables<M::Shared, M::Thread>,
        at: u32,
        moves: &mut Vec<Move>,
    ) -> Result<bool, AllocError> {
        let Some(row) = tables.states.row(at as usize) else {
            return Ok(false);
        };
        let Some((shared, threads)) = row.split_first() else {
            return Ok(false);
        };
        let Some(next) = next_rows(alloc, self.system, &mut tables.met, *shared, threads)? else {
            return Ok(false);
        };
        put_rows(&tables.met.parts, &mut tables.states, moves, at, next)?;
        let count = tables.states.len();
        make_room(alloc, &mut tables.met.known, count)?;
        Ok(true)
    }

    fn ending(
        &self,
        alloc: Global,
        tables: &Tables<M::Shared, M::Thread>,
        at: usize,
    ) -> Result<Option<M::Ending>, AllocError> {
        let Some(row) = tables.states.row(at) else {
            return Ok(None);
        };
        let Some((number, threads)) = row.split_first() else {
            return Ok(None);
        };
        let Some(shared) = tables.met.parts.shared.get_index(*number as usize) else {
            return Ok(None);
        };
        let threads = threads_of(alloc, self.system, &tables.met.parts, threads)?;
        self.system.ending(alloc, shared, threads.as_slice())
    }
}

/// The endings of all runs of threads, whatever the order of their turns; it meets no more than the plan's most settled
/// states and a few, those before one that is looked for, and those before it is told to end. Where it met all, it says of which
/// states no run ends, and whether every fair run ends: one in which each thread that wants a turn of its own or an event
/// makes its next turn. The list has each ending of a run with no more events than levels are complete. Depth first no
/// levels are counted.
pub fn search_all<M: Moves, Q: Seeks<M::Ending>, F: Follows>(
    alloc: Global,
    system: &M,
    plan: &SearchPlan<Q>,
    follower: &mut F,
) -> Result<Ended<M::Ending>, AllocError>
    ensures found { IfOk result (AreEndings (turns M.Moves system.now) M.Ending.eq plan.now.most (F.wish follower.new)) }
    ensures paths { IfOk result (λ r. vec_len r.paths ≡ index_set_len r.endings) }
    ensures ways { IfOk result (HasWays (turns M.Moves system.now) (flat_eq M.Shared.eq M.Thread.eq)) }
    ensures count { IfOk result
        (λ r. IsCount (turns M.Moves system.now) (flat_eq M.Shared.eq M.Thread.eq) r.states) }
    ensures live { IfOk result
        (λ r. IsLiveWhereAll (turns M.Moves system.now) (flat_eq M.Shared.eq M.Thread.eq) r.states r.verdict r.liveness) }
    ensures seeks { IfOk result (λ r. SeeksIn (Q.sought plan.now.sought) M.Ending.eq r.verdict r.endings.keys) }
    ensures levels { IfOk result (λ r. IfSome r.levels (HasEndsBehind (M.threads system.now).system
        (M.threads system.now).first (M.ends system.now) M.Ending.eq r.endings.keys)) }
    ensures leveled { IfOk result (λ r. IsLeveled plan.now.order r.levels (r.states ≡ 0)) }
    ensures obeys { IfOk result (λ r.
        Obeys (F.wish follower.old) (F.wish follower.new) (F.told_at follower.new) r.verdict r.states) }
{
    let states = Turns { system };
    all_endings(alloc, &states, plan, follower)
}
