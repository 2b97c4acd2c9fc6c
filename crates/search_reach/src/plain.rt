//! The states of a system as values, in a table of values.
ghost use Rattle.std.specs.Prelude.{◌≡◌, ◌<◌, ◌^◌, OnOk};
ghost use Rattle.indexmap.specs.IndexSet.{index_set_len};
ghost use Rattle.search_reach.specs.Explored.{Gains, Notes};
ghost use Rattle.search_reach.specs.Meeting.{equal_back};

use crate::{Explores, Meets, NextState};
use indexmap::IndexSet;
use search_graph::Move;
use std::alloc::{AllocError, Global};
use std::hash::Hash;

/// A system whose states are values, each of which is kept as it is.
#[derive(Drop)]
pub(crate) struct ValueSystem<'s, T> {
    pub(crate) system: &'s T,
}

/// Adds the next states of the one of this index, and notes the move to each.
fn add_all<S: Eq + Hash + Drop>(
    met: &mut IndexSet<S>,
    moves: &mut Vec<Move>,
    at: u32,
    after: Vec<NextState<S>>,
) -> Result<(), AllocError>
    ensures met { OnOk result (Gains met.old.keys after.items met.new.keys) }
    ensures noted { OnOk result (index_set_len met.new < 2 ^ 32
        → Notes S.eq met.new.keys at after.items moves.old.items moves.new.items) }
{
    for next in after {
        let (index, _is_new) = met.insert_full(next.state)?;
        moves.push(Move {
            from: at,
            thread: next.thread,
            next: index.min(u32::MAX as usize) as u32,
        })?;
    }
    Ok(())
}

impl<T: Explores> Meets for ValueSystem<'_, T> {
    type Table = IndexSet<T::State>;

    type Ending = T::Ending;

    ghost State = { T.State };

    ghost World = { T.World };

    ghost system = { λ p. T.system p.system.now };

    ghost equal = { λ p. T.State.eq };

    ghost holds = { λ p table ks. table.keys ≡ ks };

    ghost alike = { λ p. T.same p.system.now };

    ghost symmetric = { λ p. equal_back T.State.eq T.State.Eq.laws };

    fn table(&self, alloc: Global) -> IndexSet<T::State> {
        IndexSet::new(alloc)
    }

    fn count(&self, table: &IndexSet<T::State>) -> usize {
        table.len()
    }

    fn first(&self, alloc: Global, table: &mut IndexSet<T::State>) -> Result<bool, AllocError> {
        let Some(first) = self.system.first(alloc)? else {
            return Ok(false);
        };
        table.insert(first)?;
        Ok(true)
    }

    fn next(
        &self,
        alloc: Global,
        table: &mut IndexSet<T::State>,
        at: u32,
        moves: &mut Vec<Move>,
    ) -> Result<bool, AllocError> {
        let Some(state) = table.get_index(at as usize) else {
            return Ok(false);
        };
        let Some(after) = self.system.next(alloc, state)? else {
            return Ok(false);
        };
        add_all(table, moves, at, after)?;
        Ok(true)
    }

    fn ending(
        &self,
        alloc: Global,
        table: &IndexSet<T::State>,
        at: usize,
    ) -> Result<Option<T::Ending>, AllocError> {
        let Some(state) = table.get_index(at) else {
            return Ok(None);
        };
        self.system.ending(alloc, state)
    }
}
