//! The states that were met, in a table: each by what is shared with what is owned, and by its threads.
ghost use Rattle.std.specs.Prelude.{IfOk, OnOk};
ghost use Rattle.search_table.specs.Tables.{AreStates, Grows};
ghost use Rattle.search_race_free.specs.Met.{IsHeldRow, AreHeldRows, IsStateAt};

use crate::{Accesses, Owning, Touch};
use search_reach::NextState;
use search_settled::{NextRow, RestingState, row_of, threads_of};
use search_table::{StateParts, States};
use std::alloc::{AllocError, Global};
use std::hash::Hash;

/// What is shared, and what the threads own.
#[derive(Drop, PartialEq, Eq, Hash)]
pub struct Held<S> {
    pub(crate) shared: S,
    pub(crate) owned: Vec<Touch>,
}

/// The states that were met, and their parts.
#[derive(Drop)]
pub struct StateTable<S: Eq + Hash, T: Eq + Hash> {
    pub(crate) parts: StateParts<Held<S>, T>,
    pub(crate) states: States,
}

/// The row of a state, whose parts are put into the table.
pub(crate) fn held_row<S: Eq + Hash + Drop, T: Eq + Hash + Drop>(
    alloc: Global,
    parts: &mut StateParts<Held<S>, T>,
    state: Owning<RestingState<S, T>>,
) -> Result<Vec<u32>, AllocError>
    ensures grows { OnOk result (Grows parts.old parts.new) }
    ensures row { IfOk result (λ row. IsHeldRow S.eq T.eq parts.new state row.items) }
{
    let Owning { flat, owned } = state;
    let RestingState { shared, threads } = flat;
    row_of(
        alloc,
        parts,
        RestingState {
            shared: Held { shared, owned },
            threads,
        },
    )
}

/// The rows of these next states, whose parts are put into the table.
pub(crate) fn held_rows<S: Eq + Hash + Drop, T: Eq + Hash + Drop>(
    alloc: Global,
    parts: &mut StateParts<Held<S>, T>,
    next: Vec<NextState<Owning<RestingState<S, T>>>>,
) -> Result<Vec<NextRow>, AllocError>
    ensures grows { OnOk result (Grows parts.old parts.new) }
    ensures rows { IfOk result (λ v. AreHeldRows S.eq T.eq parts.new next.items v.items) }
{
    let mut rows = Vec::new(alloc);
    for one in next {
        let row = held_row(alloc, parts, one.state)?;
        rows.push(NextRow {
            thread: one.thread,
            row,
        })?;
    }
    Ok(rows)
}

/// The state at a place, made of its parts.
pub(crate) fn state_at<M: Accesses>(
    alloc: Global,
    system: &M,
    table: &StateTable<M::Shared, M::Thread>,
    at: usize,
) -> Result<Option<Owning<RestingState<M::Shared, M::Thread>>>, AllocError>
    requires { AreStates table.now.states }
    ensures { IfOk result (IsStateAt (M.threads system.now) table.now at) }
{
    let Some(row) = table.states.row(at) else {
        return Ok(None);
    };
    let Some((number, numbers)) = row.split_first() else {
        return Ok(None);
    };
    let Some(held) = table.parts.shared.get_index(*number as usize) else {
        return Ok(None);
    };
    let shared = system.copied(alloc, &held.shared)?;
    let threads = threads_of(alloc, system, &table.parts, numbers)?;
    let owned = Vec::from_slice(alloc, held.owned.as_slice())?;
    let flat = RestingState { shared, threads };
    Ok(Some(Owning { flat, owned }))
}
