//! The seats of a row.
ghost use Rattle.std.specs.Prelude.{◌≡◌, ◌<◌, ◌≤◌, false, [], IfOk, map, vec_capacity};
ghost use Rattle.types.specs.declared.limits.TheConstants.{DESK_NAME, MOST_PAGES, SEATS};
ghost use Rattle.shared_memory_on_table.specs.Callers.{fresh_from};
ghost use Rattle.shared_memory_on_table.specs.Rule.{opened};
ghost use Rattle.word_row.specs.Rows.{HasPages};

use crate::{MemoryWords, Row};
use shared_memory_on_table::{Naming, StandingCaller, TableSeat};
use shared_memory_sequential::OneMemory;
use std::alloc::{AllocError, Global};

/// A caller's place at a row. It is made with the row, and never twice.
#[derive(Drop)]
pub struct WordSeat<B: Naming> {
    /// Who stands there, and what it has seen.
    pub caller: StandingCaller<B>,
    /// The greatest page count that the caller has loaded; 0 before it has loaded one. An access that lies within so
    /// many pages needs no load of the page count: the count never falls, so the access lies within the memory at
    /// every later point, also where its word is reached. Nothing but such an access goes by it.
    pub(crate) pages: u64,
    pub ghost known: { caller.name ≤ DESK_NAME },
    pub ghost few: { pages ≤ MOST_PAGES },
    pub ghost counted: { HasPages B.opening caller.seen pages },
}

/// The 65 seats of a row, in order of name, which have loaded no page count.
///
/// # Errors
/// Where the room for them can't be had.
pub(crate) fn take_seats<B: Naming>(
    alloc: Global,
    row: &Row,
    all: &mut TableSeat,
) -> Result<Vec<WordSeat<B>>, AllocError>
    requires row { (row.now.table_id ≡ B.table) × (0 < row.now.table_id.words) }
    requires all { (all.old.table_id ≡ B.table) × (all.old.me ≡ (opened false, [])) }
    ensures seats { IfOk result (λ v. map (λ s. s.caller) v.items ≡ fresh_from SEATS 0) }
    ensures room { IfOk result (λ v. vec_capacity v ≡ SEATS) }
{
    let given = shared_memory_on_table::take_seats::<B, OneMemory, MemoryWords>(alloc, row, all)?;
    let mut seats = Vec::with_capacity(alloc, given.len())?;
    for seat in given {
        seats.push_reserved(WordSeat {
            caller: seat.caller,
            pages: 0,
        });
    }
    Ok(seats)
}
