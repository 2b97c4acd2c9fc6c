//! The seats of a memory that opens.
ghost use Rattle.std.specs.Prelude.{◌≡◌, ◌<◌, ◌≤◌, ◌∷◌, [], IfOk, map, vec_capacity};
ghost use Rattle.types.specs.declared.limits.TheConstants.{DESK_NAME, SEATS};
ghost use Rattle.shared_memory_on_table.specs.Callers.{fresh, fresh_from};
ghost use Rattle.shared_memory_on_table.specs.Moves.{others_of};
ghost use Rattle.shared_memory_on_table.specs.Rule.{IsGathered, opened};

use crate::naming::Naming;
use crate::rule::{History, Row};
use crate::seat::{CallerSeat, StandingCaller};
use crate::view::{FirstOff, TableSeat};
use std::alloc::{AllocError, Global};
use std::marker::PhantomData;
use types::SEATS;

// The next caller gets a seat of its own.
fn take_seat<B: Naming, K, H: History<K>>(
    row: &Row<K, H>,
    all: &mut TableSeat,
    name: u32,
) -> CallerSeat<B>
    requires row { (row.now.table_id ≡ B.table) × (0 < row.now.table_id.words) }
    requires name { name ≤ DESK_NAME }
    requires here { all.old.table_id ≡ B.table }
    requires all { IsGathered H.has_keeper (fresh name ∷ others_of all.old.me.0.callers) all.old }
    ensures seat { result.caller ≡ fresh name }
    ensures here { all.new.table_id ≡ B.table }
    ensures all { IsGathered H.has_keeper (others_of all.old.me.0.callers) all.new }
{
    let place = row.split_seat::<FirstOff>(all);
    CallerSeat {
        caller: StandingCaller {
            name,
            place,
            of: PhantomData,
        },
    }
}

/// The 65 seats of a memory, in order of name: 0 to 63 for threads, and 64 for the desk. The first seat, on which all
/// callers stood, has none then.
///
/// # Errors
/// Where the room for them can't be had.
pub fn take_seats<B: Naming, K, H: History<K>>(
    alloc: Global,
    row: &Row<K, H>,
    all: &mut TableSeat,
) -> Result<Vec<CallerSeat<B>>, AllocError>
    requires row { (row.now.table_id ≡ B.table) × (0 < row.now.table_id.words) }
    requires all { (all.old.table_id ≡ B.table) × (all.old.me ≡ (opened H.has_keeper, [])) }
    ensures seats { IfOk result (λ v. map (λ s. s.caller) v.items ≡ fresh_from SEATS 0) }
    ensures room { IfOk result (λ v. vec_capacity v ≡ SEATS) }
    ensures all { IfOk result (λ _. (all.new.table_id ≡ B.table) × IsGathered H.has_keeper [] all.new) }
{
    let mut seats = Vec::with_capacity(alloc, SEATS as usize)?;
    for name in 0..SEATS {
        seats.push_reserved(take_seat::<B, K, H>(row, all, name));
    }
    Ok(seats)
}
