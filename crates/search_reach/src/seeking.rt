//! Whether states have ended as is looked for.
ghost use Rattle.std.specs.Prelude.{IfOk};
ghost use Rattle.search_reach.specs.Meeting.{HasMetAt, OfStateAt, HasSound, OfStates};
ghost use Rattle.search_reach.specs.Sought.{SaysOf, SaysFrom};

use crate::{Meets, Seeks};
use std::alloc::{AllocError, Global};

/// Whether the state at this place has ended as is looked for.
fn is_sought_at<T: Meets, Q: Seeks<T::Ending>>(
    alloc: Global,
    system: &T,
    table: &T::Table,
    at: usize,
    sought: &Q,
) -> Result<bool, AllocError>
    requires { HasMetAt (T.system system.now) (T.holds system.now table.now) at }
    ensures { IfOk result (λ is. OfStateAt (T.system system.now) (T.holds system.now table.now) at
        (λ ks s. SaysOf (T.system system.now) (Q.sought sought.now) is s)) }
{
    let Some(ending) = system.ending(alloc, table, at)? else {
        return Ok(false);
    };
    sought.is_sought(alloc, &ending)
}

/// Whether one of the states from this place on has; it looks no further than the first.
pub(crate) fn has_sought<T: Meets, Q: Seeks<T::Ending>>(
    alloc: Global,
    system: &T,
    table: &T::Table,
    from: usize,
    sought: &Q,
) -> Result<bool, AllocError>
    requires { HasSound (T.system system.now) (T.holds system.now table.now) }
    ensures { IfOk result (λ is. OfStates (T.system system.now) (T.holds system.now table.now)
        (SaysFrom (T.system system.now) (Q.sought sought.now) from is)) }
{
    if !sought.seeks_any() {
        return Ok(false);
    }
    for at in from..system.count(table) {
        if is_sought_at(alloc, system, table, at, sought)? {
            return Ok(true);
        }
    }
    Ok(false)
}
