//! A thread that begins, and comes to rest.

ghost use Rattle.std.specs.Prelude.{◌≡◌, None, IfOk, IfSome};
ghost use Rattle.live_locals.specs.Live.{AreSound};
ghost use Rattle.search_parts.specs.Rests.{CanBegin, BeginsAndRests, BeginsAndRunsOn};

use crate::rest::{FUEL, rest};
use crate::walker::RestingThread;
use interp::Thread;
use live_locals::LiveTables;
use std::alloc::{AllocError, Global};
use types::Value;
use validate_module::ValidModule;

/// Where a thread first comes to rest that calls a function of the module itself, from 0 without the imported ones,
/// with these arguments; or nothing where it makes more turns of its own than there is patience for.
///
/// # Errors
/// Where memory is refused.
pub fn begin(
    alloc: Global,
    valid: &ValidModule,
    live: &LiveTables,
    own: usize,
    args: &[Value],
) -> Result<Option<RestingThread>, AllocError>
    requires sound { AreSound valid.now live.now }
    requires begins { CanBegin valid.now own args.now }
    ensures rests { IfOk result (λ o. IfSome o (BeginsAndRests valid.now own args.now)) }
    ensures gives_up { IfOk result (λ o. o ≡ None → BeginsAndRunsOn valid.now own args.now) }
{
    let thread = Thread::of_function(alloc, valid, own, args, FUEL)?;
    let Some(standing) = rest(alloc, live, thread)? else {
        return Ok(None);
    };
    Ok(Some(standing))
}
