//! A thread takes a reply, or hears an answer, and comes to rest.

ghost use Rattle.std.specs.Prelude.{◌≡◌, None, IfOk, IfSome};
ghost use Rattle.interp_machine.specs.Config.{Config};
ghost use Rattle.live_locals.specs.Live.{AreSound};
ghost use Rattle.schedule_machine.specs.Threads.{IsMadeReply};
ghost use Rattle.search_parts.specs.Walkers.{MayBeGiven};
ghost use Rattle.search_parts.specs.Rests.{
  IsGivenAndRests,
  IsGivenAndRunsOn,
  WantsSomeEvent,
  TakesAndRests,
  TakesAndRunsOn,
  CanHear,
  HearsAndRests,
  HearsAndRunsOn,
};

use crate::rest::{FUEL, rest};
use crate::walker::RestingThread;
use interp::{Kept, Thread};
use interp_trait::{Given, TakesTurns, Turn};
use live_locals::LiveTables;
use std::alloc::{AllocError, Global};
use types::{Answer, Reply};
use validate_module::ValidModule;

/// Where a thread that runs comes to rest after it was given something, or nothing where it makes more turns of its
/// own then than there is patience for.
fn after_given(
    alloc: Global,
    valid: &ValidModule,
    live: &LiveTables,
    kept: &Kept,
    given: Given,
) -> Result<Option<RestingThread>, AllocError>
    requires sound { AreSound valid.now live.now }
    requires given { (c : Config) × MayBeGiven valid.now kept.now FUEL given c }
    ensures rests { IfOk result (λ o. IfSome o (IsGivenAndRests valid.now kept.now FUEL given)) }
    ensures gives_up { IfOk result (λ o. o ≡ None → IsGivenAndRunsOn valid.now kept.now FUEL given) }
{
    let mut thread = Thread::resume(alloc, valid, kept, FUEL)?;
    if let Turn::Ended(outcome) = thread.turn(given) {
        return Ok(Some(RestingThread::Ended(outcome)));
    }
    let Some(standing) = rest(alloc, live, thread)? else {
        return Ok(None);
    };
    Ok(Some(standing))
}

/// Where a thread comes to rest after the reply to the event that it wants, which was made; or nothing where it makes
/// more turns of its own then than there is patience for.
///
/// # Errors
/// Where memory is refused.
pub(crate) fn take(
    alloc: Global,
    valid: &ValidModule,
    live: &LiveTables,
    standing: &RestingThread,
    reply: Reply,
) -> Result<Option<RestingThread>, AllocError>
    requires sound { AreSound valid.now live.now }
    requires made { IsMadeReply reply }
    requires wants { WantsSomeEvent valid.now standing.now }
    ensures rests { IfOk result (λ o. IfSome o (TakesAndRests valid.now standing.now reply)) }
    ensures gives_up { IfOk result (λ o. o ≡ None → TakesAndRunsOn valid.now standing.now reply) }
{
    match standing {
        RestingThread::Going(kept, _) => {
            let Some(after) = after_given(alloc, valid, live, kept, Given::Reply(reply))? else {
                return Ok(None);
            };
            Ok(Some(after))
        }
        RestingThread::Ended(outcome) => Ok(Some(RestingThread::Leaving(*outcome))),
        _ => Ok(None),
    }
}

/// Where a thread comes to rest after the answer to its question; or nothing where it makes more turns of its own then
/// than there is patience for.
///
/// # Errors
/// Where memory is refused.
pub(crate) fn hear(
    alloc: Global,
    valid: &ValidModule,
    live: &LiveTables,
    standing: &RestingThread,
    answer: Answer,
) -> Result<Option<RestingThread>, AllocError>
    requires sound { AreSound valid.now live.now }
    requires awaits { CanHear valid.now standing.now }
    ensures rests { IfOk result (λ o. IfSome o (HearsAndRests valid.now standing.now answer)) }
    ensures gives_up { IfOk result (λ o. o ≡ None → HearsAndRunsOn valid.now standing.now answer) }
{
    match standing {
        RestingThread::Going(kept, _) => {
            let Some(after) = after_given(alloc, valid, live, kept, Given::Told(answer))? else {
                return Ok(None);
            };
            Ok(Some(after))
        }
        RestingThread::Leaving(outcome) => Ok(Some(RestingThread::Away(*outcome))),
        _ => Ok(None),
    }
}
