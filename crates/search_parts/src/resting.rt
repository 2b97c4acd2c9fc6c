//! Where a thread comes to rest after an event of another, or of its own.

ghost use Rattle.std.specs.Prelude.{◌≡◌, ◌<◌, None, IfOk, IfSome};
ghost use Rattle.types.specs.declared.limits.TheConstants.{MOST_THREADS};
ghost use Rattle.live_locals.specs.Live.{AreSound};
ghost use Rattle.search_parts.specs.RestsAfter.{
  CanStart,
  StartsAndRests,
  StartsAndRunsOn,
  CanBeTold,
  IsToldAndRests,
  IsToldAndRunsOn,
  IsSomewhereAfter,
  IsRepliedAndRests,
  IsRepliedAndRunsOn,
  RestsThen,
  IsLostThen,
};

use crate::beginning::begin;
use crate::event::{Begun, Effect};
use crate::taking::{hear, take};
use crate::walker::RestingThread;
use live_locals::LiveTables;
use std::alloc::{AllocError, Global};
use types::{Answer, Value};
use validate_module::ValidModule;

/// Where a thread that a spawn starts first comes to rest, or nothing where it makes more turns of its own than there
/// is patience for, or no function is known for it.
fn started(
    alloc: Global,
    valid: &ValidModule,
    live: &LiveTables,
    worker: Option<usize>,
    begun: Begun,
) -> Result<Option<RestingThread>, AllocError>
    requires sound { AreSound valid.now live.now }
    requires starts { CanStart valid.now worker }
    ensures rests { IfOk result (λ o. IfSome o (StartsAndRests valid.now worker begun)) }
    ensures gives_up { IfOk result (λ o. o ≡ None → StartsAndRunsOn valid.now worker begun) }
{
    let Some(own) = worker else {
        return Ok(None);
    };
    let args = [Value::I32(begun.id), Value::I32(begun.arg)];
    let Some(standing) = begin(alloc, valid, live, own, &args)? else {
        return Ok(None);
    };
    Ok(Some(standing))
}

/// Where a thread at rest comes to rest with the answer that it is given, if it is given one; or nothing where it makes
/// more turns of its own then than there is patience for.
fn told(
    alloc: Global,
    valid: &ValidModule,
    live: &LiveTables,
    standing: RestingThread,
    answer: Option<Answer>,
) -> Result<Option<RestingThread>, AllocError>
    requires sound { AreSound valid.now live.now }
    requires told { CanBeTold valid.now standing answer }
    ensures rests { IfOk result (λ o. IfSome o (IsToldAndRests valid.now standing answer)) }
    ensures gives_up { IfOk result (λ o. o ≡ None → IsToldAndRunsOn valid.now standing answer) }
{
    let Some(answer) = answer else {
        return Ok(Some(standing));
    };
    let Some(after) = hear(alloc, valid, live, &standing, answer)? else {
        return Ok(None);
    };
    Ok(Some(after))
}

/// An event of thread n, by what it made.
#[derive(Clone, Copy)]
pub struct MadeBy<'e> {
    pub made: &'e Effect,
    pub n: usize,
}

/// Where thread m comes to rest with the reply to an event, if it is its own; or nothing where it makes more turns of
/// its own then than there is patience for.
fn replied(
    alloc: Global,
    valid: &ValidModule,
    live: &LiveTables,
    worker: Option<usize>,
    event: &MadeBy,
    standing: &RestingThread,
    m: usize,
) -> Result<Option<RestingThread>, AllocError>
    requires sound { AreSound valid.now live.now }
    requires after { IsSomewhereAfter valid.now worker event.now.made.now event.now.n standing.now m }
    ensures rests { IfOk result (λ o. IfSome o (IsRepliedAndRests valid.now worker event.now.made.now event.now.n standing.now m)) }
    ensures gives_up { IfOk result (λ o. o ≡ None → IsRepliedAndRunsOn valid.now worker event.now.made.now event.now.n standing.now m) }
{
    let MadeBy { made, n } = *event;
    if n == m {
        let Some(taken) = take(alloc, valid, live, standing, made.reply)? else {
            return Ok(None);
        };
        return Ok(Some(taken));
    }
    Ok(Some(standing.copy(alloc)?))
}

/// Where thread m comes to rest after an event; or nothing where it makes more turns of its own then than there is
/// patience for, or where it begins and no function is known for that.
///
/// # Errors
/// Where memory is refused.
pub fn rest_after(
    alloc: Global,
    valid: &ValidModule,
    live: &LiveTables,
    worker: Option<usize>,
    event: &MadeBy,
    standing: &RestingThread,
    m: usize,
) -> Result<Option<RestingThread>, AllocError>
    requires sound { AreSound valid.now live.now }
    requires after { IsSomewhereAfter valid.now worker event.now.made.now event.now.n standing.now m }
    requires few { m < MOST_THREADS }
    ensures rests { IfOk result (λ o. IfSome o (RestsThen valid.now worker event.now.made.now event.now.n standing.now m)) }
    ensures gives_up { IfOk result (λ o. o ≡ None → IsLostThen valid.now worker event.now.made.now event.now.n standing.now m) }
{
    let made = event.made;
    if let Some(begun) = made.begun {
        if begun.id as usize == m {
            let Some(first) = started(alloc, valid, live, worker, begun)? else {
                return Ok(None);
            };
            return Ok(Some(first));
        }
    }
    let Some(own) = replied(alloc, valid, live, worker, event, standing, m)? else {
        return Ok(None);
    };
    let Some(after) = told(alloc, valid, live, own, made.due(m as u32))? else {
        return Ok(None);
    };
    Ok(Some(after))
}
