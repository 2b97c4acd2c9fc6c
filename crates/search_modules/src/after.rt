//! Where the threads of a call come to rest after an event.

ghost use Rattle.std.specs.Prelude.{◌≡◌, ◌<◌, None, IfOk, IfSome};
ghost use Rattle.types.specs.declared.limits.TheConstants.{MOST_THREADS};
ghost use Rattle.search_settled.specs.Flat.{IsBeforeSome, ComesAfter, IsStuckBy, StartsSomewhere, BeginsAfter};
ghost use Rattle.search_settled.specs.Flat.{IsStuckByStart};
ghost use Rattle.search_modules.specs.Moved.{threads, IsAfterSome, ThreadRestsThen, IsStuckThen, IsStuck};

use crate::called::Searched;
use search_parts::{Effect, MadeBy, RestingThread, SharedWalker, is_untouched, rest_after};
use std::alloc::{AllocError, Global};

/// Where thread m comes to rest that stood so before an event of thread n, or nothing where that can't be told.
///
/// # Errors
/// Where memory is refused.
fn rested(
    alloc: Global,
    searched: &Searched,
    made: &Effect,
    n: usize,
    standing: &RestingThread,
    m: usize,
) -> Result<Option<SharedWalker>, AllocError>
    requires after { IsAfterSome searched.now made.now n standing.now m }
    requires few { m < MOST_THREADS }
    ensures rests { IfOk result (λ o. IfSome o (ThreadRestsThen searched.now made.now n standing.now m)) }
    ensures gives_up { IfOk result (λ o. o ≡ None → IsStuckThen searched.now made.now n standing.now m) }
{
    let event = MadeBy { made, n };
    let (valid, live, worker) = (searched.valid, &searched.live, searched.worker);
    let Some(rest) = rest_after(alloc, valid, live, worker, &event, standing, m)? else {
        return Ok(None);
    };
    let walker = SharedWalker::new(alloc, rest)?;
    Ok(Some(walker))
}

/// Where thread m comes to rest after an event of thread n, or nothing where that can't be told.
///
/// # Errors
/// Where memory is refused.
pub(crate) fn thread_after(
    alloc: Global,
    searched: &Searched,
    made: &Effect,
    n: usize,
    thread: &SharedWalker,
    m: usize,
) -> Result<Option<SharedWalker>, AllocError>
    requires somewhere { IsBeforeSome (threads searched.now) made.now n thread.now m }
    requires few { m < MOST_THREADS }
    ensures rests { IfOk result (λ o. IfSome o (ComesAfter (threads searched.now) made.now n thread.now m)) }
    ensures gives_up { IfOk result (λ o. o ≡ None
        → IsStuckBy (threads searched.now) (IsStuck searched.now) made.now n thread.now m) }
{
    if is_untouched(made, n, m) {
        let same = thread.share()?;
        return Ok(Some(same));
    }
    let walker = thread.walker();
    let Some(after) = rested(alloc, searched, made, n, &walker.standing, m)? else {
        return Ok(None);
    };
    Ok(Some(after))
}

/// Where thread m first comes to rest, which an event of thread n starts, or nothing where that can't be told.
///
/// # Errors
/// Where memory is refused.
pub(crate) fn begun_after(
    alloc: Global,
    searched: &Searched,
    made: &Effect,
    n: usize,
    m: usize,
) -> Result<Option<SharedWalker>, AllocError>
    requires somewhere { StartsSomewhere (threads searched.now) made.now n m }
    requires few { m < MOST_THREADS }
    ensures rests { IfOk result (λ o. IfSome o (BeginsAfter (threads searched.now) made.now n m)) }
    ensures gives_up { IfOk result (λ o. o ≡ None
        → IsStuckByStart (threads searched.now) (IsStuck searched.now) made.now n m) }
{
    let Some(new) = rested(alloc, searched, made, n, &RestingThread::Missing, m)? else {
        return Ok(None);
    };
    Ok(Some(new))
}
