//! Where the threads of a call come to rest in the beginning.

ghost use Rattle.std.specs.Prelude.{◌≡◌, None, IfOk, IfSome};
ghost use Rattle.search_settled.specs.Next.{IsBeginning};
ghost use Rattle.search_modules.specs.Moved.{threads, IsStuck};

use crate::called::Searched;
use search_parts::{Common, SharedWalker, begin, first_common, first_threads};
use search_settled::RestingState;
use std::alloc::{AllocError, Global};

/// Where all threads come to rest in the beginning, or nothing where that can't be told, since thread 0 has spent its
/// units before.
///
/// # Errors
/// Where memory is refused.
pub(crate) fn first_flat(
    alloc: Global,
    searched: &Searched,
) -> Result<Option<RestingState<Common, SharedWalker>>, AllocError>
    ensures first { IfOk result (λ o. IfSome o (IsBeginning (threads searched.now))) }
    ensures gives_up { IfOk result (λ o. o ≡ None → IsStuck searched.now (threads searched.now).first) }
{
    let Some(main) = begin(
        alloc,
        searched.valid,
        &searched.live,
        searched.main,
        searched.args.as_slice(),
    )?
    else {
        return Ok(None);
    };
    let shared = first_common(alloc, searched.opening.as_slice(), searched.max)?;
    let threads = first_threads(alloc, main)?;
    Ok(Some(RestingState { shared, threads }))
}
