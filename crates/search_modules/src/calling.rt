//! What is searched by a call of an exported function.

ghost use Rattle.std.specs.Prelude.{◌≡◌, IfOk};
ghost use Rattle.validate_typing.specs.Validity.{HasDistinctNames};
ghost use Rattle.search_modules.specs.Returned.{IsCall};
ghost use Rattle.search_modules.specs.Endings.{IsWorkerOf};
ghost use Rattle.search_modules.specs.Moved.{called};

use crate::called::Searched;
use allowed_races::Allowed;
use live_locals::live_tables;
use spawn_host::{Request, thread_start};
use std::alloc::{AllocError, Global};
use types::Value;
use validate_module::ValidModule;

/// The number of the function that spawned threads call, where the module can start some.
fn worker_of(valid: &ValidModule) -> Option<usize>
    ensures { IsWorkerOf valid.now.parts result }
{
    if !valid.starts_threads() {
        return None;
    }
    Some(thread_start(valid))
}

/// What is searched: the call that is requested, where so much may race, and of which so many first bytes are looked at
/// in the end.
///
/// # Errors
/// Where memory is refused.
pub(crate) fn searched<'m>(
    alloc: Global,
    request: &Request<'m, '_>,
    allowed: &Allowed<'m>,
    dump: usize,
) -> Result<Searched<'m>, AllocError>
    ensures call { IfOk result (λ s. IsCall request.now.parts request.now.name request.now.args (called s)) }
    ensures worker { IfOk result (λ s. IsWorkerOf request.now.parts s.worker) }
    ensures dump { IfOk result (λ s. s.dump ≡ dump) }
    ensures allowed { IfOk result (λ s. s.allowed ≡ allowed.now) }
    ensures names { IfOk result (λ _. HasDistinctNames request.now.parts.exports) }
{
    let valid = request.module();
    let _parts = valid.parts();
    let live = live_tables(alloc, valid)?;
    let opening = valid.image(alloc)?;
    let args = Vec::from_slice(alloc, request.call().args)?;
    Ok(Searched {
        valid,
        live,
        opening,
        max: valid.pages_max(),
        main: request.number(),
        args,
        worker: worker_of(valid),
        dump,
        allowed: *allowed,
    })
}
