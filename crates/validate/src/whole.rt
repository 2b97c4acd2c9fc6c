//! The calls that validate a module.

ghost use Rattle.std.specs.Prelude.{◌≡◌, IfOk, IfErr, IsOkUnless};
ghost use Rattle.validate_typing.specs.Tabled.{IsValidated};
ghost use Rattle.validate_typing.specs.Validity.{IsValid};
ghost use Rattle.validate.specs.Refusals.{IsRefused, IsMemoryAlone, RefusesOutside};

use crate::alone::check_alone;
use crate::check::check_parts;
use std::alloc::Global;
use types::Module;
use validate_module::ValidModule;
use validate_typing::ValidFault;

/// Validates a module.
///
/// # Errors
/// `ValidFault::OutOfMemory` where memory is refused. Otherwise the first fault: of the rules outside bodies in the
/// order types, imports, types of functions, tables, memories, globals, exports, start, element segments, data segments
/// and the entry of threads, then of the bodies in order. A fault in a body has its place: no typed body begins with
/// the instructions up to there. A valid module is refused only where memory is.
pub fn validate(alloc: Global, module: Module) -> Result<ValidModule, ValidFault>
    ensures valid { IfOk result (λ v. (v.parts ≡ «module») × IsValidated v) }
    ensures refused { IfErr result (IsRefused «module») }
    ensures complete { IsValid «module» → IsOkUnless result ValidFault.OutOfMemory }
    ensures memory { IfErr result IsMemoryAlone }
    ensures outside { RefusesOutside «module» result }
{
    match check_parts(alloc, module.parts()) {
        Ok(findings) => Ok(ValidModule::new(alloc, module, findings)?),
        Err(fault) => Err(fault),
    }
}

/// Checks whether a module is valid, as `validate` does, but makes none of what a run of it wants. It has memory for
/// the table of one body at a time.
///
/// # Errors
/// Those of `validate`.
pub fn check_module(alloc: Global, module: &Module) -> Result<(), ValidFault>
    ensures valid { IfOk result (λ _. IsValid «module».now) }
    ensures refused { IfErr result (IsRefused «module».now) }
    ensures complete { IsValid «module».now → IsOkUnless result ValidFault.OutOfMemory }
    ensures memory { IfErr result IsMemoryAlone }
    ensures outside { RefusesOutside «module».now result }
{
    check_alone(alloc, module.parts())
}
