//! The functions of a module itself.

ghost use Rattle.std.specs.Prelude.{◌≡◌, ◌<◌, ◌≤◌, length, Some, IfOk};
ghost use Rattle.std.specs.List.{slice_get};
ghost use Rattle.types.specs.Nesting.{IsExpression};
ghost use Rattle.types.specs.Modules.{IsModule};
ghost use Rattle.validate_typing.specs.Validity.{IsValid};
ghost use Rattle.validate_module.specs.Own.{HasTypedFunctions, HasOwnType, FindsLocals};

use std::alloc::{AllocError, Global};
use types::{Body, FuncType, Parts, ValType};

/// The type of a function of the module itself, from 0.
#[tactic(auto, using(crate::proofs::OwnLaws::typed_at))]
pub fn func_type(parts: &Parts, own: usize) -> &FuncType
    requires typed { HasTypedFunctions parts.now }
    requires within { own < length parts.now.functions }
    ensures found { HasOwnType parts.now own result.now }
    ensures one_result { length result.now.results ≤ 1 }
{
    let index = parts.functions.as_slice()[own];
    &parts.types.as_slice()[index as usize]
}

/// The body of a function of the module itself, from 0.
#[tactic(auto, using(crate::proofs::OwnLaws::body_at))]
pub fn body(parts: &Parts, own: usize) -> &Body
    requires tested { IsModule parts.now }
    requires within { own < length parts.now.bodies }
    ensures body { slice_get parts.now.bodies own ≡ Some result.now }
    ensures expression { IsExpression result.now.code }
{
    &parts.bodies.as_slice()[own]
}

/// The types of the locals of a function of the module itself, from 0, the parameters first. `None` where there is no
/// such function.
pub fn local_types(
    alloc: Global,
    parts: &Parts,
    own: usize,
) -> Result<Option<Vec<ValType>>, AllocError>
    requires valid { IsValid parts.now }
    requires tested { IsModule parts.now }
    ensures { IfOk result (FindsLocals parts.now own) }
{
    if own >= parts.bodies.len() {
        return Ok(None);
    }
    let mut types = Vec::from_slice(alloc, func_type(parts, own).params.as_slice())?;
    types.extend_from_slice(body(parts, own).locals.as_slice())?;
    Ok(Some(types))
}
