//! Whether a module is valid, with no table kept.

ghost use Rattle.std.specs.Prelude.{IfOk, IfErr, MatchResult};
ghost use Rattle.types.specs.Modules.{IsModule};
ghost use Rattle.validate_typing.specs.Validity.{IsValid};
ghost use Rattle.validate_module_rules.specs.Spaces.{IsSpacesOf};
ghost use Rattle.validate_module_rules.specs.Exported.{HasValidBodies};
ghost use Rattle.validate.specs.Refusals.{RefusedBodies, IsRefused, RefusesOutside};
ghost use Rattle.validate_module.specs.Own.{HasTypedFunctions};

use crate::check::table_of;
use std::alloc::Global;
use types::Parts;
use validate_module_rules::{IndexSpaces, fault_outside_bodies};
use validate_typing::ValidFault;

/// Checks all bodies, in order.
fn check_bodies(alloc: Global, parts: &Parts, spaces: &IndexSpaces) -> Result<(), ValidFault>
    requires spaces { IsSpacesOf parts.now spaces.now }
    requires tested { IsModule parts.now }
    requires typed { HasTypedFunctions parts.now }
    ensures { MatchResult result (λ _. HasValidBodies parts.now) (RefusedBodies parts.now) }
{
    for own in 0..parts.bodies.len() {
        table_of(alloc, parts, spaces, own)?;
    }
    Ok(())
}

/// Checks a module: first what lies outside bodies, then the bodies in order.
pub fn check_alone(alloc: Global, parts: &Parts) -> Result<(), ValidFault>
    requires { IsModule parts.now }
    ensures valid { IfOk result (λ _. IsValid parts.now) }
    ensures refused { IfErr result (IsRefused parts.now) }
    ensures outside { RefusesOutside parts.now result }
{
    let spaces = IndexSpaces::of(alloc, parts)?;
    if let Some(fault) = fault_outside_bodies(parts, &spaces) {
        return Err(ValidFault::Outside(fault));
    }
    check_bodies(alloc, parts, &spaces)?;
    Ok(())
}
