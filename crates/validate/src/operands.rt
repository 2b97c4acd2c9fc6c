//! The types of the operands of a function of a valid module.

ghost use Rattle.std.specs.Prelude.{IfOk};
ghost use Rattle.validate.specs.Operands.{OwnOperandsAt};

use crate::check::declared;
use std::alloc::{AllocError, Global};
use types::ValType;
use validate_module::{ValidModule, body, func_type};
use validate_module_rules::IndexSpaces;

/// The types of the operands of a function's frame before the instruction with this number, the topmost last; functions
/// of the module itself, from 0. `None` where there is no such instruction, and where the place can't be reached:
/// behind an instruction that never goes on any operands may lie (Core specification 1.0, section 3.3).
///
/// # Errors
/// Where memory is refused.
pub fn operand_types(
    alloc: Global,
    module: &ValidModule,
    own: usize,
    place: usize,
) -> Result<Option<Vec<ValType>>, AllocError>
    ensures { IfOk result (OwnOperandsAt («module».now).parts own place) }
{
    let parts = module.parts();
    if own >= parts.bodies.len() {
        return Ok(None);
    }
    let spaces = IndexSpaces::of(alloc, parts)?;
    validate_bodies::operand_types(
        alloc,
        &declared(parts, &spaces),
        func_type(parts, own),
        body(parts, own),
        place,
    )
}
