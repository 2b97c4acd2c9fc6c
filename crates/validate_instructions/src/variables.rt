//! Locals and globals (Core specification 1.0, section 3.3.3).

ghost use Rattle.types.specs.declared.instr.PlainInstr.TheVariants as plain;
ghost use Rattle.validate_instructions.specs.Blocks.{ChecksInside};
ghost use Rattle.validate_instructions.specs.Scope.{context_of};

use crate::block::OpenBlock;
use crate::operands::replace;
use crate::problem::Problem;
use crate::scope::Scope;
use validate_typing::Fault;

/// `local.get`
pub fn check_local_get(scope: &Scope, block: &mut OpenBlock, index: u32) -> Result<(), Problem>
    ensures { ChecksInside (context_of scope.now) (plain.LocalGet index) block.old block.new result }
{
    let local = scope.local(index)?;
    replace(block, &[], Some(local))
}

/// `local.set`
pub fn check_local_set(scope: &Scope, block: &mut OpenBlock, index: u32) -> Result<(), Problem>
    ensures { ChecksInside (context_of scope.now) (plain.LocalSet index) block.old block.new result }
{
    let local = scope.local(index)?;
    replace(block, &[local], None)
}

/// `local.tee`
pub fn check_local_tee(scope: &Scope, block: &mut OpenBlock, index: u32) -> Result<(), Problem>
    ensures { ChecksInside (context_of scope.now) (plain.LocalTee index) block.old block.new result }
{
    let local = scope.local(index)?;
    replace(block, &[local], Some(local))
}

/// `global.get`
pub fn check_global_get(scope: &Scope, block: &mut OpenBlock, index: u32) -> Result<(), Problem>
    ensures { ChecksInside (context_of scope.now) (plain.GlobalGet index) block.old block.new result }
{
    let global = scope.global(index)?;
    replace(block, &[], Some(global.val_type))
}

/// `global.set`, of a global that isn't constant.
pub fn check_global_set(scope: &Scope, block: &mut OpenBlock, index: u32) -> Result<(), Problem>
    ensures { ChecksInside (context_of scope.now) (plain.GlobalSet index) block.old block.new result }
{
    let global = scope.global(index)?;
    if !global.mutable {
        return Err(Problem::Wrong(Fault::ConstantGlobal));
    }
    replace(block, &[global.val_type], None)
}
