//! Calls (Core specification 1.0, section 3.3.5).

ghost use Rattle.std.specs.Prelude.{reverse};
ghost use Rattle.types.specs.declared.instr.PlainInstr.TheVariants.{Call, CallIndirect};
ghost use Rattle.validate_instructions.specs.Blocks.{Moving, ChecksInside};
ghost use Rattle.validate_instructions.specs.Scope.{context_of};

use crate::block::OpenBlock;
use crate::operands::{put_all, take_one, take_params};
use crate::problem::Problem;
use crate::scope::Scope;
use types::{FuncType, ValType};

/// The arguments of a function and its results.
fn replace_arguments(block: &mut OpenBlock, func_type: &FuncType) -> Result<(), Problem>
    ensures { Moving (reverse func_type.now.params) func_type.now.results block.old block.new result }
{
    take_params(block, func_type.params.as_slice())?;
    put_all(block, func_type.results.as_slice())
}

/// `call`
pub fn check_call(scope: &Scope, block: &mut OpenBlock, index: u32) -> Result<(), Problem>
    ensures { ChecksInside (context_of scope.now) (Call index) block.old block.new result }
{
    let type_index = scope.function(index)?;
    let func_type = scope.func_type(type_index)?;
    replace_arguments(block, func_type)
}

/// `call_indirect`, whose topmost operand is the place in the table.
pub fn check_call_indirect(scope: &Scope, block: &mut OpenBlock, index: u32) -> Result<(), Problem>
    ensures { ChecksInside (context_of scope.now) (CallIndirect index) block.old block.new result }
{
    scope.need_table()?;
    let func_type = scope.func_type(index)?;
    take_one(block, ValType::I32)?;
    replace_arguments(block, func_type)
}
