//! Instructions that touch no operand, `drop` and `select` (Core specification 1.0, sections 3.3.2 and 3.3.5.1).

ghost use Rattle.types.specs.declared.instr.PlainInstr.TheVariants as plain;
ghost use Rattle.validate_instructions.specs.Blocks.{ChecksAnywhere, ChecksOutright, ChecksAlways};

use crate::block::OpenBlock;
use crate::operands::{put_any, put_one, take_any, take_one};
use crate::problem::Problem;
use types::ValType;

/// `nop`
pub fn check_nop(block: &mut OpenBlock) -> Result<(), Problem>
    ensures { ChecksAlways plain.Nop block.old block.new result }
{
    Ok(())
}

/// `atomic.fence`
pub fn check_fence(block: &mut OpenBlock) -> Result<(), Problem>
    ensures { ChecksAlways plain.Fence block.old block.new result }
{
    Ok(())
}

/// `drop`
pub fn check_drop(block: &mut OpenBlock) -> Result<(), Problem>
    ensures { ChecksOutright plain.Drop block.old block.new result }
{
    take_any(block)?;
    Ok(())
}

/// `select`: of two operands of one type.
pub fn check_select(block: &mut OpenBlock) -> Result<(), Problem>
    ensures { ChecksAnywhere plain.Select block.old block.new result }
{
    take_one(block, ValType::I32)?;
    let first = take_any(block)?;
    match first {
        Some(val_type) => {
            take_one(block, val_type)?;
            put_one(block, val_type)
        }
        None => {
            let second = take_any(block)?;
            put_any(block, second)
        }
    }
}
