//! Numeric instructions (Core specification 1.0, section 3.3.1).

ghost use Rattle.std.specs.Prelude.{[], ◌∷◌};
ghost use Rattle.validate_typing.specs.Typing.{numeric_takes, numeric_gives};
ghost use Rattle.types.specs.declared.instr.PlainInstr.TheVariants as plain;
ghost use Rattle.validate_instructions.specs.Blocks.{Moving, ChecksAnywhere};

use crate::block::OpenBlock;
use crate::operands::replace;
use crate::problem::Problem;
use types::{ConvertOp, NumericInstr, ValType};

/// The operands of a numeric instruction and its result.
fn replace_numbers(block: &mut OpenBlock, instr: NumericInstr) -> Result<(), Problem>
    ensures { Moving (numeric_takes instr) (numeric_gives instr ∷ []) block.old block.new result }
{
    match instr {
        NumericInstr::Unary(t, _) => replace(block, &[t], Some(t)),
        NumericInstr::Binary(t, _) => replace(block, &[t, t], Some(t)),
        NumericInstr::Test(t) => replace(block, &[t], Some(ValType::I32)),
        NumericInstr::Compare(t, _) => replace(block, &[t, t], Some(ValType::I32)),
        NumericInstr::Convert(ConvertOp::WrapI64) => replace(
            block,
            &[ValType::I64],
            Some(ValType::I32),
        ),
        NumericInstr::Convert(ConvertOp::ExtendI32S | ConvertOp::ExtendI32U) => replace(
            block,
            &[ValType::I32],
            Some(ValType::I64),
        ),
        NumericInstr::Convert(ConvertOp::SignExtend(width)) => replace(
            block,
            &[width.val_type()],
            Some(width.val_type()),
        ),
    }
}

/// The result of a constant.
fn put_constant(block: &mut OpenBlock, val_type: ValType) -> Result<(), Problem>
    ensures { Moving [] (val_type ∷ []) block.old block.new result }
{
    replace(block, &[], Some(val_type))
}

/// `i32.const`
pub fn check_i32_const(block: &mut OpenBlock, number: u32) -> Result<(), Problem>
    ensures { ChecksAnywhere (plain.I32Const number) block.old block.new result }
{
    put_constant(block, ValType::I32)
}

/// `i64.const`
pub fn check_i64_const(block: &mut OpenBlock, number: u64) -> Result<(), Problem>
    ensures { ChecksAnywhere (plain.I64Const number) block.old block.new result }
{
    put_constant(block, ValType::I64)
}

/// Any other numeric instruction.
pub fn check_numeric(block: &mut OpenBlock, instr: NumericInstr) -> Result<(), Problem>
    ensures { ChecksAnywhere (plain.Numeric instr) block.old block.new result }
{
    replace_numbers(block, instr)
}
