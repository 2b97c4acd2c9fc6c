//! Instructions that neither begin, divide nor end a block.

ghost use Rattle.std.specs.Prelude.{◌≡◌, []};
ghost use Rattle.validate_instructions.specs.Blocks.{ChecksAt};

use crate::block::OpenBlock;
use crate::branches::{check_br, check_br_if, check_br_table, check_return, check_unreachable};
use crate::calls::{check_call, check_call_indirect};
use crate::memory::{check_atomic, check_load, check_memory_grow, check_memory_size, check_store};
use crate::numeric::{check_i32_const, check_i64_const, check_numeric};
use crate::parametric::{check_drop, check_fence, check_nop, check_select};
use crate::problem::Problem;
use crate::scope::Scope;
use crate::variables::{
    check_global_get, check_global_set, check_local_get, check_local_set, check_local_tee,
};
use types::PlainInstr;
use validate_typing::Target;

/// An instruction in the innermost block, and its targets.
pub fn check_plain(
    scope: &Scope,
    block: &mut OpenBlock,
    outer: &[OpenBlock],
    instr: &PlainInstr,
    row: &mut Vec<Target>,
) -> Result<(), Problem>
    requires { row.old.items ≡ [] }
    ensures { ChecksAt scope.now outer.now instr.now block.old block.new row.new.items result }
{
    match instr {
        PlainInstr::Unreachable => check_unreachable(block),
        PlainInstr::Nop => check_nop(block),
        PlainInstr::Br(index) => check_br(scope, block, outer, *index, row),
        PlainInstr::BrIf(index) => check_br_if(scope, block, outer, *index, row),
        PlainInstr::BrTable(default, indices) => check_br_table(
            scope, block, outer, indices, *default, row,
        ),
        PlainInstr::Return => check_return(scope, block),
        PlainInstr::Call(index) => check_call(scope, block, *index),
        PlainInstr::CallIndirect(index) => check_call_indirect(scope, block, *index),
        PlainInstr::Drop => check_drop(block),
        PlainInstr::Select => check_select(block),
        PlainInstr::LocalGet(index) => check_local_get(scope, block, *index),
        PlainInstr::LocalSet(index) => check_local_set(scope, block, *index),
        PlainInstr::LocalTee(index) => check_local_tee(scope, block, *index),
        PlainInstr::GlobalGet(index) => check_global_get(scope, block, *index),
        PlainInstr::GlobalSet(index) => check_global_set(scope, block, *index),
        PlainInstr::I32Const(number) => check_i32_const(block, *number),
        PlainInstr::I64Const(number) => check_i64_const(block, *number),
        PlainInstr::Numeric(numeric) => check_numeric(block, *numeric),
        PlainInstr::Load(op, arg) => check_load(scope, block, *op, *arg),
        PlainInstr::Store(width, arg) => check_store(scope, block, *width, *arg),
        PlainInstr::MemorySize => check_memory_size(scope, block),
        PlainInstr::MemoryGrow => check_memory_grow(scope, block),
        PlainInstr::Atomic(op, arg) => check_atomic(scope, block, *op, *arg),
        PlainInstr::Fence => check_fence(block),
    }
}
