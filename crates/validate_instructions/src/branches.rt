//! Instructions that never go on, and branches (Core specification 1.0, section 3.3.5).

ghost use Rattle.std.specs.Prelude.{◌≡◌, ◌↔◌, [], IsTrue, OnOk, IfErr};
ghost use Rattle.std.specs.List.{slice_get};
ghost use Rattle.types.specs.declared.instr.PlainInstr.TheVariants as plain;
ghost use Rattle.validate_typing.specs.Placed.{IsRow};
ghost use Rattle.validate_instructions.specs.Blocks.{as_label, labels_at, CarryAlike, DifferFrom, NeedsLabels};
ghost use Rattle.validate_instructions.specs.Blocks.{ChecksAt, ChecksOutrightInside, ChecksAlways};
ghost use Rattle.validate_typing.specs.declared.fault.Fault.TheVariants.{UnknownLabel};
ghost use Rattle.validate_instructions.specs.Scope.{context_of, GetsAs};

use crate::block::{BlockLabel, Flow, OpenBlock};
use crate::operands::{put_result, take_one, take_result};
use crate::problem::Problem;
use crate::scope::Scope;
use types::{Labels, ValType};
use validate_typing::{Fault, Target};

/// The label with this index: of the innermost block, or of one around it.
fn find_label(block: &OpenBlock, outer: &[OpenBlock], index: u32) -> Result<BlockLabel, Problem>
    ensures { GetsAs (slice_get (labels_at block.now outer.now) index) UnknownLabel result as_label }
{
    let index = index as usize;
    if index == 0 {
        Ok(block.shape.label)
    } else if index <= outer.len() {
        Ok(outer[outer.len() - index].shape.label)
    } else {
        Err(Problem::Wrong(Fault::UnknownLabel))
    }
}

/// The rest of the block doesn't run.
fn stop(block: &mut OpenBlock)
    ensures shape { block.new.shape ≡ block.old.shape }
    ensures flow { block.new.flow ≡ Flow.Free }
    ensures bare { block.new.operands.items ≡ [] }
{
    block.operands.clear();
    block.flow = Flow::Free;
}

/// `unreachable`
pub fn check_unreachable(block: &mut OpenBlock) -> Result<(), Problem>
    ensures { ChecksAlways plain.Unreachable block.old block.new result }
{
    stop(block);
    Ok(())
}

/// `return`
pub fn check_return(scope: &Scope, block: &mut OpenBlock) -> Result<(), Problem>
    ensures { ChecksOutrightInside (context_of scope.now) plain.Return block.old block.new result }
{
    take_result(block, scope.result)?;
    stop(block);
    Ok(())
}

/// `br`
pub fn check_br(
    scope: &Scope,
    block: &mut OpenBlock,
    outer: &[OpenBlock],
    index: u32,
    row: &mut Vec<Target>,
) -> Result<(), Problem>
    requires { row.old.items ≡ [] }
    ensures { ChecksAt scope.now outer.now (plain.Br index) block.old block.new row.new.items result }
{
    let label = find_label(block, outer, index)?;
    take_result(block, label.carries)?;
    stop(block);
    row.push(label.target())?;
    Ok(())
}

/// `br_if`
pub fn check_br_if(
    scope: &Scope,
    block: &mut OpenBlock,
    outer: &[OpenBlock],
    index: u32,
    row: &mut Vec<Target>,
) -> Result<(), Problem>
    requires { row.old.items ≡ [] }
    ensures { ChecksAt scope.now outer.now (plain.BrIf index) block.old block.new row.new.items result }
{
    let label = find_label(block, outer, index)?;
    take_one(block, ValType::I32)?;
    take_result(block, label.carries)?;
    put_result(block, label.carries)?;
    row.push(label.target())?;
    Ok(())
}

/// Whether two labels carry the same.
fn carry_alike(label: BlockLabel, other: BlockLabel) -> bool
    ensures { IsTrue result ↔ label.carries ≡ other.carries }
{
    label.carries == other.carries
}

/// The targets of these labels, each of which has to be there and to carry what the default does. The default comes
/// last.
fn table_row(
    block: &OpenBlock,
    outer: &[OpenBlock],
    indices: &[u32],
    default: BlockLabel,
    row: &mut Vec<Target>,
) -> Result<(), Problem>
    requires { row.old.items ≡ [] }
    ensures row { OnOk result (IsRow (labels_at block.now outer.now) indices.now row.new.items) }
    ensures carried { OnOk result (CarryAlike (labels_at block.now outer.now) indices.now default) }
    ensures differs { IfErr result (DifferFrom (labels_at block.now outer.now) indices.now default) }
{
    for index in indices {
        let label = find_label(block, outer, *index)?;
        if !carry_alike(label, default) {
            return Err(Problem::Wrong(Fault::TypeMismatch));
        }
        row.push(label.target())?;
    }
    Ok(())
}

/// That there are such labels.
fn need_labels(block: &OpenBlock, outer: &[OpenBlock], indices: &[u32]) -> Result<(), Problem>
    ensures { NeedsLabels (labels_at block.now outer.now) indices.now result }
{
    for index in indices {
        find_label(block, outer, *index)?;
    }
    Ok(())
}

/// `br_table`
pub fn check_br_table(
    scope: &Scope,
    block: &mut OpenBlock,
    outer: &[OpenBlock],
    indices: &Labels,
    default_index: u32,
    row: &mut Vec<Target>,
) -> Result<(), Problem>
    requires { row.old.items ≡ [] }
    ensures { ChecksAt scope.now outer.now (plain.BrTable default_index indices.now) block.old block.new
        row.new.items result }
{
    let default = find_label(block, outer, default_index)?;
    let indices = indices.as_slice();
    need_labels(block, outer, indices)?;
    table_row(block, outer, indices, default, row)?;
    row.push(default.target())?;
    take_one(block, ValType::I32)?;
    take_result(block, default.carries)?;
    stop(block);
    Ok(())
}
