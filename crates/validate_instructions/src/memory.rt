//! Memory instructions, plain and atomic (Core specification 1.0, section 3.3.4; threads proposal).

ghost use Rattle.std.specs.Prelude.{◌≡◌, ◌<◌, ◌≤◌, ◌^◌, MatchOption};
ghost use Rattle.types.specs.declared.instr.PlainInstr.TheVariants as plain;
ghost use Rattle.validate_typing.specs.Typing.{atomic_takes, atomic_gives, results_of, IsAligned, IsExactlyAligned};
ghost use Rattle.validate_instructions.specs.Blocks.{Moving, ChecksInside};
ghost use Rattle.validate_instructions.specs.Scope.{context_of, Needs};

use crate::block::OpenBlock;
use crate::operands::replace;
use crate::problem::Problem;
use crate::scope::Scope;
use types::{AccessWidth, AtomicOp, LoadOp, MemArg, ValType};
use validate_typing::Fault;

const MISALIGNED: Problem = Problem::Wrong(Fault::Alignment);

/// The bytes of an alignment, where they are 8 at most.
fn alignment_of(arg: MemArg) -> Option<u8>
    ensures { MatchOption result (3 < arg.align) (λ bytes. 2 ^ arg.align ≡ bytes) }
{
    match arg.align {
        0 => Some(1),
        1 => Some(2),
        2 => Some(4),
        3 => Some(8),
        _ => None,
    }
}

/// A plain access is aligned to its width at most.
#[tactic(auto, using(crate::proofs::Fitting::wide))]
fn check_alignment(arg: MemArg, bytes: u8) -> Result<(), Problem>
    requires { bytes ≤ 8 }
    ensures { Needs (IsAligned arg bytes) Fault.Alignment result }
{
    let Some(alignment) = alignment_of(arg) else {
        return Err(MISALIGNED);
    };
    if alignment <= bytes {
        Ok(())
    } else {
        Err(MISALIGNED)
    }
}

/// An atomic access is aligned to its width exactly.
#[tactic(auto, using(crate::proofs::Fitting::wide))]
fn check_exact_alignment(arg: MemArg, bytes: u8) -> Result<(), Problem>
    requires { bytes ≤ 8 }
    ensures { Needs (IsExactlyAligned arg bytes) Fault.Alignment result }
{
    let Some(alignment) = alignment_of(arg) else {
        return Err(MISALIGNED);
    };
    if alignment == bytes {
        Ok(())
    } else {
        Err(MISALIGNED)
    }
}

/// A plain load.
pub fn check_load(
    scope: &Scope,
    block: &mut OpenBlock,
    op: LoadOp,
    arg: MemArg,
) -> Result<(), Problem>
    ensures { ChecksInside (context_of scope.now) (plain.Load op arg) block.old block.new result }
{
    scope.need_memory()?;
    check_alignment(arg, op.bytes())?;
    replace(block, &[ValType::I32], Some(op.val_type()))
}

/// A plain store.
pub fn check_store(
    scope: &Scope,
    block: &mut OpenBlock,
    width: AccessWidth,
    arg: MemArg,
) -> Result<(), Problem>
    ensures { ChecksInside (context_of scope.now) (plain.Store width arg) block.old block.new result }
{
    scope.need_memory()?;
    check_alignment(arg, width.bytes())?;
    replace(block, &[width.val_type(), ValType::I32], None)
}

/// `memory.size`
pub fn check_memory_size(scope: &Scope, block: &mut OpenBlock) -> Result<(), Problem>
    ensures { ChecksInside (context_of scope.now) plain.MemorySize block.old block.new result }
{
    scope.need_memory()?;
    replace(block, &[], Some(ValType::I32))
}

/// `memory.grow`
pub fn check_memory_grow(scope: &Scope, block: &mut OpenBlock) -> Result<(), Problem>
    ensures { ChecksInside (context_of scope.now) plain.MemoryGrow block.old block.new result }
{
    scope.need_memory()?;
    replace(block, &[ValType::I32], Some(ValType::I32))
}

/// The operands of an atomic instruction and its result.
fn replace_atomic(block: &mut OpenBlock, op: AtomicOp) -> Result<(), Problem>
    ensures { Moving (atomic_takes op) (results_of (atomic_gives op)) block.old block.new result }
{
    const ADDRESS: ValType = ValType::I32;
    match op {
        AtomicOp::Notify => replace(block, &[ValType::I32, ADDRESS], Some(ValType::I32)),
        AtomicOp::Wait(t) => replace(block, &[ValType::I64, t, ADDRESS], Some(ValType::I32)),
        AtomicOp::Load(width) => replace(block, &[ADDRESS], Some(width.val_type())),
        AtomicOp::Store(width) => replace(block, &[width.val_type(), ADDRESS], None),
        AtomicOp::Rmw(_, width) => {
            let t = width.val_type();
            replace(block, &[t, ADDRESS], Some(t))
        }
        AtomicOp::Cmpxchg(width) => {
            let t = width.val_type();
            replace(block, &[t, t, ADDRESS], Some(t))
        }
    }
}

/// An atomic instruction with an address.
pub fn check_atomic(
    scope: &Scope,
    block: &mut OpenBlock,
    op: AtomicOp,
    arg: MemArg,
) -> Result<(), Problem>
    ensures { ChecksInside (context_of scope.now) (plain.Atomic op arg) block.old block.new result }
{
    scope.need_memory()?;
    check_exact_alignment(arg, op.bytes())?;
    replace_atomic(block, op)
}
