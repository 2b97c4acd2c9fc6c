//! Code.
ghost use Rattle.std.specs.Prelude.{◌≡◌, IfOk};

use crate::copied::Copied;
use std::alloc::{AllocError, Global};
use types::{Instr, Labels, PlainInstr, Sequence};

/// A copy of the labels of a `br_table`.
fn labels_copied(alloc: Global, labels: &Labels) -> Result<Labels, AllocError>
    ensures { IfOk result (λ copy. copy ≡ labels.now) }
{
    let items = Vec::from_slice(alloc, labels.as_slice())?;
    Labels::new(alloc, Sequence::from_vec(items))
}

impl Copied for PlainInstr {
    fn copied(&self, alloc: Global) -> Result<PlainInstr, AllocError> {
        Ok(match self {
            PlainInstr::Unreachable => PlainInstr::Unreachable,
            PlainInstr::Nop => PlainInstr::Nop,
            PlainInstr::Br(label) => PlainInstr::Br(*label),
            PlainInstr::BrIf(label) => PlainInstr::BrIf(*label),
            PlainInstr::BrTable(label, labels) => {
                PlainInstr::BrTable(*label, labels_copied(alloc, labels)?)
            }
            PlainInstr::Return => PlainInstr::Return,
            PlainInstr::Call(function) => PlainInstr::Call(*function),
            PlainInstr::CallIndirect(index) => PlainInstr::CallIndirect(*index),
            PlainInstr::Drop => PlainInstr::Drop,
            PlainInstr::Select => PlainInstr::Select,
            PlainInstr::LocalGet(local) => PlainInstr::LocalGet(*local),
            PlainInstr::LocalSet(local) => PlainInstr::LocalSet(*local),
            PlainInstr::LocalTee(local) => PlainInstr::LocalTee(*local),
            PlainInstr::GlobalGet(global) => PlainInstr::GlobalGet(*global),
            PlainInstr::GlobalSet(global) => PlainInstr::GlobalSet(*global),
            PlainInstr::I32Const(number) => PlainInstr::I32Const(*number),
            PlainInstr::I64Const(number) => PlainInstr::I64Const(*number),
            PlainInstr::Numeric(op) => PlainInstr::Numeric(*op),
            PlainInstr::Load(op, arg) => PlainInstr::Load(*op, *arg),
            PlainInstr::Store(width, arg) => PlainInstr::Store(*width, *arg),
            PlainInstr::MemorySize => PlainInstr::MemorySize,
            PlainInstr::MemoryGrow => PlainInstr::MemoryGrow,
            PlainInstr::Atomic(op, arg) => PlainInstr::Atomic(*op, *arg),
            PlainInstr::Fence => PlainInstr::Fence,
        })
    }
}

impl Copied for Instr {
    fn copied(&self, alloc: Global) -> Result<Instr, AllocError> {
        match self {
            Instr::Block(block_type) => Ok(Instr::Block(*block_type)),
            Instr::Loop(block_type) => Ok(Instr::Loop(*block_type)),
            Instr::If(block_type) => Ok(Instr::If(*block_type)),
            Instr::Else => Ok(Instr::Else),
            Instr::End => Ok(Instr::End),
            Instr::Plain(plain) => Ok(Instr::Plain(plain.copied(alloc)?)),
        }
    }
}
