//! Instructions, each by the shape of its opcode.

ghost use Rattle.std.specs.Prelude.{◌≡◌};
ghost use Rattle.binary_wire.specs.Reading.{GivesNext, GivesNextInMemory};
ghost use Rattle.binary_instructions.specs.Instructions.{opening, bare_instr, index_instr};
ghost use Rattle.binary_instructions.specs.Reading.{shape_at, atomic_at, const_at, br_table_at, call_indirect_at};
ghost use Rattle.binary_instructions.specs.Reading.{shaped_at};

use crate::immediates::{read_block_type, read_memarg, read_reserved};
use crate::opcodes::{
    AtomicShape, BareInstr, IndexInstr, Opener, Shape, shape_of_atomic, shape_of_opcode,
};
use binary_wire::{Fault, IndexItem, ReadFault, Reader, Refusal, read_vector};
use std::alloc::Global;
use types::{BlockType, Instr, Labels, PlainInstr, ValType};

fn opening_of(op: Opener, block_type: BlockType) -> Instr
    ensures { result ≡ opening op block_type }
{
    match op {
        Opener::Block => Instr::Block(block_type),
        Opener::Loop => Instr::Loop(block_type),
        Opener::If => Instr::If(block_type),
    }
}

fn bare_instr_of(op: BareInstr) -> PlainInstr
    ensures { result ≡ bare_instr op }
{
    match op {
        BareInstr::Unreachable => PlainInstr::Unreachable,
        BareInstr::Nop => PlainInstr::Nop,
        BareInstr::Return => PlainInstr::Return,
        BareInstr::Drop => PlainInstr::Drop,
        BareInstr::Select => PlainInstr::Select,
    }
}

fn index_instr_of(op: IndexInstr, index: u32) -> PlainInstr
    ensures { result ≡ index_instr op index }
{
    match op {
        IndexInstr::Br => PlainInstr::Br(index),
        IndexInstr::BrIf => PlainInstr::BrIf(index),
        IndexInstr::Call => PlainInstr::Call(index),
        IndexInstr::LocalGet => PlainInstr::LocalGet(index),
        IndexInstr::LocalSet => PlainInstr::LocalSet(index),
        IndexInstr::LocalTee => PlainInstr::LocalTee(index),
        IndexInstr::GlobalGet => PlainInstr::GlobalGet(index),
        IndexInstr::GlobalSet => PlainInstr::GlobalSet(index),
    }
}

/// An opcode.
#[tactic(auto, unfolding(crate::specs::Reading::shape_at))]
pub fn read_shape(reader: &mut Reader) -> Result<Shape, Refusal>
    ensures gives { GivesNext shape_at reader.old reader.new result }
    ensures keeps { reader.new.bounds ≡ reader.old.bounds }
{
    let offset = reader.offset();
    match shape_of_opcode(reader.read_byte()?) {
        Ok(shape) => Ok(shape),
        Err(kind) => Err(Refusal { kind, offset }),
    }
}

/// The instruction of a number behind the prefix of atomic instructions (threads proposal, section "Binary format").
#[tactic(auto, unfolding(crate::specs::Reading::atomic_at, crate::specs::Reading::atomic_shaped_at))]
fn read_atomic(reader: &mut Reader) -> Result<Instr, ReadFault>
    ensures gives { GivesNextInMemory atomic_at reader.old reader.new result }
    ensures keeps { reader.new.bounds ≡ reader.old.bounds }
{
    let offset = reader.offset();
    let number = reader.read_u32()?;
    match shape_of_atomic(number) {
        Some(AtomicShape::Access(op)) => {
            let memarg = read_memarg(reader)?;
            Ok(Instr::Plain(PlainInstr::Atomic(op, memarg)))
        }
        Some(AtomicShape::Fence) => read_reserved(reader, PlainInstr::Fence),
        None => Err(ReadFault::Malformed {
            kind: Fault::UnknownByte,
            offset,
        }),
    }
}

/// A constant (Core specification 1.0, section 5.4.5).
#[tactic(auto, unfolding(crate::specs::Reading::const_at))]
fn read_const(reader: &mut Reader, val_type: ValType) -> Result<Instr, ReadFault>
    ensures gives { GivesNextInMemory (const_at val_type) reader.old reader.new result }
    ensures keeps { reader.new.bounds ≡ reader.old.bounds }
{
    let instr = match val_type {
        ValType::I32 => PlainInstr::I32Const(reader.read_s32()?),
        ValType::I64 => PlainInstr::I64Const(reader.read_s64()?),
    };
    Ok(Instr::Plain(instr))
}

/// The labels of `br_table`, and its default label (Core specification 1.0, section 5.4.1).
#[tactic(auto, unfolding(crate::specs::Reading::br_table_at))]
fn read_br_table(reader: &mut Reader, alloc: Global) -> Result<Instr, ReadFault>
    ensures gives { GivesNextInMemory br_table_at reader.old reader.new result }
    ensures keeps { reader.new.bounds ≡ reader.old.bounds }
{
    let labels = read_vector::<IndexItem>(reader, alloc, u32::MAX)?;
    let default = reader.read_u32()?;
    Ok(Instr::Plain(PlainInstr::BrTable(default, Labels::new(alloc, labels)?)))
}

/// The type of `call_indirect` and its reserved byte (Core specification 1.0, section 5.4.1).
#[tactic(auto, unfolding(crate::specs::Reading::call_indirect_at))]
fn read_call_indirect(reader: &mut Reader) -> Result<Instr, ReadFault>
    ensures gives { GivesNextInMemory call_indirect_at reader.old reader.new result }
    ensures keeps { reader.new.bounds ≡ reader.old.bounds }
{
    let type_index = reader.read_u32()?;
    read_reserved(reader, PlainInstr::CallIndirect(type_index))
}

/// The immediates of an instruction, behind its opcode.
#[tactic(auto, unfolding(crate::specs::Reading::shaped_at))]
pub fn read_shaped(reader: &mut Reader, alloc: Global, shape: Shape) -> Result<Instr, ReadFault>
    ensures gives { GivesNextInMemory (shaped_at shape) reader.old reader.new result }
    ensures keeps { reader.new.bounds ≡ reader.old.bounds }
{
    let instr = match shape {
        Shape::Open(op) => return Ok(opening_of(op, read_block_type(reader)?)),
        Shape::Else => return Ok(Instr::Else),
        Shape::End => return Ok(Instr::End),
        Shape::Const(val_type) => return read_const(reader, val_type),
        Shape::BrTable => return read_br_table(reader, alloc),
        Shape::CallIndirect => return read_call_indirect(reader),
        Shape::Atomic => return read_atomic(reader),
        Shape::MemorySize => return read_reserved(reader, PlainInstr::MemorySize),
        Shape::MemoryGrow => return read_reserved(reader, PlainInstr::MemoryGrow),
        Shape::Bare(op) => bare_instr_of(op),
        Shape::Numeric(op) => PlainInstr::Numeric(op),
        Shape::Index(op) => index_instr_of(op, reader.read_u32()?),
        Shape::Load(op) => PlainInstr::Load(op, read_memarg(reader)?),
        Shape::Store(width) => PlainInstr::Store(width, read_memarg(reader)?),
    };
    Ok(Instr::Plain(instr))
}
