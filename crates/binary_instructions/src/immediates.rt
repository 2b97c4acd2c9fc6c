//! What stands behind an opcode.

ghost use Rattle.std.specs.Prelude.{◌≡◌};
ghost use Rattle.binary_wire.specs.Reading.{GivesNext, GivesNextInMemory};
ghost use Rattle.types.specs.declared.instr.Instr.TheVariants as instrs;
ghost use Rattle.binary_instructions.specs.Reading.{val_type_of, val_type_at, block_type_at, memarg_at, reserved_at};

use binary_wire::{Fault, ReadFault, Reader, Refusal};
use types::{BlockType, Instr, MemArg, PlainInstr, ValType};

fn val_type_of_byte(byte: u8) -> Result<ValType, Fault>
    ensures { result ≡ val_type_of byte }
{
    match byte {
        0x7f => Ok(ValType::I32),
        0x7e => Ok(ValType::I64),
        0x7d | 0x7c => Err(Fault::Float),
        _ => Err(Fault::UnknownByte),
    }
}

/// A type of values (Core specification 1.0, section 5.3.1).
#[tactic(auto, unfolding(crate::specs::Reading::val_type_at))]
pub fn read_val_type(reader: &mut Reader) -> Result<ValType, Refusal>
    ensures gives { GivesNext val_type_at reader.old reader.new result }
    ensures keeps { reader.new.bounds ≡ reader.old.bounds }
{
    let offset = reader.offset();
    match val_type_of_byte(reader.read_byte()?) {
        Ok(val_type) => Ok(val_type),
        Err(kind) => Err(Refusal { kind, offset }),
    }
}

/// The type of a block (Core specification 1.0, section 5.3.2).
#[tactic(auto, unfolding(crate::specs::Reading::block_type_at))]
pub fn read_block_type(reader: &mut Reader) -> Result<BlockType, Refusal>
    ensures gives { GivesNext block_type_at reader.old reader.new result }
    ensures keeps { reader.new.bounds ≡ reader.old.bounds }
{
    if reader.front_is(0x40) {
        reader.read_byte()?;
        return Ok(None);
    }
    Ok(Some(read_val_type(reader)?))
}

/// The immediates of a memory instruction (Core specification 1.0, section 5.4.4).
#[tactic(auto, unfolding(crate::specs::Reading::memarg_at))]
pub fn read_memarg(reader: &mut Reader) -> Result<MemArg, Refusal>
    ensures gives { GivesNext memarg_at reader.old reader.new result }
    ensures keeps { reader.new.bounds ≡ reader.old.bounds }
{
    let align = reader.read_u32()?;
    let offset = reader.read_u32()?;
    Ok(MemArg { align, offset })
}

/// An instruction that ends with a reserved byte, which has to be `00`.
#[tactic(auto, unfolding(crate::specs::Reading::reserved_at))]
pub fn read_reserved(reader: &mut Reader, instr: PlainInstr) -> Result<Instr, ReadFault>
    ensures gives { GivesNextInMemory (reserved_at (instrs.Plain instr)) reader.old reader.new result }
    ensures keeps { reader.new.bounds ≡ reader.old.bounds }
{
    let offset = reader.offset();
    let refusal = match reader.read_byte() {
        Ok(0x00) => return Ok(Instr::Plain(instr)),
        Ok(_) => Refusal {
            kind: Fault::UnknownByte,
            offset,
        },
        Err(refusal) => refusal,
    };
    Err(refusal.into())
}
