//! Expressions: instructions and a final `end`.

ghost use Rattle.std.specs.Prelude.{◌≡◌, reverse};
ghost use Rattle.binary_wire.specs.Reading.{GivesNextInMemory, GivesNextInMemoryAs};
ghost use Rattle.binary_instructions.specs.Reading.{GivesBlocks, GivesInstr, each_kept_at, expression_at};

use crate::opcodes::{Opener, Shape};
use crate::shaped::{read_shape, read_shaped};
use binary_wire::{Fault, ReadFault, Reader};
use std::alloc::Global;
use types::{Instr, MOST_NESTED, Sequence};

/// The most blocks that may be open, the expression itself among them.
const OPEN_BLOCKS_MAX: usize = MOST_NESTED + 1;

/// What is kept of each instruction of an expression: a type without values, which says it.
pub trait Keep {
    ghost use Rattle.std.specs.Prelude.{ℕ};
    ghost use Rattle.types.specs.declared.instr.Instr.{Instr};

    type Kept: Drop;

    /// What is kept of the instruction at an offset.
    ghost kept: { ℕ → Instr → Self.Kept };

    /// Makes of the instruction at an offset what is kept of it.
    fn keep(offset: usize, instr: Instr) -> Self::Kept
        ensures { result ≡ kept offset instr };
}

/// What is kept of the instructions of an expression (Core specification 1.0, section 5.4.6), up to the `end` that
/// closes it.
#[tactic(auto, unfolding(crate::specs::Reading::each_kept_at))]
pub fn read_each<T: Keep>(reader: &mut Reader, alloc: Global) -> Result<Vec<T::Kept>, ReadFault>
    ensures gives { GivesNextInMemoryAs (λ kept. kept.items) (each_kept_at T.kept) reader.old reader.new result }
    ensures keeps { reader.new.bounds ≡ reader.old.bounds }
{
    let mut kept = Vec::new(alloc);
    let mut open_blocks = Vec::new(alloc);
    open_blocks.push(false)?;
    // Each instruction takes a byte at least.
    for _ in 0..reader.len() {
        let offset = reader.offset();
        let instr = read_instr(reader, alloc, &mut open_blocks)?;
        kept.push(T::keep(offset, instr))?;
        if open_blocks.is_empty() {
            return Ok(kept);
        }
    }
    Err(reader.missing().into())
}

/// The instruction itself.
struct Whole;

impl Keep for Whole {
    type Kept = Instr;

    ghost kept = { λ offset instr. instr };

    fn keep(_offset: usize, instr: Instr) -> Instr {
        instr
    }
}

/// An expression: its instructions.
#[tactic(auto, unfolding(crate::specs::Reading::expression_at))]
pub fn read_expression(reader: &mut Reader, alloc: Global) -> Result<Sequence<Instr>, ReadFault>
    ensures gives { GivesNextInMemory expression_at reader.old reader.new result }
    ensures keeps { reader.new.bounds ≡ reader.old.bounds }
{
    let mut code = read_each::<Whole>(reader, alloc)?;
    code.shrink_to_fit();
    Ok(Sequence::from_vec(code))
}

/// The next instruction. The open blocks are then those behind it; of each is kept, the innermost last, whether it is
/// an `if` that may still have an `else`.
#[tactic(auto, unfolding(crate::specs::Reading::instr_at))]
fn read_instr(
    reader: &mut Reader,
    alloc: Global,
    open_blocks: &mut Vec<bool>,
) -> Result<Instr, ReadFault>
    ensures gives { GivesInstr open_blocks.old.items open_blocks.new.items reader.old reader.new result }
    ensures keeps { reader.new.bounds ≡ reader.old.bounds }
{
    let offset = reader.offset();
    let shape = read_shape(reader)?;
    step(open_blocks, shape, offset)?;
    read_shaped(reader, alloc, shape)
}

/// Enters, divides or leaves a block, by the shape of the opcode at an offset. Of each open block is kept whether it is
/// an `if` that may still have an `else`.
fn step(open_blocks: &mut Vec<bool>, shape: Shape, offset: usize) -> Result<(), ReadFault>
    ensures { GivesBlocks offset shape open_blocks.old.items open_blocks.new.items result }
{
    match shape {
        Shape::Open(op) => {
            if open_blocks.len() >= OPEN_BLOCKS_MAX {
                return Err(ReadFault::Malformed {
                    kind: Fault::Limit,
                    offset,
                });
            }
            open_blocks.push(matches!(op, Opener::If))?;
        }
        Shape::Else => match open_blocks.pop() {
            Some(true) => open_blocks.push(false)?,
            _ => {
                return Err(ReadFault::Malformed {
                    kind: Fault::UnknownByte,
                    offset,
                });
            }
        },
        Shape::End => match open_blocks.pop() {
            Some(_) => {}
            None => {
                return Err(ReadFault::Malformed {
                    kind: Fault::UnknownByte,
                    offset,
                });
            }
        },
        _ => {}
    }
    Ok(())
}
