//! The line number program of a unit (DWARF 5, section 6.2.5).

ghost use Rattle.std.specs.Prelude.{◌<◌};

use dwarf_reader::{Cursor, DebugFault};

/// The state machine that runs a program: how far a unit of advance goes, and what its special opcodes do.
#[derive(Clone, Copy, PartialEq, Eq)]
pub struct LineMachine {
    pub instruction: u8,
    /// In two's complement of 64 bits.
    pub line_base: u64,
    pub line_range: u8,
    pub opcode_base: u8,
    ghost some_lines: { 0 < line_range },
}

/// The registers of the machine: the place that the program has come to.
#[derive(Clone, Copy, Debug, PartialEq, Eq)]
pub struct LineRegisters {
    pub address: u64,
    pub file: u64,
    pub line: u64,
}

/// What an instruction of the program makes.
#[derive(Clone, Copy, PartialEq, Eq)]
pub enum Emitted {
    Nothing,
    /// A row of the table: from this address on this line.
    Row,
    /// The end of a sequence: the code of its last row ends here.
    End,
}

impl LineRegisters {
    /// Where a sequence begins.
    pub const START: LineRegisters = LineRegisters {
        address: 0,
        file: 1,
        line: 1,
    };
}

impl LineMachine {
    fn advance(self, place: &mut LineRegisters, by: u64) {
        place.address = place
            .address
            .wrapping_add(by.wrapping_mul(u64::from(self.instruction)));
    }

    /// A special opcode, which is no less than the base.
    fn special(self, place: &mut LineRegisters, by: u8) {
        self.advance(place, u64::from(by / self.line_range));
        let lines = u64::from(by % self.line_range);
        place.line = place.line.wrapping_add(self.line_base).wrapping_add(lines);
    }

    /// An instruction with a size in front, which may be of a kind that isn't known.
    fn extended(self, place: &mut LineRegisters, code: &mut Cursor) -> Result<Emitted, DebugFault> {
        let size = code.read_unsigned()?;
        let mut operands = Cursor::new(code.read_bytes(size)?);
        match operands.read_u8()? {
            1 => return Ok(Emitted::End),
            // An address of which more than 8 bytes are said has those of its front.
            2 => place.address = operands.read_number(operands.len().min(8) as u64)?,
            _ => {}
        }
        Ok(Emitted::Nothing)
    }

    /// One instruction.
    pub fn step(
        self,
        place: &mut LineRegisters,
        lengths: &[u8],
        instructions: &mut Cursor,
    ) -> Result<Emitted, DebugFault> {
        let opcode = instructions.read_u8()?;
        if opcode >= self.opcode_base {
            self.special(place, opcode - self.opcode_base);
            return Ok(Emitted::Row);
        }
        match opcode {
            0 => return self.extended(place, instructions),
            1 => return Ok(Emitted::Row),
            2 => self.advance(place, instructions.read_unsigned()?),
            3 => place.line = place.line.wrapping_add(instructions.read_signed()?),
            4 => place.file = instructions.read_unsigned()?,
            8 => self.advance(place, u64::from((255 - self.opcode_base) / self.line_range)),
            9 => place.address = place.address.wrapping_add(instructions.read_number(2)?),
            _ => {
                for _ in 0..lengths.get(opcode as usize - 1).copied().unwrap_or(0) {
                    instructions.read_unsigned()?;
                }
            }
        }
        Ok(Emitted::Nothing)
    }
}
