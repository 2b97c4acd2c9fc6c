//! What an instruction does with locals, and whether it goes on.

ghost use Rattle.std.specs.Prelude.{◌≡◌};
ghost use Rattle.validate_typing.specs.Placed.{goes_on};
ghost use Rattle.types.specs.declared.instr.Instr.TheVariants as instrs;
ghost use Rattle.live_locals.specs.Live.{read_by, written_by, goes_next};

use types::{Instr, PlainInstr};

/// The local that an instruction reads.
pub fn local_read(instr: &Instr) -> Option<u32>
    ensures { result ≡ read_by instr.now }
{
    match instr {
        Instr::Plain(PlainInstr::LocalGet(local)) => Some(*local),
        _ => None,
    }
}

/// The local that an instruction writes.
pub fn local_written(instr: &Instr) -> Option<u32>
    ensures { result ≡ written_by instr.now }
{
    match instr {
        Instr::Plain(PlainInstr::LocalSet(local) | PlainInstr::LocalTee(local)) => Some(*local),
        _ => None,
    }
}

/// Whether an instruction may go to the one behind it.
pub fn has_next(instr: &Instr) -> bool
    ensures { result ≡ goes_next instr.now }
{
    match instr {
        Instr::Else
        | Instr::Plain(
            PlainInstr::Unreachable
            | PlainInstr::Br(_)
            | PlainInstr::BrTable(_, _)
            | PlainInstr::Return,
        ) => false,
        _ => true,
    }
}
