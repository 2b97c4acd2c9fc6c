//! Why bytes could not be read as a module.

ghost use Rattle.std.specs.Prelude.{◌≡◌};
ghost use Rattle.binary_wire.specs.Faults.{kind_number, fault_number, fault_offset};
ghost use Rattle.binary_wire.specs.declared.fault.ReadFault.TheVariants.{OutOfMemory, Malformed};

use std::alloc::{AllocError, AllocFailed};
use thiserror::Error;

/// The kinds of faults of bytes.
#[derive(Clone, Copy, Debug, PartialEq, Eq, Error)]
pub enum Fault {
    /// A byte is missing, or a section's size passes the input.
    #[error("end of input")]
    EndOfInput,
    /// The first four bytes aren't `00 61 73 6D` (Core specification 1.0, section 5.5.15).
    #[error("magic")]
    Magic,
    /// The second four bytes aren't `01 00 00 00` (Core specification 1.0, section 5.5.15).
    #[error("version")]
    Version,
    /// A section's id isn't above the last one.
    #[error("section order")]
    SectionOrder,
    /// The contents of a section or of a body need more or less than their stated size.
    #[error("section or body size")]
    Size,
    /// A number is too long, or has wrong unused bits.
    #[error("number too long, or wrong unused bits")]
    Number,
    /// An id, an opcode, a type, a kind or another byte that means nothing where it stands.
    #[error("unknown byte")]
    UnknownByte,
    /// A type or an opcode of floating point, which is left out.
    #[error("float type or opcode left out")]
    Float,
    /// A name isn't UTF-8.
    #[error("name not UTF-8")]
    Name,
    /// There are more functions than bodies, or fewer.
    #[error("counts of functions and bodies differ")]
    CountsDiffer,
    /// A count, a size, a nesting or the input's length is past a limit.
    #[error("past a limit")]
    Limit,
    /// The byte before the limits of a table or a memory is none of those that may stand there.
    #[error("limits flag")]
    LimitsFlag,
}

impl Fault {
    /// The number by which the kind is reported, from 1 to 12.
    pub fn number(self) -> u8
        ensures { result ≡ kind_number self }
    {
        match self {
            Fault::EndOfInput => 1,
            Fault::Magic => 2,
            Fault::Version => 3,
            Fault::SectionOrder => 4,
            Fault::Size => 5,
            Fault::Number => 6,
            Fault::UnknownByte => 7,
            Fault::Float => 8,
            Fault::Name => 9,
            Fault::CountsDiffer => 10,
            Fault::Limit => 11,
            Fault::LimitsFlag => 12,
        }
    }
}

/// Why bytes are refused: how they are malformed, and the offset in the input. What takes no memory fails by this
/// alone.
#[derive(Clone, Copy, Debug, PartialEq, Eq, Error)]
#[error("{kind} at {offset}")]
pub struct Refusal {
    pub kind: Fault,
    pub offset: usize,
}

/// Why reading ended without a value.
#[derive(Clone, Copy, Debug, PartialEq, Eq, Error)]
pub enum ReadFault {
    /// Memory ran out, which says nothing of the bytes.
    #[error("no memory")]
    OutOfMemory,
    /// The bytes are malformed: how, and the offset in the input.
    #[error("{kind} at {offset}")]
    Malformed { kind: Fault, offset: usize },
}

impl ReadFault {
    /// The number by which the fault is reported: that of its kind, or 13 where memory ran out.
    pub fn number(self) -> u8
        ensures { result ≡ fault_number self }
    {
        match self {
            ReadFault::OutOfMemory => 13,
            ReadFault::Malformed { kind, .. } => kind.number(),
        }
    }

    /// The offset in the input, where the fault has one.
    pub fn offset(self) -> Option<usize>
        ensures { result ≡ fault_offset self }
    {
        match self {
            ReadFault::OutOfMemory => None,
            ReadFault::Malformed { offset, .. } => Some(offset),
        }
    }
}

impl From<Refusal> for ReadFault {
    ghost from_gives = { λ r e. e ≡ Malformed r.kind r.offset };

    fn from(refusal: Refusal) -> ReadFault {
        ReadFault::Malformed {
            kind: refusal.kind,
            offset: refusal.offset,
        }
    }
}

impl From<AllocError> for ReadFault {
    ghost from_gives = { λ _ e. e ≡ OutOfMemory };

    fn from(_e: AllocError) -> ReadFault {
        ReadFault::OutOfMemory
    }
}

impl<T: Drop> From<AllocFailed<T>> for ReadFault {
    ghost from_gives = { λ _ e. e ≡ OutOfMemory };

    fn from(_e: AllocFailed<T>) -> ReadFault {
        ReadFault::OutOfMemory
    }
}
