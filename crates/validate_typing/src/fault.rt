//! Why a module is not valid.

ghost use Rattle.std.specs.Prelude.{◌≡◌};
ghost use Rattle.validate_typing.specs.Faults.{fault_number, fault_kind, fault_place};
ghost use Rattle.validate_typing.specs.declared.fault.ValidFault.TheVariants.{OutOfMemory};

use std::alloc::{AllocError, AllocFailed};
use std::fmt;
use thiserror::Error;

/// The kinds of faults.
#[derive(Clone, Copy, Debug, PartialEq, Eq, Error)]
pub enum Fault {
    /// An operand is missing or of another type, or a value of a constant expression is.
    TypeMismatch,
    UnknownLabel,
    UnknownLocal,
    UnknownGlobal,
    UnknownFunction,
    UnknownType,
    UnknownTable,
    UnknownMemory,
    /// `global.set` of a constant global.
    ConstantGlobal,
    /// An alignment above the width of a plain access, or other than that of an atomic one.
    Alignment,
    /// A minimum that passes its maximum, or a table that is shared.
    Limits,
    DuplicateExport,
    /// More than one memory, table or result.
    MoreThanOne,
    /// An initial value or an offset isn't exactly one integer constant.
    NotConstant,
    /// An import other than the memory `env` `memory` and the function `wasi` `thread-spawn`.
    UnknownImport,
    SharedWithoutMaximum,
    StartSection,
    /// Threads can be started, but there is no shared memory or no fitting export `wasi_thread_start`.
    ThreadEntry,
    /// A segment doesn't lie within the opening table or memory.
    SegmentOutside,
    /// Memory ran out.
    OutOfMemory,
}

impl Fault {
    /// The number by which the kind is reported, from 1 to 20.
    pub fn number(self) -> u8
        ensures { result ≡ fault_number self }
    {
        match self {
            Fault::TypeMismatch => 1,
            Fault::UnknownLabel => 2,
            Fault::UnknownLocal => 3,
            Fault::UnknownGlobal => 4,
            Fault::UnknownFunction => 5,
            Fault::UnknownType => 6,
            Fault::UnknownTable => 7,
            Fault::UnknownMemory => 8,
            Fault::ConstantGlobal => 9,
            Fault::Alignment => 10,
            Fault::Limits => 11,
            Fault::DuplicateExport => 12,
            Fault::MoreThanOne => 13,
            Fault::NotConstant => 14,
            Fault::UnknownImport => 15,
            Fault::SharedWithoutMaximum => 16,
            Fault::StartSection => 17,
            Fault::ThreadEntry => 18,
            Fault::SegmentOutside => 19,
            Fault::OutOfMemory => 20,
        }
    }

    /// The kind in words, as it is printed.
    fn words(self) -> &'static str {
        match self {
            Fault::TypeMismatch => "type mismatch",
            Fault::UnknownLabel => "unknown label",
            Fault::UnknownLocal => "unknown local",
            Fault::UnknownGlobal => "unknown global",
            Fault::UnknownFunction => "unknown function",
            Fault::UnknownType => "unknown type",
            Fault::UnknownTable => "unknown table",
            Fault::UnknownMemory => "unknown memory",
            Fault::ConstantGlobal => "constant global written",
            Fault::Alignment => "alignment",
            Fault::Limits => "limits",
            Fault::DuplicateExport => "duplicate export",
            Fault::MoreThanOne => "more than one",
            Fault::NotConstant => "not a constant expression",
            Fault::UnknownImport => "unknown import",
            Fault::SharedWithoutMaximum => "shared without maximum",
            Fault::StartSection => "start section",
            Fault::ThreadEntry => "thread entry",
            Fault::SegmentOutside => "segment outside",
            Fault::OutOfMemory => "no memory",
        }
    }
}

impl fmt::Display for Fault {
    fn fmt<W: fmt::Write>(&self, f: &mut fmt::Formatter<W>) -> fmt::Result {
        f.write_str(self.words())
    }
}

/// A place in a function's body.
#[derive(Clone, Copy, Debug, PartialEq, Eq)]
pub struct BodyPlace {
    /// The function's index, imported functions counted.
    pub function: usize,
    /// The number of the instruction in the flat body, from 0.
    pub instruction: usize,
}

/// Why a module was not accepted.
#[derive(Clone, Copy, Debug, PartialEq, Eq, Error)]
pub enum ValidFault {
    /// Memory ran out, which says nothing of the module.
    #[error("no memory")]
    OutOfMemory,
    /// A rule of the module outside its bodies.
    #[error("{0}")]
    Outside(Fault),
    /// A rule of instructions.
    #[error("{kind} in function {function} at {instruction}")]
    InBody {
        kind: Fault,
        function: usize,
        instruction: usize,
    },
}

impl ValidFault {
    /// The kind of the fault.
    pub fn kind(self) -> Fault
        ensures { result ≡ fault_kind self }
    {
        match self {
            ValidFault::OutOfMemory => Fault::OutOfMemory,
            ValidFault::Outside(kind) => kind,
            ValidFault::InBody { kind, .. } => kind,
        }
    }

    /// The function and the instruction, where the fault is in a body.
    pub fn place(self) -> Option<BodyPlace>
        ensures { result ≡ fault_place self }
    {
        match self {
            ValidFault::OutOfMemory | ValidFault::Outside(_) => None,
            ValidFault::InBody {
                function,
                instruction,
                ..
            } => Some(BodyPlace {
                function,
                instruction,
            }),
        }
    }
}

impl From<AllocError> for ValidFault {
    ghost from_gives = { λ _ e. e ≡ OutOfMemory };

    fn from(_e: AllocError) -> ValidFault {
        ValidFault::OutOfMemory
    }
}

impl<T: Drop> From<AllocFailed<T>> for ValidFault {
    ghost from_gives = { λ _ e. e ≡ OutOfMemory };

    fn from(_e: AllocFailed<T>) -> ValidFault {
        ValidFault::OutOfMemory
    }
}
