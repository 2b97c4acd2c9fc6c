//! Why an instruction is refused.

ghost use Rattle.std.specs.Prelude.{◌≡◌};
ghost use Rattle.validate_instructions.specs.Kinds.{fault_at};
ghost use Rattle.validate_instructions.specs.declared.problem.Problem.TheVariants.{OutOfMemory};

use std::alloc::{AllocError, AllocFailed};
use validate_typing::{Fault, ValidFault};

/// Why an instruction is refused.
#[derive(Clone, Copy)]
pub enum Problem {
    /// Memory ran out.
    OutOfMemory,
    /// The instruction breaks a rule.
    Wrong(Fault),
}

impl Problem {
    /// The same with its place.
    pub fn at(self, function: usize, instruction: usize) -> ValidFault
        ensures { result ≡ fault_at self function instruction }
    {
        match self {
            Problem::OutOfMemory => ValidFault::OutOfMemory,
            Problem::Wrong(kind) => ValidFault::InBody {
                kind,
                function,
                instruction,
            },
        }
    }
}

impl From<AllocError> for Problem {
    ghost from_gives = { λ _ e. e ≡ OutOfMemory };

    fn from(_e: AllocError) -> Problem {
        Problem::OutOfMemory
    }
}

impl<T: Drop> From<AllocFailed<T>> for Problem {
    ghost from_gives = { λ _ e. e ≡ OutOfMemory };

    fn from(_e: AllocFailed<T>) -> Problem {
        Problem::OutOfMemory
    }
}
