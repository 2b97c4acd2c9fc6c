//! Why a host's call has no answer.
ghost use Rattle.std.specs.Prelude.{◌≡◌};
ghost use Rattle.host_calls.specs.Hosts.{fault_of_refusal, status_of_fault};

use binary_wire::ReadFault;
use replay::ReplayFault;
use replay_text::RecordFault;
use report_jobs::ModuleRefusal;
use spawn_host::CallFault;
use thiserror::Error;
use validate_typing::ValidFault;

/// Why a host's call has no answer.
#[derive(Clone, Copy, Debug, PartialEq, Eq, Error)]
pub enum HostFault {
    /// The bytes are no valid module's text.
    #[error("{0}")]
    Module(ModuleRefusal),
    /// The module has no such call.
    #[error("{0}")]
    Call(CallFault),
    /// A number of the plan is out of its range.
    #[error("out of range")]
    Range,
    /// The bytes are no record's text.
    #[error("{0}")]
    Record(RecordFault),
    /// The record is of no run of the module.
    #[error("{0}")]
    Replay(ReplayFault),
    /// The system had too little memory left.
    #[error("no memory")]
    NoMemory,
}

/// The fault of a module that is refused: where memory was, it is that.
pub(crate) fn refused(refusal: ModuleRefusal) -> HostFault
    ensures { result ≡ fault_of_refusal refusal }
{
    match refusal {
        ModuleRefusal::Read(ReadFault::OutOfMemory) => HostFault::NoMemory,
        ModuleRefusal::Validity(ValidFault::OutOfMemory) => HostFault::NoMemory,
        _ => HostFault::Module(refusal),
    }
}

impl HostFault {
    /// The status that the program answers: 2 of a module, 3 of a call, 4 of a record, 5 where memory was refused.
    pub fn status(self) -> u32
        ensures { result ≡ status_of_fault self }
    {
        match self {
            HostFault::Module(_) => 2,
            HostFault::Call(_) | HostFault::Range => 3,
            HostFault::Record(_) | HostFault::Replay(_) => 4,
            HostFault::NoMemory => 5,
        }
    }
}
