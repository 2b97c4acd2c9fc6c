//! What is refused, as JSON says it.
ghost use Rattle.std.specs.Prelude.{IfSome};
ghost use Rattle.host_calls.specs.declared.fault.HostFault.TheVariants as faults;
ghost use Rattle.wathread_c.specs.Refused.{IsRefusedAs};

use binary_wire::ReadFault;
use host_calls::HostFault;
use replay::ReplayFault;
use replay_text::RecordFault;
use report_jobs::ModuleRefusal;
use report_json::RefusedObject;
use spawn_host::CallFault;
use validate_typing::ValidFault;

/// What is refused of a module; nothing where memory was.
fn refused_module(refusal: ModuleRefusal) -> Option<RefusedObject<'static>>
    ensures { IfSome result (IsRefusedAs (faults.Module refusal)) }
{
    match refusal {
        ModuleRefusal::Read(ReadFault::OutOfMemory) => None,
        ModuleRefusal::Read(ReadFault::Malformed { kind, offset }) => {
            Some(RefusedObject::Read { kind, offset })
        }
        ModuleRefusal::Validity(ValidFault::OutOfMemory) => None,
        ModuleRefusal::Validity(ValidFault::Outside(kind)) => Some(RefusedObject::Rule(kind)),
        ModuleRefusal::Validity(
            ValidFault::InBody {
                kind,
                function,
                instruction,
            },
        ) => Some(RefusedObject::RuleInBody {
            kind,
            function,
            instruction,
        }),
    }
}

fn refused_call(fault: CallFault) -> RefusedObject<'static>
    ensures { IsRefusedAs (faults.Call fault) result }
{
    match fault {
        CallFault::UnknownExport => RefusedObject::Call("unknown export"),
        CallFault::WrongArguments => RefusedObject::Call("wrong arguments"),
    }
}

/// What is refused of a record; nothing where memory was.
fn refused_record(fault: RecordFault) -> Option<RefusedObject<'static>>
    ensures { IfSome result (IsRefusedAs (faults.Record fault)) }
{
    match fault {
        RecordFault::Header(line) => Some(RefusedObject::Header(line)),
        RecordFault::Unreadable(line) => Some(RefusedObject::Unreadable(line)),
        RecordFault::EndMissing => Some(RefusedObject::EndMissing),
        RecordFault::NoMemory => None,
    }
}

/// What is refused of a record that is of no run; nothing where memory was.
fn refused_replay(fault: ReplayFault) -> Option<RefusedObject<'static>>
    ensures { IfSome result (IsRefusedAs (faults.Replay fault)) }
{
    match fault {
        ReplayFault::Line(line) => Some(RefusedObject::Line(line)),
        ReplayFault::EndLine(line) => Some(RefusedObject::EndLine(line)),
        ReplayFault::NoMemory => None,
    }
}

/// What is refused; nothing where memory was.
pub(crate) fn refused_of(fault: HostFault) -> Option<RefusedObject<'static>>
    ensures { IfSome result (IsRefusedAs fault) }
{
    match fault {
        HostFault::Module(refusal) => refused_module(refusal),
        HostFault::Call(fault) => Some(refused_call(fault)),
        HostFault::Range => Some(RefusedObject::Call("out of range")),
        HostFault::Record(fault) => refused_record(fault),
        HostFault::Replay(fault) => refused_replay(fault),
        HostFault::NoMemory => None,
    }
}
