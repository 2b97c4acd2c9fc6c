//! The run of a module of one atomic add, from its bytes to printed lines.
ghost use Rattle.std.specs.Prelude.{◌≡◌, ◌<◌, ◌↔◌, [], IfOk, IsErrOf, codes};
ghost use Rattle.std.specs.Option.{MatchOption};
ghost use Rattle.binary_wire.specs.Reading.{Refuses};
ghost use Rattle.spawn_host.specs.Faults.{IsFaultOf};
ghost use Rattle.spawn_host.specs.declared.running.RunFault.TheVariants as faults;
ghost use Rattle.report_runs.specs.RunFaults.{IsRecordingFault};
ghost use Rattle.report_first.specs.First.{first_parts, IsFirstModule, IsNoFirstModule};
ghost use Rattle.report_first.specs.Laws.{IsFirstEnd};
ghost use Rattle.report_first.specs.declared.bytes_to_lines.TheConstants.{LIMIT};
ghost use Rattle.report_first.specs.Printed.{IsFirstRun, first_fault_number};

use binary::read;
use binary_wire::ReadFault;
use interp_trait::OpenGate;
use report_lines::write_run;
use report_runs::{Call, EndState, RecordRunFault, record_run};
use shared_memory_sequential::OpenFault;
use spawn_host::RunFault;
use spawn_host_workers::StartFault;
use std::alloc::{AllocError, Global};
use std::io::Write;
use std::sync::Wait;
use std::thread::Threads;
use thiserror::Error;
use types::Module;
use validate::{ValidModule, validate};
use validate_typing::ValidFault;

/// Why nothing came of the bytes.
#[derive(Clone, Copy, PartialEq, Eq, Debug, Error)]
pub enum FirstFault {
    /// 1: they are none of the modules of one atomic add.
    #[error("no module of one atomic add")]
    NotHere,
    /// 2: the system had too little memory left.
    #[error("no memory")]
    Memory,
    /// 3: the writer failed.
    #[error("the writer failed")]
    Writer,
}

impl FirstFault {
    /// The fault's number, 1 to 3.
    pub fn number(self) -> u8
        ensures { result ≡ first_fault_number self }
    {
        match self {
            FirstFault::NotHere => 1,
            FirstFault::Memory => 2,
            FirstFault::Writer => 3,
        }
    }
}

/// Such a module, with zeros for the address and the addend.
const MODULE: [u8; 46] = [
    0x00, 0x61, 0x73, 0x6d, 0x01, 0x00, 0x00, 0x00, // magic and version
    0x01, 0x05, 0x01, 0x60, 0x00, 0x01, 0x7f, // a type: [] to [i32]
    0x03, 0x02, 0x01, 0x00, // a function of it
    0x05, 0x04, 0x01, 0x03, 0x01, 0x01, // one shared page
    0x07, 0x05, 0x01, 0x01, 0x66, 0x00, 0x00, // exported as f
    0x0a, 0x0c, 0x01, 0x0a, 0x00, // its code:
    0x41, 0x00, 0x41, 0x00, 0xfe, 0x1e, 0x02, 0x00, 0x0b, // two constants, i32.atomic.rmw.add, end
];

/// Where the address and the addend stand.
const ADDRESS: usize = 38;

const ADDEND: usize = 40;

/// The budget and the limit of the log, as the program has them where none are given.
const FUEL: u64 = 1_000_000_000;

const LIMIT: u32 = 100_000;

/// The address and the addend of such a module.
fn operands(bytes: &[u8]) -> Option<(u8, u8)>
    ensures { MatchOption result (IsNoFirstModule bytes.now) (λ p. IsFirstModule bytes.now p.0 p.1) }
{
    if bytes.len() != 46 {
        return None;
    }
    let address = bytes[ADDRESS];
    let addend = bytes[ADDEND];
    let mut module = MODULE;
    module[ADDRESS] = address;
    module[ADDEND] = addend;
    if address < 64 && addend < 64 && bytes == module.as_slice() {
        Some((address, addend))
    } else {
        None
    }
}

/// The bytes spell a module, so that nothing is left but want of memory.
fn unread(fault: ReadFault) -> AllocError
    requires { Refuses fault → ⊥ }
{
    match fault {
        ReadFault::OutOfMemory => AllocError,
        ReadFault::Malformed { .. } => unreachable!(),
    }
}

/// The module that the bytes spell.
fn read_first(alloc: Global, bytes: &[u8], address: u8, addend: u8) -> Result<Module, AllocError>
    requires { IsFirstModule bytes.now address addend }
    ensures { IfOk result (λ found. found ≡ first_parts address addend) }
{
    match read(alloc, bytes) {
        Ok(module) => Ok(module),
        Err(fault) => Err(unread(fault)),
    }
}

/// The module is valid, so that nothing is left but want of memory.
fn invalid(fault: ValidFault) -> AllocError
    requires { fault ≡ ValidFault.OutOfMemory }
{
    match fault {
        ValidFault::OutOfMemory => AllocError,
        ValidFault::Outside(_) | ValidFault::InBody { .. } => unreachable!(),
    }
}

/// The module that the bytes spell, validated.
fn load_first(
    alloc: Global,
    bytes: &[u8],
    address: u8,
    addend: u8,
) -> Result<ValidModule, AllocError>
    requires { IsFirstModule bytes.now address addend }
    ensures { IfOk result (λ valid. valid.parts ≡ first_parts address addend) }
{
    let module = read_first(alloc, bytes, address, addend)?;
    match validate(alloc, module) {
        Ok(valid) => Ok(valid),
        Err(fault) => Err(invalid(fault)),
    }
}

/// The log's limit is in its range, so that nothing is left but want of memory.
fn unopened(fault: OpenFault) -> AllocError
    requires { fault ≡ OpenFault.PastLimit → ⊥ }
{
    match fault {
        OpenFault::NoMemory => AllocError,
        OpenFault::PastLimit => unreachable!(),
    }
}

/// It starts no thread, so that nothing is left but want of memory.
fn not_started(fault: StartFault, address: u8, addend: u8) -> AllocError
    requires { IsFaultOf (first_parts address addend) (codes "f") [] (faults.Start fault) }
{
    match fault {
        StartFault::NoMemory => AllocError,
        StartFault::NoThread => unreachable!(),
    }
}

/// The module has the function, which takes no arguments.
fn not_begun(fault: RunFault, address: u8, addend: u8) -> AllocError
    requires { IsFaultOf (first_parts address addend) (codes "f") [] fault }
{
    match fault {
        RunFault::Start(fault) => not_started(fault, address, addend),
        RunFault::Call(_) => unreachable!(),
    }
}

/// Why there was no run: want of memory.
fn not_run(fault: RecordRunFault, address: u8, addend: u8) -> AllocError
    requires { IsRecordingFault (first_parts address addend) (codes "f") [] LIMIT fault }
{
    match fault {
        RecordRunFault::Open(fault) => unopened(fault),
        RecordRunFault::Run(fault) => not_begun(fault, address, addend),
        RecordRunFault::NoMemory => AllocError,
    }
}

/// Runs such a module once it is validated.
fn run_valid<R>(
    rt: &R,
    alloc: Global,
    valid: &ValidModule,
    address: u8,
    addend: u8,
) -> Result<EndState, AllocError>
where
    R: Threads + Wait + Sync,
    requires parts { valid.now.parts ≡ first_parts address addend }
    requires address_below { address < 64 }
    requires addend_below { addend < 64 }
    ensures { IfOk result (IsFirstEnd address addend) }
{
    let call = Call {
        name: "f",
        args: &[],
        fuel: FUEL,
    };
    match record_run(rt, alloc, valid, call, LIMIT, &mut OpenGate) {
        Ok((_, end)) => Ok(end),
        Err(fault) => Err(not_run(fault, address, addend)),
    }
}

/// Runs such a module, as the program does where nothing else is asked for.
fn run_first<R>(
    rt: &R,
    alloc: Global,
    bytes: &[u8],
    address: u8,
    addend: u8,
) -> Result<EndState, AllocError>
where
    R: Threads + Wait + Sync,
    requires { IsFirstModule bytes.now address addend }
    ensures { IfOk result (IsFirstEnd address addend) }
{
    let valid = load_first(alloc, bytes, address, addend)?;
    run_valid(rt, alloc, &valid, address, addend)
}

/// Runs a module of one atomic add, and writes the lines of its thread, of the page count, and of the first `dump`
/// bytes (of all, if there are fewer; no line where `dump` is 0). Answers the program's status: 0, or 1 for a trap.
///
/// The modules are the 4,096 of 46 bytes whose function adds a number below 64 to the i32 at an address below 64 of a
/// shared page, and answers the value before. An address that 4 doesn't divide traps, with no access. They are read,
/// validated, run over the memory that records, and printed by the calls that serve every module.
///
/// # Errors
/// `NotHere` exactly where the bytes are none of these modules, and then nothing is written; `Memory` where memory is
/// refused, and then nothing is written; `Writer` where the writer fails, and then what was written isn't said.
pub fn first<R, W>(
    rt: &R,
    alloc: Global,
    bytes: &[u8],
    dump: u32,
    out: &mut W,
) -> Result<u8, FirstFault>
where
    R: Threads + Wait + Sync,
    W: Write,
    ensures runs { IfOk result (λ status. IsFirstRun bytes.now dump status (W.contents out.old) (W.contents out.new)) }
    ensures not_here { IsErrOf result FirstFault.NotHere ↔ IsNoFirstModule bytes.now }
    ensures quiet { IsErrOf result FirstFault.NotHere → out.new ≡ out.old }
    ensures no_memory { IsErrOf result FirstFault.Memory → out.new ≡ out.old }
{
    let Some((address, addend)) = operands(bytes) else {
        return Err(FirstFault::NotHere);
    };
    let Ok(end) = run_first(rt, alloc, bytes, address, addend) else {
        return Err(FirstFault::Memory);
    };
    match write_run(out, &end.threads, end.pages, dump, &end.bytes) {
        Ok(status) => Ok(status),
        Err(_) => Err(FirstFault::Writer),
    }
}
