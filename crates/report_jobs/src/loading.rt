//! A module's bytes, read and validated.
ghost use Rattle.std.specs.Prelude.{IfOk, IfErr};
ghost use Rattle.validate_typing.specs.Validity.{IsValid};
ghost use Rattle.validate_typing.specs.Tabled.{IsValidated};
ghost use Rattle.binary.specs.Grammar.{IsModuleText};
ghost use Rattle.std.specs.Prelude.{◌≡◌};
ghost use Rattle.report_memory.specs.Laid as specified;
ghost use Rattle.report_jobs.specs.Jobs.{IsRefused, IsUnready, IsUnreadyModule, LoadsOver};

use binary::read;
use binary_wire::ReadFault;
use report_command::MemoryFile;
use report_memory::{Unlaid, laid, why_unlaid};
use std::alloc::Global;
use thiserror::Error;
use types::Module;
use validate::{ValidModule, check_module, validate};
use validate_typing::ValidFault;

/// Why bytes give no valid module.
#[derive(Clone, Copy, Debug, PartialEq, Eq, Error)]
pub enum ModuleRefusal {
    /// The bytes are no module's text, or memory ran out.
    #[error("read {0}")]
    Read(ReadFault),
    /// The module isn't valid, or memory ran out.
    #[error("validity {0}")]
    Validity(ValidFault),
}

/// Reads a module in the binary format (Core specification 1.0, chapter 5). A fault other than out of memory comes only
/// where the bytes spell none.
fn read_text(alloc: Global, bytes: &[u8]) -> Result<Module, ModuleRefusal>
    ensures ok { IfOk result (λ m. IsModuleText bytes.now m) }
    ensures err { IfErr result (λ e. IsRefused bytes.now e) }
{
    match read(alloc, bytes) {
        Ok(module) => Ok(module),
        Err(ReadFault::OutOfMemory) => Err(ModuleRefusal::Read(ReadFault::OutOfMemory)),
        Err(ReadFault::Malformed { kind, offset }) => {
            Err(ModuleRefusal::Read(ReadFault::Malformed { kind, offset }))
        }
    }
}

/// Reads a module in the binary format (Core specification 1.0, chapter 5), and validates it (chapter 3).
///
/// The valid module is the one that the bytes spell. A fault of reading other than out of memory comes only where they
/// spell none, and a fault of validity only where they spell one.
pub fn load(alloc: Global, bytes: &[u8]) -> Result<ValidModule, ModuleRefusal>
    ensures ok { IfOk result (λ v. IsModuleText bytes.now v.parts × IsValidated v) }
    ensures err { IfErr result (λ e. IsRefused bytes.now e) }
{
    let module = read_text(alloc, bytes)?;
    match validate(alloc, module) {
        Ok(valid) => Ok(valid),
        Err(fault) => Err(ModuleRefusal::Validity(fault)),
    }
}

/// Reads a module and checks that it is valid, as `load` does, but makes nothing that only a run wants.
pub fn load_checked(alloc: Global, bytes: &[u8]) -> Result<Module, ModuleRefusal>
    ensures ok { IfOk result (λ m. IsModuleText bytes.now m × IsValid m) }
    ensures err { IfErr result (λ e. IsRefused bytes.now e) }
{
    let module = read_text(alloc, bytes)?;
    match check_module(alloc, &module) {
        Ok(()) => Ok(module),
        Err(fault) => {
            drop(module);
            Err(ModuleRefusal::Validity(fault))
        }
    }
}

/// Why there is no module of which a run could be made.
#[derive(Clone, Copy, PartialEq, Eq)]
pub(crate) enum Unready {
    Refused(ModuleRefusal),
    /// The bytes of the file can't be laid over its opening memory.
    Unlaid(Unlaid),
    /// The system had too little memory left.
    NoMemory,
}

/// The valid module with bytes laid over its opening memory, from the address on.
fn lay(alloc: Global, module: Module, addr: u32, over: &[u8]) -> Result<ValidModule, Unready>
    ensures ok { IfOk result (λ v. (v.parts ≡ specified.laid «module» addr over.now) × IsValidated v) }
    ensures err { IfErr result (IsUnreadyModule «module» addr over.now) }
{
    match why_unlaid(alloc, &module, addr, over.len()) {
        Ok(None) => {}
        Ok(Some(why)) => return Err(Unready::Unlaid(why)),
        Err(_) => return Err(Unready::NoMemory),
    }
    let Ok(with_bytes) = laid(alloc, module, addr, over) else {
        return Err(Unready::NoMemory);
    };
    match validate(alloc, with_bytes) {
        Ok(valid) => Ok(valid),
        Err(_) => Err(Unready::NoMemory),
    }
}

/// Reads and validates a module, as `load` does, and lays other bytes over its opening memory, where a file is to be.
pub(crate) fn load_over(
    alloc: Global,
    bytes: &[u8],
    file: Option<MemoryFile>,
    over: &[u8],
) -> Result<ValidModule, Unready>
    ensures ok { IfOk result (LoadsOver bytes.now file.entry over.now) }
    ensures err { IfErr result (IsUnready bytes.now file.entry over.now) }
{
    match file {
        None => match load(alloc, bytes) {
            Ok(valid) => Ok(valid),
            Err(refusal) => Err(Unready::Refused(refusal)),
        },
        Some(file) => match load_checked(alloc, bytes) {
            Ok(module) => lay(alloc, module, file.addr, over),
            Err(refusal) => Err(Unready::Refused(refusal)),
        },
    }
}
