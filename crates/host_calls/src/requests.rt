//! A host's module, and its call of it.
ghost use Rattle.std.specs.Prelude.{IfOk, IfErr};
ghost use Rattle.validate_typing.specs.Tabled.{IsValidated};
ghost use Rattle.binary.specs.Grammar.{IsModuleText};
ghost use Rattle.spawn_host.specs.Requests.{IsRequestOf};
ghost use Rattle.host_calls.specs.Hosts.{IsModuleFault, IsNoCall};

use crate::fault::{HostFault, refused};
use report_jobs::load;
use spawn_host::{Call, Request};
use std::alloc::Global;
use validate_module::ValidModule;

/// The valid module that the bytes spell.
///
/// # Errors
/// `Module` only where they spell none; `NoMemory`.
pub fn module_of(alloc: Global, bytes: &[u8]) -> Result<ValidModule, HostFault>
    ensures ok { IfOk result (λ v. IsModuleText bytes.now v.parts × IsValidated v) }
    ensures fault { IfErr result (IsModuleFault bytes.now) }
{
    match load(alloc, bytes) {
        Ok(valid) => Ok(valid),
        Err(refusal) => Err(refused(refusal)),
    }
}

/// The request for a call.
///
/// # Errors
/// `Call` exactly where it can't be made.
pub(crate) fn request_of<'m, 'a>(
    module: &'m ValidModule,
    call: Call<'a>,
) -> Result<Request<'m, 'a>, HostFault>
    ensures request { IfOk result (IsRequestOf «module».now.parts call.entry) }
    ensures fault { IfErr result
        (IsNoCall «module».now.parts call.entry.name.now call.entry.args.now) }
{
    match Request::new(module, call) {
        Ok(request) => Ok(request),
        Err(fault) => Err(HostFault::Call(fault)),
    }
}
