//! The calls of a host: of a valid module, and of the one that bytes spell.
ghost use Rattle.std.specs.Prelude.{◌≡◌, IfOk, IfErr};
ghost use Rattle.host_calls.specs.Hosts.{IsCallFaultOf, IsFaultOf, IsModuleFault, IsReplayFault, IsReplayOf, IsRunBy};
ghost use Rattle.host_calls.specs.Hosts.{HasEndings, HasFunctions};
ghost use Rattle.host_calls.specs.Hosts.{AreEndings, IsPlannedRun, IsRefusedCall, IsRefusedReplay, IsRefusedRun};
ghost use Rattle.host_calls.specs.Hosts.{IsSavedRun};

use crate::fault::{HostFault, refused};
use crate::plan::Plan;
use crate::requests::{module_of, request_of};
use replay::{ReplayFault, replay};
use replay_text::{RecordFault, read_record};
use report_jobs::load_checked;
use search_endings::Ending;
use search_finds::run_of_number;
use search_modules::{Ended, all_endings};
use search_reach::{SearchOrder, SearchPlan};
use search_scheduled::MadeRun;
use spawn_host::{Call, EndState};
use std::alloc::Global;
use types::Value;
use validate_module::ValidModule;

/// How many functions of its own the valid module has that the bytes spell.
///
/// # Errors
/// `Module` only where they spell none; `NoMemory`.
pub fn functions_of(alloc: Global, module: &[u8]) -> Result<usize, HostFault>
    ensures count { IfOk result (λ count. HasFunctions «module».now count) }
    ensures fault { IfErr result (IsModuleFault «module».now) }
{
    match load_checked(alloc, module) {
        Ok(module) => Ok(module.parts().functions.len()),
        Err(refusal) => Err(refused(refusal)),
    }
}

/// The run of a plan's number: an exported function of the module is called with these arguments, and whenever more
/// than one thread can go on, the strategy says who does. It makes no thread of the system.
///
/// # Errors
/// `Range` only where a number of the plan is out of its range, `Call` only where the module has no such call;
/// `NoMemory`.
pub fn run_of_module(
    alloc: Global,
    module: &ValidModule,
    name: &str,
    args: &[Value],
    plan: &Plan,
) -> Result<MadeRun, HostFault>
    ensures run { IfOk result (IsPlannedRun «module».now.parts name.now args.now plan.now) }
    ensures fault { IfErr result (IsRefusedRun «module».now.parts name.now args.now plan.now) }
{
    if !plan.is_in_range() {
        return Err(HostFault::Range);
    }
    let fuel = plan.fuel;
    let request = request_of(module, Call { name, args, fuel })?;
    match run_of_number(alloc, &request, &plan.sought(), plan.run) {
        Ok(made) => Ok(made),
        Err(_) => Err(HostFault::NoMemory),
    }
}

/// The same of the module that bytes spell.
///
/// # Errors
/// `Module` only where they spell no valid module, `Call` only where they spell one that has no such call, `Range` only
/// where a number of the plan is out of its range; `NoMemory`.
pub fn run_of(
    alloc: Global,
    module: &[u8],
    name: &str,
    args: &[Value],
    plan: &Plan,
) -> Result<MadeRun, HostFault>
    ensures run { IfOk result (IsRunBy «module».now name.now args.now plan.now) }
    ensures fault { IfErr result (IsFaultOf «module».now name.now args.now plan.now) }
{
    let valid = module_of(alloc, module)?;
    run_of_module(alloc, &valid, name, args, plan)
}

/// What the run left that the record is of.
///
/// # Errors
/// `Record` only where the bytes spell no record, and `Replay` only where they spell one that is of no run of the
/// module; `NoMemory`.
pub fn replay_of_module(
    alloc: Global,
    module: &ValidModule,
    record: &[u8],
) -> Result<EndState, HostFault>
    ensures run { IfOk result (IsSavedRun «module».now.parts «record».now) }
    ensures fault { IfErr result (IsRefusedReplay «module».now.parts «record».now) }
{
    let read = match read_record(alloc, record) {
        Ok(read) => read,
        Err(RecordFault::NoMemory) => return Err(HostFault::NoMemory),
        Err(fault) => return Err(HostFault::Record(fault)),
    };
    match replay(alloc, module, &read) {
        Ok(end) => Ok(end),
        Err(ReplayFault::NoMemory) => Err(HostFault::NoMemory),
        Err(fault) => Err(HostFault::Replay(fault)),
    }
}

/// The same of the module that bytes spell.
///
/// # Errors
/// `Module` only where they spell no valid module; `Record` only where those of the record spell none, and `Replay` only
/// where they spell one that is of no run of the module; `NoMemory`.
pub fn replay_of(alloc: Global, module: &[u8], record: &[u8]) -> Result<EndState, HostFault>
    ensures run { IfOk result (IsReplayOf «module».now «record».now) }
    ensures fault { IfErr result (IsReplayFault «module».now «record».now) }
{
    let valid = module_of(alloc, module)?;
    replay_of_module(alloc, &valid, record)
}

/// All endings of a call, each with so many first bytes of the memory: its threads are gone through in every order of
/// their entries, until there are no more states, or more than `most_states` were met.
///
/// # Errors
/// `Call` only where the module has no such call; `NoMemory`.
pub fn endings_of_module(
    alloc: Global,
    module: &ValidModule,
    name: &str,
    args: &[Value],
    most_states: u32,
    dump: u32,
) -> Result<Ended<Ending>, HostFault>
    ensures found { IfOk result (AreEndings «module».now.parts name.now args.now most_states dump) }
    ensures fault { IfErr result (IsRefusedCall «module».now.parts name.now args.now) }
{
    let fuel = 0;
    let request = request_of(module, Call { name, args, fuel })?;
    let plan = SearchPlan {
        order: SearchOrder::Breadth,
        most: most_states,
        sought: (),
    };
    match all_endings(alloc, &request, &plan, dump as usize, &mut ()) {
        Ok(all) => Ok(all),
        Err(_) => Err(HostFault::NoMemory),
    }
}

/// The same of the module that bytes spell.
///
/// # Errors
/// `Module` only where they spell no valid module, `Call` only where they spell one that has no such call; `NoMemory`.
pub fn endings_of(
    alloc: Global,
    module: &[u8],
    name: &str,
    args: &[Value],
    most_states: u32,
    dump: u32,
) -> Result<Ended<Ending>, HostFault>
    ensures found { IfOk result (HasEndings «module».now name.now args.now most_states dump) }
    ensures fault { IfErr result (IsCallFaultOf «module».now name.now args.now) }
{
    let valid = module_of(alloc, module)?;
    endings_of_module(alloc, &valid, name, args, most_states, dump)
}
