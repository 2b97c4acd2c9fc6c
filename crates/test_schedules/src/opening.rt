//! The scheduled machine of a module, before its first mark.
ghost use Rattle.std.specs.Prelude.{◌≡◌, ◌≤◌, ◌+◌, All, IfOk, length, vec_len, vec_capacity};
ghost use Rattle.schedule_machine.specs.Threads.{Setting};
ghost use Rattle.schedule_program.specs.Threads.{IsPrepared};
ghost use Rattle.test_schedules.specs.Machines.{AddsAbsent, IsMachineOfCall};
ghost use Rattle.interp.specs.Threads.{meaning_in};

use interp::Thread;
use interp_trait::TakesTurns;
use schedule_program::{Machine, Stepped};
use shared_memory_sequential::{OneMemory, OpenFault};
use spawn_host::{Call, CallFault, Request, first_thread, spawnable_threads};
use std::alloc::{AllocError, Global};
use thiserror::Error;
use types::MOST_THREADS;
use validate_module::ValidModule;

/// Why there is no machine.
#[derive(Clone, Copy, PartialEq, Eq, Debug, Error)]
pub enum MachineFault {
    /// A run of the function with the arguments couldn't begin either.
    #[error("run: {0}")]
    Run(CallFault),
    /// The memory couldn't be opened.
    #[error("open: {0}")]
    Open(OpenFault),
    /// The system had too little memory left.
    #[error("no memory")]
    NoMemory,
}

impl From<CallFault> for MachineFault {
    fn from(fault: CallFault) -> MachineFault {
        MachineFault::Run(fault)
    }
}

impl From<OpenFault> for MachineFault {
    fn from(fault: OpenFault) -> MachineFault {
        MachineFault::Open(fault)
    }
}

impl From<AllocError> for MachineFault {
    fn from(_: AllocError) -> MachineFault {
        MachineFault::NoMemory
    }
}

/// Puts threads that aren't started behind those that are there.
fn add_absent<T: TakesTurns + Drop>(threads: &mut Vec<Stepped<T>>, mut spawned: Vec<T>)
    requires room { vec_len threads.old + vec_len spawned ≤ vec_capacity threads.old }
    requires prepared { (s : Setting) × All (IsPrepared T.meaning s) spawned.items }
    ensures count { length threads.new.items ≡ length threads.old.items + length spawned.items }
    ensures threads { AddsAbsent T.meaning spawned.items threads.old.items threads.new.items }
{
    while let Some(thread) = spawned.pop() {
        threads.push_reserved(Stepped::absent(thread));
    }
}

/// The scheduled machine of a run of an exported function of a module with arguments, before its first mark. Each
/// thread has the budget of the call.
///
/// # Errors
/// `Run` where a run couldn't begin: no function is exported under the name, or the arguments don't fit it. `Open`
/// where the memory can't be opened. `NoMemory`.
pub fn machine_of<'m>(
    alloc: Global,
    module: &'m ValidModule,
    call: Call,
) -> Result<Machine<Thread<'m>>, MachineFault>
    ensures { IfOk result (IsMachineOfCall meaning_in «module».now.parts call.entry) }
{
    let request = Request::new(module, call)?;
    let first = first_thread(alloc, &request)?;
    let image = module.image(alloc)?;
    let memory = OneMemory::open(alloc, &image, module.pages_max())?;
    let mut threads = Vec::with_capacity(alloc, MOST_THREADS)?;
    threads.push_reserved(Stepped::running(first));
    if !module.starts_threads() {
        return Ok(Machine::new(threads, memory));
    }
    let spawned = spawnable_threads(alloc, module, call.fuel)?;
    add_absent(&mut threads, spawned);
    Ok(Machine::new(threads, memory))
}
