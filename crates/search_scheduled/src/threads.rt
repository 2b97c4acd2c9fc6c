//! What a run begins with: its threads before their first turn, and the memory.
ghost use Rattle.std.specs.Prelude.{◌≡◌, ℕ, [], None, length, IfErr, IfOk, OnOk};
ghost use Rattle.types.specs.declared.parts.Parts.{Parts};
ghost use Rattle.types.specs.declared.limits.TheConstants.{MOST_SPAWNED};
ghost use Rattle.interp.specs.Threads.{meaning_in};
ghost use Rattle.spawn_host.specs.Entries.{StartsThreads};
ghost use Rattle.spawn_host.specs.Runs.{opening_memory};
ghost use Rattle.replay.specs.Threads.{AreSpares, AreOthers, AreThreadsFor};
ghost use Rattle.search_scheduled.specs.SpareThreads.{HoldsImage, HoldsSpares, TakesBack};

use crate::fault::SearchFault;
use interp::Thread;
use shared_memory_sequential::OneMemory;
use spawn_host::{Request, first_thread, spawnable_threads};
use std::alloc::{AllocError, Global};
use types::MOST_SPAWNED;
use validate_module::ValidModule;

/// What the runs of a module leave for the next one. Its threads are some that can be spawned and that no run has
/// started: a run takes 63 of them, and those that it didn't start come back, so that hardly more threads are made than
/// are started. Its image has the bytes of the memory before the first instruction, once a run has begun.
#[derive(Drop)]
pub struct Spares<'m> {
    pub threads: Vec<Thread<'m>>,
    pub image: Option<Vec<u8>>,
}

impl<'m> Spares<'m> {
    /// Nothing yet.
    pub fn new(alloc: Global) -> Spares<'m>
        ensures none { (result.threads.items ≡ []) × (result.image ≡ None) }
        ensures spares { (m : Parts) (budget : ℕ) → HoldsSpares m budget result }
    {
        Spares {
            threads: Vec::new(alloc),
            image: None,
        }
    }

    /// Takes back the threads that a run of the module didn't start.
    pub(crate) fn take_back(
        &mut self,
        module: &ValidModule,
        unused: Vec<Thread<'m>>,
    ) -> Result<(), AllocError>
        ensures { TakesBack «module».now.parts self.old unused.entry.items self.new result }
    {
        if !module.starts_threads() {
            return Ok(());
        }
        let mut unused = unused;
        self.threads.append(&mut unused)?;
        Ok(())
    }
}

/// Takes 63 of the threads that can be spawned. Where there are fewer, 63 more are made before.
fn take<'m>(
    alloc: Global,
    module: &'m ValidModule,
    fuel: u64,
    spares: &mut Vec<Thread<'m>>,
) -> Result<Vec<Thread<'m>>, AllocError>
    requires starts { StartsThreads «module».now.parts }
    requires spares { AreSpares meaning_in «module».now.parts fuel spares.old.items }
    ensures count { IfOk result (λ taken. length taken.items ≡ MOST_SPAWNED) }
    ensures taken { IfOk result (λ taken. AreSpares meaning_in «module».now.parts fuel taken.items) }
    ensures left { OnOk result (AreSpares meaning_in «module».now.parts fuel spares.new.items) }
{
    if spares.len() < MOST_SPAWNED {
        let mut more = spawnable_threads(alloc, module, fuel)?;
        spares.append(&mut more)?;
    }
    let kept = spares.len() - MOST_SPAWNED;
    spares.split_off(kept)
}

/// The threads that can be spawned, where the module can start threads, and else none.
fn others_of<'m>(
    alloc: Global,
    module: &'m ValidModule,
    fuel: u64,
    spares: &mut Vec<Thread<'m>>,
) -> Result<Vec<Thread<'m>>, AllocError>
    requires { AreSpares meaning_in «module».now.parts fuel spares.old.items }
    ensures others { IfOk result (λ others. AreOthers meaning_in «module».now.parts fuel others.items) }
    ensures spares { OnOk result (AreSpares meaning_in «module».now.parts fuel spares.new.items) }
{
    if module.starts_threads() {
        return take(alloc, module, fuel, spares);
    }
    Ok(Vec::new(alloc))
}

/// Thread 0, which is about to make the call, and behind it those that can be spawned.
pub(crate) fn threads_of<'m>(
    alloc: Global,
    request: &Request<'m, '_>,
    spares: &mut Vec<Thread<'m>>,
) -> Result<Vec<Thread<'m>>, AllocError>
    requires { AreSpares meaning_in request.now.parts request.now.fuel spares.old.items }
    ensures threads { IfOk result (λ threads. AreThreadsFor meaning_in request.now threads.items) }
    ensures spares { OnOk result (AreSpares meaning_in request.now.parts request.now.fuel spares.new.items) }
{
    let first = first_thread(alloc, request)?;
    let mut threads = others_of(alloc, request.module(), request.call().fuel, spares)?;
    threads.insert(0, first)?;
    Ok(threads)
}

/// The memory of a module before the first instruction. Its bytes are kept for the next run.
pub(crate) fn opening(
    alloc: Global,
    module: &ValidModule,
    kept: &mut Option<Vec<u8>>,
) -> Result<OneMemory, SearchFault>
    requires { HoldsImage «module».now.parts kept.old }
    ensures memory { IfOk result (λ memory. memory ≡ opening_memory «module».now.parts) }
    ensures fault { IfErr result (λ fault. fault ≡ SearchFault.NoMemory) }
    ensures kept { OnOk result (HoldsImage «module».now.parts kept.new) }
{
    let image = match kept.take() {
        Some(image) => image,
        None => module.image(alloc)?,
    };
    let opened = OneMemory::open(alloc, &image, module.pages_max());
    *kept = Some(image);
    match opened {
        Ok(memory) => Ok(memory),
        Err(_) => Err(SearchFault::NoMemory),
    }
}
