//! An instance of a module.
ghost use Rattle.std.specs.Prelude.{◌≡◌, length, IfOk, IfErr};
ghost use Rattle.host_calls.specs.Hosts.{AreEndings, IsPlannedRun, IsRefusedCall, IsRefusedReplay, IsRefusedRun};
ghost use Rattle.host_calls.specs.Hosts.{IsSavedRun};
ghost use Rattle.host_instances.specs.Instances.{can_be_set, first_of, left_by, lies_within, module_of, read_at, set_to};
ghost use Rattle.host_instances.specs.Instances.{CanHave, written_at};
ghost use Rattle.replay_text.specs.Text.{IsRecord};
ghost use Rattle.validate_typing.specs.Validity.{IsValid};
ghost use Rattle.validate_typing.specs.Image.{opening_image, opening_pages};

use crate::module::KeptModule;
use crate::opening::opened;
use host_calls::{HostFault, Plan, endings_of_module, replay_of_module, run_of_module};
use search_endings::Ending;
use search_modules::Ended;
use search_scheduled::MadeRun;
use spawn_host::EndState;
use std::alloc::{AllocError, Global};
use std::marker::Model;
use types::{PAGE_SIZE, Value};
use validate_module::ValidModule;

/// A module with a memory that stays between calls.
///
/// In contracts it is the module's parts, and the memory's pages and bytes.
#[derive(Drop)]
pub struct Instance {
    module: KeptModule,
    pages: u32,
    bytes: Vec<u8>,
}

impl Model for Instance {
    ghost use Rattle.host_instances.specs.Instances.{CanHave, Instanced};

    ghost Value = { Instanced };

    ghost view = { λ i. record { parts = i.«module»; pages = i.pages; bytes = i.bytes.items } };

    ghost invariant = { λ i. CanHave i.«module» i.pages i.bytes.items };
}

/// The memory with which a valid module begins is one that it can have. It does nothing else.
fn show_first_memory(module: &ValidModule)
    ensures { let m = «module».now.parts in CanHave m (opening_pages m) (opening_image m) }
{
    let _parts = module.parts();
}

/// The parts of a run's record are in the ranges of one. It does nothing else.
fn show_record(made: &MadeRun)
    ensures { IsRecord made.now.record }
{
    let _parts = made.record.parts();
}

impl Instance {
    /// The instance whose memory is the one with which the module begins.
    pub(crate) fn first(alloc: Global, module: KeptModule) -> Result<Instance, AllocError>
        ensures { IfOk result (λ i. i ≡ first_of «module») }
    {
        let valid = module.valid();
        show_first_memory(valid);
        let (pages, bytes) = (valid.opening_pages(), valid.image(alloc)?);
        Ok(Instance {
            module,
            pages,
            bytes,
        })
    }

    /// The memory's pages.
    pub fn pages(&self) -> u32
        ensures { result ≡ self.now.pages }
    {
        self.pages
    }

    /// The memory's bytes, all of them.
    pub fn bytes(&self) -> &[u8]
        ensures { result.now ≡ self.now.bytes }
    {
        &self.bytes
    }

    /// Whether so many bytes from an address on lie within the memory.
    fn lies_within(&self, addr: u32, count: usize) -> bool
        ensures { result ≡ lies_within self.now addr count }
    {
        count <= self.bytes.len() && addr as usize <= self.bytes.len() - count
    }

    /// Reads bytes from an address on. Answers whether all lie within the memory; else nothing is read.
    pub fn read(&self, addr: u32, into: &mut [u8]) -> bool
        ensures within { result ≡ lies_within self.now addr (length into.old) }
        ensures bytes { into.new ≡ read_at self.now addr into.old }
    {
        let (from, count) = (addr as usize, into.len());
        if !self.lies_within(addr, count) {
            return false;
        }
        into.copy_from_slice(&self.bytes[from..from + count]);
        true
    }

    /// Writes bytes from an address on. Answers whether all lie within the memory; else nothing is written.
    pub fn write(&mut self, addr: u32, bytes: &[u8]) -> bool
        ensures within { result ≡ lies_within self.old addr (length bytes.now) }
        ensures written { self.new ≡ written_at self.old addr bytes.now }
    {
        let (from, count) = (addr as usize, bytes.len());
        if !self.lies_within(addr, count) {
            return false;
        }
        self.bytes[from..from + count].copy_from_slice(bytes);
        true
    }

    /// Makes bytes the whole memory, which has as many pages then. Answers whether they can be that: they are whole
    /// pages, as many as the module's memory can have, and no fewer than it has at first; else the memory stays.
    ///
    /// # Errors
    /// Where memory is refused; the instance stays.
    pub fn set(&mut self, alloc: Global, bytes: &[u8]) -> Result<bool, AllocError>
        ensures can { IfOk result (λ can. can ≡ can_be_set self.old.parts (length bytes.now)) }
        ensures set { IfOk result (λ can. self.new ≡ set_to self.old bytes.now) }
        ensures stays { IfErr result (λ e. self.new ≡ self.old) }
    {
        let (pages, valid) = (bytes.len() / PAGE_SIZE, self.module.valid());
        let (least, most) = (valid.opening_pages() as usize, valid.pages_max() as usize);
        if bytes.len() % PAGE_SIZE != 0 || pages < least || most < pages {
            return Ok(false);
        }
        self.bytes = Vec::from_slice(alloc, bytes)?;
        self.pages = pages as u32;
        Ok(true)
    }

    /// Its module is valid, and can have its memory. It does nothing else.
    fn show_memory(&self)
        ensures valid { IsValid self.now.parts }
        ensures can { CanHave self.now.parts self.now.pages self.now.bytes }
    {
        let _parts = self.module.valid().parts();
    }

    /// The module that begins with the instance's memory.
    fn opened(&self, alloc: Global) -> Result<ValidModule, HostFault>
        ensures opened { IfOk result (λ v. v.parts ≡ module_of self.now) }
        ensures fault { IfErr result (λ fault. fault ≡ HostFault.NoMemory) }
    {
        opened(alloc, self.module.valid(), self.pages, &self.bytes)
    }

    /// The run of a plan's number that begins with the instance's memory: an exported function of the module is called
    /// with these arguments. The instance stays; `keep` makes it what the run left.
    ///
    /// # Errors
    /// `Range` only where a number of the plan is out of its range, `Call` only where the module has no such call;
    /// `NoMemory`.
    pub fn run(
        &self,
        alloc: Global,
        name: &str,
        args: &[Value],
        plan: &Plan,
    ) -> Result<MadeRun, HostFault>
        ensures run { IfOk result (IsPlannedRun (module_of self.now) name.now args.now plan.now) }
        ensures fault { IfErr result (IsRefusedRun (module_of self.now) name.now args.now plan.now) }
        ensures fits { IfOk result (λ made. CanHave self.now.parts made.end.pages made.end.bytes.items) }
    {
        let module = self.opened(alloc)?;
        let made = run_of_module(alloc, &module, name, args, plan)?;
        self.show_memory();
        show_record(&made);
        Ok(made)
    }

    /// What the run left that a record is of, of a call that began with the instance's memory. The instance stays;
    /// `keep` makes it what the run left.
    ///
    /// # Errors
    /// `Record` only where the bytes spell no record, and `Replay` only where they spell one that is of no run of the
    /// module with this memory; `NoMemory`.
    pub fn replay(&self, alloc: Global, record: &[u8]) -> Result<EndState, HostFault>
        ensures run { IfOk result (IsSavedRun (module_of self.now) «record».now) }
        ensures fault { IfErr result (IsRefusedReplay (module_of self.now) «record».now) }
        ensures fits { IfOk result (λ end. CanHave self.now.parts end.pages end.bytes.items) }
    {
        let module = self.opened(alloc)?;
        self.show_memory();
        replay_of_module(alloc, &module, record)
    }

    /// All endings of a call that begins with the instance's memory, as `host_calls::endings_of` tells them.
    ///
    /// # Errors
    /// `Call` only where the module has no such call; `NoMemory`.
    pub fn endings(
        &self,
        alloc: Global,
        name: &str,
        args: &[Value],
        most_states: u32,
        dump: u32,
    ) -> Result<Ended<Ending>, HostFault>
        ensures found { IfOk result (AreEndings (module_of self.now) name.now args.now most_states dump) }
        ensures fault { IfErr result (IsRefusedCall (module_of self.now) name.now args.now) }
    {
        let module = self.opened(alloc)?;
        endings_of_module(alloc, &module, name, args, most_states, dump)
    }

    /// Makes the memory what a run left.
    pub fn keep(&mut self, end: EndState)
        requires { CanHave self.old.parts end.pages end.bytes.items }
        ensures { self.new ≡ left_by end self.old }
    {
        self.pages = end.pages;
        self.bytes = end.bytes;
    }
}
