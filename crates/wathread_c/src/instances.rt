//! Instances, and their memories.
ghost use Rattle.std.specs.Prelude.{◌≡◌, None, Some, length};
ghost use Rattle.std.specs.Prelude.{if◌then◌else◌};
ghost use Rattle.host_instances.specs.Instances.{first_of};
ghost use Rattle.wathread_c.specs.Kept.{Begins, Holds, pages_in, Reads, Sets, Writes};

use crate::instance_handle::InstanceHandle;
use crate::module_handle::ModuleHandle;
use host_instances::KeptModule;
use std::alloc::Global;

/// A handle of an instance of a module.
fn begin(alloc: Global, held: &KeptModule, to: &mut InstanceHandle) -> u32
    requires { to.old.slot.held ≡ None }
    ensures { Holds (first_of held.now) to.new.slot.held result }
{
    let Ok(instance) = held.instance(alloc) else {
        return 5;
    };
    let Ok(held) = Box::new(alloc, instance) else {
        return 5;
    };
    *to = InstanceHandle::open(held);
    0
}

/// Opens a handle of an instance of a module, whose memory is the one with which the module begins; what the handle held
/// before is freed. Answers the status: 0, 3 where the module's handle is closed, 5 where memory is refused.
#[unsafe(no_mangle)]
pub extern "C" fn wathread_instance_open(
    alloc: Global,
    module: &mut ModuleHandle,
    to: &mut InstanceHandle,
) -> u32
    ensures begins { Begins «module».old.slot.held to.new.slot.held result }
    ensures stays { «module».new.slot.held ≡ «module».old.slot.held }
{
    drop(to.take(alloc));
    let Some(held) = module.take(alloc) else {
        return 3;
    };
    let status = begin(alloc, &held, to);
    *module = ModuleHandle::open(held);
    status
}

/// Closes a handle: frees the instance.
#[unsafe(no_mangle)]
pub extern "C" fn wathread_instance_free(alloc: Global, instance: &mut InstanceHandle)
    ensures { instance.new.slot.held ≡ None }
{
    drop(instance.take(alloc));
}

/// How many pages the memory of an instance has; 0 where the handle is closed.
#[unsafe(no_mangle)]
pub extern "C" fn wathread_instance_pages(alloc: Global, instance: &mut InstanceHandle) -> u32
    ensures pages { result ≡ pages_in instance.old.slot.held }
    ensures stays { instance.new.slot.held ≡ instance.old.slot.held }
{
    let Some(held) = instance.take(alloc) else {
        return 0;
    };
    let pages = held.pages();
    *instance = InstanceHandle::open(held);
    pages
}

/// The status of what was done within the bounds, or wasn't: 0 or 3.
fn status_within(is_within: bool) -> u32
    ensures { result ≡ (if is_within then 0 else 3) }
{
    if is_within { 0 } else { 3 }
}

/// Reads bytes of an instance's memory, from an address on. Answers the status: 0, or 3 where not all lie within it or
/// the handle is closed, and then nothing is read.
#[unsafe(no_mangle)]
pub extern "C" fn wathread_instance_read(
    alloc: Global,
    instance: &mut InstanceHandle,
    addr: u32,
    bytes: &mut [u8],
) -> u32
    ensures reads { Reads instance.old.slot.held addr bytes.old bytes.new result }
    ensures stays { instance.new.slot.held ≡ instance.old.slot.held }
{
    let Some(held) = instance.take(alloc) else {
        return 3;
    };
    let is_within = held.read(addr, bytes);
    *instance = InstanceHandle::open(held);
    status_within(is_within)
}

/// Writes bytes into an instance's memory, from an address on. Answers the status: 0, or 3 where not all lie within it
/// or the handle is closed, and then nothing is written.
#[unsafe(no_mangle)]
pub extern "C" fn wathread_instance_write(
    alloc: Global,
    instance: &mut InstanceHandle,
    addr: u32,
    bytes: &[u8],
) -> u32
    ensures { Writes instance.old.slot.held instance.new.slot.held addr bytes.now result }
{
    let Some(mut held) = instance.take(alloc) else {
        return 3;
    };
    let is_within = held.write(addr, bytes);
    *instance = InstanceHandle::open(held);
    status_within(is_within)
}

/// Makes bytes the whole memory of an instance, which has as many pages then. Answers the status: 0; 3 where they aren't
/// whole pages, fewer than the memory has at first or more than it can have, or the handle is closed; 5 where memory is
/// refused. Where it isn't 0, the memory stays.
#[unsafe(no_mangle)]
pub extern "C" fn wathread_instance_set(
    alloc: Global,
    instance: &mut InstanceHandle,
    bytes: &[u8],
) -> u32
    ensures { Sets instance.old.slot.held instance.new.slot.held bytes.now result }
{
    let Some(mut held) = instance.take(alloc) else {
        return 3;
    };
    let set = held.set(alloc, bytes);
    *instance = InstanceHandle::open(held);
    match set {
        Ok(can) => status_within(can),
        Err(_) => 5,
    }
}
