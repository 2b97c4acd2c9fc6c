//! Modules that stay.
ghost use Rattle.std.specs.Prelude.{◌≡◌, None};
ghost use Rattle.wathread_c.specs.Answers.{no_answer};
ghost use Rattle.wathread_c.specs.Kept.{Holds, MayAccept, Opens, Shares};

use crate::answer::CallAnswer;
use crate::module_handle::ModuleHandle;
use crate::objects::{accepted_line, refuse, tell};
use host_instances::KeptModule;
use std::alloc::Global;

/// Opens the handle of a module, which is told to be accepted.
fn accept(
    alloc: Global,
    kept: KeptModule,
    text: &mut [u8],
    to: &mut ModuleHandle,
    answer: &mut CallAnswer,
) -> u32
    requires none { answer.old ≡ no_answer }
    requires closed { to.old.slot.held ≡ None }
    ensures { MayAccept kept to.new.slot.held text.old text.new answer.new result }
{
    let Ok(line) = accepted_line(alloc, kept.functions()) else {
        return 5;
    };
    let Ok(held) = Box::new(alloc, kept) else {
        return 5;
    };
    *to = ModuleHandle::open(held);
    tell(Ok(line), text, answer)
}

/// Reads and validates a module, and opens a handle of it; what that held before is freed. Answers the status: 0 where
/// the module is accepted, 2 where it is refused, 5 where memory is.
///
/// The object of JSON goes into `text`.
#[unsafe(no_mangle)]
pub extern "C" fn wathread_module_open(
    alloc: Global,
    module: &[u8],
    to: &mut ModuleHandle,
    text: &mut [u8],
    answer: &mut CallAnswer,
) -> u32
    ensures { Opens «module».now to.new.slot.held text.old text.new answer.new result }
{
    *answer = CallAnswer::none();
    drop(to.take(alloc));
    match KeptModule::open(alloc, module) {
        Ok(kept) => accept(alloc, kept, text, to, answer),
        Err(fault) => refuse(alloc, fault, text, answer),
    }
}

/// A handle of the same module, for a further owner.
fn share_held(alloc: Global, held: &KeptModule, to: &mut ModuleHandle) -> u32
    requires { to.old.slot.held ≡ None }
    ensures { Holds held.now to.new.slot.held result }
{
    let Ok(kept) = held.share() else {
        return 5;
    };
    let Ok(held) = Box::new(alloc, kept) else {
        return 5;
    };
    *to = ModuleHandle::open(held);
    0
}

/// Opens another handle of the same module; what that held before is freed. Answers the status: 0, 3 where the first is
/// closed, 5 where memory is refused.
#[unsafe(no_mangle)]
pub extern "C" fn wathread_module_share(
    alloc: Global,
    module: &mut ModuleHandle,
    to: &mut ModuleHandle,
) -> u32
    ensures shared { Shares «module».old.slot.held to.new.slot.held result }
    ensures stays { «module».new.slot.held ≡ «module».old.slot.held }
{
    drop(to.take(alloc));
    let Some(held) = module.take(alloc) else {
        return 3;
    };
    let status = share_held(alloc, &held, to);
    *module = ModuleHandle::open(held);
    status
}

/// Closes a handle: frees the module, if no other handle is of it and no instance.
#[unsafe(no_mangle)]
pub extern "C" fn wathread_module_free(alloc: Global, module: &mut ModuleHandle)
    ensures { «module».new.slot.held ≡ None }
{
    drop(module.take(alloc));
}
