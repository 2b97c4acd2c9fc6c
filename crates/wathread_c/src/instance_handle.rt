//! The handle of an instance, which a host keeps.
ghost use Rattle.std.specs.Prelude.{◌≡◌, Option, Some, None, IsSome};
ghost use Rattle.std.specs.Coded.{coded_option};
ghost use Rattle.std.specs.Global.{Box};
ghost use Rattle.std.specs.Option.{option_map};
ghost use Rattle.host_instances.specs.Instances.{Instanced};
ghost use Rattle.host_instances.specs.contracts.instance.Instance.{the_row};
ghost use Rattle.wathread_c.specs.Handles.{IsTied, slot_owns};

use crate::loose::Loose;
use host_instances::Instance;
use std::alloc::Global;
use std::marker::Model;

/// The place of an instance: the pointer to a box of it, or null. Let go of, it frees nothing: its handle does.
#[repr(C)]
#[derive(Drop)]
pub struct InstanceSlot {
    at: *mut u8,
    pub ghost held: { Option Instanced } by { coded_option the_row.coded },
}

impl Model for InstanceSlot {
    ghost also_owns = { λ s. slot_owns the_row s.at s.held };
}

unsafe impl Send for InstanceSlot {}

impl InstanceSlot {
    /// Of nothing.
    fn empty() -> InstanceSlot
        ensures { result.held ≡ None }
    {
        InstanceSlot {
            at: std::ptr::null_mut(),
        }
    }

    fn of_loose(loose: Loose<Instance, Global>) -> InstanceSlot
        ensures { result.held ≡ Some loose.value }
    {
        let Loose { at, alloc: _alloc } = loose;
        InstanceSlot { at: at as *mut u8 }
    }

    fn into_loose(self, alloc: Global) -> Loose<Instance, Global>
        requires { IsSome self.held }
        ensures { self.held ≡ Some result.value }
    {
        let InstanceSlot { at } = self;
        Loose {
            at: at as *mut Instance,
            alloc,
        }
    }
}

/// The handle of an instance: closed, or open.
#[repr(C)]
#[derive(Drop)]
pub struct InstanceHandle {
    pub slot: InstanceSlot,
    pub is_open: u32,
    ghost tied: { IsTied is_open slot.held },
}

impl InstanceHandle {
    /// A closed one.
    pub(crate) fn closed() -> InstanceHandle
        ensures { result.slot.held ≡ None }
    {
        InstanceHandle {
            slot: InstanceSlot::empty(),
            is_open: 0,
        }
    }

    /// One that holds an instance.
    pub(crate) fn open(held: Box<Instance>) -> InstanceHandle
        ensures { result.slot.held ≡ Some held.value }
    {
        InstanceHandle {
            slot: InstanceSlot::of_loose(Loose::of(held)),
            is_open: 1,
        }
    }

    /// Takes out what it holds, and leaves it closed.
    pub(crate) fn take(&mut self, alloc: Global) -> Option<Box<Instance>>
        ensures held { option_map (λ (b : Box Instanced). b.value) result ≡ self.old.slot.held }
        ensures closed { self.new.slot.held ≡ None }
    {
        let InstanceHandle { slot, is_open } = std::mem::replace(self, InstanceHandle::closed());
        if is_open == 0 {
            return None;
        }
        Some(slot.into_loose(alloc).into_box())
    }
}
