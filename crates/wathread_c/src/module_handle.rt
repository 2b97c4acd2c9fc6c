//! The handle of a module, which a host keeps.
ghost use Rattle.std.specs.Prelude.{◌≡◌, Option, Some, None, IsSome};
ghost use Rattle.std.specs.Coded.{coded_option};
ghost use Rattle.std.specs.Global.{Box};
ghost use Rattle.std.specs.Option.{option_map};
ghost use Rattle.types.specs.declared.parts.Parts.{Parts};
ghost use Rattle.host_instances.specs.contracts.module.KeptModule.{the_row};
ghost use Rattle.wathread_c.specs.Handles.{IsTied, slot_owns};

use crate::loose::Loose;
use host_instances::KeptModule;
use std::alloc::Global;
use std::marker::Model;

/// The place of a module: the pointer to a box of it, or null. Let go of, it frees nothing: its handle does.
#[repr(C)]
#[derive(Drop)]
pub struct ModuleSlot {
    at: *mut u8,
    pub ghost held: { Option Parts } by { coded_option the_row.coded },
}

impl Model for ModuleSlot {
    ghost also_owns = { λ s. slot_owns the_row s.at s.held };
}

unsafe impl Send for ModuleSlot {}

impl ModuleSlot {
    /// Of nothing.
    fn empty() -> ModuleSlot
        ensures { result.held ≡ None }
    {
        ModuleSlot {
            at: std::ptr::null_mut(),
        }
    }

    fn of_loose(loose: Loose<KeptModule, Global>) -> ModuleSlot
        ensures { result.held ≡ Some loose.value }
    {
        let Loose { at, alloc: _alloc } = loose;
        ModuleSlot { at: at as *mut u8 }
    }

    fn into_loose(self, alloc: Global) -> Loose<KeptModule, Global>
        requires { IsSome self.held }
        ensures { self.held ≡ Some result.value }
    {
        let ModuleSlot { at } = self;
        Loose {
            at: at as *mut KeptModule,
            alloc,
        }
    }
}

/// The handle of a module: closed, or open.
#[repr(C)]
#[derive(Drop)]
pub struct ModuleHandle {
    pub slot: ModuleSlot,
    pub is_open: u32,
    ghost tied: { IsTied is_open slot.held },
}

impl ModuleHandle {
    /// A closed one.
    pub(crate) fn closed() -> ModuleHandle
        ensures { result.slot.held ≡ None }
    {
        ModuleHandle {
            slot: ModuleSlot::empty(),
            is_open: 0,
        }
    }

    /// One that holds a module.
    pub(crate) fn open(held: Box<KeptModule>) -> ModuleHandle
        ensures { result.slot.held ≡ Some held.value }
    {
        ModuleHandle {
            slot: ModuleSlot::of_loose(Loose::of(held)),
            is_open: 1,
        }
    }

    /// Takes out what it holds, and leaves it closed.
    pub(crate) fn take(&mut self, alloc: Global) -> Option<Box<KeptModule>>
        ensures held { option_map (λ (b : Box Parts). b.value) result ≡ self.old.slot.held }
        ensures closed { self.new.slot.held ≡ None }
    {
        let ModuleHandle { slot, is_open } = std::mem::replace(self, ModuleHandle::closed());
        if is_open == 0 {
            return None;
        }
        Some(slot.into_loose(alloc).into_box())
    }
}
