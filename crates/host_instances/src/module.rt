//! A module that stays.
ghost use Rattle.std.specs.Prelude.{◌≡◌, length, IfOk, IfErr};
ghost use Rattle.host_calls.specs.Hosts.{IsModuleFault, Spells};
ghost use Rattle.host_instances.specs.Instances.{first_of};

use crate::instance::Instance;
use host_calls::{HostFault, module_of};
use std::alloc::{AllocError, Global};
use std::marker::Model;
use std::sync::Arc;
use validate_module::ValidModule;

/// A valid module, read and validated once, with as many owners as want it, in any threads. In contracts it is its
/// parts.
#[derive(Drop)]
pub struct KeptModule {
    valid: Arc<ValidModule>,
}

impl Model for KeptModule {
    ghost use Rattle.std.specs.Arc.{arc_value};
    ghost use Rattle.types.specs.declared.parts.Parts.{Parts};

    ghost Value = { Parts };

    ghost view = { λ m. (arc_value m.valid).parts };
}

impl KeptModule {
    /// The valid module that the bytes spell.
    ///
    /// # Errors
    /// `Module` only where they spell none; `NoMemory`.
    pub fn open(alloc: Global, bytes: &[u8]) -> Result<KeptModule, HostFault>
        ensures module { IfOk result (λ m. Spells bytes.now m) }
        ensures fault { IfErr result (IsModuleFault bytes.now) }
    {
        let valid = module_of(alloc, bytes)?;
        match Arc::new(alloc, valid) {
            Ok(valid) => Ok(KeptModule { valid }),
            Err(_) => Err(HostFault::NoMemory),
        }
    }

    /// The same module, for another owner.
    ///
    /// # Errors
    /// Where it has too many.
    pub fn share(&self) -> Result<KeptModule, AllocError>
        ensures { IfOk result (λ m. m ≡ self.now) }
    {
        Ok(KeptModule {
            valid: Arc::try_clone(&self.valid)?,
        })
    }

    /// The module.
    pub(crate) fn valid(&self) -> &ValidModule
        ensures { result.now.parts ≡ self.now }
    {
        &self.valid
    }

    /// How many functions of its own it has.
    pub fn functions(&self) -> usize
        ensures { result ≡ length self.now.functions }
    {
        self.valid.parts().functions.len()
    }

    /// An instance, whose memory is the one with which the module begins.
    ///
    /// # Errors
    /// Where memory is refused.
    pub fn instance(&self, alloc: Global) -> Result<Instance, AllocError>
        ensures { IfOk result (λ i. i ≡ first_of self.now) }
    {
        Instance::first(alloc, self.share()?)
    }
}
