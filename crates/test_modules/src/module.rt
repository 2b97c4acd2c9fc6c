//! Any of the modules.

use crate::small::Small;
use std::alloc::{AllocError, Global};

/// A module, whole or as it is put together.
#[derive(Clone, Copy)]
pub enum Module {
    /// These bytes.
    Bytes(&'static [u8]),
    Small(Small<'static>),
}

impl Module {
    /// The module's bytes.
    pub fn bytes(&self, alloc: Global) -> Result<Vec<u8>, AllocError> {
        let mut module = Vec::new(alloc);
        self.push(&mut module)?;
        Ok(module)
    }

    fn push(&self, module: &mut Vec<u8>) -> Result<(), AllocError> {
        match self {
            Module::Bytes(bytes) => module.extend_from_slice(bytes),
            Module::Small(small) => small.push(module),
        }
    }
}
