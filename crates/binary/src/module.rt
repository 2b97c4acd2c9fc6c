//! The module that bytes spell.

ghost use Rattle.std.specs.Prelude.{◌≡◌, IfOk};
ghost use Rattle.binary_wire.specs.Reading.{GivesInMemory};
ghost use Rattle.types.specs.Modules.{IsModule};
ghost use Rattle.types.specs.declared.parts.Parts.{Parts};
ghost use Rattle.binary.specs.Grammar.{IsModuleText};
ghost use Rattle.binary.specs.Reading.{module_at, FindsModule};

use crate::parts::read_parts;
use binary_wire::ReadFault;
use std::alloc::Global;
use types::Module;

/// The module that the bytes spell (Core specification 1.0, section 5.5.15).
pub fn read(alloc: Global, bytes: &[u8]) -> Result<Module, ReadFault>
    // What is read is spelled so, and is a module.
    ensures found { IfOk result (λ m. IsModuleText bytes.now m × IsModule m) }
    // Where the bytes spell a module, it is that one, or memory ran out.
    ensures only { FindsModule bytes.now result }
    // It is what the reading gives, or memory ran out: a fault is the first one from front to back, at its offset.
    ensures first { GivesInMemory (λ m. m) result (module_at bytes.now) }
    // The bytes spell one module at most.
    ensures unique { (a b : Parts) → IsModuleText bytes.now a → IsModuleText bytes.now b → a ≡ b }
{
    let parts = read_parts(alloc, bytes)?;
    match Module::from_parts(parts) {
        Ok(module) => Ok(module),
        // What bytes spell keeps the limits, and its expressions are nested blocks with a final `end`.
        Err(_) => unreachable!(),
    }
}
