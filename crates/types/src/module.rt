//! Modules: parts that were tested.
ghost use Rattle.std.specs.Prelude.{◌≡◌, IfOk, IfErr};
ghost use Rattle.types.specs.Modules.{IsModule};
ghost use Rattle.types.specs.Tests.{is_module};

use crate::nesting::has_nested_code_in;
use crate::parts::Parts;
use crate::within::{has_bodies_in, has_few_items_in, has_items_in};
use std::marker::Model;

/// A module whose parts keep the limits, whose functions have a body each, and whose expressions are nested blocks
/// with a final end. In contracts it is its parts.
#[derive(Drop)]
pub struct Module {
    parts: Parts,
}

impl Model for Module {
    ghost use Rattle.types.specs.declared.parts.Parts.{Parts};
    ghost use Rattle.std.specs.Prelude.{IsTrue};
    ghost use Rattle.types.specs.Tests.{is_module};

    ghost Value = { Parts };

    ghost view = { λ m. m.parts };

    ghost invariant = { λ m. IsTrue (is_module m.parts) };
}

fn is_module_in(parts: &Parts) -> bool
    ensures { result ≡ is_module parts.now }
{
    has_few_items_in(parts)
        && has_items_in(parts)
        && has_bodies_in(parts)
        && has_nested_code_in(parts)
}

impl Module {
    /// A module of these parts, or the parts again where they make none.
    pub fn from_parts(parts: Parts) -> Result<Module, Parts>
        ensures ok { IfOk result (λ m. (m ≡ parts) × IsModule parts) }
        ensures err { IfErr result (λ p. (p ≡ parts) × ¬ IsModule parts) }
    {
        if is_module_in(&parts) {
            Ok(Module { parts })
        } else {
            Err(parts)
        }
    }

    /// The module's parts.
    #[tactic(auto, using(crate::proofs::Found::module_from))]
    pub fn parts(&self) -> &Parts
        ensures parts { result.now ≡ self.now }
        ensures tested { IsModule self.now }
    {
        &self.parts
    }

    /// The module's parts, by value.
    #[tactic(auto, using(crate::proofs::Found::module_from))]
    pub fn into_parts(self) -> Parts
        ensures parts { result ≡ self }
        ensures tested { IsModule self }
    {
        self.parts
    }
}
