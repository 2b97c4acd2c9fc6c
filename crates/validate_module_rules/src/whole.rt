//! All rules outside bodies, in order. Each is looked at, and the first fault counts.

ghost use Rattle.std.specs.Prelude.{◌≡◌, All};
ghost use Rattle.validate_typing.specs.Validity.{IsValid, IsValidType};
ghost use Rattle.validate_module_rules.specs.Spaces.{IsSpacesOf};
ghost use Rattle.validate_module_rules.specs.Exported.{HasTypeIndices, HasValidBodies};
ghost use Rattle.validate_module_rules.specs.Faults.{start_fault, names_fault, uses_fault, fault_outside};

use crate::constants::fault_of_globals;
use crate::exports::fault_of_exports;
use crate::imports::{fault_of_functions, fault_of_imports};
use crate::segments::{fault_of_data, fault_of_elements};
use crate::sizes::{fault_of_memories, fault_of_tables, fault_of_types, unless};
use crate::spaces::IndexSpaces;
use crate::threads::fault_of_threads;
use types::Parts;
use validate_typing::Fault;

/// The first fault of what the module declares for itself and for its code.
fn fault_of_names(parts: &Parts, spaces: &IndexSpaces) -> Option<Fault>
    requires { IsSpacesOf parts.now spaces.now }
    ensures { result ≡ names_fault parts.now }
{
    fault_of_types(parts.types.as_slice())
        .or(fault_of_imports(parts))
        .or(fault_of_functions(parts))
        .or(fault_of_tables(parts.tables.as_slice()))
        .or(fault_of_memories(&spaces.memories))
        .or(fault_of_globals(parts.globals.as_slice()))
}

/// The first fault of what the module does with it: exports, start, segments, and starting threads.
fn fault_of_uses(parts: &Parts, spaces: &IndexSpaces) -> Option<Fault>
    requires { IsSpacesOf parts.now spaces.now }
    ensures { result ≡ uses_fault parts.now }
{
    fault_of_exports(parts, spaces)
        .or(unless(parts.start.is_none(), Fault::StartSection))
        .or(fault_of_elements(parts, spaces))
        .or(fault_of_data(parts, spaces))
        .or(fault_of_threads(parts, spaces))
}

fn first_fault(parts: &Parts, spaces: &IndexSpaces) -> Option<Fault>
    requires { IsSpacesOf parts.now spaces.now }
    ensures { result ≡ fault_outside parts.now }
{
    fault_of_names(parts, spaces).or(fault_of_uses(parts, spaces))
}

/// The first fault of a module outside the bodies of its functions. There is none exactly where the module is valid but
/// for its bodies.
#[tactic(auto, using(crate::proofs::WholeLaws::valid_with_bodies, crate::proofs::WholeLaws::no_fault, crate::proofs::WholeLaws::types_kept, crate::proofs::Spared::outside_spared))]
pub fn fault_outside_bodies(parts: &Parts, spaces: &IndexSpaces) -> Option<Fault>
    requires { IsSpacesOf parts.now spaces.now }
    ensures first { result ≡ fault_outside parts.now }
    ensures types { result ≡ None → All IsValidType parts.now.types }
    ensures functions { result ≡ None → HasTypeIndices parts.now }
    ensures sound { result ≡ None → HasValidBodies parts.now → IsValid parts.now }
    ensures complete { IsValid parts.now → result ≡ None }
    ensures memory { result ≡ Some Fault.OutOfMemory → ⊥ }
{
    first_fault(parts, spaces)
}
