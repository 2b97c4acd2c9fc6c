//! The rules of a module that starts threads.

ghost use Rattle.std.specs.Prelude.{◌≡◌};
ghost use Rattle.std.specs.List.{slice_get};
ghost use Rattle.validate_typing.specs.Context.{memories_of};
ghost use Rattle.validate_module_rules.specs.Spaces.{IsSpacesOf};
ghost use Rattle.validate_typing.specs.Image.{is_shared};
ghost use Rattle.validate_module_rules.specs.Faults.{takes_two, type_of_own, has_entry, threads_fault};

use crate::exports::exported_function;
use crate::imports::has_type;
use crate::sizes::unless;
use crate::spaces::{IndexSpaces, item};
use types::{Parts, ValType};
use validate_typing::Fault;

/// Whether a function of the module itself takes a thread's number and argument, and gives nothing.
fn takes_two(parts: &Parts, own: usize) -> bool
    ensures { result ≡ takes_two (type_of_own parts.now (Some own)) }
{
    let Some(index) = item(parts.functions.as_slice(), own) else {
        return false;
    };
    let Some(func_type) = item(parts.types.as_slice(), *index as usize) else {
        return false;
    };
    has_type(func_type, &[ValType::I32, ValType::I32], &[])
}

fn has_entry(parts: &Parts, spaces: &IndexSpaces) -> bool
    requires { IsSpacesOf parts.now spaces.now }
    ensures { result ≡ has_entry parts.now }
{
    match exported_function(parts, spaces.imported, "wasi_thread_start") {
        Some(own) => takes_two(parts, own),
        None => false,
    }
}

fn has_shared_memory(parts: &Parts, spaces: &IndexSpaces) -> bool
    requires { IsSpacesOf parts.now spaces.now }
    ensures { result ≡ is_shared (slice_get (memories_of parts.now) 0) }
{
    match spaces.memories.first() {
        Some(memory) => memory.shared,
        None => false,
    }
}

/// The fault of a module that imports `thread-spawn` without a fitting export `wasi_thread_start` or a shared memory.
pub fn fault_of_threads(parts: &Parts, spaces: &IndexSpaces) -> Option<Fault>
    requires { IsSpacesOf parts.now spaces.now }
    ensures { result ≡ threads_fault parts.now }
{
    if spaces.imported == 0 {
        return None;
    }
    unless(
        has_entry(parts, spaces) && has_shared_memory(parts, spaces),
        Fault::ThreadEntry,
    )
}
