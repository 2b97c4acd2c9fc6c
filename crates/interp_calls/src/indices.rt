//! What a call reads before the function is opened.

ghost use Rattle.std.specs.Prelude.{◌≡◌, ℕ, [], ◌∷◌, List, Some, reverse};
ghost use Rattle.std.specs.List.{slice_get};
ghost use Rattle.types.specs.declared.value.ValType.{ValType};
ghost use Rattle.types.specs.declared.parts.FuncType.{FuncType};
ghost use Rattle.interp_machine.specs.Step.{same_type};
ghost use Rattle.interp_state.specs.Words.{HasWords};
ghost use Rattle.interp_calls.specs.Entering.{FunctionHasType};

use interp_state::Program;

/// The topmost number of 32 bits.
#[inline]
pub(crate) fn top_i32(values: &[u64]) -> u32
    requires { HasWords (ValType.I32 ∷ []) (reverse values.now) }
    ensures { (below : List ℕ) × (reverse values.now ≡ result ∷ below) }
{
    values[values.len() - 1] as u32
}

/// What the table has at a place, if there is the place.
#[inline]
pub(crate) fn element_at(elements: &[Option<u32>], place: usize) -> Option<Option<u32>>
    ensures { result ≡ slice_get elements.now place }
{
    elements.get(place).copied()
}

/// Whether a function's type is the one with an index: types are equal where they take and give the same.
#[inline]
pub(crate) fn is_of_type(program: &Program, function: usize, type_index: usize) -> bool
    requires function { (t : FuncType) × FunctionHasType program.now function t }
    requires stated { (t : FuncType) × (slice_get program.now.parts.now.types type_index ≡ Some t) }
    ensures { (t stated : FuncType) → FunctionHasType program.now function t
        → slice_get program.now.parts.now.types type_index ≡ Some stated → result ≡ same_type t stated }
{
    let types = program.parts.types.as_slice();
    types[program.functions[function] as usize] == types[type_index]
}
