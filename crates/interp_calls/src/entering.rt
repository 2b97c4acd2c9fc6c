//! A function that is opened over its arguments.

ghost use Rattle.std.specs.Prelude.{◌≡◌, ◌<◌, ◌∷◌, Some, length, reverse, vec_len, vec_capacity};
ghost use Rattle.std.specs.List.{slice_get};
ghost use Rattle.types.specs.declared.parts.Body.{Body};
ghost use Rattle.interp_state.specs.Steps.{StaysThere, came_to};
ghost use Rattle.interp_calls.specs.Entering.{CanEnter, IsEntered};

use interp_state::{Caller, Program, State, code_of, push_zeros, type_of_function};
use types::{MOST_FRAMES, MOST_VALUES, Parts, Trap, ValType};

/// Puts a calling function on top of those that called before.
#[inline]
fn push_caller(callers: &mut Vec<Caller>, caller: Caller)
    requires { vec_len callers.old < vec_capacity callers.old }
    ensures caller { reverse callers.new.items ≡ caller ∷ reverse callers.old.items }
    ensures capacity { vec_capacity callers.new ≡ vec_capacity callers.old }
{
    callers.push_reserved(caller);
}

/// The types of a function's locals that aren't parameters.
#[inline]
fn locals_of<'m>(program: &Program<'m>, own: usize) -> &'m [ValType]
    requires { own < length program.now.parts.now.bodies }
    ensures { (body : Body) → slice_get program.now.parts.now.bodies own ≡ Some body → result.now ≡ body.locals }
{
    let parts: &'m Parts = program.parts;
    let body = &parts.bodies.as_slice()[own];
    body.locals.as_slice()
}

/// A function of the module itself is opened over the arguments on top of the stack, which become its first locals. Its
/// other locals begin as zeros.
#[inline]
pub(crate) fn enter(state: &mut State, own: usize) -> Option<Trap>
    requires { CanEnter state.old own }
    ensures entered { IsEntered state.old own (came_to result) state.new }
    ensures stays { StaysThere state.old (came_to result) state.new }
{
    let locals = locals_of(&state.program, own);
    if state.callers.len() + 2 > MOST_FRAMES || locals.len() > MOST_VALUES - state.values.len() {
        return Some(Trap::StackExhausted);
    }
    let func_type = type_of_function(&state.program, own);
    let caller = Caller {
        function: state.function,
        pc: state.pc + 1,
        base: state.base,
        operands: state.operands,
        results: state.results,
    };
    push_caller(&mut state.callers, caller);
    state.base = state.values.len() - func_type.params.len();
    push_zeros(&mut state.values, locals.len());
    state.operands = state.values.len();
    state.results = func_type.results.len();
    let code = code_of(&state.program, own);
    state.code = code.code;
    state.table = code.table;
    state.flats = code.flats;
    state.function = own;
    state.pc = 0;
    None
}
