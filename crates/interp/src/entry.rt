//! The start of a function.

ghost use Rattle.std.specs.Prelude.{◌≡◌, IfOk};
ghost use Rattle.interp.specs.Starts.{TakesArguments, StandsAtStart};
ghost use Rattle.interp.specs.Room.{HasRoom};

use crate::opening::{opening_globals, opening_values, program};
use interp_state::{Progress, State, code_of};
use std::alloc::{AllocError, Global};
use types::{MOST_FRAMES, Value};
use validate_module::ValidModule;

/// The state in which a function of the module itself starts with these arguments.
pub(crate) fn start<'m>(
    alloc: Global,
    valid: &'m ValidModule,
    own: usize,
    args: &[Value],
) -> Result<State<'m>, AllocError>
    requires { TakesArguments valid.now.parts own args.now }
    ensures function { IfOk result (λ s. s.function ≡ own) }
    ensures tables { IfOk result (λ s. s.program.tables.now ≡ valid.now.tables) }
    ensures stands { IfOk result (StandsAtStart valid.now.parts own args.now) }
    ensures room { IfOk result HasRoom }
{
    let parts = valid.parts();
    let Some(func_type) = valid.func_type(own) else {
        unreachable!();
    };
    let Some(body) = valid.body(own) else {
        unreachable!();
    };
    let values = opening_values(alloc, args, body.locals.as_slice())?;
    let globals = opening_globals(alloc, parts)?;
    let callers = Vec::with_capacity(alloc, MOST_FRAMES)?;
    let program = program(alloc, valid)?;
    let code = code_of(&program, own);
    Ok(State {
        program,
        function: own,
        code: code.code,
        table: code.table,
        flats: code.flats,
        pc: 0,
        base: 0,
        operands: values.len(),
        results: func_type.results.len(),
        values,
        globals,
        callers,
        progress: Progress::Fresh,
    })
}
