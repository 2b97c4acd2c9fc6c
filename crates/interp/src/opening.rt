//! What a thread has before its first turn.

ghost use Rattle.std.specs.Prelude.{◌≡◌, ◌+◌, ◌≤◌, ◌++◌, length, map};
ghost use Rattle.std.specs.Prelude.{Some, IfOk, vec_len, vec_capacity};
ghost use Rattle.std.specs.List.{splice};
ghost use Rattle.types.specs.declared.limits.TheConstants.{MOST_VALUES};
ghost use Rattle.interp_machine.specs.Program.{constant_of, opening_globals, opening_table, zero_of};
ghost use Rattle.interp_state.specs.Words.{word_of, AreInRange, Mean};
ghost use Rattle.interp_state.specs.Stands.{IsProgram};
ghost use Rattle.interp.specs.Starts.{HasElementsWithin, words_with_zeros};

use interp_state::{Program, push_zeros, word};
use std::alloc::{AllocError, Global};
use types::{Instr, MOST_VALUES, Parts, PlainInstr, ValType, Value};
use validate_module::ValidModule;
use validate_module_rules::{IndexSpaces, offset};

/// The value of a constant expression.
fn constant(code: &[Instr]) -> Value
    ensures { result ≡ constant_of code.now }
{
    let Some(first) = code.first() else {
        return Value::I32(0);
    };
    match first {
        Instr::Plain(PlainInstr::I32Const(number)) => Value::I32(*number),
        Instr::Plain(PlainInstr::I64Const(number)) => Value::I64(*number),
        _ => Value::I32(0),
    }
}

/// The globals before the first turn.
pub(crate) fn opening_globals(alloc: Global, parts: &Parts) -> Result<Vec<Value>, AllocError>
    ensures { IfOk result (λ globals. globals.items ≡ opening_globals parts.now) }
{
    let mut globals = Vec::new(alloc);
    for global in parts.globals.as_slice() {
        globals.push(constant(global.init.as_slice()))?;
    }
    Ok(globals)
}

/// A segment's functions, as places of a table have them.
fn as_places(alloc: Global, functions: &[u32]) -> Result<Vec<Option<u32>>, AllocError>
    ensures { IfOk result (λ places. places.items ≡ map Some functions.now) }
{
    functions
        .iter()
        .map(|function| Some(*function))
        .collect(alloc)
}

/// Writes items over those from a place on.
fn write_at<T: Copy>(items: &mut [T], start: usize, more: &[T])
    requires { start + length more.now ≤ length items.old }
    ensures { items.new ≡ splice items.old start (start + length more.now) more.now }
{
    let written = &mut items[start..start + more.len()];
    written.copy_from_slice(more);
}

/// The table before the first turn: empty places, with the element segments written over them in order (Core
/// specification 1.0, section 4.5.4).
fn opening_table(alloc: Global, parts: &Parts) -> Result<Vec<Option<u32>>, AllocError>
    requires { HasElementsWithin parts.now }
    ensures { IfOk result (λ places. places.items ≡ opening_table parts.now) }
{
    let size = match parts.tables.as_slice().first() {
        Some(limits) => limits.min,
        None => 0,
    };
    let mut places = vec![in alloc; None; size as usize]?;
    for segment in parts.elements.as_slice() {
        let functions = as_places(alloc, segment.functions.as_slice())?;
        let start = offset(segment.offset.as_slice()) as usize;
        write_at(&mut places, start, functions.as_slice());
    }
    Ok(places)
}

/// What a thread of a module runs.
pub(crate) fn program<'m>(alloc: Global, valid: &'m ValidModule) -> Result<Program<'m>, AllocError>
    ensures { IfOk result (λ p. IsProgram valid.now p) }
{
    let parts = valid.parts();
    let spaces = IndexSpaces::of(alloc, parts)?;
    let shared = match spaces.memories.first() {
        Some(memory) => memory.shared,
        None => false,
    };
    Ok(Program {
        parts,
        tables: valid.tables(),
        flats: valid.flats(),
        functions: spaces.functions,
        imported: spaces.imported,
        elements: opening_table(alloc, parts)?,
        shared,
    })
}

/// Puts the words of values on top.
pub(crate) fn push_words(words: &mut Vec<u64>, values: &[Value])
    requires { vec_len words.old + length values.now ≤ vec_capacity words.old }
    ensures items { words.new.items ≡ words.old.items ++ map word_of values.now }
    ensures in_range { AreInRange values.now }
    ensures capacity { vec_capacity words.new ≡ vec_capacity words.old }
{
    for value in values {
        words.push_reserved(word(*value));
    }
}

/// The values of a function that starts: its arguments, and a zero for each other local. There is room for all values
/// that may ever lie on the stack, and for no more.
pub(crate) fn opening_values(
    alloc: Global,
    args: &[Value],
    locals: &[ValType],
) -> Result<Vec<u64>, AllocError>
    requires { length args.now + length locals.now ≤ MOST_VALUES }
    ensures items { IfOk result (λ values. Mean values.items (args.now ++ map zero_of locals.now)) }
    ensures room { IfOk result (λ values. vec_capacity values ≡ MOST_VALUES) }
{
    let mut values = Vec::with_capacity(alloc, MOST_VALUES)?;
    push_words(&mut values, args);
    push_zeros(&mut values, locals.len());
    Ok(values)
}

/// Puts the words of arguments in the place of all, and zeros behind them, so that there are as many as before.
#[inline]
pub(crate) fn overwrite(values: &mut Vec<u64>, args: &[Value])
    requires { length args.now ≤ length values.old.items }
    ensures items { values.new.items ≡ words_with_zeros args.now (length values.old.items) }
    ensures in_range { AreInRange args.now }
    ensures capacity { vec_capacity values.new ≡ vec_capacity values.old }
{
    let locals = values.len() - args.len();
    values.truncate(0);
    push_words(values, args);
    push_zeros(values, locals);
}
