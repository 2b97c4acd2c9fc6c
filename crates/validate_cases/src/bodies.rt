//! What the validator says of one body.

ghost use Rattle.types.specs.Modules.{IsModule};

use crate::code::code_of;
use binary::read;
use binary_wire::ReadFault;
use std::alloc::{AllocError, Global};
use std::fmt::Write;
use types::{Body, Module, Parts, Sequence, ValType};
use validate_bodies::check_body;
use validate_instructions::Declared;
use validate_typing::{Table, Target, ValidFault};

/// What there is around a body.
#[derive(Clone, Copy)]
pub(crate) enum Around {
    /// Functions and globals, a table and a memory, and one local.
    Everything,
    /// The same without a table and a memory.
    Functions,
    /// The same with 999 locals.
    ManyLocals,
}

/// What is asked of a body.
#[derive(Clone, Copy)]
pub(crate) enum Asked {
    Validity,
    /// Where its branches lead.
    Branches,
    /// Where those of its 60,000th instruction, and of the few before and behind it, lead.
    LateBranches,
}

/// ```wat
/// (module
///   (type (func (param i32) (result i32)))
///   (type (func (param i32 i64) (result i64)))
///   (func (type 0))
///   (table 1 1 funcref) (memory 1 1)
///   (global i64 (i64.const 0)) (global (mut i64) (i64.const 0)))
/// ```
const MODULE: &[u8] = b"\0asm\x01\0\0\0\
    \x01\x0c\x02\x60\x01\x7f\x01\x7f\x60\x02\x7f\x7e\x01\x7e\
    \x03\x02\x01\0\x04\x05\x01\x70\x01\x01\x01\x05\x04\x01\x01\x01\x01\
    \x06\x0b\x02\x7e\0\x42\0\x0b\x7e\x01\x42\0\x0b\x0a\x04\x01\x02\0\x0b";

/// A body of this code, with so many locals of type `i64`.
fn body_of(alloc: Global, code: &[u8], around: Around) -> Result<Body, ReadFault> {
    let locals = match around {
        Around::Everything | Around::Functions => 1,
        Around::ManyLocals => 999,
    };
    let code = code_of(alloc, code)?;
    let locals = Sequence::from_vec(vec![in alloc; ValType::I64; locals]?);
    Ok(Body { locals, code })
}

/// The parts of the module around a body.
fn parts_around(alloc: Global) -> Result<Box<Parts>, ReadFault> {
    let module = read(alloc, MODULE)?;
    Ok(Box::new(alloc, module.into_parts())?)
}

/// Puts a body in the place of all bodies.
fn put_body(alloc: Global, parts: &mut Parts, body: Body) -> Result<(), AllocError> {
    parts.bodies = Sequence::from_vec(vec![in alloc; body]?);
    Ok(())
}

/// The module of these parts, if they make one.
fn made(alloc: Global, parts: Box<Parts>) -> Result<Option<Box<Module>>, AllocError> {
    match Module::from_parts(Box::into_inner(parts)) {
        Ok(module) => Ok(Some(Box::new(alloc, module)?)),
        Err(_) => Ok(None),
    }
}

/// The module with this body.
fn module_with(
    alloc: Global,
    code: &[u8],
    around: Around,
) -> Result<Option<Box<Module>>, ReadFault> {
    let mut parts = parts_around(alloc)?;
    put_body(alloc, &mut parts, body_of(alloc, code, around)?)?;
    Ok(made(alloc, parts)?)
}

/// What the first body of these parts is checked to be, as that of the function 7, which has the first type. There are
/// a function of this type and one of the second.
fn checked(alloc: Global, parts: &Parts, declared: &Declared) -> Option<Result<Table, ValidFault>>
    requires { IsModule parts.now }
{
    let body = parts.bodies.as_slice().first()?;
    let func_type = declared.types.first()?;
    if func_type.results.len() > 1 {
        return None;
    }
    Some(check_body(alloc, declared, 7, func_type, body))
}

/// What a body may name besides its locals.
fn declared(parts: &Parts, around: Around) -> Declared<'_> {
    let (tables, memories) = match around {
        Around::Everything => (parts.tables.as_slice(), parts.memories.as_slice()),
        Around::Functions | Around::ManyLocals => ([].as_slice(), [].as_slice()),
    };
    Declared {
        types: parts.types.as_slice(),
        functions: &[0, 1],
        tables,
        memories,
        globals: parts.globals.as_slice(),
    }
}

/// Writes where the branches of an instruction lead.
fn write_row(instruction: usize, row: &[Target], given: &mut String) -> Result<(), AllocError> {
    for target in row {
        let Target {
            to,
            height,
            carried,
        } = *target;
        writeln!(
            given,
            "at {instruction}: to {to}, height {height}, carried {carried}"
        )?;
    }
    Ok(())
}

/// Writes where the branches of the instructions from one number on lead.
fn write_table(table: &Table, first: usize, given: &mut String) -> Result<(), AllocError> {
    for instruction in first..usize::MAX {
        match table.row(instruction) {
            Some(row) => write_row(instruction, row, given)?,
            None => break,
        }
    }
    Ok(())
}

/// Writes what was asked of a body with this table of branches.
fn write_asked(table: &Table, asked: Asked, given: &mut String) -> Result<(), AllocError> {
    match asked {
        Asked::Validity => writeln!(given, "valid"),
        Asked::Branches => write_table(table, 0, given),
        Asked::LateBranches => write_table(table, 59_990, given),
    }
}

/// Writes what was asked of the body of a module.
fn write_of(
    alloc: Global,
    module: &Module,
    around: Around,
    asked: Asked,
    given: &mut String,
) -> Result<(), AllocError> {
    let parts = module.parts();
    match checked(alloc, parts, &declared(parts, around)) {
        Some(Ok(table)) => write_asked(&table, asked, given),
        Some(Err(fault)) => writeln!(given, "{fault}"),
        None => writeln!(given, "no body"),
    }
}

/// Writes what was asked of a body of this code.
pub(crate) fn write_body(
    alloc: Global,
    code: &[u8],
    around: Around,
    asked: Asked,
    given: &mut String,
) -> Result<(), AllocError> {
    match module_with(alloc, code, around) {
        Ok(Some(module)) => write_of(alloc, &module, around, asked, given),
        Ok(None) => writeln!(given, "no module"),
        Err(fault) => writeln!(given, "{fault}"),
    }
}
