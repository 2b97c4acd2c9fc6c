//! Calls that can't be made.

use report_command::value_in;
use show_text::Plain;
use std::alloc::AllocError;
use types::{Export, ExportDesc, FuncType, ImportDesc, Parts, ValType};

/// How many names are told.
const MOST_NAMES: usize = 20;

/// The index of the type of a function, which imports come before.
fn type_index(parts: &Parts, function: u32) -> Option<u32> {
    let mut imported = 0u32;
    for import in parts.imports.as_slice() {
        if let ImportDesc::Func(index) = import.desc {
            if imported == function {
                return Some(index);
            }
            imported = imported.saturating_add(1);
        }
    }
    let own = function.checked_sub(imported)?;
    parts.functions.as_slice().get(own as usize).copied()
}

/// The type of the function that is exported under a name.
fn type_of<'a>(parts: &'a Parts, name: &str) -> Option<&'a FuncType> {
    for export in parts.exports.as_slice() {
        if let ExportDesc::Func(function) = export.desc
            && export.name.as_str() == name
        {
            let index = type_index(parts, function)?;
            return parts.types.as_slice().get(index as usize);
        }
    }
    None
}

/// Adds why a function can't be called so.
pub(crate) fn add_call(
    out: &mut String,
    parts: &Parts,
    name: &str,
    args: &[&str],
) -> Result<(), AllocError> {
    match type_of(parts, name) {
        Some(func_type) => add_arguments(out, name, func_type, args),
        None => add_exports(out, parts.exports.as_slice()),
    }
}

fn add_exports(out: &mut String, exports: &[Export]) -> Result<(), AllocError> {
    let mut told = 0usize;
    for export in exports {
        if let ExportDesc::Func(_) = export.desc {
            if told == MOST_NAMES {
                return out.push_str("and more\n");
            }
            told = told.saturating_add(1);
            let name = Plain(export.name.as_str());
            write!(out, "there is --invoke {name}\n")?;
        }
    }
    if told == 0 {
        return out.push_str("no function is exported\n");
    }
    Ok(())
}

fn type_name(val_type: ValType) -> &'static str {
    match val_type {
        ValType::I32 => "i32",
        ValType::I64 => "i64",
    }
}

fn add_types(out: &mut String, types: &[ValType]) -> Result<(), AllocError> {
    out.push('(')?;
    for (place, val_type) in types.iter().enumerate() {
        if place > 0 {
            out.push_str(" ")?;
        }
        out.push_str(type_name(*val_type))?;
    }
    out.push(')')
}

/// Adds which arguments are none of their types.
fn add_unfit(out: &mut String, types: &[ValType], args: &[&str]) -> Result<(), AllocError> {
    for (place, (val_type, text)) in types.iter().zip(args.iter()).enumerate() {
        if value_in(*val_type, text).is_none() {
            let (number, text, name) = (place.saturating_add(1), Plain(text), type_name(*val_type));
            write!(out, "argument {number} is no {name}: {text}\n")?;
        }
    }
    Ok(())
}

/// Adds the type of a function, how many arguments it was given where that is wrong, and which don't fit.
fn add_arguments(
    out: &mut String,
    name: &str,
    func_type: &FuncType,
    args: &[&str],
) -> Result<(), AllocError> {
    let name = Plain(name);
    write!(out, "{name} is of type ")?;
    add_types(out, func_type.params.as_slice())?;
    out.push_str(" -> ")?;
    add_types(out, func_type.results.as_slice())?;
    let (wanted, given) = (func_type.params.len(), args.len());
    if wanted != given {
        write!(out, "; arguments wanted: {wanted}, given: {given}")?;
    }
    out.push('\n')?;
    add_unfit(out, func_type.params.as_slice(), args)?;
    out.push_str(
        "an argument is a number that fits its type, signed or unsigned, or hexadecimal behind 0x: 5, -5 or 0x10\n",
    )
}
