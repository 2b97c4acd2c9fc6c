//! Instructions, written as WebAssembly's text format has them.

use crate::operators::{write_atomic, write_load, write_numeric, write_store};
use std::alloc::AllocError;
use std::fmt::Write;
use types::{BlockType, Instr, MemArg, PlainInstr, ValType};

/// The name of a type.
pub(crate) fn type_name(val_type: ValType) -> &'static str {
    match val_type {
        ValType::I32 => "i32",
        ValType::I64 => "i64",
    }
}

/// The name of an instruction that has nothing else.
fn bare(instr: &PlainInstr) -> Option<&'static str> {
    match instr {
        PlainInstr::Unreachable => Some("unreachable"),
        PlainInstr::Nop => Some("nop"),
        PlainInstr::Return => Some("return"),
        PlainInstr::Drop => Some("drop"),
        PlainInstr::Select => Some("select"),
        PlainInstr::MemorySize => Some("memory.size"),
        PlainInstr::MemoryGrow => Some("memory.grow"),
        PlainInstr::Fence => Some("atomic.fence"),
        _ => None,
    }
}

/// The name and the index of an instruction that has one index.
fn indexed(instr: &PlainInstr) -> Option<(&'static str, u32)> {
    match instr {
        PlainInstr::Br(label) => Some(("br", *label)),
        PlainInstr::BrIf(label) => Some(("br_if", *label)),
        PlainInstr::Call(function) => Some(("call", *function)),
        PlainInstr::CallIndirect(type_index) => Some(("call_indirect", *type_index)),
        PlainInstr::LocalGet(local) => Some(("local.get", *local)),
        PlainInstr::LocalSet(local) => Some(("local.set", *local)),
        PlainInstr::LocalTee(local) => Some(("local.tee", *local)),
        PlainInstr::GlobalGet(global) => Some(("global.get", *global)),
        PlainInstr::GlobalSet(global) => Some(("global.set", *global)),
        _ => None,
    }
}

fn write_table(labels: &[u32], default: u32, given: &mut String) -> Result<(), AllocError> {
    given.push_str("br_table ")?;
    for label in labels {
        write!(given, "{label} ")?;
    }
    write!(given, "{default}")
}

fn write_arg(arg: &MemArg, given: &mut String) -> Result<(), AllocError> {
    let MemArg { align, offset } = *arg;
    write!(given, " offset={offset} align=2^{align}")
}

/// Writes an instruction that has more than an index.
fn write_other(instr: &PlainInstr, given: &mut String) -> Result<(), AllocError> {
    match instr {
        PlainInstr::BrTable(default, labels) => write_table(labels.as_slice(), *default, given),
        PlainInstr::I32Const(value) => write!(given, "i32.const {value}"),
        PlainInstr::I64Const(value) => write!(given, "i64.const {value}"),
        PlainInstr::Numeric(numeric) => write_numeric(*numeric, given),
        PlainInstr::Load(op, arg) => {
            write_load(*op, given)?;
            write_arg(arg, given)
        }
        PlainInstr::Store(width, arg) => {
            write_store(*width, given)?;
            write_arg(arg, given)
        }
        PlainInstr::Atomic(op, arg) => {
            write_atomic(*op, given)?;
            write_arg(arg, given)
        }
        _ => given.push_str("?"),
    }
}

fn write_plain(instr: &PlainInstr, given: &mut String) -> Result<(), AllocError> {
    match (bare(instr), indexed(instr)) {
        (Some(name), _) => given.push_str(name),
        (None, Some((name, index))) => write!(given, "{name} {index}"),
        (None, None) => write_other(instr, given),
    }
}

fn write_block(name: &str, block_type: BlockType, given: &mut String) -> Result<(), AllocError> {
    given.push_str(name)?;
    match block_type {
        Some(val_type) => write!(given, " (result {})", type_name(val_type)),
        None => Ok(()),
    }
}

/// Writes an instruction.
pub(crate) fn write_instr(instr: &Instr, given: &mut String) -> Result<(), AllocError> {
    match instr {
        Instr::Block(block_type) => write_block("block", *block_type, given),
        Instr::Loop(block_type) => write_block("loop", *block_type, given),
        Instr::If(block_type) => write_block("if", *block_type, given),
        Instr::Else => given.push_str("else"),
        Instr::End => given.push_str("end"),
        Instr::Plain(plain) => write_plain(plain, given),
    }
}
