//! What numeric instructions and accesses do, written as WebAssembly's text format has them.

use crate::instrs::type_name;
use std::alloc::AllocError;
use std::fmt::Write;
use types::{
    AccessWidth, AtomicOp, BinaryOp, CompareOp, ConvertOp, LoadOp, NarrowWidth, NumericInstr,
    RmwOp, UnaryOp, ValType,
};

fn unary(op: UnaryOp) -> &'static str {
    match op {
        UnaryOp::Clz => "clz",
        UnaryOp::Ctz => "ctz",
        UnaryOp::Popcnt => "popcnt",
    }
}

fn binary(op: BinaryOp) -> &'static str {
    match op {
        BinaryOp::Add => "add",
        BinaryOp::Sub => "sub",
        BinaryOp::Mul => "mul",
        BinaryOp::DivS => "div_s",
        BinaryOp::DivU => "div_u",
        BinaryOp::RemS => "rem_s",
        BinaryOp::RemU => "rem_u",
        BinaryOp::And => "and",
        BinaryOp::Or => "or",
        BinaryOp::Xor => "xor",
        BinaryOp::Shl => "shl",
        BinaryOp::ShrS => "shr_s",
        BinaryOp::ShrU => "shr_u",
        BinaryOp::Rotl => "rotl",
        BinaryOp::Rotr => "rotr",
    }
}

fn compare(op: CompareOp) -> &'static str {
    match op {
        CompareOp::Eq => "eq",
        CompareOp::Ne => "ne",
        CompareOp::LtS => "lt_s",
        CompareOp::LtU => "lt_u",
        CompareOp::GtS => "gt_s",
        CompareOp::GtU => "gt_u",
        CompareOp::LeS => "le_s",
        CompareOp::LeU => "le_u",
        CompareOp::GeS => "ge_s",
        CompareOp::GeU => "ge_u",
    }
}

fn convert(op: ConvertOp) -> &'static str {
    match op {
        ConvertOp::WrapI64 => "i32.wrap_i64",
        ConvertOp::ExtendI32S => "i64.extend_i32_s",
        ConvertOp::ExtendI32U => "i64.extend_i32_u",
        ConvertOp::SignExtend(NarrowWidth::I32Bits8) => "i32.extend8_s",
        ConvertOp::SignExtend(NarrowWidth::I32Bits16) => "i32.extend16_s",
        ConvertOp::SignExtend(NarrowWidth::I64Bits8) => "i64.extend8_s",
        ConvertOp::SignExtend(NarrowWidth::I64Bits16) => "i64.extend16_s",
        ConvertOp::SignExtend(NarrowWidth::I64Bits32) => "i64.extend32_s",
    }
}

pub(crate) fn write_numeric(instr: NumericInstr, given: &mut String) -> Result<(), AllocError> {
    match instr {
        NumericInstr::Unary(t, op) => write!(given, "{}.{}", type_name(t), unary(op)),
        NumericInstr::Binary(t, op) => write!(given, "{}.{}", type_name(t), binary(op)),
        NumericInstr::Test(t) => write!(given, "{}.eqz", type_name(t)),
        NumericInstr::Compare(t, op) => write!(given, "{}.{}", type_name(t), compare(op)),
        NumericInstr::Convert(op) => given.push_str(convert(op)),
    }
}

/// The bits of a width that is less than the type's.
fn bits(width: NarrowWidth) -> &'static str {
    match width {
        NarrowWidth::I32Bits8 | NarrowWidth::I64Bits8 => "8",
        NarrowWidth::I32Bits16 | NarrowWidth::I64Bits16 => "16",
        NarrowWidth::I64Bits32 => "32",
    }
}

/// The type of the value that an access is of.
fn val_type(width: AccessWidth) -> ValType {
    match width {
        AccessWidth::Whole(val_type) => val_type,
        AccessWidth::Narrow(NarrowWidth::I32Bits8 | NarrowWidth::I32Bits16) => ValType::I32,
        AccessWidth::Narrow(_) => ValType::I64,
    }
}

/// Writes a type and an access, and behind its width the rest of its name, where a narrow one that isn't signed ends in
/// `_u`.
fn write_access(
    width: AccessWidth,
    name: &str,
    rest: &str,
    given: &mut String,
) -> Result<(), AllocError> {
    let type_name = type_name(val_type(width));
    match width {
        AccessWidth::Whole(_) => write!(given, "{type_name}.{name}{rest}"),
        AccessWidth::Narrow(narrow) => {
            write!(given, "{type_name}.{name}{}{rest}_u", bits(narrow))
        }
    }
}

/// Writes a type and a store, and behind it the width.
fn write_stored(width: AccessWidth, name: &str, given: &mut String) -> Result<(), AllocError> {
    let bits = match width {
        AccessWidth::Whole(_) => "",
        AccessWidth::Narrow(narrow) => bits(narrow),
    };
    write!(given, "{}.{name}{bits}", type_name(val_type(width)))
}

pub(crate) fn write_load(op: LoadOp, given: &mut String) -> Result<(), AllocError> {
    match op {
        LoadOp::ZeroExtend(width) => write_access(width, "load", "", given),
        LoadOp::SignExtend(narrow) => {
            write_stored(AccessWidth::Narrow(narrow), "load", given)?;
            given.push_str("_s")
        }
    }
}

pub(crate) fn write_store(width: AccessWidth, given: &mut String) -> Result<(), AllocError> {
    write_stored(width, "store", given)
}

/// What an access that reads, changes and writes does.
fn rmw(op: RmwOp) -> &'static str {
    match op {
        RmwOp::Add => ".add",
        RmwOp::Sub => ".sub",
        RmwOp::And => ".and",
        RmwOp::Or => ".or",
        RmwOp::Xor => ".xor",
        RmwOp::Xchg => ".xchg",
    }
}

pub(crate) fn write_atomic(op: AtomicOp, given: &mut String) -> Result<(), AllocError> {
    match op {
        AtomicOp::Notify => given.push_str("memory.atomic.notify"),
        AtomicOp::Wait(ValType::I32) => given.push_str("memory.atomic.wait32"),
        AtomicOp::Wait(ValType::I64) => given.push_str("memory.atomic.wait64"),
        AtomicOp::Load(width) => write_access(width, "atomic.load", "", given),
        AtomicOp::Store(width) => write_stored(width, "atomic.store", given),
        AtomicOp::Rmw(op, width) => write_access(width, "atomic.rmw", rmw(op), given),
        AtomicOp::Cmpxchg(width) => write_access(width, "atomic.rmw", ".cmpxchg", given),
    }
}
