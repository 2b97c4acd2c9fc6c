//! Compare-exchanges of a part of a number whose expected value may have bits above that part: there they never match.

use binary::read;
use binary_wire::ReadFault;
use interp::CodePlace;
use show_rows::CodeMap;
use std::alloc::{AllocError, Global};
use types::{
    AccessWidth, AtomicOp, BinaryOp, ConvertOp, Instr, LoadOp, NumericInstr, Parts, PlainInstr,
};

/// The bytes of a compare-exchange that has fewer than its type.
fn narrow_exchange(instr: &Instr) -> Option<u8> {
    match instr {
        Instr::Plain(PlainInstr::Atomic(AtomicOp::Cmpxchg(AccessWidth::Narrow(width)), _)) => {
            Some(width.bytes())
        }
        _ => None,
    }
}

/// How many operands a numeric instruction takes.
fn numeric_operands(numeric: NumericInstr) -> usize {
    match numeric {
        NumericInstr::Binary(_, _) | NumericInstr::Compare(_, _) => 2,
        NumericInstr::Unary(_, _) | NumericInstr::Test(_) | NumericInstr::Convert(_) => 1,
    }
}

/// How many operands an instruction takes that puts one value in their place; `None` of others, and of calls.
fn operands_of(instr: &Instr) -> Option<usize> {
    let Instr::Plain(instr) = instr else {
        return None;
    };
    match instr {
        PlainInstr::LocalGet(_)
        | PlainInstr::GlobalGet(_)
        | PlainInstr::I32Const(_)
        | PlainInstr::I64Const(_)
        | PlainInstr::MemorySize => Some(0),
        PlainInstr::LocalTee(_) | PlainInstr::Load(_, _) | PlainInstr::MemoryGrow => Some(1),
        PlainInstr::Select => Some(3),
        PlainInstr::Numeric(numeric) => Some(numeric_operands(*numeric)),
        PlainInstr::Atomic(AtomicOp::Load(_), _) => Some(1),
        PlainInstr::Atomic(AtomicOp::Rmw(_, _) | AtomicOp::Notify, _) => Some(2),
        PlainInstr::Atomic(AtomicOp::Cmpxchg(_) | AtomicOp::Wait(_), _) => Some(3),
        _ => None,
    }
}

/// The place of the instruction that makes the expected value of the compare-exchange at a place: the one behind which only
/// the new value is made.
fn maker_of_expected(code: &[Instr], exchange: usize) -> Option<usize> {
    let mut wanted = 1usize;
    for place in (0..exchange).rev() {
        if wanted == 0 {
            return Some(place);
        }
        let taken = operands_of(code.get(place)?)?;
        wanted = wanted.saturating_sub(1).saturating_add(taken);
    }
    None
}

/// Whether an instruction puts a number that is at most this one, whatever its operands are.
fn is_at_most(instr: &Instr, most: u64) -> bool {
    let Instr::Plain(instr) = instr else {
        return false;
    };
    let bytes = match instr {
        PlainInstr::I32Const(number) => return u64::from(*number) <= most,
        PlainInstr::I64Const(number) => return *number <= most,
        PlainInstr::Numeric(NumericInstr::Test(_) | NumericInstr::Compare(_, _)) => 1,
        PlainInstr::Numeric(NumericInstr::Convert(ConvertOp::ExtendI32U)) => 4,
        PlainInstr::Load(LoadOp::ZeroExtend(width), _)
        | PlainInstr::Atomic(AtomicOp::Load(width) | AtomicOp::Cmpxchg(width), _) => width.bytes(),
        PlainInstr::Atomic(AtomicOp::Rmw(_, width), _) => width.bytes(),
        _ => return false,
    };
    most_of(bytes) <= most
}

/// The largest number of so many bytes.
fn most_of(bytes: u8) -> u64 {
    match bytes {
        1 => 0xff,
        2 => 0xffff,
        4 => 0xffff_ffff,
        _ => u64::MAX,
    }
}

/// Whether the instruction at a place puts a number that is at most this one: also an `and` right behind such a one.
fn is_within(code: &[Instr], place: usize, most: u64) -> bool {
    let front = code.get(..=place).unwrap_or(&[]);
    match front {
        [
            ..,
            mask,
            Instr::Plain(PlainInstr::Numeric(NumericInstr::Binary(_, BinaryOp::And))),
        ] => { is_at_most(mask, most) }
        [.., last] => is_at_most(last, most),
        [] => false,
    }
}

/// The first narrow compare-exchange of a body whose expected value may be too wide: its place, and its bytes.
fn first_wide(code: &[Instr]) -> Option<(usize, u8)> {
    for (place, instr) in code.iter().enumerate() {
        if let Some(bytes) = narrow_exchange(instr) {
            let is_known = match maker_of_expected(code, place) {
                Some(maker) => is_within(code, maker, most_of(bytes)),
                None => false,
            };
            if !is_known {
                return Some((place, bytes));
            }
        }
    }
    None
}

/// Adds of each function of a module the first narrow compare-exchange that may never match.
fn add_each<'a>(
    alloc: Global,
    out: &mut String,
    parts: &'a Parts,
    bytes: &'a [u8],
) -> Result<(), AllocError> {
    let code = CodeMap::read(alloc, parts, bytes, bytes)?;
    for (function, body) in parts.bodies.as_slice().iter().enumerate() {
        if let Some((instr, width)) = first_wide(body.code.as_slice()) {
            let spot = code.spot(CodePlace { function, instr });
            let bits = u32::from(width).saturating_mul(8);
            write!(
                out,
                "note: {spot}: a compare-exchange of {bits} bits by an expected value that may be wider, and then it \
                 never matches: mask it\n"
            )?;
        }
    }
    Ok(())
}

/// The same of the module whose text the bytes are, if they are one's.
pub(crate) fn add_narrow(alloc: Global, out: &mut String, bytes: &[u8]) -> Result<(), AllocError> {
    match read(alloc, bytes) {
        Ok(module) => add_each(alloc, out, module.parts(), bytes),
        Err(ReadFault::OutOfMemory) => Err(AllocError),
        Err(ReadFault::Malformed { .. }) => Ok(()),
    }
}
