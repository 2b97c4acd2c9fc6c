//! Operators, tests and comparisons of integers of 64 bits.

ghost use Rattle.std.specs.Prelude.{◌≡◌};
ghost use Rattle.interp_numeric.specs.Integers.{ieqz, idiv_s, irem_s, ishr_s};
ghost use Rattle.interp_numeric.specs.Results.{unary_result, binary_result, compare_result};

use types::{BinaryOp, CompareOp, Trap, UnaryOp};

/// `i64.clz`, `i64.ctz` and `i64.popcnt`: the zeros before the highest one, those behind the lowest one, and the ones
/// (Core specification 1.0, section 4.3.2): 0 to 64. Where there is no one, all 64 bits are zeros before and behind it.
#[inline]
pub fn i64_unary(op: UnaryOp, operand: u64) -> u64
    ensures { result ≡ unary_result 64 op operand }
{
    match op {
        UnaryOp::Clz => u64::from(operand.leading_zeros()),
        UnaryOp::Ctz => u64::from(operand.trailing_zeros()),
        UnaryOp::Popcnt => u64::from(operand.count_ones()),
    }
}

/// An operator on two integers of 64 bits (Core specification 1.0, section 4.3.2). The right operand is the one on top
/// of the stack. Sums, differences and products wrap, counts of shifts and rotations are taken modulo 64. A division
/// or a remainder by zero answers `DivideByZero`, the signed division of the least number by -1 `IntegerOverflow`.
#[inline]
pub fn i64_binary(op: BinaryOp, left: u64, right: u64) -> Result<u64, Trap>
    ensures { result ≡ binary_result 64 op left right }
{
    match op {
        BinaryOp::Add => Ok(left.wrapping_add(right)),
        BinaryOp::Sub => Ok(left.wrapping_sub(right)),
        BinaryOp::Mul => Ok(left.wrapping_mul(right)),
        BinaryOp::DivS => divide_signed(left, right),
        BinaryOp::DivU => left.checked_div(right).ok_or(Trap::DivideByZero),
        BinaryOp::RemS => remainder_signed(left, right),
        BinaryOp::RemU => left.checked_rem(right).ok_or(Trap::DivideByZero),
        BinaryOp::And => Ok(left & right),
        BinaryOp::Or => Ok(left | right),
        BinaryOp::Xor => Ok(left ^ right),
        BinaryOp::Shl => Ok(left << (right % 64)),
        BinaryOp::ShrS => Ok(shift_signed(left, right)),
        BinaryOp::ShrU => Ok(left >> (right % 64)),
        BinaryOp::Rotl => Ok(left.rotate_left((right % 64) as u32)),
        BinaryOp::Rotr => Ok(left.rotate_right((right % 64) as u32)),
    }
}

#[inline]
fn divide_signed(left: u64, right: u64) -> Result<u64, Trap>
    ensures { result ≡ idiv_s 64 left right }
{
    if right == 0 {
        return Err(Trap::DivideByZero);
    }
    match left.cast_signed().checked_div(right.cast_signed()) {
        Some(quotient) => Ok(quotient.cast_unsigned()),
        None => Err(Trap::IntegerOverflow),
    }
}

// The remainder of the least number by -1 is 0, although their quotient does not fit.
#[inline]
fn remainder_signed(left: u64, right: u64) -> Result<u64, Trap>
    ensures { result ≡ irem_s 64 left right }
{
    if right == 0 {
        return Err(Trap::DivideByZero);
    }
    match left.cast_signed().checked_rem(right.cast_signed()) {
        Some(remainder) => Ok(remainder.cast_unsigned()),
        None => Ok(0),
    }
}

#[inline]
fn shift_signed(left: u64, right: u64) -> u64
    ensures { result ≡ ishr_s 64 left right }
{
    (left.cast_signed() >> (right % 64)).cast_unsigned()
}

/// `i64.eqz`: 1 for zero, else 0 (Core specification 1.0, section 4.3.2, `ieqz`).
#[inline]
pub fn i64_eqz(operand: u64) -> u32
    ensures { result ≡ ieqz 64 operand }
{
    u32::from(operand == 0)
}

/// A comparison of integers of 64 bits: 1 where it holds, else 0 (Core specification 1.0, section 4.3.2). The
/// right operand is the one on top of the stack.
#[inline]
pub fn i64_compare(op: CompareOp, left: u64, right: u64) -> u32
    ensures { result ≡ compare_result 64 op left right }
{
    let (signed_left, signed_right) = (left.cast_signed(), right.cast_signed());
    let holds = match op {
        CompareOp::Eq => left == right,
        CompareOp::Ne => left != right,
        CompareOp::LtS => signed_left < signed_right,
        CompareOp::LtU => left < right,
        CompareOp::GtS => signed_left > signed_right,
        CompareOp::GtU => left > right,
        CompareOp::LeS => signed_left <= signed_right,
        CompareOp::LeU => left <= right,
        CompareOp::GeS => signed_left >= signed_right,
        CompareOp::GeU => left >= right,
    };
    u32::from(holds)
}
