//! Operators, tests and comparisons of integers of 32 bits.

ghost use Rattle.std.specs.Prelude.{◌≡◌};
ghost use Rattle.interp_numeric.specs.Integers.{ieqz, idiv_s, irem_s, ishr_s};
ghost use Rattle.interp_numeric.specs.Results.{unary_result, binary_result, compare_result};

use types::{BinaryOp, CompareOp, Trap, UnaryOp};

/// `i32.clz`, `i32.ctz` and `i32.popcnt`: the zeros before the highest one, those behind the lowest one, and the ones
/// (Core specification 1.0, section 4.3.2): 0 to 32. Where there is no one, all 32 bits are zeros before and behind it.
#[inline]
pub fn i32_unary(op: UnaryOp, operand: u32) -> u32
    ensures { result ≡ unary_result 32 op operand }
{
    match op {
        UnaryOp::Clz => operand.leading_zeros(),
        UnaryOp::Ctz => operand.trailing_zeros(),
        UnaryOp::Popcnt => operand.count_ones(),
    }
}

/// An operator on two integers of 32 bits (Core specification 1.0, section 4.3.2). The right operand is the one on top
/// of the stack. Sums, differences and products wrap, counts of shifts and rotations are taken modulo 32. A division
/// or a remainder by zero answers `DivideByZero`, the signed division of the least number by -1 `IntegerOverflow`.
#[inline]
pub fn i32_binary(op: BinaryOp, left: u32, right: u32) -> Result<u32, Trap>
    ensures { result ≡ binary_result 32 op left right }
{
    match op {
        BinaryOp::Add => Ok(left.wrapping_add(right)),
        BinaryOp::Sub => Ok(left.wrapping_sub(right)),
        BinaryOp::Mul => Ok(left.wrapping_mul(right)),
        BinaryOp::DivS => divide_signed(left, right),
        BinaryOp::DivU => left.checked_div(right).ok_or(Trap::DivideByZero),
        BinaryOp::RemS => remainder_signed(left, right),
        BinaryOp::RemU => left.checked_rem(right).ok_or(Trap::DivideByZero),
        BinaryOp::And => Ok(left & right),
        BinaryOp::Or => Ok(left | right),
        BinaryOp::Xor => Ok(left ^ right),
        BinaryOp::Shl => Ok(left << (right % 32)),
        BinaryOp::ShrS => Ok(shift_signed(left, right)),
        BinaryOp::ShrU => Ok(left >> (right % 32)),
        BinaryOp::Rotl => Ok(left.rotate_left(right % 32)),
        BinaryOp::Rotr => Ok(left.rotate_right(right % 32)),
    }
}

#[inline]
fn divide_signed(left: u32, right: u32) -> Result<u32, Trap>
    ensures { result ≡ idiv_s 32 left right }
{
    if right == 0 {
        return Err(Trap::DivideByZero);
    }
    match left.cast_signed().checked_div(right.cast_signed()) {
        Some(quotient) => Ok(quotient.cast_unsigned()),
        None => Err(Trap::IntegerOverflow),
    }
}

// The remainder of the least number by -1 is 0, although their quotient does not fit.
#[inline]
fn remainder_signed(left: u32, right: u32) -> Result<u32, Trap>
    ensures { result ≡ irem_s 32 left right }
{
    if right == 0 {
        return Err(Trap::DivideByZero);
    }
    match left.cast_signed().checked_rem(right.cast_signed()) {
        Some(remainder) => Ok(remainder.cast_unsigned()),
        None => Ok(0),
    }
}

#[inline]
fn shift_signed(left: u32, right: u32) -> u32
    ensures { result ≡ ishr_s 32 left right }
{
    (left.cast_signed() >> (right % 32)).cast_unsigned()
}

/// `i32.eqz`: 1 for zero, else 0 (Core specification 1.0, section 4.3.2, `ieqz`).
#[inline]
pub fn i32_eqz(operand: u32) -> u32
    ensures { result ≡ ieqz 32 operand }
{
    u32::from(operand == 0)
}

/// A comparison of integers of 32 bits: 1 where it holds, else 0 (Core specification 1.0, section 4.3.2). The
/// right operand is the one on top of the stack.
#[inline]
pub fn i32_compare(op: CompareOp, left: u32, right: u32) -> u32
    ensures { result ≡ compare_result 32 op left right }
{
    let (signed_left, signed_right) = (left.cast_signed(), right.cast_signed());
    let holds = match op {
        CompareOp::Eq => left == right,
        CompareOp::Ne => left != right,
        CompareOp::LtS => signed_left < signed_right,
        CompareOp::LtU => left < right,
        CompareOp::GtS => signed_left > signed_right,
        CompareOp::GtU => left > right,
        CompareOp::LeS => signed_left <= signed_right,
        CompareOp::LeU => left <= right,
        CompareOp::GeS => signed_left >= signed_right,
        CompareOp::GeU => left >= right,
    };
    u32::from(holds)
}
