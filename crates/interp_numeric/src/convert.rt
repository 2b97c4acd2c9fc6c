//! Conversions between integers of 32 and of 64 bits, and of the low bits of one.

ghost use Rattle.std.specs.Prelude.{◌≡◌};
ghost use Rattle.interp_numeric.specs.Integers.{wrap, extend_u, extend_s};
ghost use Rattle.interp_numeric.specs.Results.{sign_extension};

use types::{NarrowWidth, Value};

/// `i32.wrap_i64`: the low 32 bits (Core specification 1.0, section 4.3.4, `wrap`).
#[inline]
pub fn i32_wrap_i64(operand: u64) -> u32
    ensures { result ≡ wrap 64 32 operand }
{
    (operand & 0xffff_ffff) as u32
}

/// `i64.extend_i32_s`: the same signed number (Core specification 1.0, section 4.3.4, `extend_s`).
#[inline]
pub fn i64_extend_i32_s(operand: u32) -> u64
    ensures { result ≡ extend_s 32 64 operand }
{
    i64::from(operand.cast_signed()).cast_unsigned()
}

/// `i64.extend_i32_u`: the same natural number (Core specification 1.0, section 4.3.4, `extend_u`).
#[inline]
pub fn i64_extend_i32_u(operand: u32) -> u64
    ensures { result ≡ extend_u 32 64 operand }
{
    u64::from(operand)
}

/// `extend8_s`, `extend16_s` and `extend32_s`: the low bits of a number, as many as the width has, as a signed number
/// of the width's type (Core specification 2.0, section 4.3.2, `extendN_s`). The bits above them count for nothing. A
/// narrow signed load makes the same of the number that it finds.
#[inline]
pub fn sign_extended(width: NarrowWidth, number: u64) -> Value
    ensures { result ≡ sign_extension width number }
{
    match width {
        NarrowWidth::I32Bits8 => {
            let low = ((number & 0xff) as u8).cast_signed();
            Value::I32(i32::from(low).cast_unsigned())
        }
        NarrowWidth::I32Bits16 => {
            let low = ((number & 0xffff) as u16).cast_signed();
            Value::I32(i32::from(low).cast_unsigned())
        }
        NarrowWidth::I64Bits8 => {
            let low = ((number & 0xff) as u8).cast_signed();
            Value::I64(i64::from(low).cast_unsigned())
        }
        NarrowWidth::I64Bits16 => {
            let low = ((number & 0xffff) as u16).cast_signed();
            Value::I64(i64::from(low).cast_unsigned())
        }
        NarrowWidth::I64Bits32 => Value::I64(i64_extend_i32_s(i32_wrap_i64(number))),
    }
}
