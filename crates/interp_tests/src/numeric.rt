//! Each instruction on edge values, against another engine's answers.

use crate::expected::{
    EXTEND_S, EXTEND_U, I32_BINARY, I32_COMPARE, I32_EQZ, I32_SIGN_EXTEND, I32_UNARY, I64_BINARY,
    I64_COMPARE, I64_EQZ, I64_SIGN_EXTEND, I64_UNARY, WRAP,
};
use interp_numeric::{
    i32_binary, i32_compare, i32_eqz, i32_unary, i32_wrap_i64, i64_binary, i64_compare, i64_eqz,
    i64_extend_i32_s, i64_extend_i32_u, i64_unary, sign_extended,
};
use std::test::Fail;
use types::Value;

#[test]
fn operators_on_32_bits(rt: HostRuntime) -> Result<(), Fail> {
    for (op, operand, answer) in &I32_UNARY {
        assert_eq!(rt; i32_unary(*op, *operand), *answer);
    }
    for (op, left, right, answer) in &I32_BINARY {
        assert_eq!(rt; i32_binary(*op, *left, *right), *answer);
    }
    Ok(())
}

#[test]
fn operators_on_64_bits(rt: HostRuntime) -> Result<(), Fail> {
    for (op, operand, answer) in &I64_UNARY {
        assert_eq!(rt; i64_unary(*op, *operand), *answer);
    }
    for (op, left, right, answer) in &I64_BINARY {
        assert_eq!(rt; i64_binary(*op, *left, *right), *answer);
    }
    Ok(())
}

#[test]
fn comparisons(rt: HostRuntime) -> Result<(), Fail> {
    for (operand, answer) in &I32_EQZ {
        assert_eq!(rt; i32_eqz(*operand), *answer);
    }
    for (op, left, right, answer) in &I32_COMPARE {
        assert_eq!(rt; i32_compare(*op, *left, *right), *answer);
    }
    for (operand, answer) in &I64_EQZ {
        assert_eq!(rt; i64_eqz(*operand), *answer);
    }
    for (op, left, right, answer) in &I64_COMPARE {
        assert_eq!(rt; i64_compare(*op, *left, *right), *answer);
    }
    Ok(())
}

#[test]
fn conversions(rt: HostRuntime) -> Result<(), Fail> {
    for (operand, answer) in &WRAP {
        assert_eq!(rt; i32_wrap_i64(*operand), *answer);
    }
    for (operand, answer) in &EXTEND_S {
        assert_eq!(rt; i64_extend_i32_s(*operand), *answer);
    }
    for (operand, answer) in &EXTEND_U {
        assert_eq!(rt; i64_extend_i32_u(*operand), *answer);
    }
    Ok(())
}

#[test]
fn sign_extensions(rt: HostRuntime) -> Result<(), Fail> {
    for (width, operand, answer) in &I32_SIGN_EXTEND {
        let extended = sign_extended(*width, u64::from(*operand));
        assert_eq!(rt; extended, Value::I32(*answer));
    }
    for (width, operand, answer) in &I64_SIGN_EXTEND {
        assert_eq!(rt; sign_extended(*width, *operand), Value::I64(*answer));
    }
    Ok(())
}
