//! Values as the command line spells them.
ghost use Rattle.std.specs.Prelude.{◌≡◌, ◌↔◌, ◌+◌, ◌-◌, ◌%◌, ◌≤◌, ℕ, Some, IfSome};
ghost use Rattle.types.specs.declared.value.Value.{Value};
ghost use Rattle.types.specs.Values.{type_of};
ghost use Rattle.report_command.specs.Spells.{AreDigits, Spells, Writes};

use types::{ValType, Value};

/// The number that digits write, one at least and without a sign, if it is at most this one.
fn digits_in(text: &str, radix: u32, most: u64) -> Option<u64>
    requires low { 2 ≤ radix }
    requires high { radix ≤ 36 }
    ensures { (n : ℕ) → (result ≡ Some n) ↔ (AreDigits radix text.now n × (n ≤ most)) }
{
    if text.as_bytes().first() == Some(&b'+') {
        return None;
    }
    match u64::from_str_radix(text, radix) {
        Ok(n) if n <= most => Some(n),
        _ => None,
    }
}

/// The two's complement of a number, of those up to the highest one.
fn negated(size: u64, most: u64) -> u64
    requires { size ≤ most }
    ensures { result ≡ (most + 1 - size) % (most + 1) }
{
    if size == 0 { 0 } else { most - size + 1 }
}

/// The number that a text writes, of those up to the highest one.
fn number_in(text: &str, most: u64) -> Option<u64>
    ensures range { IfSome result (λ n. n ≤ most) }
    ensures writes { (n : ℕ) → (result ≡ Some n) ↔ Writes text.now n (most + 1) }
{
    if let Some(digits) = text.strip_prefix("0x") {
        return digits_in(digits, 16, most);
    }
    let Some(digits) = text.strip_prefix("-") else {
        return digits_in(text, 10, most);
    };
    let size = digits_in(digits, 10, most - most / 2)?;
    Some(negated(size, most))
}

/// The value of the type that a text spells: an unsigned decimal; a negative one, of which it is the two's complement;
/// or a hexadecimal number behind `0x`. `None` where it spells none.
pub fn value_in(val_type: ValType, text: &str) -> Option<Value>
    ensures { (v : Value) → (result ≡ Some v) ↔ (Spells text.now v × (type_of v ≡ val_type)) }
{
    match val_type {
        ValType::I32 => {
            let n = number_in(text, u32::MAX as u64)?;
            Some(Value::I32(n as u32))
        }
        ValType::I64 => {
            let n = number_in(text, u64::MAX)?;
            Some(Value::I64(n))
        }
    }
}
