//! Reading values.

ghost use Rattle.replay_forms.specs.Reading.{ReadsNext};
ghost use Rattle.replay_text.specs.Reading.{i32_at, i64_at, value_at};

use replay_forms::{Item, after, number_within};
use types::Value;

fn i32_at(bytes: &[u8]) -> Option<(Value, &[u8])>
    ensures { ReadsNext i32_at bytes.now result }
{
    let Some(rest) = after(b"i32:", bytes) else {
        return None;
    };
    let Some((n, rest)) = number_within(u32::MAX as u64, rest) else {
        return None;
    };
    Some((Value::I32(n as u32), rest))
}

fn i64_at(bytes: &[u8]) -> Option<(Value, &[u8])>
    ensures { ReadsNext i64_at bytes.now result }
{
    let Some(rest) = after(b"i64:", bytes) else {
        return None;
    };
    let Some((n, rest)) = number_within(u64::MAX, rest) else {
        return None;
    };
    Some((Value::I64(n), rest))
}

/// A value.
pub fn value_at(bytes: &[u8]) -> Option<(Value, &[u8])>
    ensures { ReadsNext value_at bytes.now result }
{
    if let Some(found) = i32_at(bytes) {
        return Some(found);
    }
    i64_at(bytes)
}

/// The arguments, a space before each.
pub struct Argument;

impl Item for Argument {
    ghost use Rattle.replay_text.specs.Reading.{arg_at};

    type Value = Value;

    ghost at = { λ kind place. arg_at };

    fn read<'a>(&self, _place: usize, bytes: &'a [u8]) -> Option<(Value, &'a [u8])> {
        let Some(rest) = after(b" ", bytes) else {
            return None;
        };
        value_at(rest)
    }
}
