//! The stack of values, each of which is a word of 64 bits.

ghost use Rattle.std.specs.Prelude.{◌≡◌, ℕ, ◌+◌, ◌<◌, ◌≤◌, List, [], ◌∷◌, ◌++◌, length, replicate, reverse, vec_len};
ghost use Rattle.std.specs.Prelude.{vec_capacity};
ghost use Rattle.types.specs.declared.value.ValType.{ValType};
ghost use Rattle.types.specs.Values.{type_of};
ghost use Rattle.interp_state.specs.Words.{word_of, IsWord, HasWords};

use types::{ValType, Value};

/// The word of a value: its number.
#[inline(always)]
pub fn word(value: Value) -> u64
    ensures word { result ≡ word_of value }
    ensures in_range { IsWord (type_of value) (word_of value) }
{
    match value {
        Value::I32(number) => u64::from(number),
        Value::I64(number) => number,
    }
}

/// The value of a type that a word means.
#[inline(always)]
pub fn value_of(val_type: ValType, word: u64) -> Value
    requires { IsWord val_type word }
    ensures typed { type_of result ≡ val_type }
    ensures word { word_of result ≡ word }
{
    match val_type {
        ValType::I32 => Value::I32(word as u32),
        ValType::I64 => Value::I64(word),
    }
}

/// Takes the topmost word.
#[inline]
pub fn pop(values: &mut Vec<u64>) -> u64
    requires { 0 < length values.old.items }
    ensures word { reverse values.old.items ≡ result ∷ reverse values.new.items }
    ensures capacity { vec_capacity values.new ≡ vec_capacity values.old }
{
    values.take_last()
}

/// Takes the topmost number of 32 bits.
#[inline]
pub fn pop_i32(values: &mut Vec<u64>) -> u32
    requires { HasWords (ValType.I32 ∷ []) (reverse values.old.items) }
    ensures word { reverse values.old.items ≡ result ∷ reverse values.new.items }
    ensures capacity { vec_capacity values.new ≡ vec_capacity values.old }
{
    pop(values) as u32
}

/// The topmost word.
#[inline(always)]
pub fn top(values: &Vec<u64>) -> u64
    requires { 0 < length values.now.items }
    ensures { (below : List ℕ) × (reverse values.now.items ≡ result ∷ reverse below) }
{
    values[values.len() - 1]
}

/// The topmost number of 32 bits.
#[inline(always)]
pub fn top_i32(values: &Vec<u64>) -> u32
    requires { HasWords (ValType.I32 ∷ []) (reverse values.now.items) }
    ensures { (below : List ℕ) × (reverse values.now.items ≡ result ∷ reverse below) }
{
    top(values) as u32
}

/// Puts a word in the place of the topmost one.
#[inline(always)]
pub fn replace_top(values: &mut Vec<u64>, word: u64)
    requires { 0 < length values.old.items }
    ensures word { (top : ℕ) (below : List ℕ) → reverse values.old.items ≡ top ∷ reverse below
        → reverse values.new.items ≡ word ∷ reverse below }
    ensures capacity { vec_capacity values.new ≡ vec_capacity values.old }
{
    let last = values.len() - 1;
    values[last] = word;
}

/// Puts a word on top.
#[inline]
pub fn push(values: &mut Vec<u64>, word: u64)
    requires { vec_len values.old < vec_capacity values.old }
    ensures word { reverse values.new.items ≡ word ∷ reverse values.old.items }
    ensures capacity { vec_capacity values.new ≡ vec_capacity values.old }
{
    values.push_reserved(word);
}

/// Puts so many zeros on top: the word of the zero of either type (Core specification 1.0, section 4.4.7).
#[inline]
pub fn push_zeros(values: &mut Vec<u64>, count: usize)
    requires { vec_len values.old + count ≤ vec_capacity values.old }
    ensures items { values.new.items ≡ values.old.items ++ replicate count 0 }
    ensures capacity { vec_capacity values.new ≡ vec_capacity values.old }
{
    for _ in 0..count {
        values.push_reserved(0);
    }
}
