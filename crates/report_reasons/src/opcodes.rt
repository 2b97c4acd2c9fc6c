//! Opcodes that aren't served: what they are called, and what to do.

/// What an instruction that isn't served is, and what to do.
#[derive(Clone, Copy, PartialEq, Eq)]
pub(crate) struct Unserved {
    pub(crate) name: &'static str,
    pub(crate) hint: &'static str,
}

const FLOATS: &str =
    "floats aren't served, and no switch of a compiler takes them away: use integers";

const BULK: &str =
    "bulk memory isn't served: c/wathread-cc puts calls in its place; clang by itself: -fno-builtin, \
    and copy no large struct";

const STATIC_DATA: &str =
    "bulk memory isn't served, by which wasm-ld fills the static data of a shared memory: \
    c/wathread-cc makes modules of C without it";

const REFERENCES: &str =
    "reference types aren't served; clang: -mno-reference-types, as c/wathread-cc has it";

const SIMD: &str = "vectors aren't served; clang: -mno-simd128";

const TAIL_CALLS: &str = "tail calls aren't served; clang: -mno-tail-call";

const EXCEPTIONS: &str = "exceptions aren't served";

const OTHER: &str = "it is in none of the features that are served";

/// The names of float instructions that stand one behind the other.
const COMPARISONS: &str =
    "f32.eq f32.ne f32.lt f32.gt f32.le f32.ge f64.eq f64.ne f64.lt f64.gt f64.le f64.ge";

const ARITHMETIC: &str =
    "f32.abs f32.neg f32.ceil f32.floor f32.trunc f32.nearest f32.sqrt f32.add f32.sub f32.mul \
    f32.div f32.min f32.max f32.copysign f64.abs f64.neg f64.ceil f64.floor f64.trunc f64.nearest f64.sqrt f64.add \
    f64.sub f64.mul f64.div f64.min f64.max f64.copysign";

const TO_I32: &str = "i32.trunc_f32_s i32.trunc_f32_u i32.trunc_f64_s i32.trunc_f64_u";

const FROM_I64: &str =
    "i64.trunc_f32_s i64.trunc_f32_u i64.trunc_f64_s i64.trunc_f64_u f32.convert_i32_s \
    f32.convert_i32_u f32.convert_i64_s f32.convert_i64_u f32.demote_f64 f64.convert_i32_s f64.convert_i32_u \
    f64.convert_i64_s f64.convert_i64_u f64.promote_f32 i32.reinterpret_f32 i64.reinterpret_f64 f32.reinterpret_i32 \
    f64.reinterpret_i64";

const BULK_NAMES: &str =
    "memory.init data.drop memory.copy memory.fill table.init elem.drop table.copy table.grow \
    table.size table.fill";

fn nth_word(words: &'static str, place: u8) -> &'static str {
    words
        .split(' ')
        .nth(usize::from(place))
        .unwrap_or("a float")
}

/// The float type or instruction of a byte.
pub(crate) fn float_name(code: u8) -> &'static str {
    match code {
        0x2a => "f32.load",
        0x2b => "f64.load",
        0x38 => "f32.store",
        0x39 => "f64.store",
        0x43 => "f32.const",
        0x44 => "f64.const",
        0x5b..=0x66 => nth_word(COMPARISONS, code - 0x5b),
        0x7c => "the type f64",
        0x7d => "the type f32",
        0x8b..=0xa6 => nth_word(ARITHMETIC, code - 0x8b),
        0xa8..=0xab => nth_word(TO_I32, code - 0xa8),
        0xae..=0xbf => nth_word(FROM_I64, code - 0xae),
        _ => "a float",
    }
}

/// What is said of a float.
pub(crate) fn float(code: u8) -> Unserved {
    Unserved {
        name: float_name(code),
        hint: FLOATS,
    }
}

fn some_unserved(name: &'static str, hint: &'static str) -> Option<Unserved> {
    Some(Unserved { name, hint })
}

/// What is behind the prefix `fc`.
fn prefixed(number: u8) -> Option<Unserved> {
    match number {
        0..=7 => some_unserved("a conversion of a float that saturates", FLOATS),
        8 | 9 => some_unserved(nth_word(BULK_NAMES, number - 8), STATIC_DATA),
        10 | 11 => some_unserved(nth_word(BULK_NAMES, number - 8), BULK),
        12..=17 => some_unserved(nth_word(BULK_NAMES, number - 8), REFERENCES),
        _ => some_unserved("unknown", OTHER),
    }
}

/// What an opcode is that begins no instruction which is served, by the byte behind it.
pub(crate) fn unknown(code: u8, next: Option<u8>) -> Option<Unserved> {
    match code {
        0x06 => some_unserved("try", EXCEPTIONS),
        0x07 => some_unserved("catch", EXCEPTIONS),
        0x08 => some_unserved("throw", EXCEPTIONS),
        0x09 => some_unserved("rethrow", EXCEPTIONS),
        0x0a => some_unserved("throw_ref", EXCEPTIONS),
        0x12 => some_unserved("return_call", TAIL_CALLS),
        0x13 => some_unserved("return_call_indirect", TAIL_CALLS),
        0x18 | 0x19 | 0x1f => some_unserved("try", EXCEPTIONS),
        0x1c => some_unserved("select of a written type", REFERENCES),
        0x25 => some_unserved("table.get", REFERENCES),
        0x26 => some_unserved("table.set", REFERENCES),
        0x80 => some_unserved("an index of a table in more than one byte", REFERENCES),
        0xd0 => some_unserved("ref.null", REFERENCES),
        0xd1 => some_unserved("ref.is_null", REFERENCES),
        0xd2 => some_unserved("ref.func", REFERENCES),
        0xfc => prefixed(next?),
        0xfd => some_unserved("a vector instruction", SIMD),
        _ => None,
    }
}

/// What is said of the number of a section that isn't served.
pub(crate) fn unknown_section(id: u8) -> Option<Unserved> {
    match id {
        12 => some_unserved("data count", STATIC_DATA),
        13 => some_unserved("tag", EXCEPTIONS),
        _ => None,
    }
}
