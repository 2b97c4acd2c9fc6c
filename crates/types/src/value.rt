//! Integer types and values.
ghost use Rattle.std.specs.Prelude.{◌≡◌};
ghost use Rattle.types.specs.Values.{type_of, value_text};
ghost use Rattle.types.specs.Widths.{type_bytes};

use std::fmt;

/// An integer type (Core specification 1.0, section 2.3.1; the types of floats are left out).
#[derive(Clone, Copy, PartialEq, Eq, Debug)]
pub enum ValType {
    I32,
    I64,
}

impl ValType {
    /// The bytes of a value of this type: 4 or 8.
    pub fn bytes(self) -> u8
        ensures { result ≡ type_bytes self }
    {
        match self {
            ValType::I32 => 4,
            ValType::I64 => 8,
        }
    }
}

/// An integer of 32 or 64 bits (Core specification 1.0, section 4.2.1). It has no sign: each operator reads the
/// bits as it needs.
#[derive(Clone, Copy, PartialEq, Eq, Debug)]
pub enum Value {
    I32(u32),
    I64(u64),
}

impl Value {
    /// The value's type.
    pub fn val_type(self) -> ValType
        ensures { result ≡ type_of self }
    {
        match self {
            Value::I32(_) => ValType::I32,
            Value::I64(_) => ValType::I64,
        }
    }
}

/// `i32:V` or `i64:V`, with `V` as an unsigned decimal.
impl fmt::Display for Value {
    ghost use Rattle.std.specs.Prelude.{Some};
    ghost use Rattle.types.specs.Values.{value_text};

    ghost output = { λ v. Some (value_text v) };

    fn fmt<W: fmt::Write>(&self, f: &mut fmt::Formatter<W>) -> fmt::Result {
        match *self {
            Value::I32(n) => write!(f, "i32:{n}"),
            Value::I64(n) => write!(f, "i64:{n}"),
        }
    }
}
