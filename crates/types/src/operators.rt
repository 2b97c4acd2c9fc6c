//! What numeric and memory instructions do: operators, and how wide an access is.

ghost use Rattle.std.specs.Prelude.{◌≡◌};
ghost use Rattle.types.specs.Widths.{narrow_type, narrow_bytes, access_type, access_bytes, load_type, load_bytes};
ghost use Rattle.types.specs.Widths.{atomic_bytes};

use crate::event::RmwOp;
use crate::value::ValType;

/// An operator on one operand (Core specification 1.0, section 2.4.1, `iunop`).
#[derive(Clone, Copy)]
pub enum UnaryOp {
    Clz,
    Ctz,
    Popcnt,
}

/// An operator on two operands (Core specification 1.0, section 2.4.1, `ibinop`).
#[derive(Clone, Copy)]
pub enum BinaryOp {
    Add,
    Sub,
    Mul,
    DivS,
    DivU,
    RemS,
    RemU,
    And,
    Or,
    Xor,
    Shl,
    ShrS,
    ShrU,
    Rotl,
    Rotr,
}

/// A comparison (Core specification 1.0, section 2.4.1, `irelop`).
#[derive(Clone, Copy)]
pub enum CompareOp {
    Eq,
    Ne,
    LtS,
    LtU,
    GtS,
    GtU,
    LeS,
    LeU,
    GeS,
    GeU,
}

/// A conversion between the integer types (Core specification 1.0, section 2.4.1, `cvtop`), or of the low bits of one
/// (Core specification 2.0, section 2.4.1, `extendN_s`).
#[derive(Clone, Copy)]
pub enum ConvertOp {
    /// `i32.wrap_i64`
    WrapI64,
    /// `i64.extend_i32_s`
    ExtendI32S,
    /// `i64.extend_i32_u`
    ExtendI32U,
    /// `extend8_s`, `extend16_s` and `extend32_s`: the operand and the result have the type of the width.
    SignExtend(NarrowWidth),
}

/// A numeric instruction (Core specification 1.0, section 2.4.1) but a constant: it takes operands from the stack and
/// puts its result there, and does nothing else.
#[derive(Clone, Copy)]
pub enum NumericInstr {
    Unary(ValType, UnaryOp),
    Binary(ValType, BinaryOp),
    /// `eqz`, the one test.
    Test(ValType),
    Compare(ValType, CompareOp),
    Convert(ConvertOp),
}

/// A size below that of the type (Core specification 1.0, section 2.4.4; Core specification 2.0, section 2.4.1): the
/// type of the value on the stack, and the bits that lie in memory, or of which a sign extension takes the sign.
#[derive(Clone, Copy)]
pub enum NarrowWidth {
    I32Bits8,
    I32Bits16,
    I64Bits8,
    I64Bits16,
    I64Bits32,
}

impl NarrowWidth {
    /// The type of the value on the stack.
    pub fn val_type(self) -> ValType
        ensures { result ≡ narrow_type self }
    {
        match self {
            NarrowWidth::I32Bits8 | NarrowWidth::I32Bits16 => ValType::I32,
            NarrowWidth::I64Bits8 | NarrowWidth::I64Bits16 | NarrowWidth::I64Bits32 => ValType::I64,
        }
    }

    /// The bytes in memory: 1, 2 or 4.
    pub fn bytes(self) -> u8
        ensures { result ≡ narrow_bytes self }
    {
        match self {
            NarrowWidth::I32Bits8 | NarrowWidth::I64Bits8 => 1,
            NarrowWidth::I32Bits16 | NarrowWidth::I64Bits16 => 2,
            NarrowWidth::I64Bits32 => 4,
        }
    }
}

/// How much of a type lies in memory (Core specification 1.0, section 2.4.4; threads proposal, section
/// "Atomic Memory Accesses"): the whole, or its low bits.
#[derive(Clone, Copy)]
pub enum AccessWidth {
    Whole(ValType),
    Narrow(NarrowWidth),
}

impl AccessWidth {
    /// The type of the value on the stack.
    pub fn val_type(self) -> ValType
        ensures { result ≡ access_type self }
    {
        match self {
            AccessWidth::Whole(val_type) => val_type,
            AccessWidth::Narrow(width) => width.val_type(),
        }
    }

    /// The bytes in memory: 1, 2, 4 or 8.
    pub fn bytes(self) -> u8
        ensures { result ≡ access_bytes self }
    {
        match self {
            AccessWidth::Whole(val_type) => val_type.bytes(),
            AccessWidth::Narrow(width) => width.bytes(),
        }
    }
}

/// A plain load (Core specification 1.0, section 2.4.4).
#[derive(Clone, Copy)]
pub enum LoadOp {
    /// The bits above those that lie in memory, if there are any, are zero: `load`, `load8_u`, `load16_u`, `load32_u`.
    ZeroExtend(AccessWidth),
    /// The bits above those that lie in memory are copies of the sign: `load8_s`, `load16_s`, `load32_s`.
    SignExtend(NarrowWidth),
}

impl LoadOp {
    /// The type of the value on the stack.
    pub fn val_type(self) -> ValType
        ensures { result ≡ load_type self }
    {
        match self {
            LoadOp::ZeroExtend(width) => width.val_type(),
            LoadOp::SignExtend(width) => width.val_type(),
        }
    }

    /// The bytes in memory: 1, 2, 4 or 8.
    pub fn bytes(self) -> u8
        ensures { result ≡ load_bytes self }
    {
        match self {
            LoadOp::ZeroExtend(width) => width.bytes(),
            LoadOp::SignExtend(width) => width.bytes(),
        }
    }
}

/// An atomic instruction with an address (threads proposal, sections "Atomic Memory Accesses", "Wait and Notify
/// operators").
#[derive(Clone, Copy)]
pub enum AtomicOp {
    /// `memory.atomic.notify`
    Notify,
    /// `memory.atomic.wait32` and `memory.atomic.wait64`: the type of the expected value.
    Wait(ValType),
    Load(AccessWidth),
    Store(AccessWidth),
    Rmw(RmwOp, AccessWidth),
    Cmpxchg(AccessWidth),
}

impl AtomicOp {
    /// The bytes of the access, which its alignment has to equal: 1, 2, 4 or 8.
    pub fn bytes(self) -> u8
        ensures { result ≡ atomic_bytes self }
    {
        match self {
            AtomicOp::Notify => 4,
            AtomicOp::Wait(val_type) => val_type.bytes(),
            AtomicOp::Load(width) | AtomicOp::Store(width) | AtomicOp::Cmpxchg(width) =>
                width.bytes(),
            AtomicOp::Rmw(_, width) => width.bytes(),
        }
    }
}

/// The immediates of a memory instruction (Core specification 1.0, section 2.4.4).
#[derive(Clone, Copy)]
pub struct MemArg {
    /// The alignment is 2 to this power.
    pub align: u32,
    pub offset: u32,
}
