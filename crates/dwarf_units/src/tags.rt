//! What an entry is (DWARF 5, section 7.5.3).

/// What an entry is.
#[derive(Clone, Copy, Debug, PartialEq, Eq)]
pub enum Tag {
    ArrayType,
    EnumerationType,
    FormalParameter,
    LexicalBlock,
    Member,
    PointerType,
    CompileUnit,
    /// A `struct`, or a class.
    StructureType,
    /// The type of a function.
    SubroutineType,
    Typedef,
    UnionType,
    /// A call whose function was put in its place.
    InlinedSubroutine,
    /// A dimension of an array.
    SubrangeType,
    /// A type without parts, as `int`.
    BaseType,
    ConstType,
    Subprogram,
    Variable,
    VolatileType,
    RestrictType,
    AtomicType,
    Other,
}

impl Tag {
    pub(crate) fn of(code: u64) -> Tag {
        match code {
            0x01 => Tag::ArrayType,
            0x04 => Tag::EnumerationType,
            0x05 => Tag::FormalParameter,
            0x0b => Tag::LexicalBlock,
            0x0d => Tag::Member,
            0x0f => Tag::PointerType,
            0x11 => Tag::CompileUnit,
            0x02 | 0x13 => Tag::StructureType,
            0x15 => Tag::SubroutineType,
            0x16 => Tag::Typedef,
            0x17 => Tag::UnionType,
            0x1d => Tag::InlinedSubroutine,
            0x21 => Tag::SubrangeType,
            0x24 => Tag::BaseType,
            0x26 => Tag::ConstType,
            0x2e => Tag::Subprogram,
            0x34 => Tag::Variable,
            0x35 => Tag::VolatileType,
            0x37 => Tag::RestrictType,
            0x47 => Tag::AtomicType,
            _ => Tag::Other,
        }
    }
}
