//! How the bytes of a value are read.

use dwarf_data::bare;
use dwarf_units::{Attribute, Tag, Units};

/// How the bytes of a value are read.
#[derive(Clone, Copy, Debug, PartialEq, Eq)]
pub enum ValueKind {
    /// An integer with a sign, in two's complement.
    Signed,
    /// An integer without a sign, a character or a truth value.
    Unsigned,
    Float,
    Pointer,
    /// A structure, a union or an array.
    Parts,
    Other,
}

/// How the values of a type without parts are read (DWARF 5, section 7.8).
fn base(units: &Units, its_type: usize) -> ValueKind {
    match units.number(its_type, Attribute::Encoding) {
        // signed, signed_char
        Some(0x05 | 0x06) => ValueKind::Signed,
        // boolean, unsigned, unsigned_char, UTF
        Some(0x02 | 0x07 | 0x08 | 0x10) => ValueKind::Unsigned,
        // float
        Some(0x04) => ValueKind::Float,
        _ => ValueKind::Other,
    }
}

/// How the values of an enumeration are read: as those of its type, which has no parts.
fn enumeration(units: &Units, its_type: usize) -> ValueKind {
    match units.type_of(its_type).and_then(|under| bare(units, under)) {
        Some(under) => base(units, under),
        None => ValueKind::Unsigned,
    }
}

/// How the values of a type are read.
pub fn kind_of(units: &Units, its_type: usize) -> ValueKind {
    let Some(bare) = bare(units, its_type) else {
        return ValueKind::Other;
    };
    match units.tag(bare) {
        Tag::PointerType => ValueKind::Pointer,
        Tag::StructureType | Tag::UnionType | Tag::ArrayType => ValueKind::Parts,
        Tag::EnumerationType => enumeration(units, bare),
        Tag::BaseType => base(units, bare),
        _ => ValueKind::Other,
    }
}
