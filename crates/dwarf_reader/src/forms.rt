//! Forms: how the values of attributes are spelled, and what they are (DWARF 5, sections 7.5.5 and 7.5.6).

ghost use Rattle.std.specs.Prelude.{◌≤◌};

use crate::cursor::Cursor;
use crate::fault::DebugFault;

/// The number or the bytes of a value.
#[derive(Clone, Copy)]
enum Raw<'a> {
    Number(u64),
    Bytes(&'a [u8]),
}

/// How the values of an attribute are spelled, and what they are.
#[derive(Clone, Copy)]
pub struct AttributeForm {
    code: u64,
    /// The constant that all its values are, if they are one.
    given: Option<u64>,
}

/// The form behind which stands the constant that all of its values are.
const IMPLICIT_CONST: u64 = 0x21;

/// What an attribute says.
#[derive(Clone, Copy)]
pub enum AttributeValue<'a> {
    /// A number or a flag; a number with a sign in two's complement of 64 bits.
    Constant(u64),
    String(&'a [u8]),
    /// A string at an offset in `.debug_str`.
    StringAt(u64),
    /// A string at an offset in `.debug_line_str`.
    LineStringAt(u64),
    /// The string of this index in the unit's part of `.debug_str_offsets`.
    StringIndex(u64),
    Address(u64),
    /// The address of this index in the unit's part of `.debug_addr`.
    AddressIndex(u64),
    /// An entry at an offset in its unit.
    UnitReference(u64),
    /// An entry at an offset in `.debug_info`.
    Reference(u64),
    /// An offset in another section, which the attribute names.
    SectionOffset(u64),
    /// The list of this index in the unit's part of its section.
    ListIndex(u64),
    Expression(&'a [u8]),
    /// What isn't looked at.
    Other,
}

impl AttributeForm {
    /// The form of a code, where it is one whose values stand with their attributes.
    pub fn of(code: u64) -> Option<AttributeForm> {
        let is_known = matches!(code, 0x01 | 0x03..=0x15 | 0x17..=0x20 | 0x22..=0x2c);
        is_known.then_some(AttributeForm { code, given: None })
    }

    /// The form whose values are all this constant, which stands behind the form itself (`DW_FORM_implicit_const`).
    pub fn implicit(constant: u64) -> AttributeForm {
        AttributeForm {
            code: IMPLICIT_CONST,
            given: Some(constant),
        }
    }

    /// The number or the bytes of a value.
    fn read_raw<'a>(self, cursor: &mut Cursor<'a>) -> Result<Raw<'a>, DebugFault> {
        let len = match self.code {
            // data1, flag, ref1, strx1, addrx1
            0x0b | 0x0c | 0x11 | 0x25 | 0x29 => return Ok(Raw::Number(cursor.read_number(1)?)),
            // data2, ref2, strx2, addrx2
            0x05 | 0x12 | 0x26 | 0x2a => return Ok(Raw::Number(cursor.read_number(2)?)),
            // strx3, addrx3
            0x27 | 0x2b => return Ok(Raw::Number(cursor.read_number(3)?)),
            // data8, ref8, ref_sig8, ref_sup8
            0x07 | 0x14 | 0x20 | 0x24 => return Ok(Raw::Number(cursor.read_number(8)?)),
            // udata, ref_udata, strx, addrx, loclistx, rnglistx
            0x0f | 0x15 | 0x1a | 0x1b | 0x22 | 0x23 => {
                return Ok(Raw::Number(cursor.read_unsigned()?));
            }
            // sdata, string, flag_present
            0x0d => return Ok(Raw::Number(cursor.read_signed()?)),
            0x08 => return Ok(Raw::Bytes(cursor.read_string()?)),
            0x19 => return Ok(Raw::Number(1)),
            // block1, block2, block4, block, exprloc
            0x0a => cursor.read_number(1)?,
            0x03 => cursor.read_number(2)?,
            0x04 => cursor.read_number(4)?,
            0x09 | 0x18 => cursor.read_unsigned()?,
            // data16
            0x1e => 16,
            // addr, data4, strp, ref_addr, ref4, sec_offset, ref_sup4, strp_sup, line_strp, strx4, addrx4
            _ => return Ok(Raw::Number(cursor.read_number(4)?)),
        };
        Ok(Raw::Bytes(cursor.read_bytes(len)?))
    }

    /// What a number or bytes mean.
    fn value<'a>(self, raw: Raw<'a>) -> AttributeValue<'a> {
        match (self.code, raw) {
            // data1, data2, data4, data8, flag, sdata, udata, flag_present
            (0x0b | 0x05 | 0x06 | 0x07 | 0x0c | 0x0d | 0x0f | 0x19, Raw::Number(number)) =>
                AttributeValue::Constant(number),
            // string, strp, line_strp
            (0x08, Raw::Bytes(bytes)) => AttributeValue::String(bytes),
            (0x0e, Raw::Number(offset)) => AttributeValue::StringAt(offset),
            (0x1f, Raw::Number(offset)) => AttributeValue::LineStringAt(offset),
            // strx, strx1 to strx4
            (0x1a | 0x25..=0x28, Raw::Number(index)) => AttributeValue::StringIndex(index),
            // addr; addrx, addrx1 to addrx4
            (0x01, Raw::Number(address)) => AttributeValue::Address(address),
            (0x1b | 0x29..=0x2c, Raw::Number(index)) => AttributeValue::AddressIndex(index),
            // ref1, ref2, ref4, ref8, ref_udata; ref_addr
            (0x11..=0x15, Raw::Number(offset)) => AttributeValue::UnitReference(offset),
            (0x10, Raw::Number(offset)) => AttributeValue::Reference(offset),
            // sec_offset; loclistx, rnglistx
            (0x17, Raw::Number(offset)) => AttributeValue::SectionOffset(offset),
            (0x22 | 0x23, Raw::Number(index)) => AttributeValue::ListIndex(index),
            // exprloc
            (0x18, Raw::Bytes(bytes)) => AttributeValue::Expression(bytes),
            _ => AttributeValue::Other,
        }
    }

    /// A value of this form.
    pub fn read<'a>(self, cursor: &mut Cursor<'a>) -> Result<AttributeValue<'a>, DebugFault> {
        match self.given {
            Some(constant) => Ok(AttributeValue::Constant(constant)),
            None => Ok(self.value(self.read_raw(cursor)?)),
        }
    }
}
