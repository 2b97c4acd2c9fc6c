//! What attributes say, by other sections where they say an offset or an index of a table.

use crate::attributes::Attribute;
use crate::entries::Units;
use dwarf_reader::{AttributeValue, Cursor, string_at};

/// The most bytes of a string that isn't in its entry.
const MOST_STRING: usize = 4096;

/// The number of 4 bytes at an index of a table, which begins at an offset in its section.
fn in_table(section: &[u8], base: u64, index: u64) -> Option<u64> {
    let offset = usize::try_from(index.checked_mul(4)?.checked_add(base)?).ok()?;
    Cursor::new(section.get(offset..)?).read_number(4).ok()
}

impl<'a> Units<'a> {
    /// What the root of an entry's unit says of another section.
    fn base_of(&self, entry: usize, base: Attribute) -> Option<u64> {
        let root = self.unit_of(entry)?.root;
        match self.value(root, base)? {
            AttributeValue::SectionOffset(offset) => Some(offset),
            _ => None,
        }
    }

    /// Where the lines of an entry's unit stand in `.debug_line`.
    pub fn lines_of(&self, entry: usize) -> Option<u64> {
        self.base_of(entry, Attribute::StmtList)
    }

    /// The address of an index, in the unit of an entry.
    pub fn address_of(&self, entry: usize, index: u64) -> Option<u64> {
        let base = self.base_of(entry, Attribute::AddrBase)?;
        in_table(self.sections.addresses, base, index)
    }

    /// Where the string of an index stands in `.debug_str`, in the unit of an entry.
    pub(crate) fn string_offset(&self, entry: usize, index: u64) -> Option<u64> {
        let base = self.base_of(entry, Attribute::StrOffsetsBase)?;
        in_table(self.sections.text_offsets, base, index)
    }

    /// Where the list of an index stands in `.debug_loclists` or `.debug_rnglists`, in the unit of an entry.
    pub(crate) fn list_offset(&self, entry: usize, has_places: bool, index: u64) -> Option<u64> {
        let (section, base) = if has_places {
            (self.sections.location_lists, Attribute::LoclistsBase)
        } else {
            (self.sections.range_lists, Attribute::RnglistsBase)
        };
        let base = self.base_of(entry, base)?;
        in_table(section, base, index)?.checked_add(base)
    }

    /// The address that an attribute of an entry says.
    pub fn address(&self, entry: usize, wanted: Attribute) -> Option<u64> {
        match self.value(entry, wanted)? {
            AttributeValue::Address(address) => Some(address),
            AttributeValue::AddressIndex(index) => self.address_of(entry, index),
            _ => None,
        }
    }

    /// The number that an attribute of an entry says.
    pub fn number(&self, entry: usize, wanted: Attribute) -> Option<u64> {
        match self.value(entry, wanted)? {
            AttributeValue::Constant(number) => Some(number),
            _ => None,
        }
    }

    /// The string that an attribute of an entry says.
    pub fn string(&self, entry: usize, wanted: Attribute) -> Option<&'a str> {
        let strings = self.sections.texts;
        let (section, offset) = match self.value(entry, wanted)? {
            AttributeValue::String(bytes) => return self.pass_string(bytes),
            AttributeValue::StringAt(offset) => (strings, offset),
            AttributeValue::LineStringAt(offset) => (self.sections.line_texts, offset),
            AttributeValue::StringIndex(index) => (strings, self.string_offset(entry, index)?),
            _ => return None,
        };
        self.pass_string(string_at(section, offset, MOST_STRING).ok()?)
    }

    /// A string of these bytes, for which steps are taken.
    fn pass_string(&self, bytes: &'a [u8]) -> Option<&'a str> {
        self.pass(bytes.len());
        std::str::from_utf8(bytes).ok()
    }
}
