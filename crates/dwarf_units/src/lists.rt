//! Lists of ranges and of locations (DWARF 5, sections 2.6.2, 2.17.3, 7.25 and 7.28; DWARF 4, sections 2.6.2 and
//! 2.17.3).

ghost use Rattle.std.specs.Prelude.{◌≡◌, ◌&&◌, nat_le, nat_lt};

use crate::attributes::Attribute;
use crate::entries::Units;
use dwarf_reader::{AttributeValue, Cursor, DebugFault};

/// The most items of a list that are read.
const MOST_ITEMS: u32 = 4096;

/// Code from an offset up to another, counted from the start of the code section's contents.
#[derive(Clone, Copy, Debug, PartialEq, Eq)]
pub struct CodeRange {
    pub start: u64,
    pub end: u64,
}

impl CodeRange {
    /// Whether an offset is within it.
    pub fn contains(self, offset: u64) -> bool
        ensures { result ≡ (nat_le self.start offset && nat_lt offset self.end) }
    {
        self.start <= offset && offset < self.end
    }
}

#[derive(Clone, Copy)]
enum ListItem {
    End,
    /// From here on offsets are counted.
    Base(u64),
    Code(CodeRange),
    /// Wherever no other item of the list is.
    Elsewhere,
}

fn between(start: u64, end: u64) -> ListItem {
    ListItem::Code(CodeRange { start, end })
}

fn from(start: u64, length: u64) -> ListItem {
    between(start, start.saturating_add(length))
}

/// An item of version 4: two offsets from the base. Two zeros end the list, and the greatest number sets the base.
fn read_pair(cursor: &mut Cursor, base: u64) -> Result<ListItem, DebugFault> {
    let start = cursor.read_number(4)?;
    let end = cursor.read_number(4)?;
    Ok(if start == 0 && end == 0 {
        ListItem::End
    } else if start == 0xffff_ffff {
        ListItem::Base(end)
    } else {
        between(base.saturating_add(start), base.saturating_add(end))
    })
}

impl<'a> Units<'a> {
    /// An address by its index, in LEB128, in the unit of an entry.
    fn read_indexed(&self, cursor: &mut Cursor, entry: usize) -> Result<u64, DebugFault> {
        let index = cursor.read_unsigned()?;
        self.address_of(entry, index).ok_or(DebugFault::Unreadable)
    }

    /// What is behind the code of an item of version 5, which is one of a list of locations.
    fn read_coded(
        &self,
        cursor: &mut Cursor,
        entry: usize,
        code: u8,
        base: u64,
    ) -> Result<ListItem, DebugFault> {
        Ok(match code {
            // end_of_list, base_addressx
            0 => ListItem::End,
            1 => ListItem::Base(self.read_indexed(cursor, entry)?),
            // startx_endx, startx_length
            2 => {
                let start = self.read_indexed(cursor, entry)?;
                between(start, self.read_indexed(cursor, entry)?)
            }
            3 => {
                let start = self.read_indexed(cursor, entry)?;
                from(start, cursor.read_unsigned()?)
            }
            // offset_pair
            4 => {
                let start = base.saturating_add(cursor.read_unsigned()?);
                between(start, base.saturating_add(cursor.read_unsigned()?))
            }
            // default_location, base_address
            5 => ListItem::Elsewhere,
            6 => ListItem::Base(cursor.read_number(4)?),
            // start_end, start_length
            7 => {
                let start = cursor.read_number(4)?;
                between(start, cursor.read_number(4)?)
            }
            8 => {
                let start = cursor.read_number(4)?;
                from(start, cursor.read_unsigned()?)
            }
            _ => return Err(DebugFault::Unreadable),
        })
    }

    /// An item of a list, and the expression of one of locations that has code.
    fn read_item(
        &self,
        cursor: &mut Cursor<'a>,
        entry: usize,
        has_places: bool,
        is_version_5: bool,
        base: u64,
    ) -> Result<(ListItem, &'a [u8]), DebugFault> {
        let item = if is_version_5 {
            let code = cursor.read_u8()?;
            // Ranges have no default location, so their codes behind it are lower by one.
            let is_lower = !has_places && code > 4;
            self.read_coded(cursor, entry, code.saturating_add(u8::from(is_lower)), base)?
        } else {
            read_pair(cursor, base)?
        };
        if !has_places || matches!(item, ListItem::End | ListItem::Base(_)) {
            return Ok((item, &[]));
        }
        let len = if is_version_5 {
            cursor.read_unsigned()?
        } else {
            cursor.read_number(2)?
        };
        Ok((item, cursor.read_bytes(len)?))
    }

    /// The first item of an entry's list, of locations or of ranges, that has an offset, or else the one that stands for
    /// wherever no other is: its expression, which is empty in a list of ranges.
    fn item_at(
        &self,
        entry: usize,
        list: AttributeValue<'a>,
        has_places: bool,
        offset: u64,
    ) -> Option<&'a [u8]> {
        let unit = self.unit_of(entry)?;
        let section = match (has_places, unit.is_version_5) {
            (false, false) => self.sections.ranges,
            (false, true) => self.sections.range_lists,
            (true, false) => self.sections.locations,
            (true, true) => self.sections.location_lists,
        };
        let start = match list {
            AttributeValue::SectionOffset(start) => start,
            AttributeValue::ListIndex(index) => self.list_offset(entry, has_places, index)?,
            _ => return None,
        };
        let mut cursor = Cursor::new(section.get(usize::try_from(start).ok()?..)?);
        let mut base = self.address(unit.root, Attribute::LowPc).unwrap_or(0);
        let mut elsewhere = None;
        for _ in 0..MOST_ITEMS {
            if !self.step() {
                break;
            }
            match self
                .read_item(&mut cursor, entry, has_places, unit.is_version_5, base)
                .ok()?
            {
                (ListItem::Base(next), _) => base = next,
                (ListItem::Code(range), place) if range.contains(offset) => return Some(place),
                (ListItem::Code(_), _) => {}
                (ListItem::Elsewhere, place) => elsewhere = Some(place),
                (ListItem::End, _) => return elsewhere,
            }
        }
        None
    }

    /// The code of an entry that has one range of it.
    pub fn code_of(&self, entry: usize) -> Option<CodeRange> {
        let start = self.address(entry, Attribute::LowPc)?;
        let end = match self.value(entry, Attribute::HighPc)? {
            AttributeValue::Constant(length) => start.saturating_add(length),
            AttributeValue::Address(end) => end,
            AttributeValue::AddressIndex(index) => self.address_of(entry, index)?,
            _ => return None,
        };
        Some(CodeRange { start, end })
    }

    /// Whether an entry has the code at an offset.
    pub fn has_code(&self, entry: usize, offset: u64) -> bool {
        match self.value(entry, Attribute::Ranges) {
            Some(list) => self.item_at(entry, list, false, offset).is_some(),
            None => self
                .code_of(entry)
                .is_some_and(|range| range.contains(offset)),
        }
    }

    /// The expression of the place of an entry while the code at an offset runs.
    pub fn place_at(&self, entry: usize, offset: u64) -> Option<&'a [u8]> {
        match self.value(entry, Attribute::Location)? {
            AttributeValue::Expression(place) => Some(place),
            list => self.item_at(entry, list, true, offset),
        }
    }
}
