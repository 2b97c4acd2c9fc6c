//! What the entries of a kind have in common: their tag, and how their attributes are spelled (DWARF 5, section 7.5.3).

use crate::tags::Tag;
use dwarf_reader::{AttributeForm, Cursor, DebugFault};
use std::alloc::Global;

/// The most attributes that an entry may have: each costs time, even one without bytes.
const MOST_SPECS: u32 = 64;

/// The form behind which stands the constant that all of its values are.
const IMPLICIT_CONST: u64 = 0x21;

/// An attribute specification: the code of an attribute of the entries of a kind, and how its values are spelled.
#[derive(Clone, Copy)]
pub(crate) struct AttributeSpec {
    pub code: u64,
    pub form: AttributeForm,
}

/// A kind of entries: where its attributes begin among all, and how many they are.
#[derive(Clone, Copy)]
pub(crate) struct Abbreviation {
    pub tag: Tag,
    pub has_children: bool,
    first: usize,
    count: usize,
}

/// The abbreviations table of a unit: where its kinds begin among all, and how many they are. Their codes count from 1
/// on.
#[derive(Clone, Copy)]
pub(crate) struct KindTable {
    first: usize,
    count: u64,
}

/// All kinds of entries that were read.
#[derive(Drop)]
pub(crate) struct Abbreviations {
    kinds: Vec<Abbreviation>,
    specs: Vec<AttributeSpec>,
    /// Up to where the section has been read.
    read_to: usize,
    /// Where the table begins that was read last, and the table.
    last: Option<(usize, KindTable)>,
}

impl Abbreviations {
    pub fn new(alloc: Global) -> Abbreviations {
        Abbreviations {
            kinds: Vec::new(alloc),
            specs: Vec::new(alloc),
            read_to: 0,
            last: None,
        }
    }

    /// The attributes of one kind, up to the pair of zeros.
    fn read_specs(&mut self, cursor: &mut Cursor) -> Result<(), DebugFault> {
        for _ in 0..MOST_SPECS {
            let code = cursor.read_unsigned()?;
            let form = cursor.read_unsigned()?;
            if code == 0 && form == 0 {
                return Ok(());
            }
            let form = if form == IMPLICIT_CONST {
                AttributeForm::implicit(cursor.read_signed()?)
            } else {
                AttributeForm::of(form).ok_or(DebugFault::Unreadable)?
            };
            self.specs.push(AttributeSpec { code, form })?;
        }
        Err(DebugFault::Unreadable)
    }

    /// One kind, or none where the table ends. Its code is the next one.
    fn read_kind(&mut self, cursor: &mut Cursor, number: u64) -> Result<bool, DebugFault> {
        let code = cursor.read_unsigned()?;
        if code == 0 {
            return Ok(false);
        }
        let tag = Tag::of(cursor.read_unsigned()?);
        let has_children = cursor.read_u8()? != 0;
        let first = self.specs.len();
        self.read_specs(cursor)?;
        let count = self.specs.len().saturating_sub(first);
        if code != number {
            return Err(DebugFault::Unreadable);
        }
        self.kinds.push(Abbreviation {
            tag,
            has_children,
            first,
            count,
        })?;
        Ok(true)
    }

    /// A table, as far as it can be read.
    fn read_table(&mut self, section: &[u8], offset: usize) -> Result<KindTable, DebugFault> {
        let mut cursor = Cursor::new(section.get(offset..).ok_or(DebugFault::Unreadable)?);
        let first = self.kinds.len();
        let mut count = 0;
        for number in 1..=cursor.len() as u64 {
            match self.read_kind(&mut cursor, number) {
                Ok(true) => count = number,
                Err(DebugFault::OutOfMemory) => return Err(DebugFault::OutOfMemory),
                _ => break,
            }
        }
        self.read_to = section.len().saturating_sub(cursor.len());
        Ok(KindTable { first, count })
    }

    /// The table at an offset. Tables stand behind one another as their units do, and each is read once;
    /// one in front of what was read isn't looked for.
    pub fn table_at(&mut self, section: &[u8], offset: u64) -> Result<KindTable, DebugFault> {
        let offset = usize::try_from(offset).map_err(|_| DebugFault::Unreadable)?;
        if let Some((last, table)) = self.last
            && last == offset
        {
            return Ok(table);
        }
        if offset < self.read_to {
            return Err(DebugFault::Unreadable);
        }
        let table = self.read_table(section, offset)?;
        self.last = Some((offset, table));
        Ok(table)
    }

    /// Where a kind of a table stands among all, by its code.
    pub fn place_of(&self, table: KindTable, code: u64) -> Option<usize> {
        if code == 0 || code > table.count {
            return None;
        }
        table.first.checked_add(usize::try_from(code - 1).ok()?)
    }

    /// A kind among all.
    pub fn at(&self, place: usize) -> Option<Abbreviation> {
        self.kinds.get(place).copied()
    }

    /// The attributes of a kind.
    pub fn specs_of(&self, kind: Abbreviation) -> &[AttributeSpec] {
        let end = kind.first.saturating_add(kind.count);
        self.specs.as_slice().get(kind.first..end).unwrap_or(&[])
    }
}
