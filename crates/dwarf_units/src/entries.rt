//! The entries, in the order of their bytes.

ghost use Rattle.std.specs.Prelude.{◌<◌, All, IfOk, IfSome};

use crate::abbreviations::Abbreviations;
use crate::attributes::Attribute;
use crate::room::{Room, ValueRoom};
use crate::sections::InfoSections;
use crate::tags::Tag;
use crate::units::Unit;
use dwarf_reader::{AttributeValue, Cursor, DebugFault};
use std::alloc::{AllocError, Global};

/// The most steps from an entry to that of which it is an instance.
const MOST_ORIGINS: u32 = 8;

/// A debugging information entry: the offset of its bytes in the section, its kind, its unit, and the index of the
/// first entry behind those that it holds.
#[derive(Clone, Copy)]
pub(crate) struct DebugEntry {
    offset: u32,
    kind: u32,
    unit: u32,
    end: u32,
}

fn narrow(number: usize) -> Result<u32, DebugFault> {
    u32::try_from(number).map_err(|_| DebugFault::Unreadable)
}

impl DebugEntry {
    /// An entry that holds none, at an index.
    pub fn new(offset: usize, kind: usize, unit: usize, index: usize) -> Result<Self, DebugFault> {
        Ok(DebugEntry {
            offset: narrow(offset)?,
            kind: narrow(kind)?,
            unit: narrow(unit)?,
            end: narrow(index.saturating_add(1))?,
        })
    }
}

/// The entries of a module. An entry goes by its index, and stands in front of those that it holds.
#[derive(Drop)]
pub struct Units<'a> {
    pub(crate) sections: InfoSections<'a>,
    pub(crate) abbreviations: Abbreviations,
    pub(crate) units: Vec<Unit>,
    pub(crate) entries: Vec<DebugEntry>,
    pub(crate) room: Room,
}

impl<'a> Units<'a> {
    /// Lets what is asked from now on take so many steps in all: one for each attribute, each entry right below another
    /// one and each item of a list that is passed over, and one for each 64 bytes. Behind the last one nothing is said
    /// of an entry but its kind, so that what others wrote costs no more.
    pub fn allow(&self, steps: u64) {
        self.room.allow(steps);
    }

    /// Lets all that is asked from now on take so many steps, whatever is allowed.
    pub fn allow_in_all(&self, steps: u64) {
        self.room.allow_in_all(steps);
    }

    /// Lets so many values be told from now on.
    pub fn allow_values(&self, values: u64) {
        self.room.values.set(values);
    }

    /// Takes the room of a value.
    pub fn take_value(&self) -> ValueRoom {
        self.room.take_value()
    }

    /// Takes a step. Answers whether one was left.
    pub(crate) fn step(&self) -> bool {
        self.room.step()
    }

    /// Takes the steps for so many bytes that were passed over.
    pub fn pass(&self, bytes: usize) {
        self.room.pass(bytes);
    }

    /// How many entries there are.
    pub fn len(&self) -> usize {
        self.entries.len()
    }

    /// Whether there is none.
    pub fn is_empty(&self) -> bool {
        self.entries.is_empty()
    }

    /// What has been read by now is what an entry holds.
    pub(crate) fn close(&mut self, entry: usize) {
        let end = u32::try_from(self.entries.len()).unwrap_or(u32::MAX);
        if let Some(entry) = self.entries.get_mut(entry) {
            entry.end = end;
        }
    }

    /// What an entry is.
    pub fn tag(&self, entry: usize) -> Tag {
        self.entries
            .get(entry)
            .and_then(|entry| self.abbreviations.at(entry.kind as usize))
            .map_or(Tag::Other, |kind| kind.tag)
    }

    /// The index of the first entry behind those that an entry holds.
    fn end_of(&self, entry: usize) -> usize {
        self.entries
            .get(entry)
            .map_or(0, |entry| entry.end as usize)
    }

    /// The first of the entries right below an entry.
    fn first_child(&self, entry: usize) -> Option<usize>
        ensures { IfSome result (λ child. entry < child) }
    {
        let child = entry.checked_add(1)?;
        if child < self.end_of(entry) {
            Some(child)
        } else {
            None
        }
    }

    /// The next of the entries right below the same one.
    fn next_child(&self, child: usize, parent: usize) -> Option<usize>
        ensures { IfSome result (λ next. child < next) }
    {
        let next = self.end_of(child);
        if child < next && next < self.end_of(parent) {
            Some(next)
        } else {
            None
        }
    }

    /// The entries right below an entry, not more than so many, as far as steps are left. They stand behind it.
    pub fn children(
        &self,
        alloc: Global,
        entry: usize,
        most: usize,
    ) -> Result<Vec<usize>, AllocError>
        ensures { IfOk result (λ children. All (λ child. entry < child) children.items) }
    {
        let mut children = Vec::new(alloc);
        let mut next = self.first_child(entry);
        for _ in 0..most {
            let Some(child) = next else {
                break;
            };
            if !self.step() {
                break;
            }
            children.push(child)?;
            next = self.next_child(child, entry);
        }
        Ok(children)
    }

    /// The unit of an entry.
    pub(crate) fn unit_of(&self, entry: usize) -> Option<Unit> {
        let unit = self.entries.get(entry)?.unit;
        self.units.get(unit as usize).copied()
    }

    /// What an attribute of an entry says, the first of its code.
    pub fn value(&self, entry: usize, wanted: Attribute) -> Option<AttributeValue<'a>> {
        let unit = self.unit_of(entry)?;
        let entry = self.entries.get(entry)?;
        let bytes = self.sections.info.get(entry.offset as usize..unit.end)?;
        let mut cursor = Cursor::new(bytes);
        cursor.read_unsigned().ok()?;
        let kind = self.abbreviations.at(entry.kind as usize)?;
        for spec in self.abbreviations.specs_of(kind) {
            if !self.step() {
                return None;
            }
            let len = cursor.len();
            let value = spec.form.read(&mut cursor).ok()?;
            self.pass(len.saturating_sub(cursor.len()));
            if spec.code == wanted as u64 {
                return Some(value);
            }
        }
        None
    }

    /// The index of the entry at an offset in the section.
    fn index_of(&self, offset: u64) -> Option<usize> {
        self.entries
            .as_slice()
            .binary_search_by(|entry| u64::from(entry.offset).cmp(&offset))
            .ok()
    }

    /// The entry that an attribute of an entry names.
    pub fn entry(&self, entry: usize, wanted: Attribute) -> Option<usize> {
        match self.value(entry, wanted)? {
            AttributeValue::UnitReference(offset) => {
                let start = self.unit_of(entry)?.start as u64;
                self.index_of(start.saturating_add(offset))
            }
            AttributeValue::Reference(offset) => self.index_of(offset),
            _ => None,
        }
    }

    /// The entry that says an attribute of an entry: itself, or that of which it is an instance or the definition.
    pub fn source_of(&self, entry: usize, wanted: Attribute) -> Option<usize> {
        let mut source = entry;
        for _ in 0..MOST_ORIGINS {
            if self.value(source, wanted).is_some() {
                return Some(source);
            }
            source = match self.entry(source, Attribute::AbstractOrigin) {
                Some(origin) => origin,
                None => self.entry(source, Attribute::Specification)?,
            };
        }
        None
    }

    /// The name of an entry, or of that of which it is an instance or the definition.
    pub fn name(&self, entry: usize) -> Option<&'a str> {
        self.string(self.source_of(entry, Attribute::Name)?, Attribute::Name)
    }

    /// The type of an entry, or of that of which it is an instance or the definition.
    pub fn type_of(&self, entry: usize) -> Option<usize> {
        self.entry(self.source_of(entry, Attribute::Type)?, Attribute::Type)
    }
}
