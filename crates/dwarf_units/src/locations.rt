//! Where a variable is (DWARF 5, section 2.6; the operation of WebAssembly is that of the tool conventions, "DWARF").

use crate::attributes::Attribute;
use crate::entries::Units;
use dwarf_reader::{AttributeValue, Cursor};

/// A place of WebAssembly that holds an address.
#[derive(Clone, Copy, Debug, PartialEq, Eq)]
pub enum Base {
    /// A local of the function, by its index.
    Local(u32),
    /// A global of the module, by its index.
    Global(u32),
    /// An operand on the stack, counted from the bottom.
    Operand(u32),
}

/// Where a variable is.
#[derive(Clone, Copy, Debug, PartialEq, Eq)]
pub enum Location {
    /// Its value is that of a local, by its index.
    Local(u32),
    /// Its value is that of a global, by its index.
    Global(u32),
    /// Its value is an operand on the stack, counted from the bottom.
    Operand(u32),
    /// It is in memory, so far from the address that a place holds.
    Memory { base: Base, offset: i64 },
    /// It is in memory at an address.
    Static(u64),
}

/// A place of WebAssembly: a local, a global, an operand, or a global in four bytes.
fn read_wasm(cursor: &mut Cursor) -> Option<Location> {
    let kind = cursor.read_u8().ok()?;
    let index = if kind == 3 {
        cursor.read_number(4).ok()?
    } else {
        cursor.read_unsigned().ok()?
    };
    let index = u32::try_from(index).ok()?;
    Some(match kind {
        0 => Location::Local(index),
        1 | 3 => Location::Global(index),
        2 => Location::Operand(index),
        _ => return None,
    })
}

/// The place in memory of an address that a place of WebAssembly holds.
fn behind(place: Location) -> Option<Location> {
    let base = match place {
        Location::Local(index) => Base::Local(index),
        Location::Global(index) => Base::Global(index),
        Location::Operand(index) => Base::Operand(index),
        _ => return None,
    };
    Some(Location::Memory { base, offset: 0 })
}

impl Location {
    /// The place in memory that is farther by some bytes.
    pub fn farther(self, by: u64) -> Option<Location> {
        Some(match self {
            Location::Static(address) => Location::Static(address.checked_add(by)?),
            Location::Memory { base, offset } => Location::Memory {
                base,
                offset: offset.checked_add(i64::try_from(by).ok()?)?,
            },
            _ => return None,
        })
    }
}

impl<'a> Units<'a> {
    /// The place that the first operation of an entry's expression is by itself, and whether it is one of WebAssembly.
    fn first_place(
        &self,
        cursor: &mut Cursor,
        entry: usize,
        frame: Option<Base>,
    ) -> Option<(Location, bool)> {
        let place = match cursor.read_u8().ok()? {
            // addr, addrx, fbreg
            0x03 => Location::Static(cursor.read_number(4).ok()?),
            0xa1 => Location::Static(self.address_of(entry, cursor.read_unsigned().ok()?)?),
            0x91 => Location::Memory {
                offset: cursor.read_signed().ok()?.cast_signed(),
                base: frame?,
            },
            // WASM_location
            0xed => return Some((read_wasm(cursor)?, true)),
            _ => return None,
        };
        Some((place, false))
    }

    /// Where a variable is that an expression of an entry places, in a function with this base of its frames. Of what
    /// compilers write it takes a place in memory, with or without an addition, and a value in a place of WebAssembly.
    pub fn location(
        &self,
        entry: usize,
        expression: &'a [u8],
        frame: Option<Base>,
    ) -> Option<Location> {
        let mut cursor = Cursor::new(expression);
        let (first, is_wasm) = self.first_place(&mut cursor, entry, frame)?;
        let in_memory = if is_wasm { behind(first) } else { Some(first) };
        if cursor.is_empty() {
            return in_memory;
        }
        let place = match cursor.read_u8().ok()? {
            // stack_value: what was computed is the value and not its address
            0x9f if is_wasm => first,
            // plus_uconst
            0x23 => in_memory?.farther(cursor.read_unsigned().ok()?)?,
            _ => return None,
        };
        if cursor.is_empty() { Some(place) } else { None }
    }

    /// The base of a function's frames.
    pub fn frame_base(&self, function: usize) -> Option<Base> {
        let AttributeValue::Expression(expression) = self.value(function, Attribute::FrameBase)?
        else {
            return None;
        };
        match self.location(function, expression, None)? {
            Location::Local(index) => Some(Base::Local(index)),
            Location::Global(index) => Some(Base::Global(index)),
            _ => None,
        }
    }
}
