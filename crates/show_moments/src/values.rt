//! The values of a frame, read from its locals and operands and from memory.

ghost use Rattle.std.specs.Prelude.{◌≡◌, ◌<◌, ◌^◌};
ghost use Rattle.show_moments.specs.Values as specified;

use crate::standing::OpenFunction;
use dwarf_frames::{FrameValue, ValueKind};
use dwarf_units::{Base, Location};
use show_rows::number_in;

/// A power of two.
fn power(exponent: u32) -> u64
    requires { exponent < 64 }
    ensures { result ≡ 2 ^ exponent }
{
    2u64.pow(exponent)
}

/// So many of the lowest bits of a number.
fn low_bits(number: u64, count: u32) -> u64
    ensures { result ≡ specified.low_bits number count }
{
    if count < 64 {
        number % power(count)
    } else {
        number
    }
}

/// The bits of a number from one on.
fn bits_from(number: u64, first: u32) -> u64
    ensures { result ≡ specified.bits_from number first }
{
    if first < 64 { number / power(first) } else { 0 }
}

/// The word that a place of WebAssembly holds in a frame. A global is no frame's.
fn word_of(opened: OpenFunction, base: Base) -> Option<u64>
    ensures { result ≡ specified.word_of opened.entry base }
{
    match base {
        Base::Local(index) => opened.locals.get(index as usize).copied(),
        Base::Operand(index) => opened.operands.get(index as usize).copied(),
        Base::Global(_) => None,
    }
}

/// The address that is so far from one in a word.
fn address_from(word: u64, offset: i64) -> Option<u64>
    ensures { result ≡ specified.address_from word offset }
{
    let address = word % (1 << 32);
    if offset < 0 {
        address.checked_sub(offset.unsigned_abs())
    } else {
        Some(address + offset as u64)
    }
}

/// The number that a place has in a frame: a word of it, or that in so many bytes of the memory.
fn number_at(opened: OpenFunction, memory: &[u8], location: Location, size: u8) -> Option<u64>
    ensures { result ≡ specified.number_at opened.entry memory.now location size }
{
    match location {
        Location::Local(index) => word_of(opened, Base::Local(index)),
        Location::Operand(index) => word_of(opened, Base::Operand(index)),
        Location::Global(_) => None,
        Location::Static(address) => number_in(memory, address, size),
        Location::Memory { base, offset } => {
            let address = address_from(word_of(opened, base)?, offset)?;
            number_in(memory, address, size)
        }
    }
}

/// The number that a value is in a frame.
pub(crate) fn number_of(opened: OpenFunction, memory: &[u8], value: &FrameValue) -> Option<u64>
    ensures { result ≡ specified.number_of opened.entry memory.now value.now }
{
    let number = number_at(opened, memory, value.location, value.size)?;
    Some(low_bits(bits_from(number, value.first_bit), value.bits))
}

/// Whether the bytes of a value are read as a number with a sign.
pub(crate) fn is_signed(kind: ValueKind) -> bool
    ensures { result ≡ specified.is_signed kind }
{
    matches!(kind, ValueKind::Signed)
}

/// Whether they are an address.
pub(crate) fn is_pointer(kind: ValueKind) -> bool
    ensures { result ≡ specified.is_pointer kind }
{
    matches!(kind, ValueKind::Pointer)
}

/// Whether it has parts of its own.
pub(crate) fn has_parts(kind: ValueKind) -> bool
    ensures { result ≡ specified.has_parts kind }
{
    matches!(kind, ValueKind::Parts)
}
