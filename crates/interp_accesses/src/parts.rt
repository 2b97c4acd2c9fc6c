//! The parts of a plain access: the bytes in its first aligned word of 8 bytes, and those in the next one. Each part
//! has the end of the whole access as its reach, so that it is tested against the bounds of the whole.

ghost use Rattle.std.specs.Prelude.{◌≡◌, ◌+◌, ◌*◌, ◌%◌, ◌^◌, ◌<◌, ◌≤◌, true, false};
ghost use Rattle.interp_machine.specs.Access as access;

use shared_memory_sequential::low_bytes;
use types::Event;

/// How many bytes of an access lie in its first word.
#[inline]
pub(crate) fn bytes_in_first(addr: u64, bytes: u8) -> u8
    ensures { result ≡ access.first_width addr bytes }
{
    let room = 8 - (addr % 8) as u8;
    bytes.min(room)
}

/// Whether an access lies in one word.
#[inline]
pub(crate) fn is_in_one_word(addr: u64, bytes: u8) -> bool
    ensures { result ≡ access.in_one_word addr bytes }
{
    bytes_in_first(addr, bytes) == bytes
}

/// The load of the bytes in the first word.
#[inline]
pub(crate) fn low_load(addr: u64, bytes: u8) -> Event
    requires ends { addr + bytes < 2 ^ 64 }
    ensures { result ≡ access.first_load addr bytes }
{
    Event::Load {
        addr,
        width: bytes_in_first(addr, bytes),
        reach: addr + u64::from(bytes),
    }
}

/// The load of the bytes in the second word, where there are some.
#[inline]
pub(crate) fn high_load(addr: u64, bytes: u8) -> Event
    requires ends { addr + bytes < 2 ^ 64 }
    ensures { result ≡ access.second_load addr bytes }
{
    let first = bytes_in_first(addr, bytes);
    Event::Load {
        addr: addr + u64::from(first),
        width: bytes - first,
        reach: addr + u64::from(bytes),
    }
}

/// The store of the bytes in the first word.
#[inline]
pub(crate) fn low_store(addr: u64, bytes: u8, number: u64) -> Event
    requires some { 1 ≤ bytes }
    requires at_most_a_word { bytes ≤ 8 }
    requires ends { addr + bytes < 2 ^ 64 }
    ensures { result ≡ access.first_store addr bytes (access.cut bytes number) }
{
    let first = bytes_in_first(addr, bytes);
    Event::Store {
        addr,
        width: first,
        reach: addr + u64::from(bytes),
        value: low_bytes(number, first),
    }
}

/// The store of the bytes in the second word, where there are some.
#[inline]
pub(crate) fn high_store(addr: u64, bytes: u8, number: u64) -> Event
    requires at_most_a_word { bytes ≤ 8 }
    requires ends { addr + bytes < 2 ^ 64 }
    requires two_words { access.in_one_word addr bytes ≡ false }
    ensures { result ≡ access.second_store addr bytes (access.cut bytes number) }
{
    let first = bytes_in_first(addr, bytes);
    Event::Store {
        addr: addr + u64::from(first),
        width: bytes - first,
        reach: addr + u64::from(bytes),
        value: low_bytes(number, bytes) >> (8 * u64::from(first)),
    }
}

/// The number of two parts, modulo 2^64.
#[inline]
pub(crate) fn join(addr: u64, bytes: u8, low: u64, high: u64) -> u64
    requires at_most_a_word { bytes ≤ 8 }
    requires two_words { access.in_one_word addr bytes ≡ false }
    ensures { result ≡ access.joined addr bytes low high % 2 ^ 64 }
{
    let shift = 8 * u64::from(bytes_in_first(addr, bytes));
    low.wrapping_add(high << shift)
}
