//! The low bytes of a number, and reads and writes of some bytes of a word.

ghost use Rattle.std.specs.Prelude.{◌≡◌, ℕ, ◌+◌, ◌*◌, ◌%◌, ◌^◌, ◌<◌, ◌≤◌};
ghost use Rattle.shared_memory_sequential.specs.Words.{lane_of, IsWithLane};

/// The number modulo the width, of 1 to 8 bytes.
#[inline]
pub fn low_bytes(number: u64, width: u8) -> u64
    requires some { 1 ≤ width }
    requires at_most_a_word { width ≤ 8 }
    ensures { result ≡ number % 2 ^ (8 * width) }
{
    number & (u64::MAX >> (64 - 8 * u64::from(width)))
}

/// The number of the `width` bytes at `addr % 8` in the word: 1 to 8 bytes, that end within the word.
#[inline]
pub fn lane(word: u64, addr: u64, width: u8) -> u64
    requires some { 1 ≤ width }
    requires one_word { addr % 8 + width ≤ 8 }
    ensures { result ≡ lane_of word addr width }
{
    low_bytes(word >> (8 * (addr % 8)), width)
}

/// The word with the `width` bytes at `addr % 8` replaced by those of the value: 1 to 8 bytes, that end within
/// the word, and a value that fits them.
#[inline]
pub fn with_lane(word: u64, addr: u64, width: u8, value: u64) -> u64
    requires some { 1 ≤ width }
    requires one_word { addr % 8 + width ≤ 8 }
    requires fits { value < 2 ^ (8 * width) }
    ensures { IsWithLane word addr width value result }
{
    let shift = 8 * (addr % 8);
    let replaced = lane(word, addr, width) << shift;
    (word - replaced) + (value << shift)
}
