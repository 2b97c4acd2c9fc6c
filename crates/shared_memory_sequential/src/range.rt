//! An access cut into ranges that each lie in one word.

ghost use Rattle.std.specs.Prelude.{◌≡◌, ℕ, ◌+◌, ◌^◌, ◌<◌, ◌≤◌};
ghost use Rattle.shared_memory_sequential.specs.Ranges.{SplitsInto};

/// A range of bytes in one aligned word of 8 bytes: its first address, and its width of 1 to 8 bytes.
#[derive(Clone, Copy, PartialEq, Eq, Debug)]
pub struct Part {
    pub addr: u64,
    pub width: u8,
}

/// The one or two ranges in aligned words of 8 bytes that make the range of `width` bytes at `addr`, the one at
/// the lower address first. The width is 1 to 8 bytes, and the range ends at or below 2^64 - 1.
#[inline]
pub fn parts(addr: u64, width: u8) -> (Part, Option<Part>)
    requires some { 1 ≤ width }
    requires at_most_a_word { width ≤ 8 }
    requires ends { addr + width < 2 ^ 64 }
    ensures { SplitsInto addr width result.0 result.1 }
{
    let room = 8 - (addr % 8) as u8;
    if width <= room {
        (Part { addr, width }, None)
    } else {
        let first = Part { addr, width: room };
        let second = Part {
            addr: addr + u64::from(room),
            width: width - room,
        };
        (first, Some(second))
    }
}
