//! Bytes of memory.

ghost use Rattle.std.specs.Prelude.{◌≡◌, ◌-◌, MatchOption, ◌&&◌, nat_le, nat_lt};

/// Bytes of memory: where they begin, and how many they are.
#[derive(Clone, Copy, Debug, PartialEq, Eq)]
pub struct ByteRange {
    pub start: u64,
    pub size: u64,
}

impl ByteRange {
    ghost use Rattle.dwarf_data.specs.Within.{IsInner, HasNoInner};

    /// Some of its bytes: from an offset on, so many.
    pub(crate) fn inner(self, offset: u64, size: u64) -> Option<ByteRange>
        ensures { MatchOption result (HasNoInner self offset size) (IsInner self offset size) }
    {
        if offset > self.size || size > self.size - offset {
            return None;
        }
        let start = self.start.checked_add(offset)?;
        Some(ByteRange { start, size })
    }

    /// Whether an address is one of its bytes.
    pub fn contains(self, address: u64) -> bool
        ensures { result ≡ (nat_le self.start address && nat_lt (address - self.start) self.size) }
    {
        self.start <= address && address - self.start < self.size
    }
}
