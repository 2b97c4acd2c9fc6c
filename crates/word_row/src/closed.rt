//! A row that no thread shares any more.
ghost use Rattle.std.specs.Prelude.{◌≡◌, slice_get};
ghost use Rattle.shared_memory.specs.Memory.{pages};
ghost use Rattle.shared_memory_sequential.specs.Opening.{IsSized};

use atomic_table::Closed;
use shared_memory_sequential::lane;
use std::alloc::Global;
use std::marker::Model;
use types::PAGE_SIZE;

/// The bytes of a page.
const PAGE: usize = PAGE_SIZE;

/// A row that no thread shares any more. Contracts see the memory for which its words stand.
pub struct ClosedRow {
    pub(crate) closed: Closed<u8, Global>,
    pub(crate) pages_max: u32,
}

impl Model for ClosedRow {
    ghost use Rattle.std.specs.Prelude.{◌≡◌};
    ghost use Rattle.std.specs.Mem.Slots.{slots_items, slots_len, IsFull};
    ghost use Rattle.shared_memory.specs.Memory.{Memory};
    ghost use Rattle.word_row.specs.Words.{memory_of};
    ghost use Rattle.word_row.specs.Rows.{StandFor};

    ghost Value = { Memory };

    ghost view = { λ r. memory_of r.pages_max (slots_items r.closed.words) };

    ghost invariant = { λ r. IsFull r.closed.words × (slots_len r.closed.slots ≡ 0)
        × StandFor r.pages_max (slots_items r.closed.words) };
}

impl ClosedRow {
    /// The page count, at most 256; a page has 65,536 bytes.
    pub fn pages(&self) -> u32
        ensures count { result ≡ pages self.now }
        ensures sized { IsSized self.now }
    {
        self.closed.word(0) as u32
    }

    /// The byte at an address; `None` past the pages.
    pub fn byte(&self, addr: usize) -> Option<u8>
        ensures { result ≡ slice_get self.now.bytes addr }
    {
        if addr >= PAGE * self.pages() as usize {
            return None;
        }
        let word = self.closed.word(addr / 8 + 1);
        Some(lane(word, addr as u64, 1) as u8)
    }

    // Gives the words back.
    fn free(self) {
        let ClosedRow {
            closed,
            pages_max: _,
        } = self;
        closed.free();
    }
}

impl Drop for ClosedRow {
    fn drop(self) {
        self.free();
    }
}
