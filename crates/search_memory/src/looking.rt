//! What an event sees of a memory that is given by its changes, and what it writes there.

ghost use Rattle.std.specs.Prelude.{◌≡◌, ◌+◌, ◌^◌, ◌<◌, ◌≤◌, length, nat_le, IfOk};
ghost use Rattle.shared_memory.specs.Events.{IsEvent, IsQuestion};
ghost use Rattle.shared_memory.specs.Memory.{can_grow, loaded, pages, reply_of, reply_to_question};
ghost use Rattle.shared_memory_sequential.specs.Opening.{IsSized};
ghost use Rattle.search_memory.specs.Memories.{memory_at, memory_of, AreWritten, StayDifferences};

use crate::beside::Changes;
use crate::bytes::{bytes_at, put_byte, put_lower, put_others};
use std::alloc::{AllocError, Global};
use types::{Event, PAGE_SIZE, Question, Reply};

/// A memory: what differs, and the opening memory's bytes.
#[derive(Clone, Copy)]
pub(crate) struct ChangedMemory<'o> {
    pub(crate) opening: &'o [u8],
    pub(crate) changed: &'o Changes,
}

impl ChangedMemory<'_> {
    /// How many bytes there are.
    #[tactic(auto, using(crate::proofs::Putting::length_memory))]
    fn len(&self) -> usize
        ensures { result ≡ length (memory_at self.now).bytes }
    {
        self.changed.len
    }

    /// Whether an access that ends at this address lies within the memory.
    pub(crate) fn ends_within(&self, end: u64) -> bool
        ensures { result ≡ nat_le end (length (memory_at self.now).bytes) }
    {
        end <= self.len() as u64
    }

    /// Whether an access of so many bytes lies within the memory. Its end may pass the last address.
    pub(crate) fn is_within(&self, addr: u64, width: u8) -> bool
        ensures { result ≡ nat_le (addr + width) (length (memory_at self.now).bytes) }
    {
        let length = self.len() as u64;
        addr <= length && u64::from(width) <= length - addr
    }

    /// How many pages there are.
    fn pages(&self) -> u64
        ensures value { result ≡ pages (memory_at self.now) }
        ensures few { result < 2 ^ 48 }
    {
        (self.len() / PAGE_SIZE) as u64
    }

    /// Whether so many more pages fit under the maximum.
    pub(crate) fn can_grow(&self, more: u32) -> bool
        ensures { result ≡ can_grow (memory_at self.now) more }
    {
        self.pages() + u64::from(more) <= u64::from(self.changed.max)
    }

    /// The number in `width` bytes at an address, the lowest byte first.
    pub(crate) fn number_at(&self, addr: u64, width: u8) -> u64
        requires inside { addr + width ≤ length (memory_at self.now).bytes }
        requires narrow { width ≤ 8 }
        ensures { result ≡ loaded (memory_at self.now) addr width }
    {
        let len = self.len();
        let changes = self.changed.changes.as_slice();
        let bytes = bytes_at(
            self.opening,
            len,
            changes,
            addr as usize,
            usize::from(width),
        );
        let mut number = 0;
        for i in (0..usize::from(width)).rev() {
            number = number * 256 + u64::from(bytes[i]);
        }
        number
    }

    /// The reply to an event.
    pub(crate) fn reply(&self, event: &Event) -> Reply
        requires event { IsEvent event.now }
        ensures { result ≡ reply_of (memory_at self.now) event.now }
    {
        match *event {
            Event::Size => Reply::Value(self.pages()),
            Event::Grow(more) if self.can_grow(more) => { Reply::Value(self.pages()) }
            Event::Grow(_) => Reply::Value(u64::from(u32::MAX)),
            Event::Load { addr, width, reach } if self.ends_within(reach) => {
                Reply::Value(self.number_at(addr, width))
            }
            Event::Store { reach, .. } if self.ends_within(reach) => Reply::Done,
            Event::Rmw { addr, width, .. } | Event::Cmpxchg { addr, width, .. }
                if self.is_within(addr, width) => { Reply::Value(self.number_at(addr, width)) }
            Event::Load { .. } | Event::Store { .. } | Event::Rmw { .. } | Event::Cmpxchg { .. } =>
                { Reply::OutOfBounds }
            Event::Ask(question) => self.question(question),
            Event::Told(_) => Reply::Done,
        }
    }

    /// The reply to a question.
    fn question(&self, question: Question) -> Reply
        requires { IsQuestion question }
        ensures { result ≡ reply_to_question (memory_at self.now) question }
    {
        match question {
            Question::Wait { addr, width, .. } if self.is_within(addr, width) => {
                Reply::Value(self.number_at(addr, width))
            }
            Question::Notify { addr, .. } if self.is_within(addr, 4) => Reply::Done,
            Question::Wait { .. } | Question::Notify { .. } => Reply::OutOfBounds,
            Question::Spawn { .. } | Question::Leave => Reply::Done,
        }
    }

    /// The changes once a number is written to `width` bytes at an address.
    pub(crate) fn written(
        &self,
        alloc: Global,
        addr: u64,
        width: u8,
        value: u64,
    ) -> Result<Changes, AllocError>
        requires { addr + width ≤ length (memory_at self.now).bytes }
        ensures written { IfOk result (AreWritten self.now addr width value) }
        ensures sized { IsSized (memory_at self.now) → IfOk result (λ c. IsSized (memory_of self.now.opening.now c)) }
        ensures differences { IfOk result (StayDifferences self.now.opening.now self.now.changed.now) }
    {
        let len = self.len();
        let before = self.changed.changes.as_slice();
        let first = addr as usize;
        let mut changes = Vec::with_capacity(alloc, before.len() + usize::from(width))?;
        put_lower(&mut changes, before, first)?;
        let mut rest = value;
        for i in 0..usize::from(width) {
            put_byte(&mut changes, self.opening, first + i, (rest % 256) as u8)?;
            rest /= 256;
        }
        put_others(&mut changes, before, first + usize::from(width))?;
        Ok(Changes {
            len,
            max: self.changed.max,
            changes,
        })
    }
}
