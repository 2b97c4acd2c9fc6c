//! The sequential memory.
ghost use Rattle.std.specs.Prelude.{◌≡◌, ◌+◌, ◌*◌, ◌^◌, ◌<◌, ◌≤◌, ◌↔◌, true, false, nat_le, if◌then◌else◌, length};
ghost use Rattle.std.specs.Prelude.{IfOk, OnOk, IsErrOf};
ghost use Rattle.types.specs.declared.event.Event.TheVariants.{Rmw, Cmpxchg};
ghost use Rattle.types.specs.declared.event.Reply.TheVariants.{Value, Done, OutOfBounds};
ghost use Rattle.types.specs.declared.limits.TheConstants.{PAGE_SIZE, PAST_LIMIT};
ghost use Rattle.shared_memory.specs.Events.{IsEvent, IsPart, IsAtomic, IsQuestion, FitsWidth};
ghost use Rattle.shared_memory.specs.Memory.{pages, loaded, written, can_grow, grown, if_within, reply_to_question};
ghost use Rattle.shared_memory.specs.Memory.{reply_of, state_after};
ghost use Rattle.shared_memory_sequential.specs.Opening.{can_open, IsSized};

use crate::fault::OpenFault;
use crate::number;
use std::alloc::Global;
use std::marker::Model;
use types::{Event, MOST_PAGES, PAGE_SIZE, Question, Reply, RmwOp};

/// A linear memory owned by one thread (Core specification 1.0, section 4.2.8).
///
/// Contracts see its bytes and its maximum in pages. Room for the maximum is reserved at opening, so no step takes
/// memory.
#[derive(Drop)]
pub struct OneMemory {
    bytes: Vec<u8>,
    max: u32,
}

impl Model for OneMemory {
    ghost use Rattle.types.specs.declared.limits.TheConstants.{PAGE_SIZE};
    ghost use Rattle.std.specs.Prelude.{◌≡◌, ◌*◌, ◌%◌, ◌≤◌, length, vec_capacity};
    ghost use Rattle.shared_memory.specs.Memory.{Memory};
    ghost use Rattle.shared_memory_sequential.specs.Opening.{IsSized};

    ghost Value = { Memory };

    ghost view = { λ m. record { bytes = m.bytes.items; max = m.max } };

    ghost invariant = { λ m. IsSized (record { bytes = m.bytes.items; max = m.max })
        × (PAGE_SIZE * m.max ≤ vec_capacity m.bytes) };
}

impl OneMemory {
    /// Opens a memory with these bytes, with room for `max` pages.
    ///
    /// # Errors
    /// `PastLimit` exactly where the image isn't whole pages of 65,536 bytes or passes `max` pages, or `max` passes
    /// 256; otherwise `NoMemory` where the room can't be had.
    pub fn open(alloc: Global, image: &[u8], max: u32) -> Result<OneMemory, OpenFault>
        ensures opened { IfOk result (λ m. m ≡ record { bytes = image.now; max = max }) }
        ensures within { OnOk result (can_open image.now max ≡ true) }
        ensures PAST_LIMIT { IsErrOf result OpenFault.PastLimit ↔ (can_open image.now max ≡ false) }
    {
        if max > MOST_PAGES
            || image.len() > PAGE_SIZE * max as usize
            || image.len() % PAGE_SIZE != 0
        {
            return Err(OpenFault::PastLimit);
        }
        let Ok(mut bytes) = Vec::with_capacity(alloc, PAGE_SIZE * max as usize) else {
            return Err(OpenFault::NoMemory);
        };
        bytes.extend_from_slice(image).unwrap();
        Ok(OneMemory { bytes, max })
    }

    /// Makes one event, and answers as the sequential memory does. Questions and answers of the desk change nothing
    /// here.
    pub fn step(&mut self, event: &Event) -> Reply
        requires { IsEvent event.now }
        ensures reply { result ≡ reply_of self.old event.now }
        ensures state { self.new ≡ state_after self.old event.now }
    {
        match *event {
            Event::Size => Reply::Value(u64::from(self.pages())),
            Event::Grow(more) => self.grow(more),
            Event::Load { addr, width, reach } => self.load(addr, width, reach),
            Event::Store {
                addr,
                width,
                reach,
                value,
            } => self.store(addr, width, reach, value),
            Event::Rmw {
                op,
                addr,
                width,
                value,
            } => self.rmw(op, addr, width, value),
            Event::Cmpxchg {
                addr,
                width,
                expected,
                replacement,
            } => { self.cmpxchg(addr, width, expected, replacement) }
            Event::Ask(question) => self.question(question),
            Event::Told(_) => Reply::Done,
        }
    }

    /// The page count; a page has 65,536 bytes.
    pub fn pages(&self) -> u32
        ensures { result ≡ pages self.now }
    {
        (self.bytes.len() / PAGE_SIZE) as u32
    }

    /// How many pages the memory may have, at most 256.
    pub fn max(&self) -> u32
        ensures { result ≡ self.now.max }
    {
        self.max
    }

    /// The memory's bytes.
    pub fn bytes(&self) -> &[u8]
        ensures value { result.now ≡ self.now.bytes }
        ensures sized { IsSized self.now }
    {
        &self.bytes
    }

    /// Gives the memory up for its bytes.
    pub fn into_bytes(self) -> Vec<u8>
        ensures { result.items ≡ self.bytes }
    {
        let OneMemory { bytes, max: _ } = self;
        bytes
    }

    /// `memory.grow` (Core specification 1.0, section 4.4.4): the page count before, or 4294967295 where the sum
    /// passes the maximum, and then nothing is changed.
    fn grow(&mut self, more: u32) -> Reply
        ensures reply { result ≡ Value (if can_grow self.old more then pages self.old else 4294967295) }
        ensures state { self.new ≡ (if can_grow self.old more then grown self.old more else self.old) }
    {
        let old = self.pages();
        if more > self.max - old {
            return Reply::Value(u64::from(u32::MAX));
        }
        let length = self.bytes.len() + PAGE_SIZE * more as usize;
        self.bytes.resize(length, 0).unwrap();
        Reply::Value(u64::from(old))
    }

    /// A load, or a part of one that ends at `reach` (Core specification 1.0, section 4.4.4).
    fn load(&self, addr: u64, width: u8, reach: u64) -> Reply
        requires { IsPart addr width reach }
        ensures { result ≡ if_within self.now reach (Value (loaded self.now addr width)) OutOfBounds }
    {
        if !self.ends_within(reach) {
            return Reply::OutOfBounds;
        }
        Reply::Value(self.number_at(addr, width))
    }

    /// A store, or a part of one that ends at `reach` (Core specification 1.0, section 4.4.4).
    fn store(&mut self, addr: u64, width: u8, reach: u64, value: u64) -> Reply
        requires { IsPart addr width reach }
        ensures reply { result ≡ if_within self.old reach Done OutOfBounds }
        ensures state { self.new ≡ if_within self.old reach (written self.old addr width value) self.old }
    {
        if !self.ends_within(reach) {
            return Reply::OutOfBounds;
        }
        self.write(addr, width, value);
        Reply::Done
    }

    /// A read-modify-write, which answers the value before (threads proposal).
    fn rmw(&mut self, op: RmwOp, addr: u64, width: u8, value: u64) -> Reply
        requires atomic { IsAtomic addr width }
        requires fits { FitsWidth width value }
        ensures reply { result ≡ if_within self.old (addr + width) (Value (loaded self.old addr width)) OutOfBounds }
        ensures state { self.new ≡ state_after self.old (Rmw op addr width value) }
    {
        if !self.is_within(addr, width) {
            return Reply::OutOfBounds;
        }
        let old = self.number_at(addr, width);
        self.write(addr, width, number::combine(op, width, old, value));
        Reply::Value(old)
    }

    /// A compare-exchange, which answers the value before; an expected value that doesn't fit the width never
    /// matches (threads proposal).
    fn cmpxchg(&mut self, addr: u64, width: u8, expected: u64, replacement: u64) -> Reply
        requires { IsAtomic addr width }
        ensures reply { result ≡ if_within self.old (addr + width) (Value (loaded self.old addr width)) OutOfBounds }
        ensures state { self.new ≡ state_after self.old (Cmpxchg addr width expected replacement) }
    {
        if !self.is_within(addr, width) {
            return Reply::OutOfBounds;
        }
        let old = self.number_at(addr, width);
        if old == expected {
            self.write(addr, width, replacement);
        }
        Reply::Value(old)
    }

    /// A question to the desk: a wait loads its word, and a notify is tested as an access of four bytes (threads
    /// proposal, "Wait and Notify").
    fn question(&self, question: Question) -> Reply
        requires { IsQuestion question }
        ensures { result ≡ reply_to_question self.now question }
    {
        match question {
            Question::Wait { addr, width, .. } if self.is_within(addr, width) => {
                Reply::Value(self.number_at(addr, width))
            }
            Question::Notify { addr, .. } if self.is_within(addr, 4) => Reply::Done,
            Question::Wait { .. } | Question::Notify { .. } => Reply::OutOfBounds,
            Question::Spawn { .. } | Question::Leave => Reply::Done,
        }
    }

    /// Whether an access that ends at this address lies within the memory.
    fn ends_within(&self, end: u64) -> bool
        ensures { result ≡ nat_le end (length self.now.bytes) }
    {
        end <= self.bytes.len() as u64
    }

    /// Whether an access of so many bytes lies within the memory. Its end may pass the last address.
    fn is_within(&self, addr: u64, width: u8) -> bool
        ensures { result ≡ nat_le (addr + width) (length self.now.bytes) }
    {
        let length = self.bytes.len() as u64;
        addr <= length && u64::from(width) <= length - addr
    }

    /// The number in `width` bytes at an address.
    fn number_at(&self, addr: u64, width: u8) -> u64
        requires inside { addr + width ≤ length self.now.bytes }
        requires narrow { width ≤ 8 }
        ensures { result ≡ loaded self.now addr width }
    {
        number::read(&self.bytes, addr as usize, usize::from(width))
    }

    /// Writes a number to `width` bytes at an address.
    fn write(&mut self, addr: u64, width: u8, value: u64)
        requires { addr + width ≤ length self.old.bytes }
        ensures { self.new ≡ written self.old addr width value }
    {
        number::write(&mut self.bytes, addr as usize, usize::from(width), value);
    }
}
