//! What is left of the input, and what stands at its front.

ghost use Rattle.std.specs.Prelude.{◌≡◌, ◌-◌, ◌≤◌, length, IfOk, true};
ghost use Rattle.std.specs.Str.{is_utf8};
ghost use Rattle.binary_wire.specs.Faults.{refused, missing, input, inside};

use crate::bounds::Bounds;
use crate::fault::{Fault, Refusal};

/// What is left to read: of the whole input, or of contents of stated size.
#[derive(Drop)]
pub struct Reader<'a> {
    rest: &'a [u8],
    bounds: Bounds,
    ghost within: { length rest.now ≤ bounds.end },
}

impl<'a> Reader<'a> {
    ghost use Rattle.binary_wire.specs.Reading.{Gives, GivesNext, GivesNextAs, read_at, byte_at, slice_at, block_at};
    ghost use Rattle.binary_wire.specs.Reading.{name_at, end_at, front_is, front};

    /// A reader of the whole input.
    pub fn new(bytes: &'a [u8]) -> Reader<'a>
        ensures rest { result.rest.now ≡ bytes.now }
        ensures bounds { result.bounds ≡ input bytes.now }
    {
        Reader {
            rest: bytes,
            bounds: Bounds {
                end: bytes.len(),
                missing: Fault::EndOfInput,
            },
        }
    }

    /// How many bytes are left.
    pub fn len(&self) -> usize
        ensures { result ≡ length self.now.rest.now }
    {
        self.rest.len()
    }

    /// The offset in the input of the next byte.
    pub fn offset(&self) -> usize
        ensures { result ≡ self.now.bounds.end - length self.now.rest.now }
    {
        self.bounds.end - self.rest.len()
    }

    /// A fault at the next byte.
    pub fn fault(&self, kind: Fault) -> Refusal
        ensures { result ≡ refused kind self.now.bounds self.now.rest.now }
    {
        Refusal {
            kind,
            offset: self.offset(),
        }
    }

    /// The fault that more bytes are needed than there are.
    pub fn missing(&self) -> Refusal
        ensures { result ≡ missing self.now.bounds }
    {
        Refusal {
            kind: self.bounds.missing,
            offset: self.bounds.end,
        }
    }

    /// The next byte, which stays.
    pub fn peek(&self) -> Option<u8>
        ensures { result ≡ front self.now.rest.now }
    {
        match self.rest {
            [] => None,
            [b, ..] => Some(*b),
        }
    }

    /// Whether a byte is the next one.
    pub fn front_is(&self, byte: u8) -> bool
        ensures { result ≡ front_is byte self.now.rest.now }
    {
        match self.rest {
            [] => false,
            [b, ..] => *b == byte,
        }
    }

    /// The next byte.
    pub fn read_byte(&mut self) -> Result<u8, Refusal>
        ensures gives { GivesNext byte_at self.old self.new result }
        ensures keeps { self.new.bounds ≡ self.old.bounds }
    {
        match self.rest {
            [] => Err(self.missing()),
            [b, rest @ ..] => {
                self.rest = rest;
                Ok(*b)
            }
        }
    }

    /// The next bytes, so many.
    fn read_slice(&mut self, len: usize) -> Result<&'a [u8], Refusal>
        ensures gives { GivesNextAs (λ s. s.now) (slice_at len) self.old self.new result }
        ensures keeps { self.new.bounds ≡ self.old.bounds }
    {
        if self.rest.len() < len {
            return Err(self.missing());
        }
        let (front, rest) = self.rest.split_at(len);
        self.rest = rest;
        Ok(front)
    }

    /// A reader of the next bytes, so many, as contents of stated size.
    pub fn read_part(&mut self, len: usize) -> Result<Reader<'a>, Refusal>
        ensures gives { GivesNextAs (λ r. r.rest.now) (slice_at len) self.old self.new result }
        ensures keeps { self.new.bounds ≡ self.old.bounds }
        ensures bounds { IfOk result (λ r. r.bounds ≡ inside self.new.bounds self.new.rest.now) }
    {
        let contents = self.read_slice(len)?;
        Ok(Reader {
            rest: contents,
            bounds: Bounds {
                end: self.offset(),
                missing: Fault::Size,
            },
        })
    }

    /// That nothing is left of contents of stated size.
    pub fn finish(&self) -> Result<(), Refusal>
        ensures gives { Gives (λ _. true) result (read_at end_at self.now) }
    {
        match self.rest {
            [] => Ok(()),
            [_, ..] => Err(self.fault(Fault::Size)),
        }
    }

    /// A size, and a reader of so many bytes.
    #[tactic(auto, unfolding(crate::specs::Reading::block_at))]
    pub fn read_block(&mut self) -> Result<Reader<'a>, Refusal>
        ensures gives { GivesNextAs (λ r. r.rest.now) block_at self.old self.new result }
        ensures keeps { self.new.bounds ≡ self.old.bounds }
        ensures bounds { IfOk result (λ r. r.bounds ≡ inside self.new.bounds self.new.rest.now) }
    {
        let size = self.read_u32()?;
        self.read_part(size as usize)
    }

    /// A size, and so many bytes.
    #[tactic(auto, unfolding(crate::specs::Reading::block_at))]
    pub fn read_bytes(&mut self) -> Result<&'a [u8], Refusal>
        ensures gives { GivesNextAs (λ s. s.now) block_at self.old self.new result }
        ensures keeps { self.new.bounds ≡ self.old.bounds }
    {
        let len = self.read_u32()?;
        self.read_slice(len as usize)
    }

    /// A name (Core specification 1.0, section 5.2.4).
    #[tactic(auto, unfolding(crate::specs::Reading::name_at, crate::specs::Reading::block_at))]
    pub fn read_name(&mut self) -> Result<&'a str, Refusal>
        ensures gives { GivesNextAs (λ s. s.now) name_at self.old self.new result }
        ensures keeps { self.new.bounds ≡ self.old.bounds }
    {
        let size = self.read_u32()?;
        let offset = self.offset();
        let bytes = self.read_slice(size as usize)?;
        match std::str::from_utf8(bytes) {
            Ok(text) => Ok(text),
            Err(_) => Err(Refusal {
                kind: Fault::Name,
                offset,
            }),
        }
    }
}
