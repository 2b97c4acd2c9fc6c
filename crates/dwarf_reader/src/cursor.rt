//! What is left of some bytes, and the numbers and strings at its front (DWARF 5, sections 7.4 to 7.6).

ghost use Rattle.std.specs.Prelude.{◌≡◌, ◌*◌, ◌^◌, ◌<◌, ◌≤◌, ◌∷◌, ◌++◌, [], length, nat_eq, position, IfOk, IfErr, IfSome, MatchResult};
ghost use Rattle.std.specs.List.{before_first};
ghost use Rattle.binary_wire.specs.Grammar.{IsTop, IsPower, IsUnsigned, IsSigned};
ghost use Rattle.dwarf_reader.specs.Numbers.{little, IsFixed};
ghost use Rattle.dwarf_reader.specs.Reads.{Misses, IsLeft};
ghost use Rattle.dwarf_reader.specs.Strings.{IsString, HasZero, HasNoZero, is_zero, near};

use crate::fault::DebugFault;

/// The number that bytes spell, the lowest first.
fn number_of(bytes: &[u8]) -> u64
    requires { length bytes.now ≤ 8 }
    ensures spells { result ≡ little bytes.now }
    ensures fits { result < 256 ^ length bytes.now }
{
    match bytes {
        [] => 0,
        [b, rest @ ..] => u64::from(*b) + 256 * number_of(rest),
    }
}

/// Where the first zero stands.
fn zero_in(bytes: &[u8]) -> Option<usize>
    ensures place { IfSome result (λ place. place < length bytes.now) }
    ensures value { result ≡ position is_zero bytes.now }
{
    bytes.iter().position(|b| *b == 0)
}

/// What is left to read. After a fault it is what it was.
#[derive(Drop)]
pub struct Cursor<'a> {
    rest: &'a [u8],
}

impl<'a> Cursor<'a> {
    /// All of some bytes.
    pub fn new(bytes: &'a [u8]) -> Cursor<'a>
        ensures { result.rest.now ≡ bytes.now }
    {
        Cursor { rest: bytes }
    }

    /// Whether nothing is left.
    pub fn is_empty(&self) -> bool
        ensures { result ≡ nat_eq (length self.now.rest.now) 0 }
    {
        self.rest.is_empty()
    }

    /// How many bytes are left.
    pub fn len(&self) -> usize
        ensures { result ≡ length self.now.rest.now }
    {
        self.rest.len()
    }

    /// The next byte.
    pub fn read_u8(&mut self) -> Result<u8, DebugFault>
        ensures gives { MatchResult result (λ b. self.old.rest.now ≡ b ∷ self.new.rest.now) (λ _. self.old.rest.now ≡ []) }
        ensures left { IfErr result (IsLeft self.old self.new) }
    {
        match self.rest {
            [] => Err(DebugFault::Unreadable),
            [b, rest @ ..] => {
                self.rest = rest;
                Ok(*b)
            }
        }
    }

    /// The next bytes, so many.
    pub fn read_bytes(&mut self, len: u64) -> Result<&'a [u8], DebugFault>
        ensures count { MatchResult result (λ b. length b.now ≡ len) (λ _. length self.old.rest.now < len) }
        ensures front { IfOk result (λ b. self.old.rest.now ≡ b.now ++ self.new.rest.now) }
        ensures left { IfErr result (IsLeft self.old self.new) }
    {
        if (self.rest.len() as u64) < len {
            return Err(DebugFault::Unreadable);
        }
        let (front, rest) = self.rest.split_at(len as usize);
        self.rest = rest;
        Ok(front)
    }

    /// A number of so many bytes, the lowest first.
    pub fn read_number(&mut self, width: u64) -> Result<u64, DebugFault>
        requires { width ≤ 8 }
        ensures gives { MatchResult result (λ n. IsFixed width self.old.rest.now n self.new.rest.now)
            (λ _. length self.old.rest.now < width) }
        ensures left { IfErr result (IsLeft self.old self.new) }
    {
        Ok(number_of(self.read_bytes(width)?))
    }

    /// What is left of an unsigned number up to `top`.
    fn read_up_to(&mut self, top: u64) -> Result<u64, DebugFault>
        requires { IsTop top }
        ensures gives { MatchResult result (λ n. IsUnsigned top self.old.rest.now n self.new.rest.now)
            (λ _. Misses (IsUnsigned top) self.old.rest.now) }
        ensures fits { MatchResult result (λ n. n ≤ top) (λ fault. fault ≡ DebugFault.Unreadable) }
    {
        let low = u64::from(self.read_u8()?);
        if low < 128 {
            if low > top {
                return Err(DebugFault::Unreadable);
            }
            return Ok(low);
        }
        if top <= 127 {
            return Err(DebugFault::Unreadable);
        }
        let high = self.read_up_to(top / 128)?;
        Ok(low - 128 + 128 * high)
    }

    /// An unsigned number of 64 bits in LEB128, of at most ten bytes.
    pub fn read_unsigned(&mut self) -> Result<u64, DebugFault>
        ensures gives { MatchResult result (λ n. IsUnsigned 0xffff_ffff_ffff_ffff self.old.rest.now n self.new.rest.now)
            (λ _. Misses (IsUnsigned 0xffff_ffff_ffff_ffff) self.old.rest.now) }
        ensures left { IfErr result (IsLeft self.old self.new) }
    {
        let mut ahead = Cursor { rest: self.rest };
        let number = ahead.read_up_to(u64::MAX)?;
        self.rest = ahead.rest;
        Ok(number)
    }

    /// What is left of a signed number in two's complement, below twice `half`.
    fn read_around(&mut self, half: u64) -> Result<u64, DebugFault>
        requires power { IsPower half }
        requires most { half ≤ 2 ^ 63 }
        ensures gives { MatchResult result (λ n. IsSigned half self.old.rest.now n self.new.rest.now)
            (λ _. Misses (IsSigned half) self.old.rest.now) }
        ensures fits { MatchResult result (λ n. n < 2 * half) (λ fault. fault ≡ DebugFault.Unreadable) }
    {
        let low = u64::from(self.read_u8()?);
        if low < 64 {
            if low >= half {
                return Err(DebugFault::Unreadable);
            }
            return Ok(low);
        }
        if low < 128 {
            if low + half < 128 {
                return Err(DebugFault::Unreadable);
            }
            return Ok(half - (128 - low) + half);
        }
        if half <= 64 {
            return Err(DebugFault::Unreadable);
        }
        let high = self.read_around(half / 128)?;
        Ok(low - 128 + 128 * high)
    }

    /// A signed number of 64 bits in LEB128, of at most ten bytes, in two's complement.
    pub fn read_signed(&mut self) -> Result<u64, DebugFault>
        ensures gives { MatchResult result (λ n. IsSigned 0x8000_0000_0000_0000 self.old.rest.now n self.new.rest.now)
            (λ _. Misses (IsSigned 0x8000_0000_0000_0000) self.old.rest.now) }
        ensures left { IfErr result (IsLeft self.old self.new) }
    {
        let mut ahead = Cursor { rest: self.rest };
        let number = ahead.read_around(0x8000_0000_0000_0000)?;
        self.rest = ahead.rest;
        Ok(number)
    }

    /// The bytes in front of the next zero, which is left off.
    pub fn read_string(&mut self) -> Result<&'a [u8], DebugFault>
        ensures gives { MatchResult result (λ string. IsString self.old.rest.now string.now self.new.rest.now)
            (λ _. HasNoZero self.old.rest.now) }
        ensures left { IfErr result (IsLeft self.old self.new) }
    {
        let Some(len) = zero_in(self.rest) else {
            return Err(DebugFault::Unreadable);
        };
        let string = &self.rest[..len];
        self.rest = &self.rest[len + 1..];
        Ok(string)
    }
}

/// The string at an offset of a section, where its zero is among the next bytes, so many.
pub fn string_at(section: &[u8], offset: u64, most: usize) -> Result<&[u8], DebugFault>
    ensures { let bytes = near section.now offset most in
        MatchResult result (λ string. HasZero bytes × (string.now ≡ before_first is_zero bytes)) (λ _. HasNoZero bytes) }
{
    let offset = usize::try_from(offset).map_err(|_| DebugFault::Unreadable)?;
    let behind = section.get(offset..).ok_or(DebugFault::Unreadable)?;
    Cursor::new(&behind[..behind.len().min(most)]).read_string()
}
