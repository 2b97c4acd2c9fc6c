//! Numbers in LEB128 (Core specification 1.0, section 5.2.2).

ghost use Rattle.std.specs.Prelude.{◌≡◌, ◌*◌, ◌^◌, ◌<◌, ◌≤◌, IfOk};
ghost use Rattle.binary_wire.specs.Grammar.{IsPower, IsTop};
ghost use Rattle.binary_wire.specs.Reading.{GivesNext, unsigned_at, signed_at, s32_at, s64_at, u32_at, u32_within_at};
ghost use Rattle.binary_wire.specs.Faults.{refusal};
ghost use Rattle.binary_wire.specs.declared.fault.Fault.TheVariants as kinds;

use crate::fault::{Fault, Refusal};
use crate::reader::Reader;

fn number_fault(first: usize) -> Refusal
    ensures { result ≡ refusal kinds.Number first }
{
    Refusal {
        kind: Fault::Number,
        offset: first,
    }
}

impl<'a> Reader<'a> {
    /// What is left of an unsigned number up to `top` whose first byte is at `first`.
    #[tactic(auto, unfolding(crate::specs::Reading::unsigned_at))]
    fn read_unsigned(&mut self, top: u64, first: usize) -> Result<u64, Refusal>
        requires { IsTop top }
        ensures gives { GivesNext (unsigned_at top first) self.old self.new result }
        ensures keeps { self.new.bounds ≡ self.old.bounds }
        ensures fits { IfOk result (λ n. n ≤ top) }
    {
        let low = u64::from(self.read_byte()?);
        if low < 128 {
            if low > top {
                return Err(number_fault(first));
            }
            return Ok(low);
        }
        if top <= 127 {
            return Err(number_fault(first));
        }
        let high = self.read_unsigned(top / 128, first)?;
        Ok(low - 128 + 128 * high)
    }

    /// What is left of a signed number in two's complement, below twice `half`, whose first byte is at `first`.
    #[tactic(auto, unfolding(crate::specs::Reading::signed_at))]
    fn read_signed(&mut self, half: u64, first: usize) -> Result<u64, Refusal>
        requires power { IsPower half }
        requires most { half ≤ 2 ^ 63 }
        ensures gives { GivesNext (signed_at half first) self.old self.new result }
        ensures keeps { self.new.bounds ≡ self.old.bounds }
        ensures fits { IfOk result (λ n. n < 2 * half) }
    {
        let low = u64::from(self.read_byte()?);
        if low < 64 {
            if low >= half {
                return Err(number_fault(first));
            }
            return Ok(low);
        }
        if low < 128 {
            if low + half < 128 {
                return Err(number_fault(first));
            }
            return Ok(half - (128 - low) + half);
        }
        if half <= 64 {
            return Err(number_fault(first));
        }
        let high = self.read_signed(half / 128, first)?;
        Ok(low - 128 + 128 * high)
    }

    /// An unsigned number of 32 bits.
    pub fn read_u32(&mut self) -> Result<u32, Refusal>
        ensures gives { GivesNext u32_at self.old self.new result }
        ensures keeps { self.new.bounds ≡ self.old.bounds }
    {
        let first = self.offset();
        let n = self.read_unsigned(0xffff_ffff, first)?;
        Ok(n as u32)
    }

    /// An unsigned number of 32 bits that is no more than a limit.
    #[tactic(auto, unfolding(crate::specs::Reading::u32_within_at))]
    pub fn read_u32_within(&mut self, limit: u32) -> Result<u32, Refusal>
        ensures gives { GivesNext (u32_within_at limit) self.old self.new result }
        ensures keeps { self.new.bounds ≡ self.old.bounds }
        ensures fits { IfOk result (λ n. n ≤ limit) }
    {
        let first = self.offset();
        let n = self.read_u32()?;
        if n > limit {
            return Err(Refusal {
                kind: Fault::Limit,
                offset: first,
            });
        }
        Ok(n)
    }

    /// A signed number of 32 bits, in two's complement.
    pub fn read_s32(&mut self) -> Result<u32, Refusal>
        ensures gives { GivesNext s32_at self.old self.new result }
        ensures keeps { self.new.bounds ≡ self.old.bounds }
    {
        let first = self.offset();
        let n = self.read_signed(0x8000_0000, first)?;
        Ok(n as u32)
    }

    /// A signed number of 64 bits, in two's complement.
    pub fn read_s64(&mut self) -> Result<u64, Refusal>
        ensures gives { GivesNext s64_at self.old self.new result }
        ensures keeps { self.new.bounds ≡ self.old.bounds }
    {
        let first = self.offset();
        self.read_signed(0x8000_0000_0000_0000, first)
    }
}
