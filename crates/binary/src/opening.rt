//! The bytes that open a module.

ghost use Rattle.std.specs.Prelude.{◌≡◌};
ghost use Rattle.binary_wire.specs.Reading.{PassesOver};
ghost use Rattle.binary.specs.Grammar.{opening_bytes};
ghost use Rattle.binary.specs.Reading.{fixed_at, opening_at};

use binary_wire::{Fault, Reader, Refusal};

const MAGIC: [u8; 4] = [0x00, 0x61, 0x73, 0x6d];

const VERSION: [u8; 4] = [0x01, 0x00, 0x00, 0x00];

/// Bytes that have to stand there. The fault is at the first that is another one.
#[tactic(auto, unfolding(crate::specs::Reading::fixed_at))]
fn read_fixed(reader: &mut Reader, expected: &[u8], kind: Fault) -> Result<(), Refusal>
    ensures gives { PassesOver (fixed_at kind expected.now) reader.old reader.new result }
    ensures keeps { reader.new.bounds ≡ reader.old.bounds }
{
    match expected {
        [] => Ok(()),
        [byte, more @ ..] => {
            let offset = reader.offset();
            if reader.read_byte()? != *byte {
                return Err(Refusal { kind, offset });
            }
            read_fixed(reader, more, kind)
        }
    }
}

/// The magic and the version (Core specification 1.0, section 5.5.15).
#[tactic(auto, unfolding(crate::specs::Reading::opening_at))]
pub fn read_opening(reader: &mut Reader) -> Result<(), Refusal>
    ensures gives { PassesOver opening_at reader.old reader.new result }
    ensures keeps { reader.new.bounds ≡ reader.old.bounds }
{
    read_fixed(reader, &MAGIC, Fault::Magic)?;
    read_fixed(reader, &VERSION, Fault::Version)
}
