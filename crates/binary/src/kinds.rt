//! Single bytes that have a meaning.

ghost use Rattle.std.specs.Prelude.{◌≡◌};
ghost use Rattle.binary_wire.specs.Reading.{GivesNext, PassesOver, tag_at};
ghost use Rattle.binary_wire.specs.declared.fault.Fault.TheVariants as faults;
ghost use Rattle.binary.specs.Kinds.{external_kind_of, mutability_of, memory_flag_of, table_flag_of};
ghost use Rattle.binary.specs.Reading.{coded_at, external_kind_at};

use binary_wire::{Fault, Reader, Refusal};

/// What an import or an export is (Core specification 1.0, sections 5.5.5 and 5.5.10).
#[derive(Clone, Copy)]
pub enum ExternalKind {
    Func,
    Table,
    Memory,
    Global,
}

/// What stands behind the flag of limits (Core specification 1.0, section 5.3.4; threads proposal, section "Binary
/// format").
#[derive(Clone, Copy)]
pub enum LimitsFlag {
    Min,
    MinMax,
    SharedMinMax,
}

fn external_kind(byte: u8) -> Option<ExternalKind>
    ensures { result ≡ external_kind_of byte }
{
    match byte {
        0x00 => Some(ExternalKind::Func),
        0x01 => Some(ExternalKind::Table),
        0x02 => Some(ExternalKind::Memory),
        0x03 => Some(ExternalKind::Global),
        _ => None,
    }
}

fn mutability(byte: u8) -> Option<bool>
    ensures { result ≡ mutability_of byte }
{
    match byte {
        0x00 => Some(false),
        0x01 => Some(true),
        _ => None,
    }
}

fn memory_flag(byte: u8) -> Option<LimitsFlag>
    ensures { result ≡ memory_flag_of byte }
{
    match byte {
        0x00 => Some(LimitsFlag::Min),
        0x01 => Some(LimitsFlag::MinMax),
        0x03 => Some(LimitsFlag::SharedMinMax),
        _ => None,
    }
}

fn table_flag(byte: u8) -> Option<LimitsFlag>
    ensures { result ≡ table_flag_of byte }
{
    match byte {
        0x00 => Some(LimitsFlag::Min),
        0x01 => Some(LimitsFlag::MinMax),
        _ => None,
    }
}

#[tactic(auto, unfolding(crate::specs::Reading::coded_at))]
pub fn read_external_kind(reader: &mut Reader) -> Result<ExternalKind, Refusal>
    ensures gives { GivesNext external_kind_at reader.old reader.new result }
    ensures keeps { reader.new.bounds ≡ reader.old.bounds }
{
    let wrong = reader.fault(Fault::UnknownByte);
    external_kind(reader.read_byte()?).ok_or(wrong)
}

#[tactic(auto, unfolding(crate::specs::Reading::coded_at))]
pub fn read_mutability(reader: &mut Reader) -> Result<bool, Refusal>
    ensures gives { GivesNext (coded_at faults.UnknownByte mutability_of) reader.old reader.new result }
    ensures keeps { reader.new.bounds ≡ reader.old.bounds }
{
    let wrong = reader.fault(Fault::UnknownByte);
    mutability(reader.read_byte()?).ok_or(wrong)
}

#[tactic(auto, unfolding(crate::specs::Reading::coded_at))]
pub fn read_memory_flag(reader: &mut Reader) -> Result<LimitsFlag, Refusal>
    ensures gives { GivesNext (coded_at faults.LimitsFlag memory_flag_of) reader.old reader.new result }
    ensures keeps { reader.new.bounds ≡ reader.old.bounds }
{
    let wrong = reader.fault(Fault::LimitsFlag);
    memory_flag(reader.read_byte()?).ok_or(wrong)
}

#[tactic(auto, unfolding(crate::specs::Reading::coded_at))]
pub fn read_table_flag(reader: &mut Reader) -> Result<LimitsFlag, Refusal>
    ensures gives { GivesNext (coded_at faults.LimitsFlag table_flag_of) reader.old reader.new result }
    ensures keeps { reader.new.bounds ≡ reader.old.bounds }
{
    let wrong = reader.fault(Fault::LimitsFlag);
    table_flag(reader.read_byte()?).ok_or(wrong)
}

/// A byte that has to stand there.
pub fn read_tag(reader: &mut Reader, tag: u8) -> Result<(), Refusal>
    ensures gives { PassesOver (tag_at faults.UnknownByte tag) reader.old reader.new result }
    ensures keeps { reader.new.bounds ≡ reader.old.bounds }
{
    let wrong = reader.fault(Fault::UnknownByte);
    if reader.read_byte()? != tag {
        return Err(wrong);
    }
    Ok(())
}
