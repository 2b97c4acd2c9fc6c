//! Tables, memories, globals and function types.

ghost use Rattle.std.specs.Prelude.{◌≡◌};
ghost use Rattle.binary_wire.specs.Reading.{GivesNext};
ghost use Rattle.binary.specs.Reading.{limits_after_at, table_at, memory_at, global_type_at, global_at, func_type_at};

use crate::kinds::{LimitsFlag, read_memory_flag, read_mutability, read_table_flag, read_tag};
use binary_instructions::{read_expression, read_val_type};
use binary_wire::{Item, ReadFault, Reader, Refusal, read_vector};
use types::{FuncType, GlobalType, Limits, MOST_ELEMENTS, MOST_PAGES, MOST_PARAMS, ValType};

/// The most parameters or results of a function type.
const PARAMS_MAX: u32 = MOST_PARAMS as u32;

/// What stands behind the flag of limits.
#[tactic(auto, unfolding(crate::specs::Reading::limits_after_at))]
fn read_limits_after(
    reader: &mut Reader,
    flag: LimitsFlag,
    most_min: u32,
    most_max: u32,
) -> Result<Limits, Refusal>
    ensures gives { GivesNext (limits_after_at most_min most_max flag) reader.old reader.new result }
    ensures keeps { reader.new.bounds ≡ reader.old.bounds }
{
    let min = reader.read_u32_within(most_min)?;
    let shared = match flag {
        LimitsFlag::Min => {
            return Ok(Limits {
                min,
                max: None,
                shared: false,
            });
        }
        LimitsFlag::MinMax => false,
        LimitsFlag::SharedMinMax => true,
    };
    let max = Some(reader.read_u32_within(most_max)?);
    Ok(Limits { min, max, shared })
}

/// A table type (Core specification 1.0, section 5.3.6).
#[tactic(auto, unfolding(crate::specs::Reading::table_at))]
pub fn read_table(reader: &mut Reader) -> Result<Limits, Refusal>
    ensures gives { GivesNext table_at reader.old reader.new result }
    ensures keeps { reader.new.bounds ≡ reader.old.bounds }
{
    read_tag(reader, 0x70)?;
    let flag = read_table_flag(reader)?;
    read_limits_after(reader, flag, MOST_ELEMENTS, u32::MAX)
}

/// A memory type (Core specification 1.0, section 5.3.5).
#[tactic(auto, unfolding(crate::specs::Reading::memory_at))]
pub fn read_memory(reader: &mut Reader) -> Result<Limits, Refusal>
    ensures gives { GivesNext memory_at reader.old reader.new result }
    ensures keeps { reader.new.bounds ≡ reader.old.bounds }
{
    let flag = read_memory_flag(reader)?;
    read_limits_after(reader, flag, MOST_PAGES, MOST_PAGES)
}

/// A global type (Core specification 1.0, section 5.3.7).
#[tactic(auto, unfolding(crate::specs::Reading::global_type_at))]
pub fn read_global_type(reader: &mut Reader) -> Result<GlobalType, Refusal>
    ensures gives { GivesNext global_type_at reader.old reader.new result }
    ensures keeps { reader.new.bounds ≡ reader.old.bounds }
{
    let val_type = read_val_type(reader)?;
    let mutable = read_mutability(reader)?;
    Ok(GlobalType { val_type, mutable })
}

/// The item of a table section.
pub struct TableItem;

impl Item for TableItem {
    type Value = Limits;

    ghost at = { table_at };

    fn read(reader: &mut Reader, _alloc: std::alloc::Global) -> Result<Limits, ReadFault> {
        Ok(read_table(reader)?)
    }
}

/// The item of a memory section.
pub struct MemoryItem;

impl Item for MemoryItem {
    type Value = Limits;

    ghost at = { memory_at };

    fn read(reader: &mut Reader, _alloc: std::alloc::Global) -> Result<Limits, ReadFault> {
        Ok(read_memory(reader)?)
    }
}

/// The item of a global section (Core specification 1.0, section 5.5.9).
pub struct GlobalItem;

impl Item for GlobalItem {
    type Value = types::Global;

    ghost at = { global_at };

    #[tactic(auto, unfolding(crate::specs::Reading::global_at))]
    fn read(reader: &mut Reader, alloc: std::alloc::Global) -> Result<types::Global, ReadFault> {
        let global_type = read_global_type(reader)?;
        let init = read_expression(reader, alloc)?;
        Ok(types::Global { global_type, init })
    }
}

/// A value type among parameters or results.
struct ValTypeItem;

impl Item for ValTypeItem {
    ghost use Rattle.binary_instructions.specs.Reading.{val_type_at};

    type Value = ValType;

    ghost at = { val_type_at };

    fn read(reader: &mut Reader, _alloc: std::alloc::Global) -> Result<ValType, ReadFault> {
        Ok(read_val_type(reader)?)
    }
}

/// The item of a type section (Core specification 1.0, section 5.3.3).
pub struct FuncTypeItem;

impl Item for FuncTypeItem {
    type Value = FuncType;

    ghost at = { func_type_at };

    #[tactic(auto, unfolding(crate::specs::Reading::func_type_at))]
    fn read(reader: &mut Reader, alloc: std::alloc::Global) -> Result<FuncType, ReadFault> {
        read_tag(reader, 0x60)?;
        let params = read_vector::<ValTypeItem>(reader, alloc, PARAMS_MAX)?;
        let results = read_vector::<ValTypeItem>(reader, alloc, PARAMS_MAX)?;
        Ok(FuncType { params, results })
    }
}
